// All calls of a life.
ghost use Rattle.std.specs.Prelude.{vec_items};
ghost use Rattle.station.specs.Views.{machine};
ghost use Rattle.replay.specs.Desks.{Kept, RepliedAt};

use super::calls::make;
use super::{Call, Desk, Reply};
use orders::Order;
use records::Record;
use station::{Slip, StationFile};
use std::alloc::{AllocError, Global};

// Makes the calls in turn, and gives the reply to each. Where memory for the replies is wanting, no call is made.
pub fn replay<O: Order, R: Record>(
    heap: Global,
    file: &mut StationFile,
    slips: &mut [Slip],
    desk: &mut Desk<'_, O, R>,
    calls: &[Call],
) -> Result<Vec<Reply>, AllocError>
    ensures kept { Kept desk.old desk.new }
    ensures replied { RepliedAt O.Order.meaning R.Record.meaning desk.old desk.new vec_items calls.now result
        (machine file.old) slips.old (machine file.new) slips.new }
{
    let mut replies = Vec::with_capacity(heap, calls.len())?;
    for call in calls {
        replies.push(make(file, slips, desk, *call)).unwrap();
    }
    Ok(replies)
}
