// Calls that are tried and taken back.
ghost use Rattle.std.specs.Prelude.{vec_items};
ghost use Rattle.station.specs.Views.{machine};
ghost use Rattle.replay.specs.Desks.{Kept, RehearsedAt};

use super::replaying::replay;
use super::{Call, Desk, NotRehearsed, Reply};
use orders::Order;
use records::Record;
use station::{Slip, StationFile};
use std::alloc::Global;

// Makes the calls in a trial of their own and closes it, so that the file is left as it was; replies, records and sheet tell how it went. The calls have
// no slips, so that those which open or close a trial are not made.
pub fn rehearse<O: Order, R: Record>(
    heap: Global,
    file: &mut StationFile,
    desk: &mut Desk<'_, O, R>,
    calls: &[Call],
) -> Result<Vec<Reply>, NotRehearsed>
    ensures kept { Kept desk.old desk.new }
    ensures rehearsed { RehearsedAt O.Order.meaning R.Record.meaning desk.old desk.new vec_items calls.now result
        (machine file.old) (machine file.new) }
{
    let mut slip = Slip::blank();
    file.open(&mut slip)?;
    let replies = replay(heap, file, &mut [], desk, calls);
    let _ = file.close(&mut slip);
    Ok(replies?)
}
