// One call of a life.
ghost use Rattle.station.specs.Views.{machine};
ghost use Rattle.replay.specs.Desks.{Kept, MadeAt};

use super::{Call, Desk, Reply};
use orders::Order;
use records::Record;
use search::settling::settle;
use station::{Slip, StationFile};

// Makes one call, where what it names is there. A call is data, so that a life can be listed: a match, and no function handed in, says what it does.
pub(crate) fn make<O: Order, R: Record>(
    file: &mut StationFile,
    slips: &mut [Slip],
    desk: &mut Desk<'_, O, R>,
    call: Call,
) -> Reply
    ensures kept { Kept desk.old desk.new }
    ensures made { MadeAt O.Order.meaning R.Record.meaning desk.old desk.new call.entry result
        (machine file.old) slips.old (machine file.new) slips.new }
{
    match call {
        Call::Enter(literals) => Reply::Entered(file.enter(literals)),
        Call::Read(text) => Reply::Taken(file.read(text)),
        Call::Open(i) if i < slips.len() => Reply::Trial(file.open(&mut slips[i])),
        Call::Close(i) if i < slips.len() => Reply::Trial(file.close(&mut slips[i])),
        Call::Settle(i) if i < desk.records.len() => Reply::Settled(settle(
            file,
            desk.order,
            &mut desk.records[i],
            desk.sheet,
            desk.trail,
            desk.frames,
        )),
        Call::Open(_) | Call::Close(_) | Call::Settle(_) => Reply::Missing,
    }
}
