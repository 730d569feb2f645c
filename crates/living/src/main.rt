// Lives of a file, replayed call by call.
#![tactic(auto)]

use anyhow::ensure;
use orders::by_number::ByNumber;
use records::silent::Silent;
use replay::rehearsing::rehearse;
use replay::replaying::replay;
use replay::{Call, Desk, Reply};
use search::{Frame, Mark};
use station::StationFile;

fn print_replies(rt: &HostRuntime, name: &str, replies: &[Reply]) -> anyhow::Result<()> {
    println!(rt; "{name}")?;
    for reply in replies {
        println!(rt; "{reply:?}")?;
    }
    Ok(())
}

// Two rules are entered and settled, two more are rehearsed and taken back, and the file settles as before. Declined calls and calls that name what is not
// there are part of it.
fn live(rt: &HostRuntime) -> anyhow::Result<()> {
    let mut file = StationFile::new();
    ensure!(file.start(2, 7).is_ok(), "the start was declined");
    let order = ByNumber::new(2);
    let mut records = [Silent, Silent];
    let mut sheet = [9u8, 9, 9];
    let mut trail = [Mark::blank(), Mark::blank()];
    let mut frames = [Frame::blank(), Frame::blank()];
    let mut desk = Desk {
        order: &order,
        records: &mut records,
        sheet: &mut sheet,
        trail: &mut trail,
        frames: &mut frames,
    };
    let entered = [
        Call::Enter(&[1, 2]),
        Call::Enter(&[1, -2]),
        Call::Enter(&[3]),
        Call::Settle(0),
    ];
    let replies = replay(rt.alloc(), &mut file, &mut [], &mut desk, &entered)?;
    print_replies(rt, "a life: two rules, one declined, settled", &replies)?;
    let tried = [
        Call::Read(b"p cnf 2 2\n-1 2 0\n-1 -2 0\n"),
        Call::Settle(1),
        Call::Close(0),
        Call::Settle(2),
    ];
    let replies = rehearse(rt.alloc(), &mut file, &mut desk, &tried)?;
    print_replies(rt, "two more, rehearsed", &replies)?;
    let again = [
        Call::Settle(0),
        Call::Read(b"p cnf 2 1\n1 x\n"),
        Call::Enter(&[2, 2, 2]),
    ];
    let replies = replay(rt.alloc(), &mut file, &mut [], &mut desk, &again)?;
    print_replies(rt, "and after it, as before", &replies)?;
    println!(rt; "the sheet {sheet:?}")?;
    Ok(())
}

fn main(rt: HostRuntime) -> anyhow::Result<()> {
    live(&rt)
}
