ghost use Rattle.std.specs.Prelude.{◌≡◌, ◌≤◌, [], ◌∷◌, ◌++◌, length, drop};
ghost use Rattle.model.specs.Settling.{noted};
ghost use Rattle.records.specs.Line.{lines};

use super::Record;
use super::lines::Lines;
use super::silent::Silent;
use super::table::Table;
use model::{Decline, Reference, Step};
use std::test::Fail;

// Proved once for every record: it is as the two steps leave it, as far as it takes them.
fn put_two<R: Record>(steps: &mut R, first: Step, second: Step) -> Result<(), Decline>
    ensures tied { R.Record.over steps.old steps.new }
    ensures noted { R.Record.meaning steps.new ≡ noted (R.Record.meaning steps.old) (first ∷ second ∷ []) }
{
    steps.put(first)?;
    steps.put(second)
}

// After generic code has put its lines, it is known what the lent bytes hold.
fn two_lines(bytes: &mut [u8], first: Step, second: Step)
    requires { 56 ≤ length bytes.old }
    ensures { bytes.new ≡ lines (first ∷ second ∷ []) ++ drop 56 bytes.old }
{
    let mut steps = Lines::new(bytes);
    let _ = put_two(&mut steps, first, second);
}

fn first() -> Step {
    Step {
        left: Reference::R(3),
        right: Reference::S(4_294_967_295),
        variable: 200,
    }
}

fn second() -> Step {
    Step {
        left: Reference::S(1),
        right: Reference::R(20),
        variable: 7,
    }
}

#[test]
fn a_table(rt: HostRuntime) {
    let mut places = [first(); 3];
    let mut table = Table::new(&mut places);
    assert_eq!(rt; table.left(), Some(3));
    assert_eq!(rt; put_two(&mut table, first(), second()), Ok(()));
    assert_eq!(rt; table.look(2), Some(second()));
    assert_eq!(rt; table.count(), 2);
    assert_eq!(rt; table.left(), Some(1));
    assert_eq!(rt; table.look(0), None);
    assert_eq!(rt; table.look(3), None);
}

#[test]
fn no_places(rt: HostRuntime) {
    let mut table = Table::new(&mut []);
    assert_eq!(rt; table.put(first()), Err(Decline::RecordFull));
    assert_eq!(rt; table.count(), 0);
}

#[test]
fn a_line(rt: HostRuntime) {
    let mut bytes = [0; 28];
    let mut lines = Lines::new(&mut bytes);
    assert_eq!(rt;
        put_two(&mut lines, first(), second()),
        Err(Decline::RecordFull)
    );
    assert_eq!(rt; lines.text(), b"R0000000003 S4294967295 200\n".as_slice());
    assert_eq!(rt; lines.look(1), Some(first()));
}

#[test]
fn too_short_for_a_line(rt: HostRuntime) {
    let mut bytes = [0; 27];
    let mut lines = Lines::new(&mut bytes);
    assert_eq!(rt; lines.left(), Some(0));
    assert_eq!(rt; lines.put(first()), Err(Decline::RecordFull));
    assert_eq!(rt; lines.text(), b"".as_slice());
}

#[test]
fn a_silent_record(rt: HostRuntime) {
    let mut silent = Silent;
    assert_eq!(rt; put_two(&mut silent, first(), second()), Ok(()));
    assert_eq!(rt; silent.look(2), None);
    assert_eq!(rt; silent.left(), None);
    assert_eq!(rt; silent.count(), 0);
}

// However much memory is lent.
#[test]
fn at_most_65535_steps(rt: HostRuntime) -> Result<(), Fail> {
    let heap = rt.alloc();
    let mut enough = vec![in heap; first(); 65_535]?;
    assert_eq!(rt; Table::new(&mut enough).left(), Some(65_535));
    let mut more = vec![in heap; first(); 65_536]?;
    assert_eq!(rt; Table::new(&mut more).left(), Some(65_535));
    let mut bytes = vec![in heap; 0u8; 1_835_008]?;
    assert_eq!(rt; Lines::new(&mut bytes).left(), Some(65_535));
    Ok(())
}
