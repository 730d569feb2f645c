// The limits of a file, at the edge and one past it, trials taken back, and texts read or refused.
use super::{StationFile, clients};
use model::{Decline, Layer};
use std::process::Abort;
use std::test::Fail;

fn started(variables: u32) -> StationFile {
    let mut file = StationFile::new();
    let _ = file.start(variables, 7);
    file
}

// The literals 1 to 25.
fn counted() -> [i32; 25] {
    let mut literals = [0; 25];
    for (t, k) in literals.iter_mut().zip(1..) {
        *t = k;
    }
    literals
}

// Enters the same clause so many times, or stops at the first decline.
fn repeated(file: &mut StationFile, literals: &[i32], times: u32) -> Result<(), Decline> {
    for _ in 0..times {
        file.enter(literals)?;
    }
    Ok(())
}

#[test]
fn equal_literals_merge(rt: HostRuntime) {
    let mut file = started(5);
    assert_eq!(rt; file.enter(&[5, 5, -5]), Ok(1));
    assert!(rt; file.show(1) == Some([5, -5].as_slice()));
    assert!(rt; file.show(0).is_none());
    assert!(rt; file.show(2).is_none());
}

#[test]
fn clauses_in_their_order(rt: HostRuntime) {
    let mut file = started(2);
    assert!(rt; file.iter().next().is_none());
    assert_eq!(rt; file.enter(&[1, -2]), Ok(1));
    assert_eq!(rt; file.enter(&[]), Ok(2));
    assert_eq!(rt; file.enter(&[2]), Ok(3));
    let mut clauses = file.iter();
    assert!(rt; clauses.next() == Some([1, -2].as_slice()));
    assert!(rt; clauses.next() == Some([].as_slice()));
    assert!(rt; clauses.next() == Some([2].as_slice()));
    assert!(rt; clauses.next().is_none());
}

#[test]
fn sizes_at_the_edge(rt: HostRuntime) {
    let mut file = StationFile::new();
    assert_eq!(rt; file.enter(&[1]), Err(Decline::NotStarted));
    assert_eq!(rt; file.start(0, 1), Err(Decline::BadSize));
    assert_eq!(rt; file.start(201, 1), Err(Decline::BadSize));
    assert_eq!(rt; file.start(200, 1), Ok(()));
    assert_eq!(rt; file.variables(), 200);
    assert_eq!(rt; file.enter(&[200, -200]), Ok(1));
    assert_eq!(rt; file.enter(&[-2147483648]), Err(Decline::BadLiteral));
    assert_eq!(rt; file.enter(&[1, 0]), Err(Decline::BadLiteral));
    assert_eq!(rt; file.enter(&[201]), Err(Decline::BadLiteral));
    assert_eq!(rt; file.enter(&[-201]), Err(Decline::BadLiteral));
    let literals = counted();
    assert_eq!(rt; file.enter(&literals[0..24]), Ok(2));
    assert_eq!(rt; file.enter(&literals[0..25]), Err(Decline::WideClause));
    assert_eq!(rt; file.clauses(), 2);
}

#[test]
fn a_thousand_clauses(rt: HostRuntime) {
    let mut file = started(1);
    assert_eq!(rt; repeated(&mut file, &[1], 1000), Ok(()));
    assert_eq!(rt; file.enter(&[1]), Err(Decline::ClausesFull));
    assert_eq!(rt; file.clauses(), 1000);
}

#[test]
fn eight_thousand_literals(rt: HostRuntime) -> Result<(), Fail> {
    let mut file = started(25);
    let literals = counted();
    assert_eq!(rt; repeated(&mut file, &literals[0..20], 399), Ok(()));
    assert_eq!(rt; file.enter(&literals[0..21]), Err(Decline::LiteralsFull));
    assert_eq!(rt; clients::would_take(&mut file, &literals[0..20]), Ok(400));
    assert_eq!(rt; clients::would_take(&mut file, &literals[0..20]), Ok(400));
    assert_eq!(rt; file.enter(&literals[0..20]), Ok(400));
    assert_eq!(rt; file.enter(&[1]), Err(Decline::LiteralsFull));
    let fault = file
        .read(b"p cnf 25 1\n1 0")
        .err()
        .ok_or("the text was read")?;
    assert_eq!(rt; fault.number(), 7);
    assert_eq!(rt; fault.place(), 13);
    assert_eq!(rt; file.enter(&[]), Ok(401));
    Ok(())
}

#[test]
fn eight_trials(rt: HostRuntime) {
    let mut file = started(3);
    assert_eq!(rt; clients::spare_trials(&mut file), 8);
    assert_eq!(rt; clients::spare_trials(&mut StationFile::new()), 0);
}

#[test]
fn first_literals(rt: HostRuntime) {
    let mut file = started(3);
    assert_eq!(rt; file.enter(&[2, 3]), Ok(1));
    assert_eq!(rt; clients::enter_first(&mut file, 1), Some(Ok(2)));
    assert_eq!(rt; clients::enter_first(&mut file, 3), None);
}

// What a text does that a file of 2 variables and one clause refuses: number, place and layer of the fault, and the file as it stood.
fn refused(
    rt: &impl Abort,
    text: &[u8],
    number: u8,
    place: usize,
    layer: Layer,
) -> Result<(), Fail> {
    let mut file = started(2);
    assert_eq!(rt; file.enter(&[-1, 2]), Ok(1));
    let fault = file.read(text).err().ok_or("the text was read")?;
    assert_eq!(rt; fault.number(), number);
    assert_eq!(rt; fault.place(), place);
    assert_eq!(rt; fault.layer(), layer);
    assert_eq!(rt; file.clauses(), 1);
    assert!(rt; file.show(1) == Some([-1, 2].as_slice()));
    Ok(())
}

#[test]
fn a_text_is_read(rt: HostRuntime) {
    let mut file = started(2);
    assert_eq!(rt; file.enter(&[2]), Ok(1));
    assert_eq!(rt; file.read(b"c two\np cnf 2 2\n1 -2\n1 0 0\n"), Ok(2));
    assert_eq!(rt; file.clauses(), 3);
    assert!(rt; file.show(2) == Some([1, -2].as_slice()));
    assert!(rt; file.show(3) == Some([].as_slice()));
    assert_eq!(rt; file.read(b"p cnf 2 0"), Ok(0));
    assert_eq!(rt; file.clauses(), 3);
}

#[test]
fn a_text_before_any_start(rt: HostRuntime) -> Result<(), Fail> {
    let fault = StationFile::new()
        .read(b"x")
        .err()
        .ok_or("the text was read")?;
    assert_eq!(rt; fault.number(), 3);
    assert_eq!(rt; fault.place(), 0);
    assert_eq!(rt; fault.layer(), Layer::File);
    Ok(())
}

#[test]
fn a_late_fault_takes_all_back(rt: HostRuntime) -> Result<(), Fail> {
    refused(&rt, b"p cnf 2 3\n1 0 2 0 -1 x", 20, 21, Layer::Word)?;
    refused(&rt, b"p cnf 2 3\n1 0 2 0 3 0", 4, 20, Layer::File)
}

#[test]
fn faults_of_texts(rt: HostRuntime) -> Result<(), Fail> {
    refused(&rt, b"c", 21, 1, Layer::Text)?;
    refused(&rt, b"c\np cnf 3 1\n1 0", 22, 2, Layer::Text)?;
    refused(&rt, b"p cnf 2 2\n1 0 -2", 23, 16, Layer::Text)?;
    refused(&rt, b"p cnf 2 2\n1 0", 23, 13, Layer::Text)?;
    refused(&rt, b"p cnf 2 1\n1 0 -2 0\n", 23, 19, Layer::Text)
}

#[test]
fn words_that_are_refused(rt: HostRuntime) -> Result<(), Fail> {
    refused(&rt, b"x", 20, 0, Layer::Word)?;
    refused(&rt, b" p cnf 2 1", 20, 1, Layer::Word)?;
    refused(&rt, b"p cnf 2 1\n1 p cnf 2 1", 20, 12, Layer::Word)?;
    refused(&rt, b"p cnf 2 1\n0000001 0", 20, 10, Layer::Word)?;
    refused(&rt, b"p cnf 2 1\n1 -0", 20, 12, Layer::Word)?;
    refused(&rt, b"p cnf 2 3\n1 0 2 0 -1 x", 20, 21, Layer::Word)?;
    refused(&rt, b"p cnf 2 1\n1 0\nc", 20, 14, Layer::Word)
}

#[test]
fn texts_that_are_refused(rt: HostRuntime) -> Result<(), Fail> {
    refused(&rt, b"", 21, 0, Layer::Text)?;
    refused(&rt, b"c\n", 21, 2, Layer::Text)?;
    refused(&rt, b"1 p cnf 2 1", 21, 0, Layer::Text)?;
    refused(&rt, b"p", 21, 0, Layer::Text)?;
    refused(&rt, b"p cnf 2 0000001\n1 0", 21, 0, Layer::Text)?;
    refused(&rt, b"p cnf 2 1\n1 0\np", 21, 14, Layer::Text)?;
    refused(&rt, b"p cnf 3 1", 22, 0, Layer::Text)?;
    refused(&rt, b"c\np cnf 3 1\n1 0", 22, 2, Layer::Text)?;
    refused(&rt, b"p cnf 2 1", 23, 9, Layer::Text)?;
    refused(&rt, b"p cnf 2 2\n1 0 -2", 23, 16, Layer::Text)?;
    refused(&rt, b"p cnf 2 2\n1 0", 23, 13, Layer::Text)?;
    refused(&rt, b"p cnf 2 1\n1 0 -2 0\n", 23, 19, Layer::Text)
}

#[test]
fn clauses_that_are_refused(rt: HostRuntime) -> Result<(), Fail> {
    refused(&rt, b"p cnf 2 1\n-3 0", 4, 13, Layer::File)?;
    refused(&rt, b"p cnf 2 3\n1 0 2 0 3 0", 4, 20, Layer::File)?;
    let fault = started(25)
        .read(b"p cnf 25 1\n1 2 3 4 5 6 7 8 9 10 11 12 13 14 15 16 17 18 19 20 21 22 23 24 25 0")
        .err()
        .ok_or("the text was read")?;
    assert_eq!(rt; fault.number(), 5);
    assert_eq!(rt; fault.place(), 77);
    assert_eq!(rt; fault.layer(), Layer::File);
    Ok(())
}

// A text that a file of 2 variables takes, with so many clauses.
fn taken(rt: &impl Abort, text: &[u8], clauses: u32) {
    let mut file = started(2);
    assert_eq!(rt; file.read(text), Ok(clauses));
    assert_eq!(rt; file.clauses(), clauses);
}

#[test]
fn texts_in_any_layout(rt: HostRuntime) {
    taken(&rt, b"p cnf 2 1\n1 -2 0", 1);
    taken(
        &rt,
        b"c\r\n\t\r\n\np \t cnf  2 2 \r\n \t1 \r\n\n\n -2\t0 0\r\n \n",
        2,
    );
    taken(&rt, b"p cnf 000002 000001\n000001 -000002 000000", 1);
}

#[test]
fn a_text_that_is_too_long(rt: HostRuntime) -> Result<(), Fail> {
    let mut file = started(1);
    assert_eq!(rt; repeated(&mut file, &[1], 999), Ok(()));
    let fault = file
        .read(b"p cnf 1 2\n-1 0 -1 0")
        .err()
        .ok_or("the text was read")?;
    assert_eq!(rt; fault.number(), 6);
    assert_eq!(rt; fault.place(), 18);
    assert_eq!(rt; file.clauses(), 999);
    assert_eq!(rt; file.read(b"p cnf 1 1\n-1 0"), Ok(1));
    assert_eq!(rt; file.clauses(), 1000);
    Ok(())
}
