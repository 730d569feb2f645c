// Spoilt words and lines, each with its fault and place.
use super::problems::variables_of;
use super::{Numeral, Reader};
use model::{TextFault, WordFault};
use std::process::Abort;

fn bad_word(place: usize) -> TextFault {
    TextFault::InWord(WordFault { place })
}

// What a text for 2 variables has as its problem line.
fn heads(rt: &impl Abort, text: &[u8], answer: Result<Option<u32>, TextFault>) {
    assert_eq!(rt; Reader::over(text).heading(2), answer);
}

// What comes first after it.
fn goes_on(rt: &impl Abort, text: &[u8], answer: Result<Option<Numeral>, TextFault>) {
    let mut reader = Reader::over(text);
    assert!(rt; reader.heading(2).is_ok());
    assert_eq!(rt; reader.number(), answer);
}

fn takes(rt: &impl Abort, text: &[u8], answer: Option<u32>) {
    assert_eq!(rt; variables_of(text), answer);
}

#[test]
fn problem_lines(rt: HostRuntime) {
    heads(
        &rt,
        b"c a p\n\n\t\r\nc\np\tcnf  002 000007\r\n9",
        Ok(Some(7)),
    );
    heads(&rt, b"c p cnf 2 1\n", Ok(None));
    heads(&rt, b"c\np cnf 3 1", Err(TextFault::Variables(2)));
    heads(&rt, b"c\np cnf 2", Err(TextFault::Problem(2)));
    heads(&rt, b"p cnf 2 1 0", Err(TextFault::Problem(0)));
    heads(&rt, b"p dnf 2 1", Err(TextFault::Problem(0)));
    heads(&rt, b"pcnf 2 1", Err(TextFault::Problem(0)));
    heads(&rt, b"p cnf 2 -1", Err(TextFault::Problem(0)));
    heads(&rt, b"p cnf 2 1000000", Err(TextFault::Problem(0)));
}

#[test]
fn before_the_problem_line(rt: HostRuntime) {
    heads(&rt, b"\n 7\np cnf 2 1", Err(TextFault::Problem(2)));
    heads(&rt, b" p cnf 2 1", Err(bad_word(1)));
    heads(&rt, b"\n c\n", Err(bad_word(2)));
}

#[test]
fn after_the_problem_line(rt: HostRuntime) {
    goes_on(
        &rt,
        b"p cnf 2 1\n \n-007",
        Ok(Some(Numeral {
            place: 12,
            value: -7,
        })),
    );
    goes_on(
        &rt,
        b"p cnf 2 1\n999999",
        Ok(Some(Numeral {
            place: 10,
            value: 999999,
        })),
    );
    goes_on(&rt, b"p cnf 2 1\n\n", Ok(None));
    goes_on(&rt, b"p cnf 2 1\n\np cnf 2 1", Err(TextFault::Problem(11)));
    goes_on(&rt, b"p cnf 2 1\nc 7", Err(bad_word(10)));
}

#[test]
fn words_that_are_no_numbers(rt: HostRuntime) {
    goes_on(&rt, b"p cnf 2 1\n -0", Err(bad_word(11)));
    goes_on(&rt, b"p cnf 2 1\n-", Err(bad_word(10)));
    goes_on(&rt, b"p cnf 2 1\n+1", Err(bad_word(10)));
    goes_on(&rt, b"p cnf 2 1\n 1x", Err(bad_word(11)));
    goes_on(&rt, b"p cnf 2 1\n0000001", Err(bad_word(10)));
    goes_on(&rt, b"p cnf 2 1\n-1234567", Err(bad_word(10)));
}

#[test]
fn variable_counts(rt: HostRuntime) {
    takes(&rt, b"x 1 c\nc\np cnf 12 5\np cnf 13 5", Some(12));
    takes(&rt, b"p cnf\np cnf 13 5", None);
    takes(&rt, b"1 2 0", None);
}
