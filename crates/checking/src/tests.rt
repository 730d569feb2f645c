// Arguments that stand, and arguments spoilt by hand in each way.
use clauses::LiteralSet;
use model::Reference::{R, S};
use model::{Decline, Reference, Step};
use records::Record;
use records::silent::Silent;
use records::table::Table;
use station::StationFile;

const FOUR: &[u8] = b"p cnf 2 4\n1 2 0\n1 -2 0\n-1 2 0\n-1 -2 0\n";

fn step(left: Reference, right: Reference, variable: u8) -> Step {
    Step {
        left,
        right,
        variable,
    }
}

// A file of so many variables with the clauses of a text.
fn file_of(variables: u32, text: &[u8]) -> StationFile {
    let mut file = StationFile::new();
    let _ = file.start(variables, 7);
    let _ = file.read(text);
    file
}

// What checking answers to a table of these steps, in so many places, which hold what they happen to hold.
fn answer(
    file: &StationFile,
    steps: &[Step],
    closing: Reference,
    places: usize,
) -> Result<(), Decline> {
    let mut kept = [step(R(0), R(0), 0); 8];
    let mut table = Table::new(&mut kept);
    for s in steps {
        table.put(*s)?;
    }
    let mut memory = [LiteralSet::of(&[1, -2]); 8];
    super::check(file, &table, closing, &mut memory[..places.min(8)])
}

// The argument of the four clauses.
fn whole() -> [Step; 3] {
    [
        step(R(3), R(4), 2),
        step(R(1), R(2), 2),
        step(S(2), S(1), 1),
    ]
}

// What is answered to the argument of the four clauses with another step numbered j.
fn spoilt(j: usize, by: Step) -> Result<(), Decline> {
    let mut steps = whole();
    if (1..=steps.len()).contains(&j) {
        steps[j - 1] = by;
    }
    answer(&file_of(2, FOUR), &steps, S(3), 3)
}

#[test]
fn arguments(rt: HostRuntime) {
    assert_eq!(rt;
        answer(
            &file_of(1, b"p cnf 1 2\n1 0 -1 0"),
            &[step(R(1), R(2), 1)],
            S(1),
            1
        ),
        Ok(())
    );
    assert_eq!(rt; answer(&file_of(2, FOUR), &whole(), S(3), 3), Ok(()));
    let six = file_of(4, b"p cnf 4 6\n1 2 0 -1 -2 0 -1 3 0 -3 2 0 3 4 0 1 -2 0");
    assert_eq!(rt;
        answer(
            &six,
            &[
                step(R(3), R(4), 3),
                step(S(1), R(2), 2),
                step(R(1), R(6), 2),
                step(S(3), S(2), 1)
            ],
            S(4),
            8
        ),
        Ok(())
    );
}

#[test]
fn references_that_name_nothing(rt: HostRuntime) {
    for (j, by) in [
        (1, step(R(5), R(4), 2)),
        (1, step(R(0), R(4), 2)),
        (1, step(R(3), S(0), 2)),
        (2, step(S(2), R(2), 2)),
        (2, step(R(1), S(3), 2)),
        (3, step(R(4_294_967_295), S(1), 1)),
        (3, step(S(2), S(4_294_967_295), 1)),
        (3, step(S(2), S(4), 255)),
    ] {
        assert_eq!(rt; spoilt(j, by), Err(Decline::NamesNothing(j)));
    }
}

#[test]
fn clauses_that_lack_the_variable(rt: HostRuntime) {
    for (j, by) in [
        (1, step(R(3), R(4), 0)),
        (1, step(R(3), R(4), 255)),
        (2, step(R(3), R(4), 1)),
        (2, step(R(1), R(2), 1)),
        (3, step(S(1), S(2), 1)),
        (3, step(S(2), R(2), 1)),
    ] {
        assert_eq!(rt; spoilt(j, by), Err(Decline::LacksVariable(j)));
    }
}

#[test]
fn closings_that_do_not_close(rt: HostRuntime) {
    let four = file_of(2, FOUR);
    for closing in [S(1), S(4), S(0), R(0), R(4), R(5)] {
        assert_eq!(rt;
            answer(&four, &whole(), closing, 3),
            Err(Decline::NotClosing)
        );
    }
    assert_eq!(rt; spoilt(3, step(R(3), R(2), 2)), Err(Decline::NotClosing));
}

#[test]
fn places_and_starts(rt: HostRuntime) {
    let four = file_of(2, FOUR);
    assert_eq!(rt;
        answer(&four, &whole(), S(3), 2),
        Err(Decline::FewClausePlaces)
    );
    assert_eq!(rt; answer(&four, &whole(), S(3), 4), Ok(()));
    assert_eq!(rt;
        answer(&StationFile::new(), &whole(), S(3), 2),
        Err(Decline::NotStarted)
    );
}

#[test]
fn without_steps(rt: HostRuntime) {
    let file = file_of(1, b"p cnf 1 2\n0\n1 0");
    assert_eq!(rt; super::check(&file, &Silent, R(1), &mut []), Ok(()));
    assert_eq!(rt;
        super::check(&file, &Silent, R(2), &mut []),
        Err(Decline::NotClosing)
    );
    assert_eq!(rt;
        super::check(&file, &Silent, S(1), &mut []),
        Err(Decline::NotClosing)
    );
}
