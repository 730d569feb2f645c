// What is printed of small cabinets and spoilt texts.
use super::{NotSettled, report, report_with_line};
use std::process::Abort;
use std::test::Fail;

// What a report gave: these lines, or a decline in these.
fn prints(
    rt: &impl Abort,
    given: Result<String, NotSettled>,
    expected: Result<&str, &str>,
) -> Result<(), Fail> {
    let printed = match &given {
        Ok(lines) => Ok(lines.as_str()),
        Err(NotSettled::Declined(lines)) => Err(lines.as_str()),
        Err(NotSettled::Memory(e)) => return Err(Fail::from(*e)),
    };
    assert_eq!(rt; printed, expected);
    Ok(())
}

#[test]
fn cabinets_that_fit(rt: HostRuntime) -> Result<(), Fail> {
    let heap = rt.alloc();
    prints(
        &rt,
        report(heap, b"p cnf 1 0\n"),
        Ok("c 0 rules over 1 options, 10 bytes read\nc 0 steps\nfits\nv -1 0\n"),
    )?;
    prints(
        &rt,
        report(heap, b"p cnf 4 5\n1 2 0\n-1 -2 0\n-1 3 0\n-3 2 0\n3 4 0\n"),
        Ok("c 5 rules over 4 options, 44 bytes read\nc 2 steps\nfits\nv -1 2 3 -4 0\n"),
    )
}

#[test]
fn cabinets_that_cannot(rt: HostRuntime) -> Result<(), Fail> {
    let heap = rt.alloc();
    prints(
        &rt,
        report(heap, b"p cnf 1 2\n1 0\n-1 0\n"),
        Ok(
            "c 2 rules over 1 options, 19 bytes read\nc 1 steps\ncannot S0000000001\nR0000000001 R0000000002 001\n",
        ),
    )?;
    prints(
        &rt,
        report(heap, b"p cnf 1 1\n0\n"),
        Ok("c 1 rules over 1 options, 12 bytes read\nc 0 steps\ncannot R0000000001\n"),
    )?;
    prints(
        &rt,
        report(heap, b"p cnf 2 4\n1 2 0\n1 -2 0\n-1 2 0\n-1 -2 0\n"),
        Ok(
            "c 4 rules over 2 options, 38 bytes read\nc 3 steps\ncannot S0000000003\nR0000000003 R0000000004 002\nR0000000001 R0000000002 002\nS0000000002 S0000000001 001\n",
        ),
    )
}

#[test]
fn spoilt_texts(rt: HostRuntime) -> Result<(), Fail> {
    let heap = rt.alloc();
    prints(
        &rt,
        report(heap, b""),
        Err("declined 21 at byte 0 (text): the problem line is missing, repeated or malformed\n"),
    )?;
    prints(
        &rt,
        report(heap, b"p cnf 201 0\n"),
        Err("declined 1 at byte 0 (file): a file has 1 to 200 options\n"),
    )?;
    prints(
        &rt,
        report(heap, b"p cnf 2 1\n1 x 0\n"),
        Err("declined 20 at byte 12 (word): this word is no number\n"),
    )?;
    prints(
        &rt,
        report(heap, b"p cnf 2 1\n1 3 0\n"),
        Err("declined 4 at byte 14 (file): a rule names an option that the file does not have\n"),
    )?;
    prints(
        &rt,
        report(heap, b"p cnf 2 2\n1 2 0\n"),
        Err(
            "declined 23 at byte 16 (text): the text ends inside a rule, or has another number of rules than it says\n",
        ),
    )
}

#[test]
fn spoilt_texts_with_their_lines(rt: HostRuntime) -> Result<(), Fail> {
    let heap = rt.alloc();
    prints(
        &rt,
        report_with_line(heap, b""),
        Err(
            "declined 21 at byte 0 (text): the problem line is missing, repeated or malformed\nc line 1, column 1\nc   \nc   ^\n",
        ),
    )?;
    prints(
        &rt,
        report_with_line(heap, b"p cnf 201 0\n"),
        Err("declined 1 at byte 0 (file): a file has 1 to 200 options\n"),
    )?;
    prints(
        &rt,
        report_with_line(heap, b"p cnf 2 1\n1 x 0\n"),
        Err(
            "declined 20 at byte 12 (word): this word is no number\nc line 2, column 3\nc   1 x 0\nc     ^\n",
        ),
    )?;
    prints(
        &rt,
        report_with_line(heap, b"p cnf 2 1\n1 3 0\n"),
        Err(
            "declined 4 at byte 14 (file): a rule names an option that the file does not have\nc line 2, column 5\nc   1 3 0\nc       ^\n",
        ),
    )?;
    prints(
        &rt,
        report_with_line(heap, b"p cnf 2 2\n1 2 0\n"),
        Err(
            "declined 23 at byte 16 (text): the text ends inside a rule, or has another number of rules than it says\nc line 3, column 1\nc   \nc   ^\n",
        ),
    )
}

#[test]
fn long_lines_and_odd_bytes(rt: HostRuntime) -> Result<(), Fail> {
    let heap = rt.alloc();
    prints(
        &rt,
        report_with_line(heap, b"c\xc3\xa4\np cnf 2 1\n\t\xff 0"),
        Err(
            "declined 20 at byte 15 (word): this word is no number\nc line 3, column 2\nc   ?? 0\nc    ^\n",
        ),
    )?;
    prints(
        &rt,
        report_with_line(
            heap,
            b"p cnf 3 1\n1 -2 1 -2 1 -2 1 -2 1 -2 1 -2 1 -2 1 -2 1 -2 1 -2 1 -2 1 -2 1 -2 1 -2 1 -2 1 -2 1 -2 1 -2 1 -2 1 -2 y 3 3 3 3 3 3 3 3 3 3 3 3 3 3 3 3 3 3 3 3 3 3 3 3 3 3 3 3 3 3 3 3 3 3 3 3 3 3 3 3 3 3 3 3 3 3 3 3 3 3 3 3 3 3 3 3 3 3 3 3 \n",
        ),
        Err(
            "declined 20 at byte 110 (word): this word is no number\nc line 2, column 101\nc   1 -2 1 -2 1 -2 1 -2 1 -2 1 -2 1 -2 1 -2 1 -2 1 -2 1 -2 1 -2 y 3 3 3 3 3 3 3 3 3 3 3 3 3 3 3 3 3 3 3 3 3 3 3 3 3 3 3 3 3 \nc                                                               ^\n",
        ),
    )
}
