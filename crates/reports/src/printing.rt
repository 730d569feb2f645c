// The words and the layout of what is printed: docs/fitting.md.
use super::places::spot_of;
use model::{Decline, Layer, ReadFault, Reference, TextFault};
use std::fmt;
use std::fmt::Write;

// How much of a faulty line is shown: at most so many bytes, and at most so many of them before the fault.
const SHOWN: usize = 120;

const SHOWN_BEFORE: usize = 60;

// Why a text is not settled: a fault in reading it, or a decline of the search after all its bytes.
#[derive(Clone, Copy)]
pub(crate) enum Cause {
    Reading(ReadFault),
    Search { size: usize, decline: Decline },
}

impl Cause {
    fn number(&self) -> u8 {
        match self {
            Cause::Reading(fault) => fault.number(),
            Cause::Search { decline, .. } => decline.number(),
        }
    }

    fn place(&self) -> usize {
        match self {
            Cause::Reading(fault) => fault.place(),
            Cause::Search { size, .. } => *size,
        }
    }

    fn layer(&self) -> &'static str {
        match self {
            Cause::Search { .. } => "search",
            Cause::Reading(fault) => match fault.layer() {
                Layer::Word => "word",
                Layer::Text => "text",
                Layer::File => "file",
            },
        }
    }

    fn words(&self) -> &'static str {
        match self {
            Cause::Reading(ReadFault::InText(fault)) => words_of_fault(fault),
            Cause::Reading(ReadFault::InFile(fault)) => words_of(fault.decline),
            Cause::Search { decline, .. } => words_of(*decline),
        }
    }
}

// A few words on a fault of a text; docs/rule-texts.md has more.
fn words_of_fault(fault: &TextFault) -> &'static str {
    match fault {
        TextFault::InWord(_) => "this word is no number",
        TextFault::Problem(_) => "the problem line is missing, repeated or malformed",
        TextFault::Variables(_) => "the problem line names another option count",
        TextFault::Clauses(_) => {
            "the text ends inside a rule, or has another number of rules than it says"
        }
    }
}

// A few words on a decline; docs/declines.md has the whole list.
fn words_of(decline: Decline) -> &'static str {
    match decline {
        Decline::BadSize => "a file has 1 to 200 options",
        Decline::BadLiteral => "a rule names an option that the file does not have",
        Decline::WideClause => "a rule has more than 24 different terms",
        Decline::ClausesFull => "a file holds at most 1,000 rules",
        Decline::LiteralsFull => "a file holds at most 8,000 terms",
        Decline::RecordFull => "the argument has more than 2,000 steps",
        _ => "the call was declined",
    }
}

// The line of a decline.
impl fmt::Display for Cause {
    fn fmt<W: fmt::Write>(&self, f: &mut fmt::Formatter<W>) -> fmt::Result {
        let (number, place) = (self.number(), self.place());
        let (layer, words) = (self.layer(), self.words());
        writeln!(f, "declined {number} at byte {place} ({layer}): {words}")
    }
}

// A fault of a text, and where it stands there.
#[derive(Clone, Copy)]
pub(crate) struct Shown<'t> {
    pub(crate) text: &'t [u8],
    pub(crate) fault: ReadFault,
}

// The line of the decline, the line and the column of its place, and that line of the text with a caret below the place.
impl fmt::Display for Shown<'_> {
    fn fmt<W: fmt::Write>(&self, f: &mut fmt::Formatter<W>) -> fmt::Result {
        let place = self.fault.place();
        let cause = Cause::Reading(self.fault);
        let spot = spot_of(self.text, place);
        let (line, column) = (spot.line, spot.column);
        let before = column.saturating_sub(1).min(SHOWN_BEFORE);
        write!(f, "{cause}c line {line}, column {column}\nc   ")?;
        for b in self
            .text
            .iter()
            .skip(place.saturating_sub(before))
            .take(SHOWN)
        {
            match *b {
                10 => break,
                32..=126 => f.write_char(*b as char)?,
                _ => f.write_char('?')?,
            }
        }
        writeln!(f, "\nc   {:>before$}^", "")
    }
}

// A reference as a letter and ten digits.
#[derive(Clone, Copy)]
pub(crate) struct Numbered(pub(crate) Reference);

impl fmt::Display for Numbered {
    fn fmt<W: fmt::Write>(&self, f: &mut fmt::Formatter<W>) -> fmt::Result {
        match self.0 {
            Reference::R(k) => write!(f, "R{k:010}"),
            Reference::S(k) => write!(f, "S{k:010}"),
        }
    }
}
