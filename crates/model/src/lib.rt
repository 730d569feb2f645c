// The vocabulary of the library: what every crate above names, and, in specs/, what it all means.
#![tactic(auto)]

pub mod declines;
pub mod faults;
pub mod theorems;

// A clause or a resolution step, by its number from 1: R for a clause (a rule) of the file, S for a step.
#[derive(Clone, Copy, PartialEq, Eq, Debug)]
pub enum Reference {
    R(u32),
    S(u32),
}

// A resolution step on a variable: `left` has it on, `right` has it off.
#[derive(Clone, Copy, PartialEq, Eq, Debug)]
pub struct Step {
    pub left: Reference,
    pub right: Reference,
    pub variable: u8,
}

// What settling a file answers: a valuation (a fit-out) satisfies every clause, or none does, by the step or clause named.
#[derive(Clone, Copy, PartialEq, Eq, Debug)]
pub enum Answer {
    Fits,
    Cannot(Reference),
}

// Why a call is declined, a case for each number. Where a step of an argument is at fault, its number from 1 comes with it.
#[derive(Clone, Copy, PartialEq, Eq, Debug)]
pub enum Decline {
    BadSize,
    TrialStands,
    NotStarted,
    BadLiteral,
    WideClause,
    ClausesFull,
    LiteralsFull,
    SlipFilled,
    TrialsFull,
    SlipBlank,
    OtherFile,
    NotLatest,
    OtherSize,
    FewPlaces,
    RecordUsed,
    FewClausePlaces,
    NamesNothing(usize),
    LacksVariable(usize),
    NotClosing,
    ShortBuffer,
    RecordFull,
}

// The counts of a text's problem line.
#[derive(Clone, Copy, PartialEq, Eq, Debug)]
pub struct ProblemLine {
    pub variables: u32,
    pub clauses: u32,
}

// A place in a text is the number of bytes before it.

// A word that is no number.
#[derive(Clone, Copy, PartialEq, Eq, Debug)]
pub struct WordFault {
    pub place: usize,
}

// What is wrong with a text whatever the file holds: a word; the problem line is missing, repeated or malformed; its variable count
// is not the file's; the text ends inside a clause, or its clauses are not as many as that line says.
#[derive(Clone, Copy, PartialEq, Eq, Debug)]
pub enum TextFault {
    InWord(WordFault),
    Problem(usize),
    Variables(usize),
    Clauses(usize),
}

// The file's own decline, at the 0 of the clause that it declines.
#[derive(Clone, Copy, PartialEq, Eq, Debug)]
pub struct FileFault {
    pub place: usize,
    pub decline: Decline,
}

// Why a text is not read.
#[derive(Clone, Copy, PartialEq, Eq, Debug)]
pub enum ReadFault {
    InText(TextFault),
    InFile(FileFault),
}

// Which layer of reading found a fault.
#[derive(Clone, Copy, PartialEq, Eq, Debug)]
pub enum Layer {
    Word,
    Text,
    File,
}
