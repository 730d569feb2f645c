// The station file: at most 1,000 clauses over at most 200 variables, and trials that can be taken back.
#![tactic(auto)]

ghost use Rattle.std.specs.Prelude.{◌<◌, ◌≤◌, length};
ghost use Rattle.station.specs.Tables.{Sound};

pub mod calls;
pub mod clauses;
pub mod clients;
pub mod entering;
pub mod questions;
pub mod reading;
#[cfg(test)]
mod tests;
pub mod trials;

use arrayvec::ArrayVec;
pub use clauses::Clauses;
use model::Decline;
pub use trials::Slip;

// The most that a file holds: variables, different literals in one clause, clauses, literals of all clauses, and trials.
pub const MOST_VARIABLES: u32 = 200;

pub const MOST_DIFFERENT: usize = 24;

pub const MOST_CLAUSES: u16 = 1000;

pub const MOST_LITERALS: usize = 8000;

pub const MOST_TRIALS: usize = 8;

// How many clauses stand, and how many literals in all.
#[derive(Clone, Copy)]
pub struct Counts {
    pub(crate) clauses: u16,
    pub(crate) literals: u16,
}

const NONE: Counts = Counts {
    clauses: 0,
    literals: 0,
};

// The literals of all clauses, clause after clause, and where each clause ends. They stay arrays beside their counts, and no vectors: the
// guard of a reading borrows the counts and nothing else, as the project asks, so the tables are written while it holds what it puts back.
#[derive(Drop)]
pub(crate) struct Tables {
    lits: [i32; 8000],
    ends: [u16; 1000],
}

// A trial (a push/pop level) is the number of clauses that stood when it was opened.
#[derive(Drop)]
pub struct StationFile {
    // 0 before any start, and no `Option`: the public `variables` answers this 0 and the plain machine has it; an `Option` would be taken apart in both.
    variables: u8,
    number: u32,
    tables: Tables,
    counts: Counts,
    marks: ArrayVec<u16, MOST_TRIALS>,
    ghost few_variables: { variables ≤ 200 },
    ghost few_trials: { length marks.items ≤ 8 },
    ghost sound: { Sound variables tables counts },
}

// A trial that stands: the number of its file, and its depth, from 1.
#[derive(Clone, Copy)]
pub(crate) struct Held {
    file: u32,
    depth: usize,
    ghost standing: { 0 < depth },
}

// The clause in hand for a file of so many variables: its different literals, or why literals such as those are declined.
#[derive(Drop)]
pub(crate) struct Hand {
    variables: u8,
    clause: Result<ArrayVec<i32, MOST_DIFFERENT>, Decline>,
}
