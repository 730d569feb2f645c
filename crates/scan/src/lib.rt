// How the clauses of a file stand at a setting: the test of one clause, and the scan of them all.
#![tactic(auto)]

pub mod scans;
pub mod settings;
pub mod tests;

use clauses::Literal;

// How one clause stands: every literal false; one unset and the others false; some true; or none of these.
#[derive(Clone, Copy)]
pub enum Test {
    AllFalse,
    Unit(Literal),
    SomeTrue,
    Open,
}

// How the clauses stand: the first false one, by its number; else the first that forces a literal; else every one true; or none of these.
#[derive(Clone, Copy)]
pub enum Scan {
    Conflict(u32),
    Forced(u32, Literal),
    Satisfied,
    Undecided,
}
