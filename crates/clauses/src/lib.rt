// Literals as the search holds them, and sets of literals: a clause in any order, with nothing twice.
#![tactic(auto)]

pub mod literals;
pub mod sets;

// A literal of one of 256 variables: the variable's number less one, and whether it is on.
#[derive(Clone, Copy, PartialEq, Eq, Debug)]
pub struct Literal {
    index: u8,
    on: bool,
}

// What a signed number is that names no literal of the 256 variables.
#[derive(Clone, Copy, PartialEq, Eq, Debug)]
pub struct NoLiteral;

// A set of literals, a mark for each.
#[derive(Clone, Copy)]
pub struct LiteralSet {
    marks: [bool; 512],
}
