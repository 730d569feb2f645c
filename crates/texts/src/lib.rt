// Rule texts (DIMACS CNF): a reader that goes over a text without copying it, and what its tokens say.
#![tactic(auto)]

ghost use Rattle.std.specs.Prelude.{◌≤◌, length};

pub mod laws;
mod numbers;
pub mod problems;
pub mod reading;
pub mod scan;
mod spans;
#[cfg(test)]
mod tests;
mod words;

// A text and how far it is read.
#[derive(Drop)]
pub struct Reader<'a> {
    text: &'a [u8],
    at: usize,
    ghost ok: { at ≤ length text.now },
}

// The words of a line that are still to come.
#[derive(Drop)]
pub(crate) struct LineWords<'a> {
    rest: &'a [u8],
}

// What a text consists of, each with the part that it came from: a number, a line head (a whole line that c or p opens), a line end.
#[derive(Clone, Copy)]
pub enum Token<'a> {
    Number(&'a [u8], i32),
    Comment(&'a [u8]),
    Problem(&'a [u8]),
    LineEnd(&'a [u8]),
}

// A token and how many bytes stand before it.
#[derive(Clone, Copy)]
pub struct Placed<'a> {
    pub place: usize,
    pub token: Token<'a>,
}

// What the first byte of a line opens.
#[derive(Clone, Copy)]
pub enum LineKind {
    Comment,
    Problem,
    Number,
    Other,
}

// A number after the problem line, and how many bytes stand before it. One type `Placed<T>` would name `token` and `value` alike, which say more at their uses.
#[derive(Clone, Copy, PartialEq, Eq, Debug)]
pub struct Numeral {
    pub place: usize,
    pub value: i32,
}
