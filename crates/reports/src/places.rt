// Lines and columns of places in a text.
ghost use Rattle.std.specs.Prelude.{◌≡◌, ◌+◌, ◌==◌, not, length, take_while, reverse};
ghost use Rattle.reports.specs.Places.{line_ends, since_end, line_of, column_of};

// A place by its line and column, both from 1.
#[derive(Clone, Copy)]
pub(crate) struct Spot {
    pub(crate) line: usize,
    pub(crate) column: usize,
}

// How many bytes follow the last byte 10.
fn last_line(bytes: &[u8]) -> usize
    ensures { result ≡ length (take_while (λ b. not (b == 10)) (reverse bytes.now)) }
{
    bytes.iter().rev().take_while(|b| **b != 10).count()
}

// The spot right after some bytes.
#[tactic(auto, using(crate::proofs::Ends::ends_counted, crate::proofs::Ends::since_counted))]
fn past(bytes: &[u8]) -> Spot
    ensures line { result.line ≡ 1 + line_ends bytes.now }
    ensures column { result.column ≡ 1 + since_end 0 bytes.now }
{
    Spot {
        line: 1 + bytes.iter().filter(|b| **b == 10).count(),
        column: 1 + last_line(bytes),
    }
}

// The spot of a place in a text; a place beyond its end is taken as its end.
#[tactic(auto, using(std::proofs::lemmas::List::take_all))]
pub(crate) fn spot_of(text: &[u8], place: usize) -> Spot
    ensures line { result.line ≡ line_of text.now place }
    ensures column { result.column ≡ column_of text.now place }
{
    if place < text.len() {
        return past(&text[..place]);
    }
    past(text)
}
