ghost use Rattle.std.specs.Prelude.{◌≡◌, ◌<◌, pos};
ghost use Rattle.model.specs.Clauses.{opposite};
ghost use Rattle.clauses.specs.Sets.{code, place, Coded};

use super::{Literal, NoLiteral};

impl TryFrom<i32> for Literal {
    type Error = NoLiteral;

    ghost try_from_gives = { Coded };

    fn try_from(number: i32) -> Result<Literal, NoLiteral> {
        let at = number.unsigned_abs();
        if !(1..=256).contains(&at) {
            return Err(NoLiteral);
        }
        let index = (at - 1) as u8;
        Ok(Literal {
            index,
            on: number > 0,
        })
    }
}

impl Literal {
    // Variable 1, on.
    pub fn first() -> Literal
        ensures { code result ≡ pos 1 }
    {
        Literal { index: 0, on: true }
    }

    pub fn opposite(self) -> Literal
        ensures { code result ≡ opposite (code self) }
    {
        Literal {
            index: self.index,
            on: !self.on,
        }
    }

    // The variable's number less one: its place in a list of settings.
    pub fn index(self) -> usize
        ensures { result ≡ self.index }
    {
        self.index as usize
    }

    pub fn is_on(self) -> bool
        ensures { result ≡ self.on }
    {
        self.on
    }

    // The place of its mark in a set.
    pub(crate) fn place(self) -> usize
        ensures is { result ≡ place self }
        ensures within { result < 512 }
    {
        2 * self.index as usize + self.on as usize
    }
}
