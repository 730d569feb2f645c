ghost use Rattle.std.specs.Prelude.{◌≡◌, true, false, ℤ, if◌then◌else◌};
ghost use Rattle.model.specs.Clauses.{same};
ghost use Rattle.clauses.specs.Sets.{code, member, named, left_over, Emptiness};

use super::{Literal, LiteralSet};
use std::array;

impl LiteralSet {
    pub fn empty() -> LiteralSet
        ensures { (u : ℤ) → member result u ≡ false }
    {
        LiteralSet {
            marks: [false; 512],
        }
    }

    // The literals of a clause; a number that is no literal of the 256 variables is left out.
    pub fn of(clause: &[i32]) -> LiteralSet
        ensures { (u : ℤ) → member result u ≡ named clause.now u }
    {
        let mut set = LiteralSet::empty();
        for number in clause {
            if let Ok(t) = Literal::try_from(*number) {
                set.insert(t);
            }
        }
        set
    }

    pub fn contains(&self, t: Literal) -> bool
        ensures { result ≡ member self.now (code t) }
    {
        self.marks[t.place()]
    }

    pub fn is_empty(&self) -> bool
        ensures { Emptiness self.now result }
    {
        !self.marks.contains(&true)
    }

    pub fn insert(&mut self, t: Literal)
        ensures { (u : ℤ) → member self.new u ≡ (if same (code t) u then true else member self.old u) }
    {
        self.mark(t, true);
    }

    pub fn remove(&mut self, t: Literal)
        ensures { (u : ℤ) → member self.new u ≡ (if same (code t) u then false else member self.old u) }
    {
        self.mark(t, false);
    }

    // From now on t is in the set, or not.
    fn mark(&mut self, t: Literal, as_member: bool)
        ensures { (u : ℤ) → member self.new u ≡ (if same (code t) u then as_member else member self.old u) }
    {
        self.marks[t.place()] = as_member;
    }

    // This set without t, joined with the other without the opposite of t.
    pub fn resolvent(&self, other: &LiteralSet, t: Literal) -> LiteralSet
        ensures { (u : ℤ) → member result u ≡ left_over self.now other.now (code t) u }
    {
        let mut left = *self;
        left.remove(t);
        let mut right = *other;
        right.remove(t.opposite());
        LiteralSet {
            marks: array::from_fn(|k| left.marks[k] | right.marks[k]),
        }
    }
}
