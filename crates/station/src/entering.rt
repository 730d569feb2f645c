// Entering a clause: literals are gathered in a hand, which is then appended to the tables of a file.
ghost use Rattle.std.specs.Prelude.{◌≡◌, ℕ, List, [], ℤ};
ghost use Rattle.model.specs.Machine.{names};
ghost use Rattle.station.specs.Tables.{Sound};
ghost use Rattle.station.specs.Hands.{Holds, Appended, Tells, joined};

use super::{Counts, Hand, MOST_CLAUSES, MOST_LITERALS, Tables};
use arrayvec::ArrayVec;
use model::Decline;

// Whether a literal names one of n variables.
fn in_range(n: u8, t: i32) -> bool
    ensures { result ≡ names n t }
{
    t != 0 && (-i32::from(n)..=i32::from(n)).contains(&t)
}

impl Hand {
    // `inline(always)`: a call moves what it makes.
    #[inline(always)]
    pub(crate) fn empty(variables: u8) -> Hand
        ensures { Holds variables result [] }
    {
        Hand {
            variables,
            clause: Ok(ArrayVec::new()),
        }
    }

    #[tactic(auto, using(crate::proofs::Appending::fits, model::proofs::Merging::none_merged))]
    pub(crate) fn is_empty(&self) -> bool
        ensures { (n : ℕ) (ts : List ℤ) → Holds n self.now ts → Tells result (ts ≡ []) }
    {
        matches!(&self.clause, Ok(kept) if kept.is_empty())
    }

    // Adds a literal. One out of range is the decline, whatever came before.
    pub(crate) fn push(&mut self, t: i32)
        ensures size { self.new.variables ≡ self.old.variables }
        ensures joins { self.new.clause ≡ joined self.old.variables self.old.clause t }
    {
        if !in_range(self.variables, t) {
            self.clause = Err(Decline::BadLiteral);
            return;
        }
        let Ok(kept) = &mut self.clause else {
            return;
        };
        if !kept.contains(&t) && kept.try_push(t).is_err() {
            self.clause = Err(Decline::WideClause);
        }
    }
}

impl Tables {
    // Enters the clause in hand after the others, or says why not.
    #[tactic(auto, using(crate::proofs::Appending::declined), unfolding(crate::specs::Views::machine_in))]
    pub(crate) fn append(&mut self, counts: Counts, hand: &Hand) -> Result<Counts, Decline>
        ensures { (n : ℕ) (ts : List ℤ) → Sound n self.old counts → Holds n hand.now ts → Appended n self.old counts ts self.new result }
    {
        // No file stands here to be asked `started`: the size says it, 0 where none was.
        if hand.variables == 0 {
            return Err(Decline::NotStarted);
        }
        let clause = hand.clause.as_ref().map_err(|decline| *decline)?;
        if counts.clauses >= MOST_CLAUSES {
            return Err(Decline::ClausesFull);
        }
        let from = counts.literals as usize;
        let to = from + clause.len();
        if to > MOST_LITERALS {
            return Err(Decline::LiteralsFull);
        }
        self.lits[from..to].copy_from_slice(clause);
        self.ends[counts.clauses as usize] = to as u16;
        Ok(Counts {
            clauses: counts.clauses + 1,
            literals: to as u16,
        })
    }
}
