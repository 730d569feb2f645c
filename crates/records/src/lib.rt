// Records: where the search notes its steps.
#![tactic(auto)]

ghost use Rattle.std.specs.Prelude.{◌≡◌, length};
ghost use Rattle.model.specs.Settling.{RecordMeaning, Keeps, Puts};
ghost use Rattle.records.specs.Kept.{step_at};

use model::{Decline, Step};

mod line;
pub mod lines;
pub mod silent;
pub mod table;

// The most steps that a record takes which keeps.
const MOST: usize = 65_535;

// A record means whether it keeps, the steps that it holds, and how many more it takes.
pub trait Record {
    // the second value stands over the same lent memory as the first, and has changed none of it beyond its own steps
    ghost over: { Self → Self → Type 0 };

    // members that are proofs, since an `impl` with a lifetime takes no `law`
    ghost stays: { (a : Self) → over a a };

    ghost joins: { (a b c : Self) → over a b → over b c → over a c };

    ghost meaning: { Self → RecordMeaning };

    ghost limits: { (s : Self) → Keeps (meaning s) };

    // Declined, and nothing changed, exactly where the record takes no more.
    fn put(&mut self, step: Step) -> Result<(), Decline>
        ensures tied { over self.old self.new }
        ensures puts { Puts (meaning self.old) step (meaning self.new) result };

    // How many more steps it takes, None if there is no end.
    fn left(&self) -> Option<usize>
        ensures { result ≡ (meaning self.now).room };

    // How many steps it holds.
    fn count(&self) -> usize
        ensures { result ≡ length (meaning self.now).steps };

    // The k-th step that it holds, from 1.
    fn look(&self, k: usize) -> Option<Step>
        ensures { result ≡ step_at (meaning self.now).steps k };
}

#[cfg(test)]
mod tests;
