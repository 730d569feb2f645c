ghost use Rattle.std.proofs.lemmas.Bool.{false≢true};
ghost use Rattle.records.specs.Kept.{nothing_kept};

use super::Record;
use model::{Decline, Step};

// Keeps nothing and has no end.
#[derive(Drop)]
pub struct Silent;

impl Record for Silent {
    ghost over = { λ _ _. Unit {0} };

    ghost stays = { λ _. tt };

    ghost joins = { λ _ _ _ _ _. tt };

    ghost meaning = { λ _. nothing_kept };

    ghost limits = { λ _ k. absurd (false≢true k) };

    fn put(&mut self, _step: Step) -> Result<(), Decline> {
        Ok(())
    }

    fn left(&self) -> Option<usize> {
        None
    }

    fn count(&self) -> usize {
        0
    }

    fn look(&self, _k: usize) -> Option<Step> {
        None
    }
}
