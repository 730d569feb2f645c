ghost use Rattle.std.specs.Prelude.{◌≡◌, ◌≤◌, [], length, refl};
ghost use Rattle.std.proofs.Common.{◌∙◌};
ghost use Rattle.records.specs.Kept.{keeper, most, Beyond, beyond_stays, beyond_joins, table_of, table_keeps};

use super::{MOST, Record};
use model::{Decline, Step};

// Holds its steps in given places, the first 65,535 at most.
// Beside Lines, not one with it: a record over blocks of N elements (tried) has a method and a contract more for each of the four lines that the two share.
// Nor is it one with search's Stack, which pops, and stands in a crate above.
#[derive(Drop)]
pub struct Table<'a> {
    // lent memory with a count beside it, by a rule of the project
    places: &'a mut [Step],
    used: usize,
    ghost fits: { used ≤ most (length places.now) },
}

impl<'a> Table<'a> {
    pub fn new(places: &'a mut [Step]) -> Self
        ensures tied { result.places.ghost_name ≡ places.entry.ghost_name }
        ensures unchanged { result.places.now ≡ places.old }
        ensures empty { table_of result.used result.places.now ≡ keeper [] (most (length places.old)) }
    {
        Table { places, used: 0 }
    }

    // How many steps there are places for.
    fn limit(&self) -> usize
        ensures { result ≡ most (length self.now.places.now) }
    {
        self.places.len().min(MOST)
    }
}

impl<'a> Record for Table<'a> {
    ghost over = { λ a b. (b.places.ghost_name ≡ a.places.ghost_name) × Beyond a.used a.places.now b.used b.places.now };

    ghost stays = { λ a. (refl, beyond_stays a.used a.places.now) };

    ghost joins = { λ _ _ _ p q. (q.0 ∙ p.0, beyond_joins p.1 q.1) };

    ghost meaning = { λ t. table_of t.used t.places.now };

    ghost limits = { λ t. table_keeps t.used t.places.now };

    fn put(&mut self, step: Step) -> Result<(), Decline> {
        if self.used == self.limit() {
            return Err(Decline::RecordFull);
        }
        self.places[self.used] = step;
        self.used += 1;
        Ok(())
    }

    fn left(&self) -> Option<usize> {
        Some(self.limit() - self.used)
    }

    fn count(&self) -> usize {
        self.used
    }

    fn look(&self, k: usize) -> Option<Step> {
        self.places[..self.used].get(k.checked_sub(1)?).copied()
    }
}
