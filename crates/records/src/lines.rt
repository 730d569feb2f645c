ghost use Rattle.std.specs.Prelude.{◌≡◌, ◌*◌, ◌/◌, ◌≤◌, [], length, take, refl};
ghost use Rattle.std.proofs.Common.{◌∙◌};
ghost use Rattle.records.specs.Kept.{keeper, most, Beyond, beyond_stays, beyond_joins};
ghost use Rattle.records.specs.Line.{lines, steps_in};
ghost use Rattle.records.specs.Lines.{lines_of, lines_keeps};

use super::{MOST, Record, line};
use model::{Decline, Step};

// Holds its steps in given bytes, in lines of 28 bytes, as many as the bytes allow whole and 65,535 at most.
#[derive(Drop)]
pub struct Lines<'a> {
    // lent memory with a count beside it, by a rule of the project
    bytes: &'a mut [u8],
    used: usize,
    ghost fits: { used ≤ most (length bytes.now / 28) },
    ghost exact: { take (used * 28) bytes.now ≡ lines (steps_in used bytes.now) },
}

impl<'a> Lines<'a> {
    pub fn new(bytes: &'a mut [u8]) -> Self
        ensures tied { result.bytes.ghost_name ≡ bytes.entry.ghost_name }
        ensures unchanged { result.bytes.now ≡ bytes.old }
        ensures empty { lines_of result.used result.bytes.now ≡ keeper [] (most (length bytes.old / 28)) }
    {
        Lines { bytes, used: 0 }
    }

    // The lines of the steps that it holds, one after the other.
    pub fn text(&self) -> &[u8]
        ensures { result.now ≡ lines (lines_of self.now.used self.now.bytes.now).steps }
    {
        &self.bytes[0..self.used * 28]
    }

    // How many steps there are bytes for.
    fn limit(&self) -> usize
        ensures { result ≡ most (length self.now.bytes.now / 28) }
    {
        (self.bytes.len() / 28).min(MOST)
    }
}

impl<'a> Record for Lines<'a> {
    ghost over = { λ a b. (b.bytes.ghost_name ≡ a.bytes.ghost_name) × Beyond (a.used * 28) a.bytes.now (b.used * 28) b.bytes.now };

    ghost stays = { λ a. (refl, beyond_stays (a.used * 28) a.bytes.now) };

    ghost joins = { λ _ _ _ p q. (q.0 ∙ p.0, beyond_joins p.1 q.1) };

    ghost meaning = { λ t. lines_of t.used t.bytes.now };

    ghost limits = { λ t. lines_keeps t.used t.bytes.now };

    fn put(&mut self, step: Step) -> Result<(), Decline> {
        if self.used == self.limit() {
            return Err(Decline::RecordFull);
        }
        let at = self.used * 28;
        // by a slice: of as_chunks_mut nothing is said of what the bytes hold afterwards
        self.bytes[at..at + 28].copy_from_slice(&line::write(step));
        self.used += 1;
        Ok(())
    }

    fn left(&self) -> Option<usize> {
        Some(self.limit() - self.used)
    }

    fn count(&self) -> usize {
        self.used
    }

    fn look(&self, k: usize) -> Option<Step> {
        let (lines, _) = self.bytes.as_chunks();
        lines[..self.used].get(k.checked_sub(1)?).map(line::read)
    }
}
