// Reading a rule text into a file, all of its clauses or none.
ghost use Rattle.std.specs.Prelude.{◌≡◌, unwrap_or};
ghost use Rattle.model.specs.Reading.{Reads};
ghost use Rattle.station.specs.Views.{machine};
ghost use Rattle.station.specs.Tables.{Sound};
ghost use Rattle.station.specs.Readings.{Ended, ReadInto};

use super::{Counts, Hand, StationFile, Tables};
use model::{Decline, FileFault, ReadFault, TextFault};
use texts::Reader;

// The fault of every text before a start.
const NEVER_STARTED: FileFault = FileFault {
    place: 0,
    decline: Decline::NotStarted,
};

// Puts the counts back as they were saved, unless the text was accepted.
struct Guard<'a> {
    counts: &'a mut Counts,
    saved: Option<Counts>,
}

impl Drop for Guard<'_> {
    fn drop(self)
        ensures { self.exit.0.now ≡ unwrap_or self.entry.saved self.entry.counts.now }
    {
        if let Some(saved) = self.saved {
            *self.counts = saved;
        }
        let Guard {
            counts: _,
            saved: _,
        } = self;
    }
}

// Whether the text may end here: with no literals in hand, and as many clauses as its problem line says.
#[tactic(auto, using(texts::proofs::Course::ends_inside, texts::proofs::Course::other_count, texts::proofs::Course::ends_well))]
fn ended(declared: u32, done: u32, hand: &Hand, size: usize) -> Result<(), TextFault>
    ensures { Ended declared done hand.now size result }
{
    if !hand.is_empty() || done != declared {
        return Err(TextFault::Clauses(size));
    }
    Ok(())
}

// Reads a text into the tables of a file of n variables.
fn read_into(n: u8, tables: &mut Tables, counts: &mut Counts, text: &[u8]) -> Result<u32, ReadFault>
    requires { Sound n tables.old counts.old }
    ensures sound { Sound n tables.new counts.new }
    ensures reads { ReadInto n tables.old counts.old text.now tables.new counts.new result }
{
    // As in `append`, the size says it.
    if n == 0 {
        return Err(NEVER_STARTED.into());
    }
    let saved = Some(*counts);
    let mut guard = Guard { counts, saved };
    let mut reader = Reader::over(text);
    let declared = reader
        .heading(u32::from(n))?
        .ok_or(TextFault::Problem(text.len()))?;
    let mut done: u32 = 0;
    let mut hand = Hand::empty(n);
    while let Some(t) = reader.number()? {
        if t.value == 0 {
            let place = t.place;
            *guard.counts = tables
                .append(*guard.counts, &hand)
                .map_err(|decline| FileFault { place, decline })?;
            done += 1;
            hand = Hand::empty(n);
        } else {
            hand.push(t.value);
        }
    }
    ended(declared, done, &hand, text.len())?;
    guard.saved = None;
    Ok(done)
}

impl StationFile {
    // Reads a rule text into the file, all of its clauses or none; answers how many were entered.
    pub fn read(&mut self, text: &[u8]) -> Result<u32, ReadFault>
        ensures { Reads (machine self.old) text.now (machine self.new) result }
    {
        read_into(self.variables, &mut self.tables, &mut self.counts, text)
    }
}
