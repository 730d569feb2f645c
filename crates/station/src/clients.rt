// Small clients of a station file, proved as any other code.
ghost use Rattle.station.specs.Clients.{Tries, Spares, FirstEntered};
ghost use Rattle.station.specs.Views.{machine};

use super::{Slip, StationFile};
use model::Decline;

// Whether the file would take a clause, and under which number: it is entered in a trial of its own, so that the file is left as it was.
pub fn would_take(file: &mut StationFile, literals: &[i32]) -> Result<u32, Decline>
    ensures { Tries (machine file.old) literals.now (machine file.new) result }
{
    let mut slip = Slip::blank();
    file.open(&mut slip)?;
    let answer = file.enter(literals);
    file.close(&mut slip).and(answer)
}

// How many more trials the file takes: they are opened one within the other, and closed again.
pub fn spare_trials(file: &mut StationFile) -> u32
    ensures { Spares (machine file.old) (machine file.new) result }
{
    let mut slip = Slip::blank();
    let Ok(()) = file.open(&mut slip) else {
        return 0;
    };
    let spare = spare_trials(file);
    let _ = file.close(&mut slip);
    spare + 1
}

// Enters the first literal of the clause numbered k as a clause of its own, if there is one. The literal is copied before the file changes:
// the part that `show` gives can be read only while nothing is entered.
pub fn enter_first(file: &mut StationFile, k: u32) -> Option<Result<u32, Decline>>
    ensures { FirstEntered (machine file.old) k (machine file.new) result }
{
    let part = file.show(k)?;
    let first = *part.first()?;
    Some(file.enter(&[first]))
}
