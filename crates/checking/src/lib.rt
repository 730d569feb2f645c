// Checking an argument (a resolution refutation), whoever made it: see docs/arguments.md.
#![tactic(auto)]

ghost use Rattle.std.specs.Prelude.{length};
ghost use Rattle.model.specs.Checking.{Checks, CheckWorth};
ghost use Rattle.station.specs.Views.{machine};
ghost use Rattle.checking.specs.Held.{Finds, Resolves, Closing};

use clauses::{Literal, LiteralSet};
use model::{Decline, Reference, Step};
use records::Record;
use station::StationFile;

#[cfg(test)]
mod tests;

// The clauses that a reference can name: those of a file, and those of the steps so far.
#[derive(Clone, Copy)]
struct Named<'a> {
    file: &'a StationFile,
    earlier: &'a [LiteralSet],
}

impl Named<'_> {
    // The clause that a reference names.
    fn clause_of(&self, reference: Reference) -> Option<LiteralSet>
        ensures { Finds (machine self.now.file.now).clauses self.now.earlier.now reference result }
    {
        match reference {
            Reference::R(k) => Some(LiteralSet::of(self.file.show(k)?)),
            Reference::S(k) => self.earlier.get((k as usize).checked_sub(1)?).copied(),
        }
    }

    // The clause of the next step, which is numbered j: the resolvent of the two that it names.
    fn resolve(&self, step: Step, j: usize) -> Result<LiteralSet, Decline>
        ensures { Resolves (machine self.now.file.now).clauses self.now.earlier.now step j result }
    {
        let left = self.clause_of(step.left).ok_or(Decline::NamesNothing(j))?;
        let right = self.clause_of(step.right).ok_or(Decline::NamesNothing(j))?;
        match Literal::try_from(step.variable as i32) {
            Ok(on) if left.contains(on) && right.contains(on.opposite()) => {
                Ok(left.resolvent(&right, on))
            }
            _ => Err(Decline::LacksVariable(j)),
        }
    }

    // Whether the closing reference names a clause without a literal.
    fn closes(&self, closing: Reference) -> Result<(), Decline>
        ensures { Closing (machine self.now.file.now).clauses self.now.earlier.now closing result }
    {
        match self.clause_of(closing) {
            Some(clause) if clause.is_empty() => Ok(()),
            _ => Err(Decline::NotClosing),
        }
    }
}

// The first fault of the steps of the record as an argument from the file's clauses, closed by the clause named. The memory takes the clause of
// each step.
fn faultless<R: Record>(
    file: &StationFile,
    record: &R,
    closing: Reference,
    memory: &mut [LiteralSet],
) -> Result<(), Decline>
    ensures { Checks (machine file.now) (R.Record.meaning «record».now).steps closing (length memory.old) result }
{
    file.started()?;
    let count = record.count();
    if memory.len() < count {
        return Err(Decline::FewClausePlaces);
    }
    // By number: the step at i reads every place before its own.
    for i in 0..count {
        let step = record.look(i + 1).unwrap();
        let earlier = &memory[..i];
        memory[i] = Named { file, earlier }.resolve(step, i + 1)?;
    }
    let earlier = &memory[..count];
    Named { file, earlier }.closes(closing)
}

// Whether the steps of the record are an argument from the file's clauses, closed by the clause named; if not, its first fault. What is accepted
// leaves the clauses no valuation.
pub fn check<R: Record>(
    file: &StationFile,
    record: &R,
    closing: Reference,
    memory: &mut [LiteralSet],
) -> Result<(), Decline>
    ensures checks { Checks (machine file.now) (R.Record.meaning «record».now).steps closing (length memory.old) result }
    ensures worth { CheckWorth (machine file.now) (R.Record.meaning «record».now).steps closing (length memory.old) result }
{
    faultless(file, record, closing, memory)
}
