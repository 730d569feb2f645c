// Single moves: a literal is set, a failing clause goes past one, a choice is turned.
ghost use Rattle.std.specs.Prelude.{◌≡◌, ◌<◌, [], ◌∷◌, ◌++◌, length, Some};
ghost use Rattle.model.specs.declared.Reference.TheVariants.{R};
ghost use Rattle.model.specs.Clauses.{Clause};
ghost use Rattle.model.specs.Search.{make_true, made as made_of};
ghost use Rattle.model.specs.Machine.{clause_at};
ghost use Rattle.clauses.specs.Sets.{code, Holds};
ghost use Rattle.station.specs.Views.{machine};
ghost use Rattle.search.specs.States.{position, machine_of, Past, AtChoice};

use super::{Frame, Mark, State, Turn, Why};
use clauses::{Literal, LiteralSet};
use model::{Decline, Reference, Step};
use records::Record;
use station::StationFile;

impl State<'_> {
    // Sets a literal true.
    pub(crate) fn set(&mut self, t: Literal, why: Why)
        requires { length (position self.old).marks < (machine_of self.old).variables }
        ensures file { machine_of self.new ≡ machine_of self.old }
        ensures position { position self.new ≡ record { settings = make_true (position self.old).settings (code t); marks = (position self.old).marks ++ (record { literal = t; why = why } ∷ []); frames = (position self.old).frames; made = (position self.old).made } }
    {
        self.settings.set(t);
        self.trail.push(Mark { literal: t, why });
    }

    // Takes a failing clause past a literal that the setter made true: as it is if it lacks the literal's opposite, else by a step.
    pub(crate) fn past<R: Record>(
        &mut self,
        record: &mut R,
        t: Literal,
        setter: &Frame,
        failure: &mut Frame,
    ) -> Result<(), Decline>
        requires { t.index < 255 }
        ensures file { machine_of self.new ≡ machine_of self.old }
        ensures tied { R.Record.over «record».old «record».new }
        ensures position { position self.new ≡ record { settings = (position self.old).settings; marks = (position self.old).marks; frames = (position self.old).frames; made = (position self.new).made } }
        ensures past { Past (code t) setter.now failure.old (position self.old).made (R.Record.meaning «record».old) failure.new (position self.new).made (R.Record.meaning «record».new) result }
    {
        if !failure.clause.contains(t.opposite()) {
            return Ok(());
        }
        record.put(step_on(t, setter.by, failure.by))?;
        self.made = self.made.saturating_add(1);
        failure.by = Reference::S(self.made);
        failure.clause = setter.clause.resolvent(&failure.clause, t);
        Ok(())
    }

    // Takes a failing clause back to a choice that is on: the off side is next if the clause holds the off literal.
    pub(crate) fn turn(&mut self, t: Literal, failure: &Frame) -> Turn
        requires marks { length (position self.old).marks < (machine_of self.old).variables }
        requires frames { length (position self.old).frames < (machine_of self.old).variables }
        ensures file { machine_of self.new ≡ machine_of self.old }
        ensures turned { AtChoice (code t) failure.now (position self.old) (position self.new) result }
    {
        let other = t.opposite();
        if !failure.clause.contains(other) {
            return Turn::Failing;
        }
        self.frames.push(*failure);
        self.set(other, Why::Off);
        Turn::Turned
    }
}

// The step on the variable of t, from the clause that set t and the one that failed: the left has the variable on.
fn step_on(t: Literal, setter: Reference, failed: Reference) -> Step
    requires { t.index < 255 }
    ensures { result ≡ made_of (code t) setter failed }
{
    let (left, right) = if t.is_on() {
        (setter, failed)
    } else {
        (failed, setter)
    };
    Step {
        left,
        right,
        variable: t.index() as u8 + 1,
    }
}

// The clause numbered k of a file, as a frame.
pub(crate) fn frame_of(file: &StationFile, k: u32) -> Frame
    requires { (C : Clause) × (clause_at (machine file.now).clauses k ≡ Some C) }
    ensures by { result.by ≡ R k }
    ensures holds { (C : Clause) → clause_at (machine file.now).clauses k ≡ Some C → Holds result.clause C }
{
    Frame {
        by: Reference::R(k),
        clause: LiteralSet::of(file.show(k).unwrap()),
    }
}
