// The way back from a clause that is false.
ghost use Rattle.std.specs.Prelude.{◌≡◌, ◌<◌, length};
ghost use Rattle.search.specs.States.{position, machine_of, Run, Stuck, Stepped, Unwound};

use super::moves::frame_of;
use super::{Frame, Mark, State, Turn, Why};
use model::Decline;
use records::Record;

impl State<'_> {
    // Takes a failing clause back past the last setting.
    fn step_back<R: Record>(&mut self, record: &mut R, failure: &mut Frame) -> Result<Turn, Decline>
        requires deep { 0 < length (position self.old).marks }
        requires stuck { (run : Run) × Stuck run (machine_of self.old) (R.Record.meaning «record».old) (position self.old) failure.old }
        ensures file { machine_of self.new ≡ machine_of self.old }
        ensures tied { R.Record.over «record».old «record».new }
        ensures stepped { (run : Run) → Stuck run (machine_of self.old) (R.Record.meaning «record».old) (position self.old) failure.old
            → Stepped run (machine_of self.old) (position self.old) (R.Record.meaning «record».new) (position self.new) failure.new result }
    {
        let Mark { literal: t, why } = self.trail.pop();
        self.settings.clear(t);
        let setter = match why {
            Why::On => return Ok(self.turn(t, failure)),
            Why::Clause(k) => frame_of(self.file, k),
            Why::Off => self.frames.pop(),
        };
        self.past(record, t, &setter, failure)?;
        Ok(Turn::Failing)
    }

    // Takes a failing clause back until a choice is turned, or nothing is set.
    pub(crate) fn unwind<R: Record>(
        &mut self,
        record: &mut R,
        failure: &mut Frame,
    ) -> Result<Turn, Decline>
        requires stuck { (run : Run) × Stuck run (machine_of self.old) (R.Record.meaning «record».old) (position self.old) failure.old }
        ensures file { machine_of self.new ≡ machine_of self.old }
        ensures tied { R.Record.over «record».old «record».new }
        ensures unwound { (run : Run) → Stuck run (machine_of self.old) (R.Record.meaning «record».old) (position self.old) failure.old
            → Unwound run (machine_of self.old) (position self.old) (R.Record.meaning «record».new) (position self.new) failure.new result }
    {
        while self.trail.height() > 0 {
            if let Turn::Turned = self.step_back(record, failure)? {
                return Ok(Turn::Turned);
            }
        }
        Ok(Turn::Failing)
    }
}
