// Trials and their slips.
ghost use Rattle.std.specs.Prelude.{◌≡◌};
ghost use Rattle.model.specs.Machine.{blank, is_blank, Opens, Closes};
ghost use Rattle.station.specs.Views.{machine, slip_state, cut_to};

use super::{Counts, Held, StationFile};
use model::Decline;

// What a caller holds for a trial that it opened; a blank slip holds none. It cannot be copied, and may be let go only when it is blank.
pub struct Slip {
    held: Option<Held>,
}

impl Slip {
    #[tactic(auto, unfolding(crate::specs::Views::slip_state))]
    pub fn blank() -> Slip
        ensures { slip_state result ≡ blank }
    {
        Slip { held: None }
    }

    #[tactic(auto, unfolding(crate::specs::Views::slip_state))]
    pub fn is_blank(&self) -> bool
        ensures { result ≡ is_blank (slip_state self.now) }
    {
        self.held.is_none()
    }
}

// A filled slip has to go through `close` before it is let go.
impl Drop for Slip {
    fn drop(self)
        requires { slip_state self ≡ blank }
    {
        let Slip { held: _ } = self;
    }
}

impl StationFile {
    // Opens a trial, and fills the slip with the file's number and the trial's depth.
    #[tactic(auto, unfolding(crate::specs::Views::machine, crate::specs::Views::machine_in, crate::specs::Views::slip_state))]
    pub fn open(&mut self, slip: &mut Slip) -> Result<(), Decline>
        ensures { Opens (machine self.old) (slip_state slip.old) (machine self.new) (slip_state slip.new) result }
    {
        self.started()?;
        if !slip.is_blank() {
            return Err(Decline::SlipFilled);
        }
        self.marks
            .try_push(self.counts.clauses)
            .map_err(|_| Decline::TrialsFull)?;
        slip.held = Some(Held {
            file: self.number,
            depth: self.marks.len(),
        });
        Ok(())
    }

    // Closes the latest trial, drops the clauses entered since its opening, and makes its slip blank.
    #[tactic(auto, unfolding(crate::specs::Views::machine, crate::specs::Views::machine_in, crate::specs::Views::slip_state))]
    pub fn close(&mut self, slip: &mut Slip) -> Result<(), Decline>
        ensures { Closes (machine self.old) (slip_state slip.old) (machine self.new) (slip_state slip.new) result }
    {
        self.started()?;
        let held = slip.held.ok_or(Decline::SlipBlank)?;
        if held.file != self.number {
            return Err(Decline::OtherFile);
        }
        if held.depth != self.marks.len() {
            return Err(Decline::NotLatest);
        }
        let kept = self.marks.pop().unwrap();
        self.cut(kept);
        slip.held = None;
        Ok(())
    }

    // Keeps the first clauses, at most so many, and frees the numbers and the literals of the others.
    #[tactic(auto, using(crate::proofs::Kept::cut_machine, crate::proofs::Kept::cut_past), unfolding(crate::specs::Views::machine))]
    fn cut(&mut self, kept: u16)
        ensures { machine self.new ≡ cut_to kept (machine self.old) }
    {
        if kept < self.counts.clauses {
            let literals = self.start_of(kept as usize) as u16;
            self.counts = Counts {
                clauses: kept,
                literals,
            };
        }
    }
}
