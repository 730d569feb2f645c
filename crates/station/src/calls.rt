// A file and its clauses: making, starting, entering.
ghost use Rattle.std.specs.Prelude.{◌≡◌};
ghost use Rattle.lives.specs.Lives.{BeginsLife};
ghost use Rattle.model.specs.Machine.{fresh, Starts, Enters};
ghost use Rattle.station.specs.Views.{machine, Started};

use super::{Hand, MOST_VARIABLES, NONE, StationFile, Tables};
use arrayvec::ArrayVec;
use model::Decline;

impl StationFile {
    // A file that was never started.
    #[tactic(auto, unfolding(crate::specs::Views::machine, crate::specs::Views::machine_in, crate::specs::Cuts::parts))]
    pub fn new() -> StationFile
        ensures { machine result ≡ fresh 0 0 }
    {
        StationFile {
            variables: 0,
            number: 0,
            tables: Tables {
                lits: [0; 8000],
                ends: [0; 1000],
            },
            counts: NONE,
            marks: ArrayVec::new(),
        }
    }

    // Leaves a fresh file of so many variables, under this number, and so begins a life of which the law of lives holds.
    #[tactic(auto, unfolding(crate::specs::Views::machine, crate::specs::Views::machine_in, crate::specs::Cuts::parts))]
    pub fn start(&mut self, variables: u32, number: u32) -> Result<(), Decline>
        ensures starts { Starts (machine self.old) variables number (machine self.new) result }
        ensures lives { BeginsLife (machine self.new) result }
    {
        if !(1..=MOST_VARIABLES).contains(&variables) {
            return Err(Decline::BadSize);
        }
        if !self.marks.is_empty() {
            return Err(Decline::TrialStands);
        }
        self.variables = variables as u8;
        self.number = number;
        self.counts = NONE;
        Ok(())
    }

    // How many variables a file has that was started.
    #[tactic(auto, unfolding(crate::specs::Views::machine, crate::specs::Views::machine_in))]
    pub fn started(&self) -> Result<u8, Decline>
        ensures { Started (machine self.now) result }
    {
        match self.variables {
            0 => Err(Decline::NotStarted),
            n => Ok(n),
        }
    }

    // Enters a clause, equal literals merged, and answers its number.
    #[tactic(auto, using(crate::proofs::Files::count_is, std::proofs::lemmas::List::take_all), unfolding(crate::specs::Views::machine))]
    pub fn enter(&mut self, literals: &[i32]) -> Result<u32, Decline>
        ensures { Enters (machine self.old) literals.now (machine self.new) result }
    {
        let mut hand = Hand::empty(self.variables);
        for t in literals {
            hand.push(*t);
        }
        self.counts = self.tables.append(self.counts, &hand)?;
        Ok(self.counts.clauses as u32)
    }
}
