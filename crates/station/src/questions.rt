// What can be asked of a file: questions change nothing.
ghost use Rattle.std.specs.Prelude.{◌≡◌, ◌≤◌, length, take};
ghost use Rattle.station.specs.Cuts.{start_of};
ghost use Rattle.station.specs.Left.{clauses_left};
ghost use Rattle.station.specs.Views.{machine, Shown};

use super::{Clauses, StationFile};

impl StationFile {
    // The literals of the clause numbered k, from 1, or nothing where no clause k stands.
    #[tactic(auto, using(crate::proofs::Files::lies, crate::proofs::Files::shown, crate::proofs::Files::count_is, crate::proofs::Cuts::nth_past))]
    pub fn show(&self, k: u32) -> Option<&[i32]>
        ensures { Shown (machine self.now) k result }
    {
        // By two tests and no `get` of the end: where the clause begins is asked of `start_of`, which needs the bound as well.
        if k == 0 {
            return None;
        }
        if k > self.counts.clauses as u32 {
            return None;
        }
        let i = k as usize - 1;
        let from = self.start_of(i);
        let to = self.tables.ends[i] as usize;
        Some(&self.tables.lits[from..to])
    }

    // Where the literals of the clause at place i begin.
    #[tactic(auto, using(crate::proofs::Files::start_before), unfolding(crate::specs::Cuts::start_of))]
    pub(crate) fn start_of(&self, i: usize) -> usize
        requires { i ≤ self.now.counts.clauses }
        ensures { result ≡ start_of 0 (take self.now.counts.clauses self.now.tables.ends) i }
    {
        if i == 0 {
            return 0;
        }
        self.tables.ends[i - 1] as usize
    }

    #[tactic(auto, unfolding(crate::specs::Views::machine, crate::specs::Views::machine_in))]
    pub fn variables(&self) -> u8
        ensures { result ≡ (machine self.now).variables }
    {
        self.variables
    }

    // The clauses that stand, in their order.
    #[tactic(auto, unfolding(crate::specs::Views::machine, crate::specs::Views::machine_in))]
    pub fn iter(&self) -> Clauses<'_>
        ensures { clauses_left result ≡ (machine self.now).clauses }
    {
        Clauses {
            lits: &self.tables.lits,
            ends: &self.tables.ends[..self.counts.clauses as usize],
            from: 0,
        }
    }

    // How many clauses stand.
    #[tactic(auto, using(crate::proofs::Files::count_is))]
    pub fn clauses(&self) -> u32
        ensures { result ≡ length (machine self.now).clauses }
    {
        self.counts.clauses as u32
    }
}
