// The clauses of a file, one after another.
ghost use Rattle.std.specs.Prelude.{◌≡◌, ◌≤◌, true, length};
ghost use Rattle.station.specs.Cuts.{rises, last_of};

// An iterator over the clauses that end at `ends`, the first of which begins at `from`.
#[derive(Drop)]
pub struct Clauses<'a> {
    pub(crate) lits: &'a [i32],
    pub(crate) ends: &'a [u16],
    pub(crate) from: usize,
    ghost rising: { rises from ends.now ≡ true },
    ghost last: { last_of from ends.now ≤ length lits.now },
}

impl<'a> Iterator for Clauses<'a> {
    ghost use Rattle.std.specs.Iterator.{YieldsFirstRef, item_count};
    ghost use Rattle.station.specs.Left.{clauses_left};

    type Item = &'a [i32];

    ghost next_gives = { YieldsFirstRef clauses_left };

    ghost remaining = { item_count clauses_left };

    #[tactic(auto, using(crate::proofs::Cuts::last_above), unfolding(crate::specs::Cuts::rises, crate::specs::Cuts::last_of, crate::specs::Cuts::parts))]
    fn next(&mut self) -> Option<&'a [i32]> {
        let (end, others) = self.ends.split_first()?;
        let (from, to) = (self.from, *end as usize);
        self.ends = others;
        self.from = to;
        Some(&self.lits[from..to])
    }
}
