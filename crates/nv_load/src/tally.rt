//! The counts of calls as they are made.
ghost use Rattle.std.specs.Prelude.{◌≡◌, [], ◌∷◌};
ghost use Rattle.nv_load.specs.Counts.{counts_of, noted};

use crate::counts::Counts;
use crate::made::Made;
use nv_pmem::Past;

/// What is counted of the calls that it was told of. The calls themselves are for clauses alone.
#[derive(Drop)]
pub(crate) struct Tally {
    pub(crate) counts: Counts,
    pub(crate) told: Past<Made>,
    ghost counted: { counts ≡ counts_of (noted told.states) },
}

impl Tally {
    /// That of no calls.
    pub(crate) fn new() -> Tally
        ensures { result.told.states ≡ [] }
    {
        Tally {
            counts: Counts::NONE,
            told: Past::new(),
        }
    }

    /// Counts one more call, and lets it go.
    pub(crate) fn note(&mut self, made: Made)
        ensures { self.new.told.states ≡ made ∷ self.old.told.states }
    {
        self.told.note(&made);
        self.counts.add(Counts::of_one(&made.call, &made.answer));
    }
}
