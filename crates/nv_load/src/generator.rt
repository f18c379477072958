//! Generated calls, made as they are wanted.
ghost use Rattle.std.specs.Prelude.{◌≡◌, ◌<◌, []};
ghost use Rattle.nv_pmem.specs.Draws.{draws_of};
ghost use Rattle.nv_pmem.specs.declared.picker.Pick.TheVariants.{Seed};
ghost use Rattle.nv_load.specs.Counts.{counts_of};
ghost use Rattle.nv_load.specs.Generated.{IsLoad, first_fills, in_lines, thread_calls};
ghost use Rattle.nv_load.specs.Generators.{IsAtHand, generator_left, generator_made};

use crate::Load;
use crate::counts::Counts;
use crate::made::Made;
use crate::stock::Stock;
use crate::tally::Tally;
use nv_mount::Mount;
use nv_plain::NoMemory;
use nv_pmem::{Lines, Pick, Picker};
use nv_runner::{Answer, Calls};
use nv_store::Backing;
use nv_trace::TracedCall;
use std::alloc::Global;

/// The line of the first fill, behind those of the file and of its descriptor.
const FIRST_FILL: u64 = 3;

/// The line of the first call behind the fills and the line between the rounds.
const FIRST_DRAWN: u64 = 68;

/// The calls of a thread in one of the rounds of a load: those that are left, the one at hand, and what is counted of those that were made.
#[derive(Drop)]
pub(crate) struct Generator {
    alloc: Global,
    pub(crate) stock: Stock,
    pub(crate) present: Option<TracedCall>,
    pub(crate) tally: Tally,
}

impl Generator {
    /// Those of thread 0 in the first round: each block of the file is filled with zeros.
    pub(crate) fn first(alloc: Global) -> Generator
        ensures made { generator_made result ≡ [] }
        ensures left { generator_left result ≡ in_lines 3 0 0 first_fills }
    {
        Generator {
            alloc,
            stock: Stock {
                threads: 1,
                thread: 0,
                words: None,
                left: 64,
                line: FIRST_FILL,
            },
            present: None,
            tally: Tally::new(),
        }
    }

    /// Those of a thread in the second round.
    pub(crate) fn second(alloc: Global, load: Load, thread: u64) -> Generator
        requires load { IsLoad load }
        requires thread { thread < load.threads }
        ensures made { generator_made result ≡ [] }
        ensures left { generator_left result ≡ thread_calls load thread }
    {
        Generator {
            alloc,
            stock: Stock {
                threads: load.threads,
                thread,
                words: Some(Picker::new(Pick::Seed(load.seed + thread))),
                left: load.calls,
                line: FIRST_DRAWN + thread * load.calls,
            },
            present: None,
            tally: Tally::new(),
        }
    }

    /// What is counted of the calls that were made.
    pub(crate) fn counts(&self) -> Counts
        ensures { result ≡ counts_of (generator_made self.now) }
    {
        self.tally.counts
    }
}

impl Calls for Generator {
    ghost made = { generator_made };

    ghost left = { generator_left };

    ghost is_ready = { IsAtHand };

    fn take_rooms<L: Lines + Drop, B: Backing + Drop>(
        &mut self,
        alloc: Global,
        _mount: &Mount<L, B>,
    ) -> Result<Vec<Vec<u8>>, NoMemory> {
        Ok(Vec::new(alloc))
    }

    fn ready(&mut self) -> Result<bool, NoMemory> {
        if self.present.is_none() {
            self.present = self.stock.take(self.alloc)?;
        }
        Ok(self.present.is_some())
    }

    fn present(&self) -> &TracedCall {
        match &self.present {
            Some(call) => call,
            None => unreachable!(),
        }
    }

    fn put(&mut self, answer: Answer) {
        match self.present.take() {
            Some(call) => self.tally.note(Made { call, answer }),
            None => unreachable!(),
        }
    }
}
