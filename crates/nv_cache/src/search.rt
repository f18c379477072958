//! The search of a read for a buffer for a page that it misses: by the hand of the cache it takes that of another page, the victim.
ghost use Rattle.std.specs.Prelude.{◌≡◌, ℕ, ◌+◌, ◌*◌, ◌<◌, Option};
ghost use Rattle.nv_core.specs.invariant.Ownership.{is_among};
ghost use Rattle.nv_core.specs.steps.Ops.{Load};
ghost use Rattle.nv_table.specs.state.Keys.{sizes_of};
ghost use Rattle.nv_table.specs.state.States.{IsOf, PassState};
ghost use Rattle.nv_cache.specs.declared.search.SearchControl.TheVariants as searches;
ghost use Rattle.nv_cache.specs.Searches.{EndsWith, Fits, HasAdvanced, HasFound, HasMoved, HasSearched, HasStepped, IsOpen, IsUnderWay, Keeps, KeepsRest, again, search_after, search_measure, search_op, turned};

use nv_core::runs_are_sound;
use nv_op::{Op, Word, perform};
use nv_pages::move_buffer;
use nv_pmem::Lines;
use nv_store::Backing;
use nv_table::{Board, Layout, Pass};

/// Where a search stands: what its next step is, or what came of it.
#[derive(Clone, Copy, Debug, PartialEq, Eq)]
pub enum SearchControl {
    /// The first try comes next: the read stands at this page, and has valid buffers from it on up to the page that it misses.
    Begin { from: u64 },
    /// The last try found nothing, and another one comes next. Where its victim was given back without a buffer, the buffer of its HINT is named.
    TurnHand { given: Option<u64> },
    LoadHint { buffer: u64 },
    TakeVictim { buffer: u64, victim: u64 },
    GiveVictim { buffer: u64, victim: u64 },
    SetHint { buffer: u64 },
    /// The page has a buffer.
    Found { buffer: u64 },
    /// All tries found nothing.
    NotFound { given: Option<u64> },
}

/// The search of a read for a buffer, from its first turn of HAND on.
#[derive(Clone, Copy, Debug, PartialEq, Eq)]
pub struct SearchMachine {
    pub file: u64,
    pub at: u64,
    pub len: u64,
    /// The read's first page among all, and how many it touches.
    pub first: u64,
    pub pages: u64,
    pub sized: bool,
    pub length: u64,
    /// The page that it misses, and how many tries have begun.
    pub page: u64,
    pub tries: u64,
    pub control: SearchControl,
}

impl SearchMachine {
    // The next step.
    fn next(self) -> Op
        ensures { result ≡ search_op self }
    {
        match self.control {
            SearchControl::LoadHint { buffer } => Op::Load {
                word: Word::Hint { buffer },
            },
            SearchControl::TakeVictim { victim, .. } => Op::Take {
                cell: Word::Page { page: victim },
            },
            SearchControl::GiveVictim { victim, .. } => Op::Give {
                cell: Word::Page { page: victim },
            },
            SearchControl::SetHint { buffer } => Op::Hint {
                buffer,
                page: self.page,
            },
            _ => Op::Turn { page: self.page },
        }
    }

    // It goes on there.
    fn at(self, control: SearchControl) -> SearchMachine
        ensures { result ≡ record self { control = control } }
    {
        SearchMachine { control, ..self }
    }

    // A try found nothing.
    fn again(self, layout: Layout, given: Option<u64>) -> SearchMachine
        ensures { result ≡ again (sizes_of layout) self given }
    {
        if self.tries < 2 * layout.buffers {
            self.at(SearchControl::TurnHand { given })
        } else {
            self.at(SearchControl::NotFound { given })
        }
    }

    // A try has begun.
    fn turned(self, layout: Layout, found: u64) -> SearchMachine
        requires { self.tries < 2 * layout.buffers }
        ensures { result ≡ turned (sizes_of layout) self found }
    {
        SearchMachine {
            tries: self.tries + 1,
            ..self.at(SearchControl::LoadHint {
                buffer: found % layout.buffers,
            })
        }
    }

    // Whether a page is one of the read's.
    fn is_own(self, page: u64) -> bool
        ensures { result ≡ is_among self.first (self.first + self.pages) page }
    {
        self.first <= page && page - self.first < self.pages
    }

    // What it is after the step, where the page lacks a buffer then or not.
    fn after(self, layout: Layout, found: u64, lacks: bool) -> SearchMachine
        requires { Fits (sizes_of layout) self }
        ensures { result ≡ search_after (sizes_of layout) self found lacks }
    {
        match self.control {
            SearchControl::Begin { .. } | SearchControl::TurnHand { .. } => {
                self.turned(layout, found)
            }
            SearchControl::LoadHint { .. } if self.is_own(found) => self.again(layout, None),
            SearchControl::LoadHint { buffer } => self.at(SearchControl::TakeVictim {
                buffer,
                victim: found,
            }),
            SearchControl::TakeVictim { buffer, victim } if found == 0 => {
                self.at(SearchControl::GiveVictim { buffer, victim })
            }
            SearchControl::TakeVictim { .. } => self.again(layout, None),
            SearchControl::GiveVictim { buffer, .. } if lacks => self.again(layout, Some(buffer)),
            SearchControl::GiveVictim { buffer, .. } => self.at(SearchControl::SetHint { buffer }),
            SearchControl::SetHint { buffer } => self.at(SearchControl::Found { buffer }),
            SearchControl::Found { .. } | SearchControl::NotFound { .. } => self,
        }
    }

    // Moves the buffer of a victim that is given back next. Tells whether the page lacks one then.
    fn rob<L: Lines, B: Backing>(self, board: &Board<L, B>, pass: &mut Pass<L, B>) -> bool
        requires board { IsOf board.now pass.old }
        requires way { (start : PassState) × IsUnderWay self start pass.old }
        ensures board { IsOf board.now pass.new }
        ensures moved { HasMoved self result pass.old pass.new }
    {
        match self.control {
            SearchControl::GiveVictim { victim, .. } => {
                move_buffer(board, pass, victim, self.page)
            }
            _ => true,
        }
    }

    // Makes the next step, and is this after it.
    fn step<L: Lines, B: Backing>(self, board: &Board<L, B>, pass: &mut Pass<L, B>) -> SearchMachine
        requires board { IsOf board.now pass.old }
        requires open { IsOpen self.control }
        requires way { (start : PassState) × IsUnderWay self start pass.old }
        ensures board { IsOf board.now pass.new }
        ensures advanced { HasAdvanced self result pass.old pass.new }
    {
        runs_are_sound();
        pass.sees_a_run();
        let lacks = self.rob(board, pass);
        let found = perform(board, pass, None, self.next());
        self.after(board.layout(), found, lacks)
    }

    /// Makes the next step. The buffer of a victim moves before that is given back. Takes no memory, and waits for nobody.
    ///
    /// A search goes by tries of the hand of the cache, at most two for each buffer of the mount. Each names a page, the victim, by the HINT of the next buffer.
    /// The first victim that has a buffer, and whose lock is free, loses that to the page that is missed, where it isn't valid until the page is loaded. It is
    /// `NotFound` where each try found nothing: a page of the read's own, one whose lock was held, or one without a buffer; then the read goes on with the page,
    /// and it is not cached.
    pub fn advance<L: Lines, B: Backing>(&mut self, board: &Board<L, B>, pass: &mut Pass<L, B>)
        requires board { IsOf board.now pass.old }
        requires open { IsOpen self.old.control }
        requires way { (start : PassState) × IsUnderWay self.old start pass.old }
        ensures board { IsOf board.now pass.new }
        ensures one { HasStepped self.old self.new pass.old pass.new }
        ensures keeps { Keeps self.old pass.old pass.new }
        ensures falls { search_measure pass.old.view.opened.sizes self.new < search_measure pass.old.view.opened.sizes self.old }
        ensures way { (start : PassState) → IsUnderWay self.old start pass.old → IsUnderWay self.new start pass.new }
        ensures tries { (began : PassState) → HasSearched self.old began pass.old → HasSearched self.new began pass.new }
        ensures found { (found : Option ℕ) → (began : PassState) → EndsWith found self.new.control → HasSearched self.old began pass.old → HasFound found self.new began pass.new }
        ensures rest { (began : PassState) → KeepsRest self.old began pass.old → KeepsRest self.new began pass.new }
    {
        *self = self.step(board, pass);
    }
}
