//! The append of a write to the log, once it has its numbers: its entries, its pledges, its place in the history, and its new length.
ghost use Rattle.std.specs.Prelude.{◌≡◌, ◌+◌, ◌<◌, ◌≤◌, ◌^◌, false};
ghost use Rattle.nv_plain.specs.Layouts.{mount_layout};
ghost use Rattle.nv_table.specs.state.Keys.{sizes_of};
ghost use Rattle.nv_table.specs.state.States.{IsOf, PassState};
ghost use Rattle.nv_ring.specs.Appends.{Fits, HasStepped, IsPlain, IsUnderWay, append_after, append_measure, append_op, control_then, noted, pledged_then, ready_number, ready_word_of};

use nv_core::{runs_are_sound, runs_keep_content};
use nv_mirror::Refusal;
use nv_op::{EntryWord, Op, perform};
use nv_plain::history_goes_on;
use nv_pmem::Lines;
use nv_store::Backing;
use nv_table::{Board, Layout, Pass};

/// Where it stands: what its next step is, or what came of it.
#[derive(Clone, Copy, Debug, PartialEq, Eq)]
pub enum AppendControl {
    /// So many of its entries are seized.
    SeizeEntry { seized: u64 },
    /// The device calls of its commit come next, and behind them the pledge of its first page, or STOP where one of them fails.
    CommitGroup,
    /// So many of its pages are pledged.
    PledgePage { pledged: u64 },
    /// So many of its followers are ready. The leader is made ready last.
    ReadyEntry { ready: u64 },
    TakePlace,
    GrowLength,
    /// It is in the log and has its place. What it holds is given back next, SIZE first, and then its pages as they were taken.
    Appended,
    /// STOP is set, and so many of its entries are broken.
    BreakEntry { broken: u64 },
    /// Its commit has failed. What it holds is given back next, the last taken first.
    Refused(Refusal),
}

/// A write of at least one byte, once it has drawn its numbers.
#[derive(Clone, Copy, Debug, PartialEq, Eq)]
pub struct AppendMachine<'a> {
    pub file: u64,
    pub at: u64,
    pub bytes: &'a [u8],
    /// Where it ends in the file.
    pub end: u64,
    /// Its first page among all, and how many it touches. Each of them has an entry.
    pub page: u64,
    pub pages: u64,
    pub sized: bool,
    pub length: u64,
    /// The first of its numbers, and its place, once it has it.
    pub number: u64,
    pub place: u64,
    pub control: AppendControl,
}

impl<'a> AppendMachine<'a> {
    // The number of the entry that is made ready behind so many, and the word that it gets.
    #[inline(always)]
    fn ready_number(self, ready: u64) -> u64
        requires own { ready < self.pages }
        requires numbers { self.number + self.pages ≤ 2 ^ 60 }
        ensures { result ≡ ready_number self.entry ready }
    {
        if ready + 1 == self.pages {
            self.number
        } else {
            self.number + (ready + 1)
        }
    }

    #[inline(always)]
    fn ready_word(self, ready: u64) -> u64
        requires own { ready < self.pages }
        requires few { self.pages ≤ mount_layout.group_limit }
        requires low { self.page + self.pages ≤ 2 ^ 50 }
        ensures { result ≡ ready_word_of self.entry ready }
    {
        let word = if ready + 1 == self.pages {
            EntryWord::ready(self.pages, self.page)
        } else {
            EntryWord::ready(0, self.page + (ready + 1))
        };
        word.word
    }

    // The next step, where no device call has failed.
    #[inline(always)]
    fn next(self, layout: Layout) -> Op
        requires { Fits (sizes_of layout) self }
        ensures { result ≡ append_op self.entry false }
    {
        // Only the clause speaks of it.
        let _ = layout;
        match self.control {
            AppendControl::SeizeEntry { seized } => Op::Seize {
                number: self.number + seized,
            },
            AppendControl::CommitGroup => Op::Pledge { page: self.page },
            AppendControl::PledgePage { pledged } => Op::Pledge {
                page: self.page + pledged,
            },
            AppendControl::ReadyEntry { ready } => Op::Ready {
                number: self.ready_number(ready),
                word: self.ready_word(ready),
            },
            AppendControl::GrowLength => Op::Grow {
                file: self.file,
                length: self.end,
            },
            AppendControl::BreakEntry { broken } => Op::Break {
                number: self.number + broken,
            },
            _ => Op::Place,
        }
    }

    // What comes behind the pledge of one of its pages.
    #[inline(always)]
    fn pledged_after(self, pledged: u64) -> AppendControl
        requires { pledged < self.pages }
        ensures { result ≡ pledged_then self.entry pledged }
    {
        if pledged + 1 == self.pages {
            AppendControl::ReadyEntry { ready: 0 }
        } else {
            AppendControl::PledgePage {
                pledged: pledged + 1,
            }
        }
    }

    // Where it stands after a step that found this, where no device call has failed.
    #[inline(always)]
    fn control_after(self, layout: Layout, found: u64) -> AppendControl
        requires { Fits (sizes_of layout) self }
        ensures { result ≡ control_then (sizes_of layout) self.entry self.entry.control false found }
    {
        // Only the clauses speak of it.
        let _ = layout;
        match self.control {
            AppendControl::SeizeEntry { seized } if seized + 1 == self.pages => {
                AppendControl::CommitGroup
            }
            AppendControl::SeizeEntry { seized } => AppendControl::SeizeEntry {
                seized: seized + 1,
            },
            AppendControl::CommitGroup => self.pledged_after(0),
            AppendControl::PledgePage { pledged } => self.pledged_after(pledged),
            AppendControl::ReadyEntry { ready } if ready + 1 == self.pages => {
                AppendControl::TakePlace
            }
            AppendControl::ReadyEntry { ready } => AppendControl::ReadyEntry { ready: ready + 1 },
            AppendControl::TakePlace if self.length < self.end => AppendControl::GrowLength,
            AppendControl::TakePlace | AppendControl::GrowLength => AppendControl::Appended,
            AppendControl::BreakEntry { broken } if broken + 1 == self.pages => {
                AppendControl::Refused(Refusal::RegionFault)
            }
            AppendControl::BreakEntry { broken } => AppendControl::BreakEntry {
                broken: broken + 1,
            },
            AppendControl::Appended | AppendControl::Refused(_) => self.control,
        }
    }

    // What it notes of what was found.
    #[inline(always)]
    fn noted(self, found: u64) -> AppendMachine<'a>
        ensures { result ≡ noted self.entry self.entry.control found }
    {
        match self.control {
            AppendControl::TakePlace => AppendMachine {
                place: found,
                ..self
            },
            _ => self,
        }
    }

    // What it is after the step.
    #[inline(always)]
    pub(crate) fn after(self, layout: Layout, found: u64) -> AppendMachine<'a>
        requires { Fits (sizes_of layout) self }
        ensures { result ≡ append_after (sizes_of layout) self.entry false found }
    {
        AppendMachine {
            control: self.control_after(layout, found),
            ..self.noted(found)
        }
    }

    // Makes the next step, where neither a device call nor a buffer's change comes before it.
    #[inline(always)]
    pub(crate) fn step<L: Lines, B: Backing>(&mut self, board: &Board<L, B>, pass: &mut Pass<L, B>)
        requires board { IsOf board.now pass.old }
        requires plain { IsPlain self.old.control }
        requires way { (start : PassState) × IsUnderWay self.old start pass.old }
        ensures board { IsOf board.now pass.new }
        ensures one { HasStepped self.old self.new pass.old pass.new }
        ensures falls { append_measure self.new < append_measure self.old }
        ensures way { (start : PassState) → IsUnderWay self.old start pass.old → IsUnderWay self.new start pass.new }
    {
        runs_are_sound();
        runs_keep_content();
        history_goes_on();
        pass.sees_a_run();
        let layout = board.layout();
        let found = perform(board, pass, None, self.next(layout));
        *self = self.after(layout, found);
    }
}
