//! The end of a call that has pages and its place: it gives back SIZE, where it has it, and then its pages.
ghost use Rattle.std.specs.Prelude.{◌≡◌, ◌<◌, ℕ, None};
ghost use Rattle.nv_op.specs.Ops.{core_op_of};
ghost use Rattle.nv_table.specs.state.Keys.{sizes_of};
ghost use Rattle.nv_table.specs.steps.StepContracts.{Postcondition};
ghost use Rattle.nv_table.specs.state.States.{IsOf, PassState};
ghost use Rattle.nv_mirror.specs.Releases.{Fits, IsOpen, IsUnderWay, release_after, release_measure, release_op};

use nv_op::{Asked, Op, Word, perform};
use nv_pmem::Lines;
use nv_store::Backing;
use nv_table::{Board, Layout, Pass};

/// Where it stands: what its next step is.
#[derive(Clone, Copy, Debug, PartialEq, Eq)]
pub enum ReleaseControl {
    GiveSize,
    /// So many of its pages are given back, rising.
    GivePage { given: u64 },
    Over,
}

/// A read or a write that has its place.
#[derive(Clone, Copy, Debug, PartialEq, Eq)]
pub struct ReleaseMachine<'a> {
    pub asked: Asked<'a>,
    /// Its first page among all, and how many it has.
    pub page: u64,
    pub pages: u64,
    pub sized: bool,
    pub length: u64,
    pub place: u64,
    pub control: ReleaseControl,
}

impl<'a> ReleaseMachine<'a> {
    // The next step.
    #[inline(always)]
    fn next(self, layout: Layout) -> Op
        requires { Fits (sizes_of layout) self }
        ensures { result ≡ release_op self.entry }
    {
        // Only the clause speaks of it.
        let _ = layout;
        match self.control {
            ReleaseControl::GiveSize => Op::Give {
                cell: Word::Size {
                    file: self.asked.file(),
                },
            },
            ReleaseControl::GivePage { given } => Op::Give {
                cell: Word::Page {
                    page: self.page + given,
                },
            },
            ReleaseControl::Over => Op::Place,
        }
    }

    // What it is after it.
    #[inline(always)]
    fn after(self, layout: Layout) -> ReleaseMachine<'a>
        requires { Fits (sizes_of layout) self }
        ensures { result ≡ release_after self.entry }
    {
        // Only the clause speaks of it.
        let _ = layout;
        let control = match self.control {
            ReleaseControl::GiveSize => ReleaseControl::GivePage { given: 0 },
            ReleaseControl::GivePage { given } if given + 1 < self.pages => {
                ReleaseControl::GivePage { given: given + 1 }
            }
            _ => ReleaseControl::Over,
        };
        ReleaseMachine { control, ..self }
    }

    /// Makes the next step.
    #[inline(always)]
    pub fn advance<L: Lines, B: Backing>(&mut self, board: &Board<L, B>, pass: &mut Pass<L, B>)
        requires board { IsOf board.now pass.old }
        requires open { IsOpen self.old.control }
        requires way { (start : PassState) × IsUnderWay self.old start pass.old }
        ensures board { IsOf board.now pass.new }
        ensures one { (found : ℕ) × Postcondition pass.old None (core_op_of pass.old.view (release_op self.old)) found pass.new × (self.new ≡ release_after self.old) }
        ensures falls { release_measure self.new < release_measure self.old }
        ensures way { (start : PassState) → IsUnderWay self.old start pass.old → IsUnderWay self.new start pass.new }
    {
        let layout = board.layout();
        perform(board, pass, None, self.next(layout));
        *self = self.after(layout);
    }
}
