//! The draw of a write's numbers from the log, behind its front: HEAD, TAIL, and the exchange at HEAD.
ghost use Rattle.std.specs.Prelude.{◌≡◌, ℕ, ◌<◌, None};
ghost use Rattle.nv_op.specs.Ops.{core_op_of};
ghost use Rattle.nv_table.specs.state.Keys.{sizes_of};
ghost use Rattle.nv_table.specs.state.States.{IsOf, PassState};
ghost use Rattle.nv_table.specs.steps.StepContracts.{Postcondition};
ghost use Rattle.nv_ring.specs.Draws.{Fits, HasCome, IsOpen, IsUnderWay, control_then, draw_after, draw_measure, draw_op, noted};

use nv_core::{passes_are_left_alone, runs_are_sound};
use nv_mirror::Refusal;
use nv_op::{Op, Word, perform};
use nv_pmem::Lines;
use nv_store::Backing;
use nv_table::{Board, Layout, Pass};

/// Where it stands: what its next step is, or what came of it.
#[derive(Clone, Copy, Debug, PartialEq, Eq)]
pub enum DrawControl {
    LoadHead,
    LoadTail,
    DrawNumbers,
    /// It has its numbers, from HEAD on as it loaded it. Its append goes on with its first entry.
    Drawn,
    /// It has none. What it holds is given back next, the last taken first.
    Refused(Refusal),
}

/// A write of at least one byte, from its load of HEAD on until it has its numbers.
#[derive(Clone, Copy, Debug, PartialEq, Eq)]
pub struct DrawMachine<'a> {
    pub file: u64,
    pub at: u64,
    pub bytes: &'a [u8],
    /// Where it ends in the file.
    pub end: u64,
    /// Its first page among all, and how many it touches. Each of them is to have an entry.
    pub page: u64,
    pub pages: u64,
    pub sized: bool,
    pub length: u64,
    /// HEAD as it loaded it, once it has: the first of its numbers, if it draws them.
    pub head: u64,
    pub control: DrawControl,
}

impl<'a> DrawMachine<'a> {
    // The next step.
    #[inline(always)]
    fn next(self) -> Op
        ensures { result ≡ draw_op self.entry }
    {
        match self.control {
            DrawControl::LoadHead => Op::Load { word: Word::Head },
            DrawControl::LoadTail => Op::Load { word: Word::Tail },
            _ => Op::Draw {
                head: self.head,
                count: self.pages,
            },
        }
    }

    // Where it stands after a step that found this.
    #[inline(always)]
    fn control_after(self, layout: Layout, found: u64) -> DrawControl
        requires { Fits (sizes_of layout) self }
        ensures { result ≡ control_then (sizes_of layout) self.entry self.entry.control found }
    {
        match self.control {
            DrawControl::LoadHead if found <= (1 << 60) - self.pages => DrawControl::LoadTail,
            DrawControl::LoadHead => DrawControl::Refused(Refusal::Spent { found }),
            DrawControl::LoadTail
                if self.head.saturating_sub(found) + self.pages <= layout.entries => {
                DrawControl::DrawNumbers
            }
            DrawControl::LoadTail => DrawControl::Refused(Refusal::Again {
                head: self.head,
                tail: found,
            }),
            DrawControl::DrawNumbers if found == self.head => DrawControl::Drawn,
            DrawControl::DrawNumbers => DrawControl::Refused(Refusal::Raced {
                seen: self.head,
                found,
            }),
            DrawControl::Drawn | DrawControl::Refused(_) => self.control,
        }
    }

    // What it notes of what was found.
    #[inline(always)]
    fn noted(self, found: u64) -> DrawMachine<'a>
        ensures { result ≡ noted self.entry self.entry.control found }
    {
        match self.control {
            DrawControl::LoadHead => DrawMachine {
                head: found,
                ..self
            },
            _ => self,
        }
    }

    // What it is after the step.
    #[inline(always)]
    fn after(self, layout: Layout, found: u64) -> DrawMachine<'a>
        requires { Fits (sizes_of layout) self }
        ensures { result ≡ draw_after (sizes_of layout) self.entry found }
    {
        DrawMachine {
            control: self.control_after(layout, found),
            ..self.noted(found)
        }
    }

    /// Makes the next step. Takes no memory, and waits for nobody.
    ///
    /// It draws its numbers by at most three steps, and is refused as `Spent` where HEAD leaves too few numbers, as `Again` where TAIL leaves no room for the
    /// entries, and as `Raced` where another write moved HEAD between its load and the exchange. Nothing is drawn then.
    #[inline(always)]
    pub fn advance<L: Lines, B: Backing>(&mut self, board: &Board<L, B>, pass: &mut Pass<L, B>)
        requires board { IsOf board.now pass.old }
        requires open { IsOpen self.old.control }
        requires way { (start : PassState) × IsUnderWay self.old start pass.old }
        ensures board { IsOf board.now pass.new }
        ensures one { (found : ℕ) × Postcondition pass.old None (core_op_of pass.old.view (draw_op self.old)) found pass.new
            × (self.new ≡ draw_after pass.old.view.opened.sizes self.old found) }
        ensures falls { draw_measure self.new < draw_measure self.old }
        ensures answer { (began : PassState) → HasCome self.old began pass.old → HasCome self.new began pass.new }
        ensures way { (start : PassState) → IsUnderWay self.old start pass.old → IsUnderWay self.new start pass.new }
    {
        runs_are_sound();
        passes_are_left_alone();
        pass.sees_a_run();
        let layout = board.layout();
        let found = perform(board, pass, None, self.next());
        *self = self.after(layout, found);
    }
}
