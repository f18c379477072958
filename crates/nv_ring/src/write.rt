//! A write of a file as a whole: one without a page, or its front, its draw, its append, and what it gives back, one after another.
ghost use Rattle.std.specs.Prelude.{◌≡◌, ◌≤◌, ◌<◌, [], min, vec_capacity};
ghost use Rattle.nv_plain.specs.Layouts.{mount_layout};
ghost use Rattle.nv_plain.specs.declared.call.FileCall.{FileCall};
ghost use Rattle.nv_core.specs.state.Passes.{IsAllowed, plain_call};
ghost use Rattle.nv_op.specs.Ops.{call_asked};
ghost use Rattle.nv_table.specs.invariant.Idle.{IsIdle};
ghost use Rattle.nv_table.specs.state.Keys.{sizes_of};
ghost use Rattle.nv_table.specs.state.States.{IsOf, PassState};
ghost use Rattle.nv_ring.specs.RunningWrites.{AsksForWrite, IsOpen, IsSettled, IsUnderWay, asked_in, write_measure};
ghost use Rattle.nv_ring.specs.WriteSteps.{HasMadeOne, IsFresh, write_fault, write_place};

use crate::{AppendControl, AppendMachine, DrawControl, DrawMachine};
use nv_mirror::{
    FrontControl, FrontMachine, PagelessControl, PagelessMachine, Refusal, ReleaseControl,
    ReleaseMachine,
};
use nv_op::{Asked, Asks};
use nv_pmem::Lines;
use nv_store::Backing;
use nv_table::{Board, Layout, Pass};

/// A write of a file, by the part that it is at.
#[derive(Clone, Copy, Debug, PartialEq, Eq)]
pub enum RunningWrite<'a> {
    /// It has no bytes.
    Pageless(PagelessMachine<'a>),
    /// It takes its locks, or gives them back since it is refused.
    Front(FrontMachine<'a>),
    /// It draws its numbers.
    Draw(DrawMachine<'a>),
    Append(AppendMachine<'a>),
    Release(ReleaseMachine<'a>),
    /// Its place, or why it has none.
    Over(Result<u64, Refusal>),
}

impl<'a> RunningWrite<'a> {
    /// A write that is allowed, and has made no step yet.
    #[inline(always)]
    pub fn new(layout: Layout, asked: Asked<'a>) -> Self
        requires write { AsksForWrite asked }
        requires allowed { IsAllowed (sizes_of layout) (call_asked asked) }
        ensures begins { (pass : PassState) → pass.view.opened.sizes ≡ sizes_of layout → IsIdle pass → IsUnderWay (call_asked asked.entry) result pass pass }
        ensures settled { IsOpen result }
        ensures fresh { IsFresh (sizes_of layout) (call_asked asked.entry) result }
        ensures asks { (call : FileCall) (pass : PassState) → asked_in call result pass ≡ call }
    {
        if asked.size() == 0 {
            RunningWrite::Pageless(PagelessMachine::new(asked))
        } else {
            RunningWrite::Front(FrontMachine::new(layout, asked))
        }
    }

    // Goes on to its next part where one is over.
    fn settled(self, layout: Layout) -> Self
        requires way { (call : FileCall) × (start : PassState) × (now : PassState) × (sizes_of layout ≡ now.view.opened.sizes) × IsUnderWay call self start now }
        ensures settled { IsSettled result }
        ensures falls { write_measure result ≤ write_measure self.entry }
        ensures fault { write_fault result ≡ write_fault self.entry }
        ensures place { write_place result ≡ write_place self.entry }
        ensures asks { (asked : FileCall) (now : PassState) → asked_in asked result now ≡ asked_in asked self.entry now }
        ensures way { (call : FileCall) (start now : PassState) → IsUnderWay call self.entry start now → IsUnderWay call result start now }
    {
        match self {
            RunningWrite::Pageless(m) => match m.control {
                PagelessControl::Over(result) => RunningWrite::Over(result),
                _ => self,
            },
            RunningWrite::Front(m) => match m.control {
                FrontControl::Passed => RunningWrite::Draw(DrawMachine::behind(m, layout)),
                FrontControl::Over(refusal) => RunningWrite::Over(Err(refusal)),
                _ => self,
            },
            RunningWrite::Draw(m) => match m.control {
                DrawControl::Drawn => RunningWrite::Append(m.append()),
                DrawControl::Refused(_) => RunningWrite::Front(m.give_back(layout)),
                _ => self,
            },
            RunningWrite::Append(m) => match m.control {
                AppendControl::Appended => RunningWrite::Release(m.release()),
                AppendControl::Refused(_) => RunningWrite::Front(m.give_back(layout)),
                _ => self,
            },
            RunningWrite::Release(m) => match m.control {
                ReleaseControl::Over => RunningWrite::Over(Ok(m.place)),
                _ => self,
            },
            RunningWrite::Over(_) => self,
        }
    }

    // Makes the next step of its part.
    fn step<A: Asks, L: Lines, B: Backing>(
        &mut self,
        board: &Board<L, B>,
        pass: &mut Pass<L, B>,
        parts: &mut Vec<L>,
    )
        requires board { IsOf board.now pass.old }
        requires open { IsOpen self.old }
        requires bare { parts.old.items ≡ [] }
        requires places { min mount_layout.group_limit board.now.opened.sizes.entries ≤ vec_capacity parts.old }
        requires way { (start : PassState) × IsUnderWay (plain_call A.call) self.old start pass.old }
        ensures board { IsOf board.now pass.new }
        ensures one { HasMadeOne self.old self.new pass.old pass.new }
        ensures falls { write_measure self.new < write_measure self.old }
        ensures bare { parts.new.items ≡ [] }
        ensures places { vec_capacity parts.new ≡ vec_capacity parts.old }
        ensures asks { asked_in A.call self.new pass.new ≡ asked_in A.call self.old pass.old }
        ensures way { (call : FileCall) (start : PassState) → IsUnderWay call self.old start pass.old → IsUnderWay call self.new start pass.new }
    {
        match self {
            RunningWrite::Pageless(m) => m.advance::<A, L, B>(board, pass),
            RunningWrite::Front(m) => m.advance::<A, L, B>(board, pass),
            RunningWrite::Draw(m) => m.advance(board, pass),
            RunningWrite::Append(m) => m.advance(board, pass, parts),
            RunningWrite::Release(m) => m.advance(board, pass),
            RunningWrite::Over(_) => unreachable!(),
        }
    }

    /// Makes the next step, after the device calls that lie before it. Its call begins as what was asked, which is made as this write. While those of a commit are made the parts of its entries lie in `parts`, which is empty,
    /// and has a place for each that a write may have.
    pub fn advance<A: Asks, L: Lines, B: Backing>(
        &mut self,
        board: &Board<L, B>,
        pass: &mut Pass<L, B>,
        parts: &mut Vec<L>,
    )
        requires board { IsOf board.now pass.old }
        requires open { IsOpen self.old }
        requires bare { parts.old.items ≡ [] }
        requires places { min mount_layout.group_limit board.now.opened.sizes.entries ≤ vec_capacity parts.old }
        requires way { (start : PassState) × IsUnderWay (plain_call A.call) self.old start pass.old }
        ensures board { IsOf board.now pass.new }
        ensures settled { IsSettled self.new }
        ensures one { HasMadeOne self.old self.new pass.old pass.new }
        ensures falls { write_measure self.new < write_measure self.old }
        ensures bare { parts.new.items ≡ [] }
        ensures places { vec_capacity parts.new ≡ vec_capacity parts.old }
        ensures asks { asked_in A.call self.new pass.new ≡ asked_in A.call self.old pass.old }
        ensures way { (call : FileCall) (start : PassState) → IsUnderWay call self.old start pass.old → IsUnderWay call self.new start pass.new }
    {
        self.step::<A, L, B>(board, pass, parts);
        *self = self.settled(board.layout());
    }
}
