//! A call that touches no page, a sync or a read or a write of no bytes: STOP, ORDER, and its place.
ghost use Rattle.std.specs.Prelude.{◌≡◌, ℕ, ◌<◌};
ghost use Rattle.nv_op.specs.Ops.{begun_as, call_asked, core_op_of, opened_by};
ghost use Rattle.nv_core.specs.state.Passes.{IsAllowed, len_of, plain_call};
ghost use Rattle.nv_table.specs.invariant.Idle.{IsIdle};
ghost use Rattle.nv_table.specs.steps.StepContracts.{Postcondition};
ghost use Rattle.nv_table.specs.state.States.{IsOf, PassState};
ghost use Rattle.nv_mirror.specs.declared.pageless.PagelessControl.TheVariants as controls;
ghost use Rattle.nv_mirror.specs.Pageless.{IsOpen, IsUnderWay, pageless_after, pageless_measure, pageless_op, pageless_opens};

use crate::Refusal;
use nv_core::{runs_are_sound, runs_keep_content};
use nv_op::{Asked, Asks, Op, Word, perform_asked};
use nv_plain::history_goes_on;
use nv_pmem::Lines;
use nv_store::Backing;
use nv_table::{Board, Pass};

/// Where it stands: what its next step is, or what came of it.
#[derive(Clone, Copy, Debug, PartialEq, Eq)]
pub enum PagelessControl {
    Begin,
    LoadOrder,
    TakePlace,
    Over(Result<u64, Refusal>),
}

/// A call that touches no page, which makes one step at each advance.
#[derive(Clone, Copy, Debug, PartialEq, Eq)]
pub struct PagelessMachine<'a> {
    pub asked: Asked<'a>,
    pub control: PagelessControl,
}

impl<'a> PagelessMachine<'a> {
    /// Such a call, which has made no step yet. It may begin on a pass that is between two calls, where it is allowed.
    pub fn new(asked: Asked<'a>) -> Self
        requires none { len_of (call_asked asked) ≡ 0 }
        ensures machine { result ≡ record { asked = asked.entry; control = controls.Begin } }
        ensures begins { (pass : PassState) → IsIdle pass → IsAllowed pass.view.opened.sizes (call_asked asked.entry) → IsUnderWay result pass pass }
    {
        PagelessMachine {
            asked,
            control: PagelessControl::Begin,
        }
    }

    // The next step.
    fn next(self) -> Op
        ensures { result ≡ pageless_op self.entry.control }
    {
        match self.control {
            PagelessControl::Begin => Op::Load { word: Word::Stop },
            PagelessControl::LoadOrder => Op::Load { word: Word::Order },
            _ => Op::Place,
        }
    }

    // And the call that it begins, if it does.
    fn opens(self) -> Option<Asked<'a>>
        ensures { result ≡ pageless_opens self.entry }
    {
        match self.control {
            PagelessControl::Begin => Some(self.asked),
            _ => None,
        }
    }

    // Where it stands after it.
    fn after(self, found: u64) -> PagelessControl
        ensures { result ≡ pageless_after self.entry.control found }
    {
        match self.control {
            PagelessControl::Begin if found == 0 => PagelessControl::LoadOrder,
            PagelessControl::Begin => PagelessControl::Over(Err(Refusal::Stopped)),
            PagelessControl::LoadOrder if found < 1 << 60 => PagelessControl::TakePlace,
            PagelessControl::LoadOrder => PagelessControl::Over(Err(Refusal::Spent { found })),
            _ => PagelessControl::Over(Ok(found)),
        }
    }

    /// Makes the next step; the first one begins the call as what was asked, which is made as this one. Where the call is over, what came of it is the control state: its place, or the refusal that the way tells.
    pub fn advance<A: Asks, L: Lines, B: Backing>(
        &mut self,
        board: &Board<L, B>,
        pass: &mut Pass<L, B>,
    )
        requires board { IsOf board.now pass.old }
        requires open { IsOpen self.old.control }
        requires makes { plain_call A.call ≡ call_asked self.old.asked }
        requires way { (start : PassState) × IsUnderWay self.old start pass.old }
        ensures board { IsOf board.now pass.new }
        ensures asked { self.new.asked ≡ self.old.asked }
        ensures one { (found : ℕ) × Postcondition pass.old (begun_as A.call (opened_by (pageless_opens self.old))) (core_op_of pass.old.view (pageless_op self.old.control)) found pass.new
            × (self.new.control ≡ pageless_after self.old.control found) }
        ensures falls { pageless_measure self.new.control < pageless_measure self.old.control }
        ensures way { (start : PassState) → IsUnderWay self.old start pass.old → IsUnderWay self.new start pass.new }
    {
        runs_are_sound();
        runs_keep_content();
        history_goes_on();
        pass.sees_a_run();
        let found = perform_asked::<A, L, B>(board, pass, self.opens(), self.next());
        self.control = self.after(found);
    }
}
