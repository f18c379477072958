//! One step of a pass.
ghost use Rattle.std.specs.Prelude.{◌≡◌, None};
ghost use Rattle.nv_plain.specs.declared.call.FileCall.{FileCall};
ghost use Rattle.nv_plain.specs.declared.call.FileCall.TheVariants.{Sync};
ghost use Rattle.nv_table.specs.steps.StepContracts.{Postcondition};
ghost use Rattle.nv_table.specs.state.Views.{pass_of};
ghost use Rattle.nv_table.specs.state.States.{IsOf};
ghost use Rattle.nv_table.specs.steps.CallSteps.{Precondition};
ghost use Rattle.nv_op.specs.Ops.{BeginAlike, Fits, begun_as, core_op_of, opened_by};

use crate::{Asked, Op};
use nv_core::no_sound_state_allows;
use nv_pmem::Lines;
use nv_store::Backing;
use nv_table::{Board, Pass, Says, StepSpec, step};
use std::marker::Brand;

// A step, with what is so of the device calls before it.
#[inline(always)]
fn perform_by<E: StepSpec, L: Lines, B: Backing>(
    board: &Board<L, B>,
    pass: &mut Pass<L, B>,
    opens: Option<Asked<'_>>,
    op: Op,
) -> u64
    requires board { IsOf board.now pass.old }
    requires fits { Fits pass.old.view.opened.sizes E.opens (pass_of pass.old.view) op }
    requires op { E.op ≡ core_op_of pass.old.view op }
    requires opens { BeginAlike E.opens (opened_by opens) }
    requires due { (due : Precondition pass.old E.opens E.op) × E.said due.works }
    ensures board { IsOf board.now pass.new }
    ensures stepped { (stepped : Postcondition pass.old E.opens E.op result pass.new) × E.said stepped.works }
{
    no_sound_state_allows();
    pass.due_steps_stand();
    let layout = board.layout();
    step::<E, L, B>(
        board,
        pass,
        op.place(layout) as usize,
        op.change(),
        op.moves(layout),
        op.marks(opens),
    )
}

/// Makes the step of an operation, where that is the pass's next one. A call begins by its first step, with what it asks for. The result is what
/// the word was found at.
#[inline(always)]
pub fn perform<L: Lines, B: Backing>(
    board: &Board<L, B>,
    pass: &mut Pass<L, B>,
    opens: Option<Asked<'_>>,
    op: Op,
) -> u64
    requires board { IsOf board.now pass.old }
    requires fits { Fits pass.old.view.opened.sizes (opened_by opens) (pass_of pass.old.view) op }
    requires due { Precondition pass.old (opened_by opens) (core_op_of pass.old.view op) }
    ensures board { IsOf board.now pass.new }
    ensures stepped { Postcondition pass.old (opened_by opens.entry) (core_op_of pass.old.view op) result pass.new }
{
    perform_by::<Brand, L, B>(board, pass, opens, op)
}

/// What a call is asked as, of which only contracts speak: it begins as this by its first step.
pub trait Asks {
    ghost call: { FileCall };
}

// A call says what it is asked as where it passes the marker.
impl Asks for Brand {
    ghost call = { Sync 0 };
}

/// The same, where the call that begins is asked as another one than it is made as.
#[inline(always)]
pub fn perform_asked<A: Asks, L: Lines, B: Backing>(
    board: &Board<L, B>,
    pass: &mut Pass<L, B>,
    opens: Option<Asked<'_>>,
    op: Op,
) -> u64
    requires board { IsOf board.now pass.old }
    requires fits { Fits pass.old.view.opened.sizes (begun_as A.call (opened_by opens)) (pass_of pass.old.view) op }
    requires due { Precondition pass.old (begun_as A.call (opened_by opens)) (core_op_of pass.old.view op) }
    ensures board { IsOf board.now pass.new }
    ensures stepped { Postcondition pass.old (begun_as A.call (opened_by opens.entry)) (core_op_of pass.old.view op) result pass.new }
{
    perform_by::<Brand, L, B>(board, pass, opens, op)
}

/// The same, where something is so of the device calls that the pass has made since its last step: it is so of those that the step tells.
#[inline(always)]
pub fn perform_after<W: Says, L: Lines, B: Backing>(
    board: &Board<L, B>,
    pass: &mut Pass<L, B>,
    op: Op,
) -> u64
    requires board { IsOf board.now pass.old }
    requires fits { Fits pass.old.view.opened.sizes None (pass_of pass.old.view) op }
    requires due { (due : Precondition pass.old None (core_op_of pass.old.view op)) × W.said due.works }
    ensures board { IsOf board.now pass.new }
    ensures stepped { (stepped : Postcondition pass.old None (core_op_of pass.old.view op) result pass.new) × W.said stepped.works }
{
    perform_by::<Brand, L, B>(board, pass, None, op)
}
