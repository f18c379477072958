//! A step of any kind.
ghost use Rattle.std.specs.Prelude.{◌≡◌, ◌≢◌, ℕ};
ghost use Rattle.nv_core.specs.steps.Ops.{move_of};
ghost use Rattle.nv_table.specs.state.Changes.{changed};
ghost use Rattle.nv_table.specs.invariant.Drawn.{marks_of, IsFromHead, drawn_then, lost_then};
ghost use Rattle.nv_table.specs.steps.Moving.{shift_said, comes_by};
ghost use Rattle.nv_table.specs.steps.StepContracts.{PreconditionAt, Postcondition};
ghost use Rattle.nv_table.specs.state.Views.{pass_of};
ghost use Rattle.nv_table.specs.state.States.{IsOf, Out, shift_of};
ghost use Rattle.nv_table.specs.declared.stepping.Moves.TheVariants.{Goes};

use crate::acting::act;
use crate::laws::laws_of_the_core;
use crate::pass::turn_held;
use crate::{Board, Change, Pass, Slot, StepSpec};
use nv_pmem::Lines;
use nv_store::Backing;

/// Which slot a step moves.
#[derive(Clone, Copy, Debug)]
pub enum Moves {
    /// None.
    Stays,
    /// This slot comes to the pass.
    Comes(usize),
    /// This slot comes where the word was found 0.
    ComesIfFree(usize),
    /// This slot goes home.
    Goes(usize),
}

impl Moves {
    // The slot that comes, where the word was found so.
    #[inline(always)]
    fn coming(self, found: u64) -> Option<usize>
        ensures { comes_by (shift_said self found) ≡ result }
    {
        match self {
            Moves::Comes(slot) => Some(slot),
            Moves::ComesIfFree(slot) if found == 0 => Some(slot),
            _ => None,
        }
    }
}

/// What a step makes of the numbers that its pass has drawn.
#[derive(Clone, Copy, Debug)]
pub enum Marks {
    /// They stay.
    Nothing,
    /// It draws some, where HEAD is found as the pass saw it last.
    Draws,
    /// The call takes its place, and is no open one any more.
    Places,
    /// A device fault ends the call.
    Stops,
}

impl Marks {
    // The first number of the open write of its pass then, or else of its faulted one.
    #[inline(always)]
    fn drawn(self, change: Change, found: u64, drawn: Option<u64>, lost: Option<u64>) -> Option<u64>
        ensures { result ≡ drawn_then self change found drawn lost }
    {
        match (self, change) {
            (Marks::Draws, Change::Exchange(old, _)) if found == old => Some(found),
            (Marks::Places, _) => lost,
            _ => drawn,
        }
    }

    // And that of its faulted one alone.
    #[inline(always)]
    fn lost(self, drawn: Option<u64>, lost: Option<u64>) -> Option<u64>
        ensures { result ≡ lost_then self drawn lost }
    {
        match self {
            Marks::Stops => drawn,
            _ => lost,
        }
    }
}

/// One step of a kind, on the word at a place, which moves a slot or none, and marks what its pass has drawn.
#[inline(always)]
pub fn step<E: StepSpec, L: Lines, B: Backing>(
    board: &Board<L, B>,
    pass: &mut Pass<L, B>,
    place: usize,
    change: Change,
    moves: Moves,
    marks: Marks,
) -> u64
    requires board { IsOf board.now pass.old }
    requires next { (next : PreconditionAt pass.old E.opens E.op place (changed change)) × E.said next.works }
    requires marks { marks_of E.opens E.op ≡ marks }
    requires head { IsFromHead marks change (pass_of pass.old.view).head }
    requires moves { (found : ℕ) → shift_of pass.old.view.opened.sizes (move_of pass.old.view.opened.sizes E.op found) ≡ shift_said moves found }
    ensures board { IsOf board.now pass.new }
    ensures stepped { (stepped : Postcondition pass.old E.opens E.op result pass.new) × E.said stepped.works }
{
    laws_of_the_core();
    match moves {
        Moves::Goes(slot) => {
            // A field is used, so that what keeps the pass is known before its slots turn.
            let _ = &pass.number;
            pass.bring(slot);
            let found = act::<E, Slot<L, B>>(&board.table.shared, &mut pass.seat, place, change);
            let (drawn, lost) = (pass.drawn, pass.lost);
            pass.drawn = marks.drawn(change, found, drawn, lost);
            pass.lost = marks.lost(drawn, lost);
            turn_held(&mut pass.held, 1);
            pass.held.pop();
            found
        }
        _ => {
            let found = act::<E, Slot<L, B>>(&board.table.shared, &mut pass.seat, place, change);
            let (drawn, lost) = (pass.drawn, pass.lost);
            pass.drawn = marks.drawn(change, found, drawn, lost);
            pass.lost = marks.lost(drawn, lost);
            if let Some(slot) = moves.coming(found) {
                let len = pass.held.len();
                pass.held.push_reserved(slot);
                turn_held(&mut pass.held, len);
            }
            found
        }
    }
}
