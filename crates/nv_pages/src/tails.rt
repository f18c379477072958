//! The header's part that a pass owns, and the move of its tail.
ghost use Rattle.std.specs.Prelude.{◌≡◌};
ghost use Rattle.nv_core.specs.state.Passes.{IsOneOf};
ghost use Rattle.nv_core.specs.invariant.Rooms.{KeepsRoomy};
ghost use Rattle.nv_core.specs.state.Values.{Value};
ghost use Rattle.nv_table.specs.state.Views.{slot_times};
ghost use Rattle.nv_table.specs.state.States.{IsOf};
ghost use Rattle.nv_pages.specs.DeviceCalls.{HasMovedTail};

use crate::slots::put;
use nv_entry::RegionFault;
use nv_pmem::{Lines, store_durably};
use nv_store::Backing;
use nv_table::{Board, Pass, Slot, exchange};

// The slot of the header's part.
const HEADER_SLOT: usize = 0;

// Where the tail stands in the header's part.
const TAIL_LINE: u64 = 1;

const TAIL_WORD: u64 = 0;

/// Moves the persistent tail, in the header's part that the pass owns, to `tail`. It fails exactly where the part's count rose; then the tail is the old one or the
/// new.
pub fn move_header_tail<L: Lines, B: Backing>(
    board: &Board<L, B>,
    pass: &mut Pass<L, B>,
    tail: u64,
) -> Result<(), RegionFault>
    requires board { IsOf board.now pass.old }
    requires owns_slots { slot_times 0 pass.old.now ≡ 1 }
    requires part { (value : Value) → IsOneOf pass.old.now (0, value) → KeepsRoomy value }
    ensures { HasMovedTail tail result pass.old pass.new }
{
    let held = exchange(board, pass, HEADER_SLOT, Slot::Away);
    let Slot::Part(mut header) = held else {
        unreachable!()
    };
    let moved = store_durably(&mut header, TAIL_LINE, TAIL_WORD, tail);
    put(board, pass, HEADER_SLOT, Slot::Part(header));
    moved?;
    Ok(())
}
