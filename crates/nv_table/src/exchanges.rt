//! How a pass reaches what it owns.
ghost use Rattle.std.specs.Prelude.{◌≡◌};
ghost use Rattle.nv_table.specs.steps.Exchanges.{Exchanges};
ghost use Rattle.nv_table.specs.state.SlotValues.{part_value, store_value, slot_value};
ghost use Rattle.nv_table.specs.state.Views.{slot_times};
ghost use Rattle.nv_table.specs.state.States.{IsOf};

use crate::{Board, Pass, Slot};
use nv_pmem::Lines;
use nv_store::Backing;

/// Takes what a slot holds that the pass owns, and puts something else into it: a device is called while its slot holds
/// `Slot::Away`, and then comes back. No step is made, and no memory taken.
#[inline(always)]
pub fn exchange<L: Lines, B: Backing>(
    board: &Board<L, B>,
    pass: &mut Pass<L, B>,
    slot: usize,
    new: Slot<L, B>,
) -> Slot<L, B>
    requires board { IsOf board.now pass.old }
    requires owns_slots { slot_times slot pass.old.now ≡ 1 }
    ensures { Exchanges slot
        (slot_value (part_value L.device L.history L.fault_count L.room) (store_value B.device B.history B.fault_count) result)
        (slot_value (part_value L.device L.history L.fault_count L.room) (store_value B.device B.history B.fault_count) new)
        pass.old pass.new }
{
    pass.bring(slot);
    board.table.shared.exchange(&mut pass.seat, slot, new)
}
