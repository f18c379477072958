//! The end of a mount over which a trace was run.
ghost use Rattle.std.specs.Prelude.{◌≡◌, ◌+◌, ◌≤◌, [], length, map, sum_by};
ghost use Rattle.nv_table.specs.invariant.Idle.{IsIdle};
ghost use Rattle.nv_table.specs.passes.Alone.{IsAlone};
ghost use Rattle.nv_table.specs.state.SlotValues.{part_value, store_value, slot_value};
ghost use Rattle.nv_table.specs.state.States.{IsOf};
ghost use Rattle.nv_table.specs.ends.Closing.{IsClosed};
ghost use Rattle.nv_runner.specs.EndedRuns.{IsClosedBy};

use nv_mount::Mount;
use nv_pmem::Lines;
use nv_store::Backing;
use nv_table::{Closed, Pass};

/// Ends a mount by pass 0, while no other pass is out: what `Mount::close` tells then.
pub fn close_alone<L: Lines + Drop, B: Backing + Drop>(
    mount: Mount<L, B>,
    pass: Pass<L, B>,
) -> Closed<L, B>
    requires board { IsOf mount.board pass }
    requires idle { IsIdle pass }
    requires alone { IsAlone pass.view }
    ensures closed { IsClosed L.device B.device
        (slot_value (part_value L.device L.history L.fault_count L.room) (store_value B.device B.history B.fault_count))
        mount.board pass result.parts.items result.stores.items result.placed result.tail }
    ensures told { IsClosedBy pass (map (part_value L.device L.history L.fault_count L.room) result.parts.items)
        (map (store_value B.device B.history B.fault_count) result.stores.items) (map L.history result.parts.items) (map B.history result.stores.items)
        (sum_by L.fault_count result.parts.items + sum_by B.fault_count result.stores.items) result.placed result.tail }
{
    pass.bare_is_still();
    match mount.close(pass) {
        Ok(closed) => closed,
        Err(_out) => unreachable!(),
    }
}
