//! The end of a mount.
ghost use Rattle.nv_table.specs.state.SlotValues.{part_value, store_value, slot_value};
ghost use Rattle.nv_session.specs.Closing.{HasClosed};

use crate::FirstSession;
use nv_bench::Bench;

impl<T: Bench> FirstSession<T> {
    /// Ends the mount, and gives parts and stores back to their bench, which comes out. What the calls of all sessions have made of the
    /// files is told over it, as by `Mount::close`. Takes no memory.
    pub fn close(self) -> T
        ensures { HasClosed record {
          part_device = T.Part.device;
          part_history = T.Part.history;
          part_faults = T.Part.fault_count;
          part_value = part_value T.Part.device T.Part.history T.Part.fault_count T.Part.room;
          store_device = T.Store.device;
          store_history = T.Store.history;
          store_faults = T.Store.fault_count;
          store_value = store_value T.Store.device T.Store.history T.Store.fault_count;
          shown = slot_value (part_value T.Part.device T.Part.history T.Part.fault_count T.Part.room) (store_value T.Store.device T.Store.history T.Store.fault_count);
        } self (T.state result) }
    {
        let FirstSession {
            bench,
            mount,
            pass,
            workspace,
        } = self;
        drop(workspace);
        pass.bare_is_still();
        let mut bench = bench;
        match mount.close(pass) {
            Ok(closed) => bench.give_back(closed.parts, closed.stores),
            Err(_passes_are_out) => unreachable!(),
        }
        bench
    }
}
