//! What the slots of the table hold.
ghost use Rattle.nv_core.specs.state.Values.{Value};
ghost use Rattle.nv_table.specs.state.SlotValues.{part_value, store_value, slot_value};

use nv_pmem::Lines;
use nv_store::Backing;

/// The buffer of a page: its bytes, and whether they count.
#[derive(Drop)]
pub struct PageBuffer {
    pub bytes: Vec<u8>,
    pub valid: bool,
}

/// What a slot of the table holds: a part of the region, the store of a file, or a page's buffer, if it has one. Away is what stays
/// in its place while a call works on it.
#[derive(Drop)]
pub enum Slot<L, B> {
    Away,
    Part(L),
    Store(B),
    Page(Option<PageBuffer>),
}

/// What contracts see of it, as the core's plain data.
pub trait Shown {
    ghost shown: { Self → Value };
}

impl<L: Lines, B: Backing> Shown for Slot<L, B> {
    ghost shown = { slot_value (part_value L.device L.history L.fault_count L.room) (store_value B.device B.history B.fault_count) };
}
