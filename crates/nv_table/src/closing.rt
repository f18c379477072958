//! The end of a board: what its slots hold comes out.
ghost use Rattle.std.specs.Prelude.{◌≡◌, ◌+◌, ◌≤◌, ◌++◌, [], length, vec_capacity};
ghost use Rattle.std.specs.Mem.Slots.{IsFull, slots_items};
ghost use Rattle.nv_table.specs.passes.PassesMade.{IsShownStill};
ghost use Rattle.nv_table.specs.ends.Closing.{IsClosed};
ghost use Rattle.nv_table.specs.state.SlotValues.{part_value, store_value, slot_value};
ghost use Rattle.nv_table.specs.ends.OpeningSlots.{parts_in, stores_in};
ghost use Rattle.nv_table.specs.state.Views.{made_of};
ghost use Rattle.nv_table.specs.state.States.{IsOf};

use crate::opening::{Unfilled, take_apart};
use crate::seats::put_back;
use crate::{Board, ORDER, Pass, Slot, TAIL};
use atomic_table::Closed as ClosedTable;
use nv_core::{passes_are_left_alone, runs_are_sound};
use nv_pmem::Lines;
use nv_store::Backing;
use std::alloc::Global;

/// What comes out of a board when it is closed.
#[derive(Drop)]
pub struct Closed<L, B> {
    /// All parts of the region, in their order.
    pub parts: Vec<L>,
    /// The store of each file, in the files' order.
    pub stores: Vec<B>,
    /// How many calls have their place in the history.
    pub placed: u64,
    /// The first number of the log that is not retired.
    pub tail: u64,
}

// Takes out what the slots of a table hold: the parts come before those that had no slot, and the stores behind those that are there.
fn empty_slots<L: Drop, B: Drop>(
    mut closed: ClosedTable<Slot<L, B>, Global>,
    mut parts: Vec<L>,
    mut stores: Vec<B>,
) -> Unfilled<L, B>
    requires full { IsFull closed.slots }
    requires part_places { length parts.items + length (parts_in (slots_items closed.slots)) ≤ vec_capacity parts }
    requires store_places { length stores.items + length (stores_in (slots_items closed.slots)) ≤ vec_capacity stores }
    ensures parts { result.parts.items ≡ parts_in (slots_items closed.slots) ++ parts.items }
    ensures stores { result.stores.items ≡ stores.items ++ stores_in (slots_items closed.slots) }
{
    let spare = parts.len();
    for slot in 0..closed.slot_count() {
        take_apart(closed.take(slot), &mut parts, &mut stores);
    }
    closed.free();
    parts.rotate_left(spare);
    Unfilled { parts, stores }
}

impl<L: Lines + Drop, B: Backing + Drop> Board<L, B> {
    /// Closes the board by pass 0, which has taken in all passes that it made. What it owns goes home first, while the locks of these
    /// cells stay shut. No device call may have come since its last step. Takes no memory.
    pub fn close(self, mut pass: Pass<L, B>) -> Closed<L, B>
        requires board { IsOf self pass }
        requires zero { pass.view.number ≡ 0 }
        requires all { length pass.view.ended ≡ made_of pass.view }
        requires still { IsShownStill pass }
        ensures { IsClosed L.device B.device
            (slot_value (part_value L.device L.history L.fault_count L.room) (store_value B.device B.history B.fault_count))
            self pass result.parts.items result.stores.items result.placed result.tail }
    {
        runs_are_sound();
        passes_are_left_alone();
        put_back(&self, &mut pass);
        let Board { table, layout: _ } = self;
        let Pass {
            seat,
            number: _,
            made: _,
            joined: _,
            held,
            drawn: _,
            lost: _,
            inherited: _,
            parts,
            stores,
        } = pass;
        drop(held);
        let closed = table.close_with(seat);
        let placed = closed.word(ORDER as usize);
        let tail = closed.word(TAIL as usize);
        let Unfilled { parts, stores } = empty_slots(closed, parts, stores);
        Closed {
            parts,
            stores,
            placed,
            tail,
        }
    }
}
