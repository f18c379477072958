//! The slots of pages, stores and entries, and how something comes back into one.
ghost use Rattle.std.specs.Prelude.{◌≡◌, ◌<◌};
ghost use Rattle.nv_core.specs.state.Words.{page_total};
ghost use Rattle.nv_core.specs.state.Passes.{IsOneOf};
ghost use Rattle.nv_core.specs.state.Values.{Value, Bare};
ghost use Rattle.nv_table.specs.steps.Exchanges.{Exchanges};
ghost use Rattle.nv_table.specs.state.SlotValues.{part_value, store_value, slot_value};
ghost use Rattle.nv_table.specs.state.Views.{slot_times};
ghost use Rattle.nv_table.specs.state.States.{IsOf};
ghost use Rattle.nv_pages.specs.PageWork.{page_slot, store_slot, entry_slot};

use nv_pmem::Lines;
use nv_store::Backing;
use nv_table::{Board, Pass, Slot, exchange};

// The slot of a page's buffer.
#[inline(always)]
pub(crate) fn slot_of_page<L: Lines, B: Backing>(board: &Board<L, B>, page: u64) -> usize
    requires { page < page_total board.now.opened.sizes }
    ensures { result ≡ page_slot board.now.opened.sizes page }
{
    let layout = board.layout();
    (1 + layout.entries + layout.files + page) as usize
}

// The slot of a file's store.
#[inline(always)]
pub(crate) fn slot_of_store<L: Lines, B: Backing>(board: &Board<L, B>, file: u64) -> usize
    requires { file < board.now.opened.sizes.files }
    ensures { result ≡ store_slot board.now.opened.sizes file }
{
    let layout = board.layout();
    (1 + layout.entries + file) as usize
}

// The slot of the part of a number's entry.
#[inline(always)]
pub(crate) fn slot_of_entry<L: Lines, B: Backing>(board: &Board<L, B>, number: u64) -> usize
    ensures { result ≡ entry_slot board.now.opened.sizes number }
{
    let layout = board.layout();
    (1 + number % layout.entries) as usize
}

// Puts something into a slot that the pass owns, whose content is away.
#[inline(always)]
pub(crate) fn put<L: Lines, B: Backing>(
    board: &Board<L, B>,
    pass: &mut Pass<L, B>,
    slot: usize,
    held: Slot<L, B>,
)
    requires board { IsOf board.now pass.old }
    requires owns_slots { slot_times slot pass.old.now ≡ 1 }
    requires away { (value : Value) → IsOneOf pass.old.now (slot, value) → value ≡ Bare }
    ensures { Exchanges slot Bare (slot_value (part_value L.device L.history L.fault_count L.room) (store_value B.device B.history B.fault_count) held) pass.old pass.new }
{
    let away = exchange(board, pass, slot, held);
    let Slot::Away = away else { unreachable!() };
}
