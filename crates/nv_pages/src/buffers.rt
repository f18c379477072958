//! The buffers of pages that a pass owns.
ghost use Rattle.std.specs.Prelude.{◌≡◌, ◌≢◌, ◌+◌, ◌<◌, ◌≤◌, length, Some};
ghost use Rattle.nv_core.specs.state.Words.{PAGE, page_total};
ghost use Rattle.nv_core.specs.state.Values.{Buffer, ABuffer, lacks_buffer as lacks, emptied, filled, received, patched};
ghost use Rattle.nv_core.specs.state.Passes.{IsOneOf};
ghost use Rattle.nv_table.specs.state.SlotValues.{part_value, store_value, slot_value};
ghost use Rattle.nv_table.specs.state.Views.{slot_times};
ghost use Rattle.nv_table.specs.state.States.{IsOf};
ghost use Rattle.nv_pages.specs.Altered.{IsAltered};
ghost use Rattle.nv_pages.specs.PageWork.{OfKept, IsCopied, page_slot, with_page, with_patch, robbed};

use crate::entries::patch;
use crate::slots::{put, slot_of_page};
use nv_pmem::Lines;
use nv_store::Backing;
use nv_table::{Board, PageBuffer, Pass, Slot, exchange};

// Copies the bytes of a slot's buffer from an offset on, where it is valid.
#[inline(always)]
fn copy_from<L: Lines, B: Backing>(held: &Slot<L, B>, at: usize, into: &mut [u8]) -> Option<usize>
    ensures { IsCopied (slot_value (part_value L.device L.history L.fault_count L.room) (store_value B.device B.history B.fault_count) held.now) at into.old into.new result }
{
    let Slot::Page(Some(buffer)) = held else {
        return None;
    };
    if !buffer.valid {
        return None;
    }
    let from = at.min(buffer.bytes.len());
    let count = into.len().min(buffer.bytes.len() - from);
    into[..count].copy_from_slice(&buffer.bytes[from..from + count]);
    Some(count)
}

// Whether a slot is a place for a buffer, and holds none.
#[inline(always)]
fn is_empty_place<L: Lines, B: Backing>(held: &Slot<L, B>) -> bool
    ensures { result ≡ lacks (slot_value (part_value L.device L.history L.fault_count L.room) (store_value B.device B.history B.fault_count) held.now) }
{
    matches!(held, Slot::Page(None))
}

// Puts a page's bytes into the buffer of a slot, if it has one.
fn fill<L: Lines, B: Backing>(held: &mut Slot<L, B>, bytes: &[u8])
    requires { (buffer : Buffer) → slot_value (part_value L.device L.history L.fault_count L.room) (store_value B.device B.history B.fault_count) held.old ≡ ABuffer (Some buffer) → length bytes.now ≤ length buffer.bytes }
    ensures { slot_value (part_value L.device L.history L.fault_count L.room) (store_value B.device B.history B.fault_count) held.new
        ≡ filled bytes.now (slot_value (part_value L.device L.history L.fault_count L.room) (store_value B.device B.history B.fault_count) held.old) }
{
    if let Slot::Page(Some(buffer)) = held {
        buffer.bytes.truncate(bytes.len());
        buffer.bytes.copy_from_slice(bytes);
        buffer.valid = true;
    }
}

// Lays some bytes over a buffer, from an offset on, where it counts.
#[inline(always)]
fn lay_over(buffer: &mut PageBuffer, at: usize, bytes: &[u8])
    requires { at + length bytes.now ≤ length buffer.old.bytes.items }
    ensures { ABuffer (Some record { bytes = buffer.new.bytes.items; valid = buffer.new.valid }) ≡ patched at bytes.now (ABuffer (Some record { bytes = buffer.old.bytes.items; valid = buffer.old.valid })) }
{
    if buffer.valid {
        patch(&mut buffer.bytes, at, bytes);
    }
}

// Lays some bytes over the buffer of a slot, from an offset on, where it counts.
#[inline(always)]
fn lay<L: Lines, B: Backing>(held: &mut Slot<L, B>, at: usize, bytes: &[u8])
    requires { (buffer : Buffer) → slot_value (part_value L.device L.history L.fault_count L.room) (store_value B.device B.history B.fault_count) held.old ≡ ABuffer (Some buffer) → at + length bytes.now ≤ length buffer.bytes }
    ensures { slot_value (part_value L.device L.history L.fault_count L.room) (store_value B.device B.history B.fault_count) held.new
        ≡ patched at bytes.now (slot_value (part_value L.device L.history L.fault_count L.room) (store_value B.device B.history B.fault_count) held.old) }
{
    if let Slot::Page(Some(buffer)) = held {
        lay_over(buffer, at, bytes);
    }
}

// Takes the buffer out of a slot, if it has one, and gives it to another one, if that lacks one.
fn rob<L: Lines, B: Backing>(victim: &mut Slot<L, B>, page: &mut Slot<L, B>)
    ensures victim { slot_value (part_value L.device L.history L.fault_count L.room) (store_value B.device B.history B.fault_count) victim.new
        ≡ emptied (slot_value (part_value L.device L.history L.fault_count L.room) (store_value B.device B.history B.fault_count) victim.old) }
    ensures page { slot_value (part_value L.device L.history L.fault_count L.room) (store_value B.device B.history B.fault_count) page.new
        ≡ received (slot_value (part_value L.device L.history L.fault_count L.room) (store_value B.device B.history B.fault_count) victim.old)
        (slot_value (part_value L.device L.history L.fault_count L.room) (store_value B.device B.history B.fault_count) page.old) }
{
    let Slot::Page(place) = victim else {
        return;
    };
    let Some(buffer) = place.take() else {
        return;
    };
    if let Slot::Page(place) = page
        && place.is_none()
    {
        *place = Some(PageBuffer {
            bytes: buffer.bytes,
            valid: false,
        });
    }
}

/// Where the buffer of a page that the pass owns is valid, copies its bytes from the offset `at` on to the front of `into`, as many as
/// there are and as there is room for, and tells how many. Else nothing is copied.
#[inline(always)]
pub fn copy_page<L: Lines, B: Backing>(
    board: &Board<L, B>,
    pass: &mut Pass<L, B>,
    page: u64,
    at: usize,
    into: &mut [u8],
) -> Option<usize>
    requires board { IsOf board.now pass.old }
    requires page { page < page_total board.now.opened.sizes }
    requires owns_slots { slot_times (page_slot board.now.opened.sizes page) pass.old.now ≡ 1 }
    ensures same { IsAltered (λ kept. kept) pass.old pass.new }
    ensures copied { OfKept pass.old (λ kept. IsCopied (kept (PAGE page)) at into.old into.new result) }
{
    let slot = slot_of_page(board, page);
    let held = exchange(board, pass, slot, Slot::Away);
    let count = copy_from(&held, at, into);
    put(board, pass, slot, held);
    count
}

/// Whether a page that the pass owns lacks a buffer.
#[inline(always)]
pub fn lacks_buffer<L: Lines, B: Backing>(
    board: &Board<L, B>,
    pass: &mut Pass<L, B>,
    page: u64,
) -> bool
    requires board { IsOf board.now pass.old }
    requires page { page < page_total board.now.opened.sizes }
    requires owns_slots { slot_times (page_slot board.now.opened.sizes page) pass.old.now ≡ 1 }
    ensures same { IsAltered (λ kept. kept) pass.old pass.new }
    ensures lacks { OfKept pass.old (λ kept. result ≡ lacks (kept (PAGE page))) }
{
    let slot = slot_of_page(board, page);
    let held = exchange(board, pass, slot, Slot::Away);
    let lacks = is_empty_place(&held);
    put(board, pass, slot, held);
    lacks
}

/// Puts a page's bytes into its buffer, if it has one, which is valid then.
pub fn fill_page<L: Lines, B: Backing>(
    board: &Board<L, B>,
    pass: &mut Pass<L, B>,
    page: u64,
    bytes: &[u8],
)
    requires board { IsOf board.now pass.old }
    requires page { page < page_total board.now.opened.sizes }
    requires owns_slots { slot_times (page_slot board.now.opened.sizes page) pass.old.now ≡ 1 }
    requires room { (buffer : Buffer) → IsOneOf pass.old.now (page_slot board.now.opened.sizes page, ABuffer (Some buffer)) → length bytes.now ≤ length buffer.bytes }
    ensures { IsAltered (with_page page bytes.now) pass.old pass.new }
{
    let slot = slot_of_page(board, page);
    let mut held = exchange(board, pass, slot, Slot::Away);
    fill(&mut held, bytes);
    put(board, pass, slot, held);
}

/// Lays some bytes of a write over the buffer of a page, from an offset in it on, where it counts.
#[inline(always)]
pub fn patch_page<L: Lines, B: Backing>(
    board: &Board<L, B>,
    pass: &mut Pass<L, B>,
    page: u64,
    at: usize,
    bytes: &[u8],
)
    requires board { IsOf board.now pass.old }
    requires page { page < page_total board.now.opened.sizes }
    requires owns_slots { slot_times (page_slot board.now.opened.sizes page) pass.old.now ≡ 1 }
    requires room { (buffer : Buffer) → IsOneOf pass.old.now (page_slot board.now.opened.sizes page, ABuffer (Some buffer)) → at + length bytes.now ≤ length buffer.bytes }
    ensures { IsAltered (with_patch page at bytes.now) pass.old pass.new }
{
    let slot = slot_of_page(board, page);
    let mut held = exchange(board, pass, slot, Slot::Away);
    lay(&mut held, at, bytes);
    put(board, pass, slot, held);
}

/// Takes the buffer of another page, the victim, if it has one, and gives it to a page that lacks one, where it doesn't count. Tells whether the page
/// lacks one still.
pub fn move_buffer<L: Lines, B: Backing>(
    board: &Board<L, B>,
    pass: &mut Pass<L, B>,
    victim: u64,
    page: u64,
) -> bool
    requires board { IsOf board.now pass.old }
    requires victim { victim < page_total board.now.opened.sizes }
    requires page { page < page_total board.now.opened.sizes }
    requires apart { victim ≢ page }
    requires owns_slots_victim { slot_times (page_slot board.now.opened.sizes victim) pass.old.now ≡ 1 }
    requires owns_slots_page { slot_times (page_slot board.now.opened.sizes page) pass.old.now ≡ 1 }
    ensures moved { IsAltered (robbed victim page) pass.old pass.new }
    ensures lacks { OfKept pass.old (λ kept. result ≡ lacks (received (kept (PAGE victim)) (kept (PAGE page)))) }
{
    let from = slot_of_page(board, victim);
    let to = slot_of_page(board, page);
    let mut robbed = exchange(board, pass, from, Slot::Away);
    let mut held = exchange(board, pass, to, Slot::Away);
    rob(&mut robbed, &mut held);
    let lacks = is_empty_place(&held);
    put(board, pass, from, robbed);
    put(board, pass, to, held);
    lacks
}
