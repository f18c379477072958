//! The device calls of a write's commit, on the parts of its entries: they are out of their slots while the calls are made.
ghost use Rattle.std.specs.Prelude.{◌≡◌, ◌+◌, ◌≤◌, ◌<◌, ◌^◌, ℕ, [], length, map, vec_capacity};
ghost use Rattle.nv_plain.specs.declared.call.FileCall.TheVariants.{Write};
ghost use Rattle.nv_core.specs.state.Passes.{IsOneOf, page_count};
ghost use Rattle.nv_core.specs.invariant.Rooms.{KeepsReady};
ghost use Rattle.nv_core.specs.state.Values.{Value, Bare};
ghost use Rattle.nv_table.specs.passes.PassesMade.{IsShownStill};
ghost use Rattle.nv_table.specs.steps.Exchanges.{Exchanges};
ghost use Rattle.nv_table.specs.state.SlotValues.{part_value};
ghost use Rattle.nv_table.specs.state.Views.{slot_times, values_of};
ghost use Rattle.nv_table.specs.state.States.{IsOf};
ghost use Rattle.nv_pages.specs.CommitCalls.{entry_cell};
ghost use Rattle.nv_pages.specs.Commits.{HasEntries, HasLaid, IsAtCommit, HasMadeCommit, in_row};
ghost use Rattle.nv_pages.specs.PageWork.{entry_slot};

use crate::laws::commits_are_due;
use crate::slots::{put, slot_of_entry};
use nv_core::runs_are_sound;
use nv_entry::{RegionFault, commit_group, piece_count};
use nv_pmem::Lines;
use nv_store::Backing;
use nv_table::{Board, Pass, Slot, exchange};

// Takes the part of a number's entry out of its slot.
fn take_part<L: Lines, B: Backing>(board: &Board<L, B>, pass: &mut Pass<L, B>, number: u64) -> L
    requires board { IsOf board.now pass.old }
    requires owns_slots { slot_times (entry_slot board.now.opened.sizes number) pass.old.now ≡ 1 }
    requires ready { (value : Value) → IsOneOf pass.old.now (entry_slot board.now.opened.sizes number, value) → KeepsReady board.now.opened.sizes value }
    ensures { Exchanges (entry_slot board.now.opened.sizes number) (part_value L.device L.history L.fault_count L.room result) Bare pass.old pass.new }
{
    let slot = slot_of_entry(board, number);
    let held = exchange(board, pass, slot, Slot::Away);
    let Slot::Part(part) = held else {
        unreachable!()
    };
    part
}

// Takes the parts of so many entries out of their slots, in their order.
fn take_parts<L: Lines, B: Backing>(
    board: &Board<L, B>,
    pass: &mut Pass<L, B>,
    parts: &mut Vec<L>,
    first: u64,
    count: u64,
)
    requires board { IsOf board.now pass.old }
    requires still { IsShownStill pass.old }
    requires entries { HasEntries pass.old.view first count }
    requires small { first + count ≤ 2 ^ 60 }
    requires bare { parts.old.items ≡ [] }
    requires places { count ≤ vec_capacity parts.old }
    ensures laid { HasLaid first count (λ i. Bare) pass.old pass.new }
    ensures count { length parts.new.items ≡ count }
    ensures parts { (i : ℕ) → i < count → in_row (map (part_value L.device L.history L.fault_count L.room) parts.new.items) i ≡ values_of pass.old.view (entry_cell pass.old.view.opened.sizes first i) }
    ensures places { vec_capacity parts.new ≡ vec_capacity parts.old }
{
    for i in 0..count {
        let part = take_part(board, pass, first + i);
        parts.push_reserved(part);
    }
}

// Puts the parts back into their slots, the last one first.
fn lay_parts<L: Lines, B: Backing>(
    board: &Board<L, B>,
    pass: &mut Pass<L, B>,
    parts: &mut Vec<L>,
    first: u64,
)
    requires board { IsOf board.now pass.old }
    requires entries { HasEntries pass.old.view first (length parts.old.items) }
    requires small { first + length parts.old.items ≤ 2 ^ 60 }
    requires out { HasLaid first (length parts.old.items) (λ i. Bare) pass.old pass.old }
    ensures laid { HasLaid first (length parts.old.items) (in_row (map (part_value L.device L.history L.fault_count L.room) parts.old.items)) pass.old pass.new }
    ensures bare { parts.new.items ≡ [] }
    ensures places { vec_capacity parts.new ≡ vec_capacity parts.old }
{
    while !parts.is_empty() {
        let number = first + parts.len() as u64 - 1;
        let slot = slot_of_entry(board, number);
        put(board, pass, slot, Slot::Part(parts.take_last()));
    }
}

/// Makes the device calls of a write's commit on the parts of its entries, which the pass owns: the entries from number `first` on are those of
/// `bytes` at `at` of `file`. While the calls are made the parts lie in `parts`, which is empty, and has a place for each. It fails exactly where the
/// count of one of them rose. In either case all are back in their slots; which device calls came is told, and they are due. No step is made.
pub fn commit_entries<L: Lines, B: Backing>(
    board: &Board<L, B>,
    pass: &mut Pass<L, B>,
    parts: &mut Vec<L>,
    first: u64,
    file: u64,
    at: u64,
    bytes: &[u8],
) -> Result<(), RegionFault>
    requires board { IsOf board.now pass.old }
    requires write { IsAtCommit pass.old first file at bytes.now }
    requires bare { parts.old.items ≡ [] }
    requires places { page_count board.now.opened.sizes (Write file at bytes.now) ≤ vec_capacity parts.old }
    ensures committed { HasMadeCommit pass.old pass.new result }
    ensures bare { parts.new.items ≡ [] }
    ensures places { vec_capacity parts.new ≡ vec_capacity parts.old }
{
    runs_are_sound();
    commits_are_due();
    pass.sees_a_run();
    let layout = board.layout();
    let count = piece_count(at, bytes.len() as u64, layout.page);
    take_parts(board, pass, parts, first, count);
    let written = commit_group(parts, layout.page, first, file, at, bytes);
    lay_parts(board, pass, parts, first);
    written
}
