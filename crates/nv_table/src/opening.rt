//! What a mount begins with: its words, and what its slots hold.
ghost use Rattle.std.specs.Prelude.{◌≡◌, ◌+◌, ◌≤◌, [], ◌∷◌, ◌++◌, length, map, take, drop, vec_capacity, IfOk, IfErr};
ghost use Rattle.nv_table.specs.declared.slot.Slot.TheVariants.{Part, Store, Page};
ghost use Rattle.nv_table.specs.state.Keys.{sizes_of};
ghost use Rattle.nv_table.specs.state.Limits.{MountIsWithinLimits};
ghost use Rattle.nv_table.specs.ends.OpeningSlots.{AreBuffers, AreOpeningSlots, parts_in, stores_in};
ghost use Rattle.nv_table.specs.ends.OpeningWords.{AreOpeningWords};

use crate::{Layout, PageBuffer, Slot};
use nv_plain::NoMemory;
use nv_pmem::Lines;
use nv_store::Backing;
use std::alloc::Global;

/// The words of a mount in the order of their places.
pub(crate) fn words_of(
    alloc: Global,
    layout: Layout,
    next: u64,
    lengths: &[u64],
) -> Result<Vec<u64>, NoMemory>
    requires limits { MountIsWithinLimits (sizes_of layout) }
    requires lengths { length lengths.now ≡ layout.files }
    ensures { IfOk result (λ words. AreOpeningWords (sizes_of layout) next lengths.now words.items) }
{
    let mut words = Vec::new(alloc);
    words.extend_from_slice(&[0, 0, next, next, 0, 0, 0])?;
    for length in lengths {
        words.push(0)?;
        words.push(*length)?;
        words.push(0)?;
    }
    for _entry in 0..layout.entries {
        words.push(0)?;
    }
    for buffer in 0..layout.buffers {
        words.push(buffer)?;
    }
    for _word in 0..3 * layout.files * layout.pages {
        words.push(0)?;
    }
    Ok(words)
}

/// What the slots of a mount hold, and the vectors that parts and stores came in: the one with the parts that have no slot, the
/// other empty, each with its capacity.
pub(crate) struct Filled<L, B> {
    pub slots: Vec<Slot<L, B>>,
    pub parts: Vec<L>,
    pub stores: Vec<B>,
}

/// There was no memory. Parts and stores come back.
pub(crate) struct Unfilled<L, B> {
    pub parts: Vec<L>,
    pub stores: Vec<B>,
}

/// Puts the first parts, the stores and fresh buffers into slots.
pub(crate) fn slots_of<L: Lines, B: Backing>(
    alloc: Global,
    layout: Layout,
    mut parts: Vec<L>,
    mut stores: Vec<B>,
) -> Result<Filled<L, B>, Unfilled<L, B>>
    requires limits { MountIsWithinLimits (sizes_of layout) }
    requires parts { 1 + layout.entries ≤ length parts.items }
    requires stores { length stores.items ≡ layout.files }
    ensures slots { IfOk result (λ filled. AreOpeningSlots (sizes_of layout) parts.items stores.items filled.slots.items) }
    ensures parts { IfOk result (λ filled. filled.parts.items ≡ drop (1 + layout.entries) parts.items) }
    ensures part_places { IfOk result (λ filled. vec_capacity filled.parts ≡ vec_capacity parts) }
    ensures stores { IfOk result (λ filled. filled.stores.items ≡ []) }
    ensures store_places { IfOk result (λ filled. vec_capacity filled.stores ≡ vec_capacity stores) }
    ensures none { IfErr result (λ unfilled. (unfilled.parts ≡ parts) × (unfilled.stores ≡ stores)) }
{
    let Ok(buffers) = buffers_of(alloc, layout) else {
        return Err(Unfilled { parts, stores });
    };
    let Ok(mut slots) = Vec::with_capacity(alloc, layout.slots() as usize) else {
        return Err(Unfilled { parts, stores });
    };
    put_parts(&mut slots, &mut parts, 1 + layout.entries);
    put_stores(&mut slots, &mut stores, layout.files);
    put_buffers(&mut slots, buffers);
    Ok(Filled {
        slots,
        parts,
        stores,
    })
}

// The first so many parts go into the next slots.
fn put_parts<L, B>(slots: &mut Vec<Slot<L, B>>, parts: &mut Vec<L>, many: u64)
    requires some { many ≤ length parts.old.items }
    requires places { length slots.old.items + many ≤ vec_capacity slots.old }
    ensures slots { slots.new.items ≡ slots.old.items ++ map Part (take many parts.old.items) }
    ensures parts { parts.new.items ≡ drop many parts.old.items }
    ensures places { vec_capacity slots.new ≡ vec_capacity slots.old }
    ensures part_places { vec_capacity parts.new ≡ vec_capacity parts.old }
{
    parts.reverse();
    for _part in 0..many {
        slots.push_reserved(Slot::Part(parts.take_last()));
    }
    parts.reverse();
}

// The first so many stores do.
fn put_stores<L, B>(slots: &mut Vec<Slot<L, B>>, stores: &mut Vec<B>, many: u64)
    requires some { many ≤ length stores.old.items }
    requires places { length slots.old.items + many ≤ vec_capacity slots.old }
    ensures slots { slots.new.items ≡ slots.old.items ++ map Store (take many stores.old.items) }
    ensures stores { stores.new.items ≡ drop many stores.old.items }
    ensures places { vec_capacity slots.new ≡ vec_capacity slots.old }
    ensures store_places { vec_capacity stores.new ≡ vec_capacity stores.old }
{
    stores.reverse();
    for _store in 0..many {
        slots.push_reserved(Slot::Store(stores.take_last()));
    }
    stores.reverse();
}

// All buffers do.
fn put_buffers<L, B>(slots: &mut Vec<Slot<L, B>>, mut buffers: Vec<Option<PageBuffer>>)
    requires { length slots.old.items + length buffers.items ≤ vec_capacity slots.old }
    ensures { slots.new.items ≡ slots.old.items ++ map Page buffers.items }
{
    buffers.reverse();
    for _page in 0..buffers.len() {
        slots.push_reserved(Slot::Page(buffers.take_last()));
    }
}

// A buffer for each of the first pages, and none for the others.
fn buffers_of(alloc: Global, layout: Layout) -> Result<Vec<Option<PageBuffer>>, NoMemory>
    requires limits { MountIsWithinLimits (sizes_of layout) }
    ensures { IfOk result (λ buffers. AreBuffers (sizes_of layout) buffers.items) }
{
    let mut buffers = Vec::new(alloc);
    for _page in 0..layout.buffers {
        let bytes = vec![in alloc; 0; layout.page as usize]?;
        let valid = false;
        buffers.push(Some(PageBuffer { bytes, valid }))?;
    }
    for _bare in layout.buffers..layout.files * layout.pages {
        buffers.push(None)?;
    }
    Ok(buffers)
}

/// What a slot holds comes behind other parts, or other stores. A buffer is let go.
pub(crate) fn take_apart<L: Drop, B: Drop>(
    slot: Slot<L, B>,
    parts: &mut Vec<L>,
    stores: &mut Vec<B>,
)
    requires part_place { length parts.old.items + length (parts_in (slot ∷ [])) ≤ vec_capacity parts.old }
    requires store_place { length stores.old.items + length (stores_in (slot ∷ [])) ≤ vec_capacity stores.old }
    ensures parts { parts.new.items ≡ parts.old.items ++ parts_in (slot ∷ []) }
    ensures stores { stores.new.items ≡ stores.old.items ++ stores_in (slot ∷ []) }
    ensures part_places { vec_capacity parts.new ≡ vec_capacity parts.old }
    ensures store_places { vec_capacity stores.new ≡ vec_capacity stores.old }
{
    match slot {
        Slot::Away => {}
        Slot::Part(part) => parts.push_reserved(part),
        Slot::Store(store) => stores.push_reserved(store),
        Slot::Page(buffer) => drop(buffer),
    }
}

/// The parts come back out of the slots, before those that had none, and the stores. Takes no memory.
pub(crate) fn unfill<L: Drop, B: Drop>(filled: Filled<L, B>) -> Unfilled<L, B>
    requires part_places { length filled.parts.items + length (parts_in filled.slots.items) ≤ vec_capacity filled.parts }
    requires store_places { length filled.stores.items + length (stores_in filled.slots.items) ≤ vec_capacity filled.stores }
    ensures parts { result.parts.items ≡ parts_in filled.slots.items ++ filled.parts.items }
    ensures stores { result.stores.items ≡ filled.stores.items ++ stores_in filled.slots.items }
{
    let Filled {
        slots,
        mut parts,
        mut stores,
    } = filled;
    let spare = parts.len();
    for slot in slots {
        take_apart(slot, &mut parts, &mut stores);
    }
    parts.rotate_left(spare);
    Unfilled { parts, stores }
}
