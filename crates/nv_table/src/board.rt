//! The table of a mount, which threads share by reference.
ghost use Rattle.std.specs.Prelude.{◌≡◌, ℕ, ◌<◌, ◌≤◌, ◌^◌, [], length, map, vec_capacity, IfOk, IfErr};
ghost use Rattle.atomic_table.specs.Table.{opening as laid};
ghost use Rattle.nv_plain.specs.Layouts.{mount_layout, mount_version};
ghost use Rattle.nv_header.specs.Regions.{HasParts};
ghost use Rattle.nv_core.specs.invariant.Shapes.{HaveShapes, IsStore};
ghost use Rattle.nv_core.specs.state.Words.{STORE};
ghost use Rattle.nv_table.specs.ends.Begun.{begun_sizes, IsBegun};
ghost use Rattle.nv_table.specs.state.SlotValues.{part_value, store_value, slot_value};
ghost use Rattle.nv_table.specs.state.Keys.{opened_of, sizes_of};
ghost use Rattle.nv_table.specs.state.Layout.{slot_total};
ghost use Rattle.nv_table.specs.state.Limits.{MountIsWithinLimits};
ghost use Rattle.nv_table.specs.state.Opened.{mount_of};
ghost use Rattle.nv_table.specs.ends.OpeningWords.{AreOpeningWords};
ghost use Rattle.nv_table.specs.invariant.TableInvariant.{TableInvariant};
ghost use Rattle.nv_table.specs.state.Views.{first_view};

use crate::opening::{Filled, Unfilled, slots_of, unfill, words_of};
use crate::rule::{Opening, TableInvariantRule};
use crate::{Layout, Pass, Shown, Slot, View};
use atomic_table::{Seat, Table};
use nv_core::spares_tell_the_room;
use nv_header::Region;
use nv_plain::NoMemory;
use nv_pmem::Lines;
use nv_store::Backing;
use std::alloc::Global;
use std::marker::Model;
use std::snapshot::Snapshot;

/// The words and slots of a mount.
pub struct Board<L: Lines, B: Backing> {
    pub(crate) table: Table<
        Slot<L, B>,
        View,
        Snapshot<Opening<Slot<L, B>>>,
        TableInvariantRule<Slot<L, B>>,
        Global,
    >,
    pub(crate) layout: Layout,
}

impl<L: Lines, B: Backing> Model for Board<L, B> {
    ghost use Rattle.std.specs.Prelude.{◌≡◌};
    ghost use Rattle.nv_table.specs.state.States.{BoardState};
    ghost use Rattle.nv_table.specs.ends.Begun.{BeganFilled};
    ghost use Rattle.nv_table.specs.state.Layout.{word_total, slot_total};
    ghost use Rattle.nv_table.specs.state.SlotValues.{part_value, store_value, slot_value};
    ghost use Rattle.nv_table.specs.state.Keys.{opened_of, sizes_of};

    ghost Value = { BoardState };

    ghost view = { λ b. record {
      table = b.table.shared.table_id;
      opened = opened_of (slot_value (part_value L.device L.history L.fault_count L.room) (store_value B.device B.history B.fault_count)) b.table.shared.key.value;
    } };

    ghost invariant = { λ b. (sizes_of b.layout ≡ sizes_of b.table.shared.key.value.layout)
        × (b.table.shared.table_id.words ≡ word_total (sizes_of b.layout)) × (b.table.shared.table_id.slots ≡ slot_total (sizes_of b.layout))
        × BeganFilled (sizes_of b.layout) b.table.shared.key.value.slots.items };
}

/// There was no memory. The region and the stores come back as they were.
#[derive(Drop)]
pub struct Refused<L: Lines, B> {
    pub region: Region<L>,
    pub stores: Vec<B>,
}

// What a board and its first pass take memory for, beside slots and buffers: the words, the lengths of the files, and places for the
// slots that the pass takes.
struct Memory {
    words: Vec<u64>,
    lengths: Vec<u64>,
    held: Vec<usize>,
}

fn memory_for(alloc: Global, layout: Layout, next: u64, lengths: &[u64]) -> Result<Memory, NoMemory>
    requires limits { MountIsWithinLimits (sizes_of layout) }
    requires lengths { length lengths.now ≡ layout.files }
    ensures words { IfOk result (λ memory. AreOpeningWords (sizes_of layout) next lengths.now memory.words.items) }
    ensures lengths { IfOk result (λ memory. memory.lengths.items ≡ lengths.now) }
    ensures held { IfOk result (λ memory. memory.held.items ≡ []) }
    ensures places { IfOk result (λ memory. slot_total (sizes_of layout) ≤ vec_capacity memory.held) }
{
    let words = words_of(alloc, layout, next, lengths)?;
    let lengths = Vec::from_slice(alloc, lengths)?;
    let held = Vec::with_capacity(alloc, layout.slots() as usize)?;
    Ok(Memory {
        words,
        lengths,
        held,
    })
}

// The table of an opening, and its first seat. The slots come back where there is no memory.
fn lay<S: Shown>(
    alloc: Global,
    words: &[u64],
    opening: Opening<S>,
) -> Result<
    (
        Table<S, View, Snapshot<Opening<S>>, TableInvariantRule<S>, Global>,
        Seat<S, View>,
    ),
    Vec<S>,
>
    requires { TableInvariant S.shown (opened_of S.shown opening) (laid words.now opening.slots.items (first_view (opened_of S.shown opening))) }
    ensures key { IfOk result (λ made. made.0.shared.key.value ≡ opening) }
    ensures words { IfOk result (λ made. made.0.shared.table_id.words ≡ length words.now) }
    ensures slots { IfOk result (λ made. made.0.shared.table_id.slots ≡ length opening.slots.items) }
    ensures table { IfOk result (λ made. made.1.table_id ≡ made.0.shared.table_id) }
    ensures seat { IfOk result (λ made. made.1.me ≡ (first_view (opened_of S.shown opening), [])) }
    ensures none { IfErr result (λ slots. slots.items ≡ opening.slots.items) }
{
    let key = Snapshot::of(&opening);
    let Opening {
        layout: _,
        next: _,
        lengths,
        slots,
    } = opening;
    drop(lengths);
    match Table::new(alloc, words, slots, &key) {
        Ok(made) => Ok(made),
        Err(refused) => Err(refused.slots),
    }
}

// The board, and pass 0. Parts and stores come back in their order where there is no memory.
fn board_of<L: Lines + Drop, B: Backing + Drop>(
    alloc: Global,
    layout: Layout,
    next: u64,
    memory: Memory,
    parts: Vec<L>,
    stores: Vec<B>,
) -> Result<(Board<L, B>, Pass<L, B>), Unfilled<L, B>>
    requires limits { MountIsWithinLimits (sizes_of layout) }
    requires next { next ≤ 2 ^ 60 }
    requires parts { HasParts mount_layout layout.page layout.entries (map L.room parts.items) }
    requires stores { length stores.items ≡ layout.files }
    requires words { AreOpeningWords (sizes_of layout) next memory.lengths.items memory.words.items }
    requires held { memory.held.items ≡ [] }
    requires places { slot_total (sizes_of layout) ≤ vec_capacity memory.held }
    ensures begun { IfOk result (λ made. IsBegun
        (slot_value (part_value L.device L.history L.fault_count L.room) (store_value B.device B.history B.fault_count))
        (sizes_of layout) next memory.lengths.items parts.items stores.items made.0 made.1) }
    ensures parts_back { IfErr result (λ unfilled. unfilled.parts.items ≡ parts.items) }
    ensures stores_back { IfErr result (λ unfilled. unfilled.stores.items ≡ stores.items) }
{
    spares_tell_the_room();
    let Memory {
        words,
        lengths,
        held,
    } = memory;
    let Filled {
        slots,
        parts,
        stores,
    } = slots_of(alloc, layout, parts, stores)?;
    let opening = Opening {
        layout,
        next,
        lengths,
        slots,
    };
    match lay(alloc, &words, opening) {
        Ok((table, seat)) => Ok((
            Board { table, layout },
            Pass {
                seat,
                number: 0,
                made: 0,
                joined: 0,
                held,
                drawn: None,
                lost: None,
                inherited: None,
                parts,
                stores,
            },
        )),
        Err(slots) => Err(unfill(Filled {
            slots,
            parts,
            stores,
        })),
    }
}

impl<L: Lines, B: Backing> Board<L, B> {
    /// Its sizes, and where its words and slots are.
    pub fn layout(&self) -> Layout
        ensures { sizes_of result ≡ self.now.opened.sizes }
    {
        self.layout
    }

    /// A law: what its cells kept at opening: the store of each file, and buffers of a page each.
    pub fn keeps_stores_and_buffers(&self)
        ensures stores { (file : ℕ) → file < self.now.opened.sizes.files → IsStore ((mount_of self.now.opened).values (STORE file)) }
        ensures shapes { HaveShapes self.now.opened.sizes.page (mount_of self.now.opened).values (mount_of self.now.opened).values }
    {
        let _ = &self.layout;
    }
}

impl<L: Lines + Drop, B: Backing + Drop> Board<L, B> {
    /// A board over a region and its files, and pass 0, with which the first thread steps. There is one store for each name of the
    /// region, and for each the length of its file in bytes; each file has 1 to 1,024 pages. There are as many buffers as pages, but at
    /// most `cache`, which is 1 to 16,384. Takes all memory that the board needs, and at an error gives region and stores back.
    pub fn new(
        alloc: Global,
        region: Region<L>,
        stores: Vec<B>,
        lengths: &[u64],
        pages: u64,
        cache: u64,
    ) -> Result<(Board<L, B>, Pass<L, B>), Refused<L, B>>
        requires version { region.version ≡ mount_version }
        requires stores { length stores.items ≡ length region.names }
        requires lengths { length lengths.now ≡ length region.names }
        requires some_pages { 1 ≤ pages }
        requires few_pages { pages ≤ 1024 }
        requires some_cache { 1 ≤ cache }
        requires few_cache { cache ≤ 16384 }
        ensures begun { IfOk result (λ made. IsBegun
            (slot_value (part_value L.device L.history L.fault_count L.room) (store_value B.device B.history B.fault_count))
            (begun_sizes region.geometry.page region.geometry.entries (length region.names) pages cache)
            region.next lengths.now region.parts.items stores.items made.0 made.1) }
        ensures parts_back { IfErr result (λ refused. refused.region.parts.items ≡ region.parts.items) }
        ensures version_back { IfErr result (λ refused. refused.region.version ≡ region.version) }
        ensures geometry_back { IfErr result (λ refused. refused.region.geometry ≡ region.geometry) }
        ensures names_back { IfErr result (λ refused. refused.region.names ≡ region.names) }
        ensures next_back { IfErr result (λ refused. refused.region.next ≡ region.next) }
        ensures stores_back { IfErr result (λ refused. refused.stores.items ≡ stores.items) }
    {
        let version = region.version();
        let geometry = region.geometry();
        let next = region.next();
        let files = region.names().len() as u64;
        let layout = Layout::new(
            geometry.page,
            files,
            pages,
            geometry.entries,
            cache.min(files * pages),
        );
        let Ok(memory) = memory_for(alloc, layout, next, lengths) else {
            return Err(Refused { region, stores });
        };
        let (parts, names) = region.into_parts_and_names();
        match board_of(alloc, layout, next, memory, parts, stores) {
            Ok(made) => Ok(made),
            Err(Unfilled { parts, stores }) => Err(Refused {
                region: Region::from_parts(parts, version, geometry, names, next),
                stores,
            }),
        }
    }
}
