//! A disk in memory, and what of it is durable.
ghost use Rattle.std.specs.Prelude.{◌≡◌, ◌+◌, ◌<◌, ◌≤◌, ◌++◌, false, take, drop, replicate, max, length, IfOk, OnOk, OnErr, vec_len, vec_capacity};
ghost use Rattle.nv_plain.specs.Files.{bytes_at, overwritten};
ghost use Rattle.nv_store.specs.Store.{Store, IsWholeStore, quiet_store, marked};
ghost use Rattle.nv_store.specs.Spans.{LieWithin, DifferWithin};
ghost use Rattle.nv_store.specs.Picked.{redrawn, count_below, after_draws};
ghost use Rattle.nv_store.specs.Replaced.{replaced};

use nv_plain::NoMemory;
use nv_pmem::{Pick, Picker};
use std::alloc::Global;

/// What a torn image has wherever a byte isn't certain.
const TORN: u8 = 0xa5;

/// A disk in memory: what reads give of its one file, what of it is durable, and which bytes were written since.
#[derive(Drop)]
pub(crate) struct Disk {
    seen: Vec<u8>,
    durable: Vec<u8>,
    unsynced: Vec<bool>,
    // Where those bytes lie that were written since the last sync, so that a sync copies these alone.
    from: usize,
    to: usize,
    pub ghost whole: { let store : Store = record { seen = seen.items; durable = durable.items; unsynced = unsynced.items } in
        IsWholeStore store },
    pub ghost span: { LieWithin from to unsynced.items },
    // So a sync needs no memory.
    pub ghost room: { vec_len seen ≤ vec_capacity durable },
}

impl Disk {
    ghost use Rattle.nv_store.specs.Disk.{disk_store, DiskHasRoom};
    ghost use Rattle.nv_store.specs.Steps.{Write, Sync, after_store_step};
    ghost use Rattle.nv_store.specs.Torn.{with_marks};
    ghost use Rattle.nv_pmem.specs.Draws.{after_draw};
    ghost use Rattle.nv_store.specs.Picked.{image_with, torn_image, picked_image, draws_after};
    ghost use Rattle.nv_store.specs.Picked.{has_unsynced, drawn_len, drawn_image, after_drawn};

    /// A disk that holds these bytes, durable.
    pub(crate) fn new(alloc: Global, bytes: &[u8]) -> Result<Self, NoMemory>
        ensures { IfOk result (λ disk. disk_store disk ≡ quiet_store bytes.now) }
    {
        Ok(Disk {
            seen: Vec::from_slice(alloc, bytes)?,
            durable: Vec::from_slice(alloc, bytes)?,
            unsynced: vec![in alloc; false; bytes.len()]?,
            from: usize::MAX,
            to: 0,
        })
    }

    /// How many bytes reads give.
    pub(crate) fn len(&self) -> usize
        ensures { result ≡ length (disk_store self.now).seen }
    {
        self.seen.len()
    }

    /// Reads from an offset on, and says how many bytes there were.
    pub(crate) fn read(&self, at: usize, buf: &mut [u8]) -> usize
        ensures count { result ≡ length (bytes_at (disk_store self.now).seen at (length buf.old)) }
        ensures bytes { buf.new ≡ bytes_at (disk_store self.now).seen at (length buf.old) ++ drop result buf.old }
        ensures limit { result ≤ length buf.old }
    {
        let from = at.min(self.seen.len());
        let count = buf.len().min(self.seen.len() - from);
        buf[..count].copy_from_slice(&self.seen[from..from + count]);
        count
    }

    /// Takes the room for a write of so many bytes, and for the sync of all that reads give after it.
    pub(crate) fn reserve(&mut self, at: usize, count: usize) -> Result<(), NoMemory>
        ensures room { OnOk result (0 < count → DiskHasRoom (at + count) self.new) }
        ensures same { disk_store self.new ≡ disk_store self.old }
        ensures some { OnErr result (0 < count) }
        ensures grows { OnErr result (length (disk_store self.old).seen < at + count) }
    {
        if count == 0 {
            return Ok(());
        }
        let len = at.checked_add(count).ok_or(NoMemory)?;
        self.seen.reserve(len.saturating_sub(self.seen.len()))?;
        self.unsynced
            .reserve(len.saturating_sub(self.unsynced.len()))?;
        self.durable
            .reserve(len.saturating_sub(self.durable.len()))?;
        Ok(())
    }

    /// Writes from an offset on, past the end too.
    pub(crate) fn write(&mut self, at: usize, bytes: &[u8])
        requires { 0 < length bytes.now → DiskHasRoom (at + length bytes.now) self.old }
        ensures { disk_store self.new ≡ after_store_step (Write at bytes.now) (disk_store self.old) }
    {
        if !bytes.is_empty() {
            overwrite(&mut self.seen, at, bytes);
            flag(&mut self.unsynced, at, bytes.len());
            self.from = self.from.min(at);
            self.to = self.to.max(at + bytes.len());
        }
    }

    /// Counts the bytes of a range as written since the last sync.
    pub(crate) fn mark(&mut self, at: usize, count: usize)
        ensures { disk_store self.new ≡ with_marks at count (disk_store self.old) }
    {
        mark(&mut self.unsynced, at, count);
        self.from = self.from.min(at);
        let end = at.saturating_add(count).min(self.unsynced.len());
        self.to = self.to.max(end);
    }

    /// Makes durable what reads give.
    pub(crate) fn sync(&mut self)
        ensures { disk_store self.new ≡ after_store_step Sync (disk_store self.old) }
    {
        let kept = self.durable.len();
        settle(&mut self.durable, &self.seen, self.from, self.to);
        let copied = self.durable.extend_from_slice(&self.seen[kept..]).is_ok();
        prove!(copied);
        clear(&mut self.unsynced, self.from, self.to);
        self.from = usize::MAX;
        self.to = 0;
    }

    /// Leaves the image that a picker takes, durable.
    pub(crate) fn lose_power(&mut self, picker: &mut Picker)
        ensures image { disk_store self.new ≡ quiet_store (picked_image (disk_store self.old) picker.old) }
        ensures draws { picker.new ≡ draws_after (disk_store self.old) picker.old }
    {
        match picker.pick() {
            Pick::Old => self.forget(),
            Pick::New => {}
            Pick::Torn | Pick::Mixed => self.tear(),
            Pick::Seed(_) => self.draw(picker),
        }
        self.sync();
    }

    fn forget(&mut self)
        ensures { (disk_store self.new).seen ≡ (disk_store self.old).durable }
    {
        self.seen.truncate(self.durable.len());
        self.unsynced.truncate(self.durable.len());
        self.seen.copy_from_slice(&self.durable);
    }

    fn tear(&mut self)
        ensures { (disk_store self.new).seen ≡ torn_image (disk_store self.old) }
    {
        tear(&mut self.seen, &self.unsynced);
    }

    fn draw(&mut self, picker: &mut Picker)
        ensures seen { (disk_store self.new).seen ≡ drawn_image (disk_store self.old) picker.old }
        ensures draws { picker.new ≡ after_drawn (disk_store self.old) picker.old }
    {
        if self.has_unsynced() {
            let len = self.draw_len(picker);
            self.cut(len, picker);
        }
    }

    fn has_unsynced(&self) -> bool
        ensures { result ≡ has_unsynced (disk_store self.now) }
    {
        self.unsynced.iter().any(|flag| *flag)
    }

    // A length from the durable to the present one.
    fn draw_len(&self, picker: &mut Picker) -> usize
        ensures len { result ≡ drawn_len (disk_store self.now) picker.old }
        ensures draws { picker.new ≡ after_draw picker.old }
    {
        let grown = (self.seen.len() - self.durable.len()) as u64;
        self.durable.len() + (picker.draw() % (grown + 1)) as usize
    }

    // Cuts what reads give, and draws each byte of it that isn't synced.
    fn cut(&mut self, len: usize, picker: &mut Picker)
        requires durable { length (disk_store self.old).durable ≤ len }
        requires seen { len ≤ length (disk_store self.old).seen }
        ensures seen { (disk_store self.new).seen
            ≡ image_with (disk_store self.old) len (redrawn (disk_store self.old).unsynced picker.old) }
        ensures draws { picker.new ≡ after_draws (count_below (disk_store self.old).unsynced len) picker.old }
    {
        self.seen.truncate(len);
        redraw(&mut self.seen, &self.unsynced, picker);
        self.unsynced.truncate(len);
    }
}

// Writes over some bytes, past their end too, where there is room.
fn overwrite(bytes: &mut Vec<u8>, at: usize, source: &[u8])
    requires some { 0 < length source.now }
    requires room { at + length source.now ≤ vec_capacity bytes.old }
    ensures { bytes.new.items ≡ overwritten bytes.old.items at source.now }
{
    let end = at + source.len();
    if end > bytes.len() {
        let grown = bytes.resize(end, 0).is_ok();
        prove!(grown);
    }
    bytes[at..end].copy_from_slice(source);
}

// Marks a range, past the end of the flags too, where there is room.
fn flag(flags: &mut Vec<bool>, at: usize, count: usize)
    requires { at + count ≤ vec_capacity flags.old }
    ensures { flags.new.items ≡ marked at count (max (length flags.old.items) (at + count)) flags.old.items }
{
    let end = at + count;
    if end > flags.len() {
        let grown = flags.resize(end, false).is_ok();
        prove!(grown);
    }
    mark(flags, at, count);
}

// Marks what there is of a range.
fn mark(flags: &mut [bool], at: usize, count: usize)
    ensures { flags.new ≡ marked at count (length flags.old) flags.old }
{
    let end = at.saturating_add(count).min(flags.len());
    if at < end {
        flags[at..end].fill(true);
    }
}

// Makes some bytes those that stand in their places in others, where they are so but for a range already.
fn settle(bytes: &mut [u8], source: &[u8], from: usize, to: usize)
    requires long { length bytes.old ≤ length source.now }
    requires same { DifferWithin from to bytes.old source.now }
    ensures { bytes.new ≡ take (length bytes.old) source.now }
{
    let end = to.min(bytes.len());
    if from < end {
        bytes[from..end].copy_from_slice(&source[from..end]);
    }
}

// Takes the marks of a range away, where there are no others.
fn clear(flags: &mut [bool], from: usize, to: usize)
    requires { LieWithin from to flags.old }
    ensures { flags.new ≡ replicate (length flags.old) false }
{
    let end = to.min(flags.len());
    if from < end {
        flags[from..end].fill(false);
    }
}

fn tear(bytes: &mut [u8], unsynced: &[bool])
    requires { length bytes.old ≤ length unsynced.now }
    ensures { bytes.new ≡ replaced unsynced.now (λ i. 0xa5) bytes.old }
{
    for i in 0..bytes.len() {
        if unsynced[i] {
            bytes[i] = TORN;
        }
    }
}

fn redraw(bytes: &mut [u8], unsynced: &[bool], picker: &mut Picker)
    requires { length bytes.old ≤ length unsynced.now }
    ensures bytes { bytes.new ≡ replaced unsynced.now (redrawn unsynced.now picker.old) bytes.old }
    ensures draws { picker.new ≡ after_draws (count_below unsynced.now (length bytes.old)) picker.old }
{
    for i in 0..bytes.len() {
        if unsynced[i] {
            bytes[i] = (picker.draw() % 256) as u8;
        }
    }
}
