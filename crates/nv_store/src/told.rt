//! A disk in memory, with the states that it has had.
ghost use Rattle.std.specs.Prelude.{◌≡◌, ◌+◌, ◌<◌, ◌≤◌, ◌++◌, [], ◌∷◌, drop, length, IfOk, OnOk, OnErr};
ghost use Rattle.nv_plain.specs.Files.{bytes_at};
ghost use Rattle.nv_store.specs.Store.{quiet_store};
ghost use Rattle.nv_pmem.specs.Runs.{grown};
ghost use Rattle.nv_store.specs.Steps.{Write, Sync, after_store_step};
ghost use Rattle.nv_store.specs.Torn.{with_marks};
ghost use Rattle.nv_store.specs.Picked.{picked_image, draws_after};
ghost use Rattle.nv_store.specs.Disk.{disk_store};

use crate::disk::Disk;
use nv_plain::NoMemory;
use nv_pmem::{Past, Picker};
use std::alloc::Global;

/// A disk in memory, and the states that it has had.
#[derive(Drop)]
pub(crate) struct Told {
    disk: Disk,
    past: Past<Disk>,
}

impl Told {
    ghost use Rattle.nv_store.specs.Told.{told_store_history};

    pub(crate) fn new(alloc: Global, bytes: &[u8]) -> Result<Self, NoMemory>
        ensures { IfOk result (λ told. told_store_history told ≡ quiet_store bytes.now ∷ []) }
    {
        Ok(Told {
            disk: Disk::new(alloc, bytes)?,
            past: Past::new(),
        })
    }

    pub(crate) fn len(&self) -> usize
        ensures { result ≡ length (disk_store self.now.disk).seen }
    {
        self.disk.len()
    }

    pub(crate) fn read(&self, at: usize, buf: &mut [u8]) -> usize
        ensures count { result ≡ length (bytes_at (disk_store self.now.disk).seen at (length buf.old)) }
        ensures bytes { buf.new ≡ bytes_at (disk_store self.now.disk).seen at (length buf.old) ++ drop result buf.old }
        ensures limit { result ≤ length buf.old }
    {
        self.disk.read(at, buf)
    }

    /// Writes from an offset on. Memory is asked for before anything changes.
    pub(crate) fn write(&mut self, at: usize, bytes: &[u8]) -> Result<(), NoMemory>
        ensures done { OnOk result (told_store_history self.new ≡ grown after_store_step (Write at bytes.now) (told_store_history self.old)) }
        ensures same { OnErr result (told_store_history self.new ≡ told_store_history self.old) }
        ensures some { OnErr result (0 < length bytes.now) }
        ensures grows { OnErr result (length (disk_store self.old.disk).seen < at + length bytes.now) }
    {
        self.disk.reserve(at, bytes.len())?;
        self.past.note(&self.disk);
        self.disk.write(at, bytes);
        Ok(())
    }

    /// What a refused write leaves.
    pub(crate) fn mark(&mut self, at: usize, count: usize)
        ensures { told_store_history self.new ≡ with_marks at count (disk_store self.old.disk) ∷ told_store_history self.old }
    {
        self.past.note(&self.disk);
        self.disk.mark(at, count);
    }

    pub(crate) fn sync(&mut self)
        ensures { told_store_history self.new ≡ grown after_store_step Sync (told_store_history self.old) }
    {
        self.past.note(&self.disk);
        self.disk.sync();
    }

    pub(crate) fn lose_power(&mut self, picker: &mut Picker)
        ensures image { told_store_history self.new
            ≡ quiet_store (picked_image (disk_store self.old.disk) picker.old) ∷ told_store_history self.old }
        ensures draws { picker.new ≡ draws_after (disk_store self.old.disk) picker.old }
    {
        self.past.note(&self.disk);
        self.disk.lose_power(picker);
    }
}
