//! A store in memory.
ghost use Rattle.std.specs.Prelude.{◌≡◌, ◌+◌, ◌<◌, ◌≤◌, ◌++◌, [], ◌∷◌, drop, length, Err, IfOk, OnOk, OnErr};
ghost use Rattle.nv_plain.specs.Faults.{HasCause};
ghost use Rattle.nv_plain.specs.Files.{bytes_at};
ghost use Rattle.nv_store.specs.Store.{IsQuietStore, quiet_store};
ghost use Rattle.nv_store.specs.Steps.{Write, Sync, DidStoreStep};
ghost use Rattle.nv_store.specs.Torn.{LeftOrTore, with_marks};
ghost use Rattle.nv_store.specs.Images.{IsStoreImage};
ghost use Rattle.nv_store.specs.Picked.{picked_image, draws_after};
ghost use Rattle.nv_store.specs.Causes.{HasWriteCause};
ghost use Rattle.nv_store.specs.declared.backing.StoreError.TheVariants.{Fault, NoMemory as NoRoom};

use crate::told::Told;
use crate::{Backing, StoreError, StoreFault};
use nv_plain::NoMemory;
use nv_pmem::{FaultCounter, Fuse, Picker};
use std::alloc::Global;

/// A store in memory. Its contents end with it; it is for trying out what stands on `Backing`.
#[derive(Drop)]
pub struct MemStore {
    told: Told,
    fault_counter: FaultCounter,
}

impl MemStore {
    ghost use Rattle.nv_store.specs.MemStore.{IsNewStore, store_now, store_device, store_faults, store_history};

    /// A store that holds these bytes, durable, and whose calls all go well. It takes three bytes for each of them.
    pub fn new(alloc: Global, bytes: &[u8]) -> Result<Self, NoMemory>
        ensures { IfOk result (IsNewStore bytes.now) }
    {
        Self::made(alloc, bytes, None)
    }

    /// As `new`, but the calls that the fuse counts out fail. Each call of `Backing` but `faults` counts as one. One
    /// that fails leaves the store and the buffer as they were, but for `pwrite`: what there is of its range is then unsynced.
    pub fn fused(alloc: Global, bytes: &[u8], fuse: Fuse) -> Result<Self, NoMemory>
        ensures { IfOk result (IsNewStore bytes.now) }
    {
        Self::made(alloc, bytes, Some(fuse))
    }

    fn made(alloc: Global, bytes: &[u8], fuse: Option<Fuse>) -> Result<Self, NoMemory>
        ensures { IfOk result (IsNewStore bytes.now) }
    {
        Ok(MemStore {
            told: Told::new(alloc, bytes)?,
            fault_counter: FaultCounter::new(fuse),
        })
    }

    /// Loses power: the store is left with the image that the picker takes, and is quiet. It isn't a call of `Backing`: no
    /// fuse counts it, and it takes no memory.
    pub fn image(&mut self, picker: &mut Picker)
        ensures picked { store_history self.new
            ≡ quiet_store (picked_image (store_now self.old) picker.old) ∷ store_history self.old }
        ensures draws { picker.new ≡ draws_after (store_now self.old) picker.old }
        ensures image { IsStoreImage (store_now self.old) (store_now self.new).seen }
        ensures quiet { IsQuietStore (store_now self.new) }
        ensures faults { store_faults self.new ≡ store_faults self.old }
        ensures device { store_device self.new ≡ store_device self.old }
    {
        self.told.lose_power(picker);
    }
}

impl Backing for MemStore {
    ghost use Rattle.nv_store.specs.MemStore.{store_now, store_device, store_history, store_faults, store_told_whole};

    ghost device = { store_device };

    ghost history = { store_history };

    ghost fault_count = { store_faults };

    fn len(&mut self) -> Result<u64, StoreFault> {
        self.fault_counter.begin()?;
        Ok(self.told.len() as u64)
    }

    fn pread(&mut self, at: u64, buf: &mut [u8]) -> Result<u64, StoreFault>
        ensures count { IfOk result (λ count. count ≡ length (bytes_at (store_now self.old).seen at (length buf.old))) }
        ensures bytes { IfOk result (λ count.
            buf.new ≡ bytes_at (store_now self.old).seen at (length buf.old) ++ drop count buf.old) }
        ensures rest { IfOk result (λ count. drop count buf.new ≡ drop count buf.old) }
        ensures limit { IfOk result (λ count. count ≤ length buf.old) }
        ensures refused { OnErr result (buf.new ≡ buf.old) }
        ensures history { store_history self.new ≡ store_history self.old }
        ensures cause { HasCause (store_faults self.old) (store_faults self.new) result }
        ensures device { store_device self.new ≡ store_device self.old }
    {
        self.fault_counter.begin()?;
        Ok(self.told.read(at as usize, buf) as u64)
    }

    fn pwrite(&mut self, at: u64, bytes: &[u8]) -> Result<(), StoreError>
        ensures done { OnOk result (DidStoreStep (Write at bytes.now ∷ []) (store_history self.old) (store_history self.new)) }
        ensures failed { OnErr result (LeftOrTore at (length bytes.now) (store_history self.old) (store_history self.new)) }
        ensures refused { result ≡ Err Fault
            → store_history self.new ≡ with_marks at (length bytes.now) (store_now self.old) ∷ store_history self.old }
        ensures memory { result ≡ Err NoRoom → store_history self.new ≡ store_history self.old }
        ensures some { result ≡ Err NoRoom → 0 < length bytes.now }
        ensures grows { result ≡ Err NoRoom → length (store_now self.old).seen < at + length bytes.now }
        ensures cause { HasWriteCause (store_faults self.old) (store_faults self.new) result }
        ensures device { store_device self.new ≡ store_device self.old }
    {
        if self.fault_counter.begin().is_err() {
            self.told.mark(at as usize, bytes.len());
            return Err(StoreError::Fault);
        }
        match self.told.write(at as usize, bytes) {
            Ok(()) => Ok(()),
            Err(NoMemory) => Err(StoreError::NoMemory),
        }
    }

    fn sync(&mut self) -> Result<(), StoreFault> {
        self.fault_counter.begin()?;
        self.told.sync();
        Ok(())
    }

    fn faults(&self) -> u64 {
        self.fault_counter.faults()
    }

    ghost told_whole = { store_told_whole };
}
