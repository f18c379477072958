//! Stores: what a file lies in.
ghost use Rattle.std.specs.Prelude.{◌≡◌, ℕ, ◌≤◌, ◌++◌, [], ◌∷◌, drop, length, Err, IfOk, OnOk, OnErr};
ghost use Rattle.nv_plain.specs.Faults.{HasCause};
ghost use Rattle.nv_plain.specs.Files.{bytes_at};
ghost use Rattle.nv_pmem.specs.Moments.{Tells};
ghost use Rattle.nv_store.specs.Store.{Store, IsWholeStore};
ghost use Rattle.nv_store.specs.Steps.{Write, Sync, StoreHistory, DidStoreStep};
ghost use Rattle.nv_store.specs.Torn.{LeftOrTore};
ghost use Rattle.nv_store.specs.Causes.{HasWriteCause};
ghost use Rattle.nv_store.specs.declared.backing.StoreError.TheVariants.{NoMemory as NoRoom};

use nv_pmem::Refused;
use std::alloc::{AllocError, AllocFailed};
use thiserror::Error;

/// A call of a store failed.
#[derive(Clone, Copy, Debug, PartialEq, Eq, Error)]
#[error("a store failed")]
pub struct StoreFault;

impl From<Refused> for StoreFault {
    fn from(_: Refused) -> Self {
        StoreFault
    }
}

/// Why a write to a store wasn't made.
#[derive(Clone, Copy, Debug, PartialEq, Eq, Error)]
pub enum StoreError {
    /// The call failed. It may have written a part, or other bytes, in its range.
    #[error("a store failed")]
    Fault,
    /// There was not enough memory. Nothing is changed.
    #[error("no memory")]
    NoMemory,
}

impl From<StoreFault> for StoreError {
    ghost use Rattle.std.specs.Prelude.{◌≡◌};
    ghost use Rattle.nv_store.specs.declared.backing.StoreError.TheVariants as error;

    ghost from_gives = { λ _ e. e ≡ error.Fault };

    fn from(_: StoreFault) -> Self {
        StoreError::Fault
    }
}

impl<T: Drop> From<AllocFailed<T>> for StoreError {
    ghost use Rattle.std.specs.Prelude.{◌≡◌};
    ghost use Rattle.nv_store.specs.declared.backing.StoreError.TheVariants as error;

    ghost from_gives = { λ _ e. e ≡ error.NoMemory };

    fn from(_: AllocFailed<T>) -> Self {
        StoreError::NoMemory
    }
}

impl From<AllocError> for StoreError {
    ghost use Rattle.std.specs.Prelude.{◌≡◌};
    ghost use Rattle.nv_store.specs.declared.backing.StoreError.TheVariants as error;

    ghost from_gives = { λ _ e. e ≡ error.NoMemory };

    fn from(_: AllocError) -> Self {
        StoreError::NoMemory
    }
}

/// One file of a disk with a page cache: a growing list of bytes, whose offsets and lengths count bytes, from 0. A write is
/// seen by reads at once, and is durable after the next `sync`. A power failure before that may leave any bytes in its range,
/// and any length from the durable to the present one. After a fault the caller may go on, and the clauses say with what.
pub trait Backing {
    /// Which device this is. No call changes it.
    ghost device: { Self → ℕ };

    /// The states that it has had, the present one first; empty where it doesn't tell.
    ghost history: { Self → StoreHistory };

    /// How often it has failed, up to 2^64 - 1, where the count stands still.
    ghost fault_count: { Self → ℕ };

    /// How many bytes reads give.
    fn len(&mut self) -> Result<u64, StoreFault>
        ensures len { IfOk result (λ len. Tells (history self.old) (λ store. len ≡ length store.seen)) }
        ensures history { history self.new ≡ history self.old }
        ensures cause { HasCause (fault_count self.old) (fault_count self.new) result }
        ensures device { device self.new ≡ device self.old };

    /// Reads from an offset on: fills all of the buffer that lies below the length, and answers how many bytes that is.
    /// The rest of the buffer is unchanged, over any store. After a fault the buffer may hold anything.
    fn pread(&mut self, at: u64, buf: &mut [u8]) -> Result<u64, StoreFault>
        ensures count { IfOk result (λ count. Tells (history self.old) (λ store.
            count ≡ length (bytes_at store.seen at (length buf.old)))) }
        ensures bytes { IfOk result (λ count. Tells (history self.old) (λ store.
            buf.new ≡ bytes_at store.seen at (length buf.old) ++ drop count buf.old)) }
        ensures rest { IfOk result (λ count. drop count buf.new ≡ drop count buf.old) }
        ensures limit { IfOk result (λ count. count ≤ length buf.old) }
        ensures history { history self.new ≡ history self.old }
        ensures cause { HasCause (fault_count self.old) (fault_count self.new) result }
        ensures device { device self.new ≡ device self.old };

    /// Writes from an offset on, past the end too; a gap reads as zeros. No bytes change nothing (POSIX.1-2017, pwrite).
    ///
    /// After a fault it may be torn: reads give any bytes in its range, up to any length from the old one to the write's end,
    /// and what there is of the range is not durable; all other bytes are as they were. The same write, made again, makes that
    /// good. After `NoMemory` nothing is changed.
    fn pwrite(&mut self, at: u64, bytes: &[u8]) -> Result<(), StoreError>
        ensures done { OnOk result (DidStoreStep (Write at bytes.now ∷ []) (history self.old) (history self.new)) }
        ensures failed { OnErr result (LeftOrTore at (length bytes.now) (history self.old) (history self.new)) }
        ensures memory { result ≡ Err NoRoom → history self.new ≡ history self.old }
        ensures cause { HasWriteCause (fault_count self.old) (fault_count self.new) result }
        ensures device { device self.new ≡ device self.old };

    /// Makes durable what reads give, bytes and length (POSIX.1-2017, fsync: all data of the file is transferred to the
    /// device).
    ///
    /// After a fault nothing is promised to be durable that wasn't before (the standard: outstanding operations are not
    /// guaranteed to have been completed). Reads give what they gave, and a later sync that goes well makes that durable. A
    /// system may drop what it couldn't write and call the next sync a success; over such a one each later sync is to fail too.
    fn sync(&mut self) -> Result<(), StoreFault>
        ensures done { OnOk result (DidStoreStep (Sync ∷ []) (history self.old) (history self.new)) }
        ensures failed { OnErr result (history self.new ≡ history self.old) }
        ensures cause { HasCause (fault_count self.old) (fault_count self.new) result }
        ensures device { device self.new ≡ device self.old };

    /// How often it has failed, up to 2^64 - 1.
    fn faults(&self) -> u64
        ensures { result ≡ fault_count self.now };

    /// The present state is whole.
    ghost told_whole: { (store : Self) (now : Store) (past : StoreHistory) → history store ≡ now ∷ past → IsWholeStore now };
}
