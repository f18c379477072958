//! Why a region is not recovered.
use nv_plain::NoMemory;
use nv_pmem::RegionFault;
use nv_store::{StoreError, StoreFault};
use std::alloc::{AllocError, AllocFailed};
use thiserror::Error;

/// Why a region isn't recovered.
#[derive(Clone, Copy, Debug, PartialEq, Eq, Error)]
pub enum RecoverError {
    /// An entry of a committed group breaks a rule of the log; of all such entries this is the least number. Nothing is
    /// written.
    #[error("bad entry {number}")]
    BadEntry { number: u64 },
    /// A part failed, and its count of faults rose.
    #[error("a part of the region failed")]
    RegionFault,
    /// A store failed, and its count of faults rose.
    #[error("a store failed")]
    StoreFault,
    /// There was not enough memory.
    #[error("no memory")]
    NoMemory,
}

impl From<RegionFault> for RecoverError {
    ghost use Rattle.std.specs.Prelude.{◌≡◌};
    ghost use Rattle.nv_recover.specs.declared.error.RecoverError.TheVariants as error;

    ghost from_gives = { λ _ e. e ≡ error.RegionFault };

    fn from(_: RegionFault) -> Self {
        RecoverError::RegionFault
    }
}

impl From<StoreFault> for RecoverError {
    ghost use Rattle.std.specs.Prelude.{◌≡◌};
    ghost use Rattle.nv_recover.specs.declared.error.RecoverError.TheVariants as error;

    ghost from_gives = { λ _ e. e ≡ error.StoreFault };

    fn from(_: StoreFault) -> Self {
        RecoverError::StoreFault
    }
}

impl From<StoreError> for RecoverError {
    ghost use Rattle.std.specs.Prelude.{◌≡◌};
    ghost use Rattle.nv_recover.specs.Causes.{of_store};

    ghost from_gives = { λ error e. e ≡ of_store error };

    fn from(error: StoreError) -> Self {
        match error {
            StoreError::Fault => RecoverError::StoreFault,
            StoreError::NoMemory => RecoverError::NoMemory,
        }
    }
}

impl From<NoMemory> for RecoverError {
    ghost use Rattle.std.specs.Prelude.{◌≡◌};
    ghost use Rattle.nv_recover.specs.declared.error.RecoverError.TheVariants as error;

    ghost from_gives = { λ _ e. e ≡ error.NoMemory };

    fn from(_: NoMemory) -> Self {
        RecoverError::NoMemory
    }
}

impl<T: Drop> From<AllocFailed<T>> for RecoverError {
    ghost use Rattle.std.specs.Prelude.{◌≡◌};
    ghost use Rattle.nv_recover.specs.declared.error.RecoverError.TheVariants as error;

    ghost from_gives = { λ _ e. e ≡ error.NoMemory };

    fn from(_: AllocFailed<T>) -> Self {
        RecoverError::NoMemory
    }
}

impl From<AllocError> for RecoverError {
    ghost use Rattle.std.specs.Prelude.{◌≡◌};
    ghost use Rattle.nv_recover.specs.declared.error.RecoverError.TheVariants as error;

    ghost from_gives = { λ _ e. e ≡ error.NoMemory };

    fn from(_: AllocError) -> Self {
        RecoverError::NoMemory
    }
}
