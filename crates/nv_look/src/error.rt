//! Why a region isn't shown.
use nv_plain::NoMemory;
use nv_pmem::RegionFault;
use nv_recover::RecoverError;
use std::alloc::{AllocError, AllocFailed};
use thiserror::Error;

/// Why a region isn't shown. Its header was read before, so nothing else can be wrong with it.
#[derive(Clone, Copy, Debug, PartialEq, Eq, Error)]
pub enum LookError {
    /// A part failed, and its count of faults rose.
    #[error("a part of the region failed")]
    RegionFault,
    /// There was not enough memory.
    #[error("no memory")]
    NoMemory,
}

impl From<RegionFault> for LookError {
    ghost use Rattle.std.specs.Prelude.{◌≡◌};
    ghost use Rattle.nv_look.specs.declared.error.LookError.TheVariants as error;

    ghost from_gives = { λ _ e. e ≡ error.RegionFault };

    fn from(_: RegionFault) -> Self {
        LookError::RegionFault
    }
}

impl From<NoMemory> for LookError {
    ghost use Rattle.std.specs.Prelude.{◌≡◌};
    ghost use Rattle.nv_look.specs.declared.error.LookError.TheVariants as error;

    ghost from_gives = { λ _ e. e ≡ error.NoMemory };

    fn from(_: NoMemory) -> Self {
        LookError::NoMemory
    }
}

impl<T: Drop> From<AllocFailed<T>> for LookError {
    ghost use Rattle.std.specs.Prelude.{◌≡◌};
    ghost use Rattle.nv_look.specs.declared.error.LookError.TheVariants as error;

    ghost from_gives = { λ _ e. e ≡ error.NoMemory };

    fn from(_: AllocFailed<T>) -> Self {
        LookError::NoMemory
    }
}

impl From<AllocError> for LookError {
    ghost use Rattle.std.specs.Prelude.{◌≡◌};
    ghost use Rattle.nv_look.specs.declared.error.LookError.TheVariants as error;

    ghost from_gives = { λ _ e. e ≡ error.NoMemory };

    fn from(_: AllocError) -> Self {
        LookError::NoMemory
    }
}

impl From<LookError> for RecoverError {
    ghost use Rattle.std.specs.Prelude.{◌≡◌};
    ghost use Rattle.nv_look.specs.Causes.{of_look};

    ghost from_gives = { λ error e. e ≡ of_look error };

    fn from(error: LookError) -> Self {
        match error {
            LookError::RegionFault => RecoverError::RegionFault,
            LookError::NoMemory => RecoverError::NoMemory,
        }
    }
}
