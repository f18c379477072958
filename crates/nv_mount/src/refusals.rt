//! Why a mount is not opened, or not closed, and what comes back then.

use nv_header::Region;
use nv_pmem::Lines;
use nv_store::StoreFault;
use std::alloc::AllocFailed;
use thiserror::Error;

/// Why nothing is mounted.
#[derive(Clone, Copy, Debug, PartialEq, Eq, Error)]
pub enum OpenError {
    /// There was not enough memory.
    #[error("no memory")]
    NoMemory,
    /// A store did not tell its length, and its count of faults rose.
    #[error("a store failed")]
    StoreFault,
}

impl From<StoreFault> for OpenError {
    ghost use Rattle.std.specs.Prelude.{◌≡◌};
    ghost use Rattle.nv_mount.specs.declared.refusals.OpenError.TheVariants as error;

    ghost from_gives = { λ _ e. e ≡ error.StoreFault };

    fn from(_: StoreFault) -> Self {
        OpenError::StoreFault
    }
}

impl From<AllocFailed<u64>> for OpenError {
    ghost use Rattle.std.specs.Prelude.{◌≡◌};
    ghost use Rattle.nv_mount.specs.declared.refusals.OpenError.TheVariants as error;

    ghost from_gives = { λ _ e. e ≡ error.NoMemory };

    fn from(_: AllocFailed<u64>) -> Self {
        OpenError::NoMemory
    }
}

/// What comes back where nothing is mounted: the region and the stores, in their order, and why.
#[derive(Drop)]
pub struct Unopened<L: Lines, B> {
    pub region: Region<L>,
    pub stores: Vec<B>,
    pub error: OpenError,
}

/// Passes are out: pass 0 has made more than it has taken in.
#[derive(Clone, Copy, Debug, PartialEq, Eq, Error)]
#[error("{made} passes were made, and {joined} joined")]
pub struct PassesOut {
    pub made: u64,
    pub joined: u64,
}
