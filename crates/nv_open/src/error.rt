//! Why a region is refused or not opened.
use nv_bench::BenchError;
use nv_header::{AddError, HeadError, HeadField, Truncated};
use nv_look::LookError;
use nv_pmem::RegionFault;
use nv_recover::RecoverError;
use std::alloc::AllocError;
use thiserror::Error;

/// Why a region is refused. Those up to `BadEntry` are tested in this order, but that the lines of the header's own version are
/// counted once that is known, and those that the header says behind `BadName`.
#[derive(Clone, Copy, Debug, PartialEq, Eq, Error)]
pub enum Refusal {
    /// The region lacks lines: those of its header, or those that the header says. A region that is opened also lacks some where
    /// a bench that tells nothing didn't lengthen the header of an earlier version.
    #[error("truncated {found} {wanted}")]
    Truncated { found: u64, wanted: u64 },
    /// The region has another magic.
    #[error("bad magic")]
    BadMagic,
    /// The region has a version that isn't known: it is neither 1 nor 2.
    #[error("bad version {found}")]
    BadVersion { found: u64 },
    /// A field of the header is out of its limits.
    #[error("bad geometry")]
    BadGeometry { field: HeadField, found: u64 },
    /// A name's record breaks the rules of names, or an earlier one has the name.
    #[error("bad name {index}")]
    BadName { index: u64 },
    /// An entry of a committed group breaks a rule of the log; of all such entries this is the least number.
    #[error("bad entry {number}")]
    BadEntry { number: u64 },
    /// The region would have more than 64 files.
    #[error("too many files")]
    TooManyFiles,
}

/// Why a region isn't opened. All that was opened is given back.
#[derive(Clone, Copy, Debug, PartialEq, Eq, Error)]
pub enum OpenError {
    /// The region is refused.
    #[error("{0}")]
    Refused(Refusal),
    /// A device or an opening failed, and the bench's count of faults rose.
    #[error("a device failed")]
    Fault,
    /// There was not enough memory.
    #[error("no memory")]
    NoMemory,
}

impl From<BenchError> for OpenError {
    ghost use Rattle.std.specs.Prelude.{◌≡◌};
    ghost use Rattle.nv_open.specs.Refusals.{of_bench};

    ghost from_gives = { λ error e. e ≡ of_bench error };

    fn from(error: BenchError) -> Self {
        match error {
            BenchError::Failed => OpenError::Fault,
            BenchError::NoMemory => OpenError::NoMemory,
        }
    }
}

impl From<HeadError> for OpenError {
    ghost use Rattle.std.specs.Prelude.{◌≡◌};
    ghost use Rattle.nv_open.specs.Refusals.{of_head};

    ghost from_gives = { λ error e. e ≡ of_head error };

    fn from(error: HeadError) -> Self {
        match error {
            HeadError::Truncated { found, wanted } => {
                OpenError::Refused(Refusal::Truncated { found, wanted })
            }
            HeadError::BadMagic => OpenError::Refused(Refusal::BadMagic),
            HeadError::BadVersion { found } => OpenError::Refused(Refusal::BadVersion { found }),
            HeadError::BadGeometry { field, found } => {
                OpenError::Refused(Refusal::BadGeometry { field, found })
            }
            HeadError::BadName { index } => OpenError::Refused(Refusal::BadName { index }),
            HeadError::RegionFault => OpenError::Fault,
            HeadError::NoMemory => OpenError::NoMemory,
        }
    }
}

impl From<Truncated> for OpenError {
    ghost use Rattle.std.specs.Prelude.{◌≡◌};
    ghost use Rattle.nv_open.specs.declared.error.OpenError.TheVariants as error;
    ghost use Rattle.nv_open.specs.declared.error.Refusal.TheVariants as refusal;

    ghost from_gives = { λ lack e. e ≡ error.Refused (refusal.Truncated lack.found lack.wanted) };

    fn from(lack: Truncated) -> Self {
        OpenError::Refused(Refusal::Truncated {
            found: lack.found,
            wanted: lack.wanted,
        })
    }
}

impl From<RecoverError> for OpenError {
    ghost use Rattle.std.specs.Prelude.{◌≡◌};
    ghost use Rattle.nv_open.specs.Refusals.{of_recovery};

    ghost from_gives = { λ error e. e ≡ of_recovery error };

    fn from(error: RecoverError) -> Self {
        match error {
            RecoverError::BadEntry { number } => OpenError::Refused(Refusal::BadEntry { number }),
            RecoverError::RegionFault | RecoverError::StoreFault => OpenError::Fault,
            RecoverError::NoMemory => OpenError::NoMemory,
        }
    }
}

impl From<LookError> for OpenError {
    ghost use Rattle.std.specs.Prelude.{◌≡◌};
    ghost use Rattle.nv_open.specs.Looking.{of_looking};

    ghost from_gives = { λ error e. e ≡ of_looking error };

    fn from(error: LookError) -> Self {
        match error {
            LookError::RegionFault => OpenError::Fault,
            LookError::NoMemory => OpenError::NoMemory,
        }
    }
}

impl From<AddError> for OpenError {
    ghost use Rattle.std.specs.Prelude.{◌≡◌};
    ghost use Rattle.nv_open.specs.Adding.{of_adding};

    ghost from_gives = { λ error e. e ≡ of_adding error };

    fn from(error: AddError) -> Self {
        match error {
            AddError::TooManyFiles => OpenError::Refused(Refusal::TooManyFiles),
            AddError::BadName { index } => OpenError::Refused(Refusal::BadName { index }),
            AddError::NoMemory => OpenError::NoMemory,
            AddError::RegionFault => OpenError::Fault,
        }
    }
}

impl From<RegionFault> for OpenError {
    ghost use Rattle.std.specs.Prelude.{◌≡◌};
    ghost use Rattle.nv_open.specs.declared.error.OpenError.TheVariants as error;

    ghost from_gives = { λ _ e. e ≡ error.Fault };

    fn from(_: RegionFault) -> Self {
        OpenError::Fault
    }
}

impl From<AllocError> for OpenError {
    ghost use Rattle.std.specs.Prelude.{◌≡◌};
    ghost use Rattle.nv_open.specs.declared.error.OpenError.TheVariants as error;

    ghost from_gives = { λ _ e. e ≡ error.NoMemory };

    fn from(_: AllocError) -> Self {
        OpenError::NoMemory
    }
}
