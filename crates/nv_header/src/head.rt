//! What a header says, and why it is refused.
use crate::Names;
use nv_plain::NoMemory;
use nv_plain::limits::Version;
use nv_pmem::{BadGeometry, Geometry, GeometryField, RegionFault};
use std::alloc::{AllocError, AllocFailed};
use thiserror::Error;

/// The greatest tail.
pub(crate) const TAIL_LIMIT: u64 = 1 << 60;

/// The bytes `NVCACHE1`, little-endian.
pub(crate) const MAGIC: u64 = 0x3145_4843_4143_564e;

/// What the header of a region says.
#[derive(Debug, Drop)]
pub struct Head {
    pub version: Version,
    pub geometry: Geometry,
    /// The names of the files, in their order.
    pub names: Names,
    /// The persistent tail: the least number whose entry may still be needed.
    pub tail: u64,
}

/// A field of a header that has limits.
#[derive(Clone, Copy, Debug, PartialEq, Eq)]
pub enum HeadField {
    Page,
    Entries,
    Files,
    Tail,
}

/// Why a region's header isn't read. Those up to `BadName` are tested in this order, but that the lines of the header's own
/// version are counted once that is known.
#[derive(Clone, Copy, Debug, PartialEq, Eq, Error)]
pub enum HeadError {
    /// There is no part 0, or it has too few lines.
    #[error("truncated: {found} lines of {wanted}")]
    Truncated { found: u64, wanted: u64 },
    /// The region has another magic.
    #[error("bad magic")]
    BadMagic,
    /// The region has a version that isn't known.
    #[error("bad version {found}")]
    BadVersion { found: u64 },
    /// A field is out of its limits.
    #[error("bad geometry")]
    BadGeometry { field: HeadField, found: u64 },
    /// A name's record breaks the rules of names, or an earlier one has the name.
    #[error("bad name {index}")]
    BadName { index: u64 },
    /// A part failed, and its count of faults rose.
    #[error("a part of the region failed")]
    RegionFault,
    /// There was not enough memory for the names.
    #[error("no memory")]
    NoMemory,
}

impl From<RegionFault> for HeadError {
    ghost use Rattle.std.specs.Prelude.{◌≡◌};
    ghost use Rattle.nv_header.specs.declared.head.HeadError.TheVariants as error;

    ghost from_gives = { λ _ e. e ≡ error.RegionFault };

    fn from(_: RegionFault) -> Self {
        HeadError::RegionFault
    }
}

impl From<NoMemory> for HeadError {
    ghost use Rattle.std.specs.Prelude.{◌≡◌};
    ghost use Rattle.nv_header.specs.declared.head.HeadError.TheVariants as error;

    ghost from_gives = { λ _ e. e ≡ error.NoMemory };

    fn from(_: NoMemory) -> Self {
        HeadError::NoMemory
    }
}

impl From<GeometryField> for HeadField {
    ghost use Rattle.std.specs.Prelude.{◌≡◌};
    ghost use Rattle.nv_header.specs.Refusals.{head_field};

    ghost from_gives = { λ field result. result ≡ head_field field };

    fn from(field: GeometryField) -> Self {
        match field {
            GeometryField::Page => HeadField::Page,
            GeometryField::Entries => HeadField::Entries,
        }
    }
}

impl From<BadGeometry> for HeadError {
    ghost use Rattle.std.specs.Prelude.{◌≡◌};
    ghost use Rattle.nv_header.specs.declared.head.HeadError.TheVariants as error;
    ghost use Rattle.nv_header.specs.Refusals.{head_field};

    ghost from_gives = { λ bad e. e ≡ error.BadGeometry (head_field bad.field) bad.found };

    fn from(bad: BadGeometry) -> Self {
        HeadError::BadGeometry {
            field: bad.field.into(),
            found: bad.found,
        }
    }
}

impl From<AllocError> for HeadError {
    ghost use Rattle.std.specs.Prelude.{◌≡◌};
    ghost use Rattle.nv_header.specs.declared.head.HeadError.TheVariants as error;

    ghost from_gives = { λ _ e. e ≡ error.NoMemory };

    fn from(_: AllocError) -> Self {
        HeadError::NoMemory
    }
}

impl<T: Drop> From<AllocFailed<T>> for HeadError {
    ghost use Rattle.std.specs.Prelude.{◌≡◌};
    ghost use Rattle.nv_header.specs.declared.head.HeadError.TheVariants as error;

    ghost from_gives = { λ _ e. e ≡ error.NoMemory };

    fn from(_: AllocFailed<T>) -> Self {
        HeadError::NoMemory
    }
}
