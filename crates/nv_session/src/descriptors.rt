//! Descriptors of a region's files, by their names.
ghost use Rattle.std.specs.Prelude.{◌≡◌, ℕ, ◌<◌, ◌++◌, ◌↔◌, [], ◌∷◌, All, Some, None, Err, IfOk, OnErr, OnOk, length};
ghost use Rattle.nv_mount.specs.Fds.{max_fds};
ghost use Rattle.nv_session.specs.Descriptors.{place_in};
ghost use Rattle.nv_session.specs.declared.descriptors.FdError.TheVariants.{NoFile, TooManyFds};

use nv_header::Names;
use nv_mount::{FdError as TableError, Fds};
use nv_open::Opened;
use nv_plain::Mode;
use nv_pmem::Lines;
use thiserror::Error;

/// Why a descriptor is not opened. Nothing is changed.
#[derive(Clone, Copy, Debug, PartialEq, Eq, Error)]
pub enum FdError {
    /// The region has no file of this name.
    #[error("no such file")]
    NoFile,
    /// There are as many as there may be.
    #[error("too many descriptors")]
    TooManyFds,
    /// There was not enough memory.
    #[error("no memory")]
    NoMemory,
}

// The place of a name among these.
fn place_of(names: &Names, name: &[u8]) -> Option<usize>
    ensures { result ≡ place_in names.now name.now }
{
    let mut known = names.as_slice().iter();
    known.position(|known| known.as_slice() == name)
}

/// Opens one more descriptor, of the file of this name among the region's, and gives its number, which is how many there were.
pub fn open_fd<L: Lines, B>(
    opened: &Opened<L, B>,
    fds: &mut Fds,
    name: &[u8],
    mode: Mode,
) -> Result<u64, FdError>
    ensures number { IfOk result (λ fd. fd ≡ length fds.old) }
    ensures opened { OnOk result ((file : ℕ) × (place_in opened.now.region.names name.now ≡ Some file) × (fds.new ≡ fds.old ++ record { file = file; mode = mode } ∷ [])) }
    ensures files { All (λ fd. fd.file < length opened.now.region.names) fds.old → All (λ fd. fd.file < length opened.now.region.names) fds.new }
    ensures none { (result ≡ Err NoFile) ↔ (place_in opened.now.region.names name.now ≡ None) }
    ensures full { result ≡ Err TooManyFds → length fds.old ≡ max_fds }
    ensures kept { OnErr result (fds.new ≡ fds.old) }
{
    let Some(file) = place_of(opened.region.names(), name) else {
        return Err(FdError::NoFile);
    };
    match fds.open(file as u64, mode) {
        Ok(fd) => Ok(fd),
        Err(TableError::TooManyFds) => Err(FdError::TooManyFds),
        Err(TableError::NoMemory) => Err(FdError::NoMemory),
    }
}
