//! The descriptors of a mount.
ghost use Rattle.std.specs.Prelude.{◌≡◌, ◌++◌, ◌↔◌, ◌≤◌, [], ◌∷◌, length, Err, IfOk, IsTrue, OnOk, OnErr};
ghost use Rattle.std.specs.List.{slice_get};
ghost use Rattle.nv_mount.specs.Fds.{max_fds};
ghost use Rattle.nv_mount.specs.declared.fds.FdError.TheVariants.{TooManyFds};

use nv_plain::Mode;
use std::alloc::{AllocFailed, Global};
use std::marker::Model;
use thiserror::Error;

/// How many descriptors there may be.
pub const MAX_FDS: u64 = 64;

/// A descriptor: the place of its file among the names, and what it was opened for.
#[derive(Clone, Copy, Debug, PartialEq, Eq)]
pub struct Fd {
    pub file: u64,
    pub mode: Mode,
}

/// Why a descriptor was not opened. Nothing is changed.
#[derive(Clone, Copy, Debug, PartialEq, Eq, Error)]
pub enum FdError {
    /// There are as many as there may be.
    #[error("too many descriptors")]
    TooManyFds,
    /// There was not enough memory.
    #[error("no memory")]
    NoMemory,
}

impl From<AllocFailed<Fd>> for FdError {
    ghost use Rattle.std.specs.Prelude.{◌≡◌};
    ghost use Rattle.nv_mount.specs.declared.fds.FdError.TheVariants as error;

    ghost from_gives = { λ _ e. e ≡ error.NoMemory };

    fn from(_: AllocFailed<Fd>) -> Self {
        FdError::NoMemory
    }
}

/// The descriptors that were opened, each under its number, which is how many stood before it.
#[derive(Drop)]
pub struct Fds {
    fds: Vec<Fd>,
}

impl Model for Fds {
    ghost use Rattle.std.specs.Prelude.{◌≤◌, List, length};
    ghost use Rattle.nv_mount.specs.Fds.{max_fds};
    ghost use Rattle.nv_mount.specs.declared.fds.Fd.{Fd};

    ghost Value = { List Fd };

    ghost view = { λ table. table.fds.items };

    ghost invariant = { λ table. length table.fds.items ≤ max_fds };
}

impl Fds {
    /// No descriptors.
    pub fn new(alloc: Global) -> Self
        ensures { result ≡ [] }
    {
        Fds {
            fds: Vec::new(alloc),
        }
    }

    /// How many there are.
    pub fn len(&self) -> u64
        ensures count { result ≡ length self.now }
        ensures most { result ≤ max_fds }
    {
        self.fds.len() as u64
    }

    /// Whether there is none.
    pub fn is_empty(&self) -> bool
        ensures { IsTrue result ↔ self.now ≡ [] }
    {
        self.fds.is_empty()
    }

    /// Opens one more, and gives its number, which is how many there were, from 0 on. `file` is the place of the file among the
    /// region's names, from 0 on, in the header's order; whether there is one is asked where the mount is opened.
    pub fn open(&mut self, file: u64, mode: Mode) -> Result<u64, FdError>
        ensures number { IfOk result (λ fd. fd ≡ length self.old) }
        ensures opened { OnOk result (self.new ≡ self.old ++ record { file = file; mode = mode } ∷ []) }
        ensures full { (result ≡ Err TooManyFds) ↔ (length self.old ≡ max_fds) }
        ensures kept { OnErr result (self.new ≡ self.old) }
    {
        let fd = self.len();
        if fd == MAX_FDS {
            return Err(FdError::TooManyFds);
        }
        self.fds.push(Fd { file, mode })?;
        Ok(fd)
    }

    /// The descriptor of a number, if there is one.
    pub fn get(&self, fd: u64) -> Option<Fd>
        ensures { result ≡ slice_get self.now fd }
    {
        self.fds.get(fd as usize).copied()
    }
}
