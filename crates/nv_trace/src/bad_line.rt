//! Lines that are in no trace, and why.
use nv_plain::NoMemory;
use std::alloc::{AllocError, AllocFailed, Global};
use thiserror::Error;

/// Why a line is bad: the first of these that holds, in this order. `Number` to `Unknown` are found in a field, the fields from
/// left to right, and in each by its spelling and range first.
#[derive(Clone, Copy, Debug, PartialEq, Eq)]
pub enum Why {
    /// It has more than 262,400 bytes.
    Long,
    /// It has a byte other than 20 to 7e (hexadecimal).
    Bytes,
    /// It is in no form of a line.
    Form,
    /// It declares a file or a descriptor behind a line that declares nothing, or is a call behind a `steps` line.
    Late,
    /// A number is misspelt or out of its range, or a descriptor's is not the next one.
    Number,
    /// A name is none that a file may have.
    Name,
    /// A mode is none of `r`, `w` and `rw`.
    Mode,
    /// Bytes are misspelt, or more than 131,072, those of all parts together.
    Hex,
    /// There are as many files or descriptors as there may be, or more parts than a call may have.
    Many,
    /// A file is declared twice.
    Repeat,
    /// A file or a descriptor isn't declared.
    Unknown,
}

/// A line that isn't in the grammar of traces, by its number, counted from 1.
#[derive(Clone, Copy, Debug, PartialEq, Eq, Error)]
#[error("bad line {number}")]
pub struct BadLine {
    pub number: u64,
    pub why: Why,
}

/// Why a line says nothing.
#[derive(Clone, Copy, Debug, PartialEq, Eq)]
pub(crate) enum Unsaid {
    Bad(Why),
    NoMemory,
}

impl From<Why> for Unsaid {
    ghost use Rattle.std.specs.Prelude.{◌≡◌};
    ghost use Rattle.nv_trace.specs.declared.bad_line.Unsaid.TheVariants as unsaid;

    ghost from_gives = { λ why error. error ≡ unsaid.Bad why };

    fn from(why: Why) -> Self {
        Unsaid::Bad(why)
    }
}

impl From<NoMemory> for Unsaid {
    ghost use Rattle.std.specs.Prelude.{◌≡◌};
    ghost use Rattle.nv_trace.specs.declared.bad_line.Unsaid.TheVariants as unsaid;

    ghost from_gives = { λ _ error. error ≡ unsaid.NoMemory };

    fn from(_: NoMemory) -> Self {
        Unsaid::NoMemory
    }
}

impl From<AllocError> for Unsaid {
    ghost use Rattle.std.specs.Prelude.{◌≡◌};
    ghost use Rattle.nv_trace.specs.declared.bad_line.Unsaid.TheVariants as unsaid;

    ghost from_gives = { λ _ error. error ≡ unsaid.NoMemory };

    fn from(_: AllocError) -> Self {
        Unsaid::NoMemory
    }
}

impl<T: Drop> From<AllocFailed<T>> for Unsaid {
    ghost use Rattle.std.specs.Prelude.{◌≡◌};
    ghost use Rattle.nv_trace.specs.declared.bad_line.Unsaid.TheVariants as unsaid;

    ghost from_gives = { λ _ error. error ≡ unsaid.NoMemory };

    fn from(_: AllocFailed<T>) -> Self {
        Unsaid::NoMemory
    }
}
