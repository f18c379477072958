//! Why a line was not taken, and why an input gave no trace.
ghost use Rattle.std.specs.Prelude.{◌≡◌, Result};
ghost use Rattle.nv_trace.specs.Refused.{IsBadAs, read_error};
ghost use Rattle.nv_trace.specs.Said.{IsUnsaid};
ghost use Rattle.nv_trace.specs.Traced.{Traced};
ghost use Rattle.nv_trace.specs.declared.bad_line.Why.{Why};
ghost use Rattle.nv_trace.specs.declared.read_error.LineError.TheVariants as line_errors;
ghost use Rattle.nv_trace.specs.declared.read_error.ReadError.TheVariants as read_errors;

use crate::Failed;
use crate::bad_line::{BadLine, Unsaid};
use nv_plain::NoMemory;
use thiserror::Error;

/// Why a line was not taken.
#[derive(Clone, Copy, Debug, PartialEq, Eq, Error)]
pub enum LineError {
    #[error("{0}")]
    Bad(BadLine),
    #[error("no memory")]
    NoMemory,
}

/// Why an input gave no trace.
#[derive(Clone, Copy, Debug, PartialEq, Eq, Error)]
pub enum ReadError {
    #[error("{0}")]
    Bad(BadLine),
    #[error("the input is too long")]
    InputLong,
    #[error("the source failed")]
    Failed,
    #[error("no memory")]
    NoMemory,
}

/// The refusal of the line with this number.
pub(crate) fn line_error(number: u64, unsaid: Unsaid) -> LineError
    ensures { (told : Result Traced Why) → IsUnsaid told unsaid → IsBadAs told number result }
{
    match unsaid {
        Unsaid::Bad(why) => LineError::Bad(BadLine { number, why }),
        Unsaid::NoMemory => LineError::NoMemory,
    }
}

impl From<NoMemory> for LineError {
    ghost from_gives = { λ _ error. error ≡ line_errors.NoMemory };

    fn from(_: NoMemory) -> Self {
        LineError::NoMemory
    }
}

impl From<LineError> for ReadError {
    ghost from_gives = { λ error given. given ≡ read_error error };

    fn from(error: LineError) -> Self {
        match error {
            LineError::Bad(bad) => ReadError::Bad(bad),
            LineError::NoMemory => ReadError::NoMemory,
        }
    }
}

impl From<Failed> for ReadError {
    ghost from_gives = { λ _ error. error ≡ read_errors.Failed };

    fn from(_: Failed) -> Self {
        ReadError::Failed
    }
}

impl From<NoMemory> for ReadError {
    ghost from_gives = { λ _ error. error ≡ read_errors.NoMemory };

    fn from(_: NoMemory) -> Self {
        ReadError::NoMemory
    }
}
