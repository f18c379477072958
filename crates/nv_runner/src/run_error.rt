//! Why a run tells nothing.
use nv_plain::NoMemory;
use std::alloc::AllocFailed;
use thiserror::Error;

/// Why a run was not brought to its end.
#[derive(Clone, Copy, Debug, PartialEq, Eq, Error)]
pub enum RunError {
    /// There was not enough memory.
    #[error("no memory")]
    NoMemory,
    /// A device failed, and its count of faults rose.
    #[error("a device failed")]
    Fault,
}

impl From<NoMemory> for RunError {
    ghost use Rattle.std.specs.Prelude.{◌≡◌};
    ghost use Rattle.nv_runner.specs.declared.run_error.RunError.TheVariants as errors;

    ghost from_gives = { λ _ e. e ≡ errors.NoMemory };

    fn from(_: NoMemory) -> Self {
        RunError::NoMemory
    }
}
