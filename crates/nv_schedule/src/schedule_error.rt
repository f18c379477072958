//! Why a schedule was not brought to its end.
use nv_plain::NoMemory;
use thiserror::Error;

/// Why a schedule was not brought to its end.
#[derive(Clone, Copy, Debug, PartialEq, Eq, Error)]
pub enum ScheduleError {
    /// There was not enough memory.
    #[error("no memory")]
    NoMemory,
    /// A token has made as many advances as one may, and none of them came to its point.
    #[error("turns used up")]
    TurnsUsed,
    /// A device call has failed, and no cut had been reached.
    #[error("a device failed")]
    Fault,
}

impl From<NoMemory> for ScheduleError {
    ghost use Rattle.std.specs.Prelude.{◌≡◌};
    ghost use Rattle.nv_schedule.specs.declared.schedule_error.ScheduleError.TheVariants as errors;

    ghost from_gives = { λ _ e. e ≡ errors.NoMemory };

    fn from(_: NoMemory) -> Self {
        ScheduleError::NoMemory
    }
}
