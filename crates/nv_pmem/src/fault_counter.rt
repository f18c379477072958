//! How often a device has failed.
ghost use Rattle.std.specs.Prelude.{◌≡◌, Ok, IfOk, OnErr, IsErr};
ghost use Rattle.nv_plain.specs.Faults.{HasCause};

use crate::Fuse;
use std::marker::Model;
use thiserror::Error;

/// The fuse refused a call of a device in memory, or the host one of a device over a file.
#[derive(Clone, Copy, Debug, PartialEq, Eq, Error)]
#[error("the call was refused")]
pub struct Refused;

/// Whether the calls of a device go well, and how often they didn't, up to 2^64 - 1. Contracts see the count alone:
/// which calls a fuse refuses is shown by tests.
#[derive(Drop)]
pub struct FaultCounter {
    fuse: Option<Fuse>,
    faults: u64,
}

impl Model for FaultCounter {
    ghost use Rattle.std.specs.Prelude.{ℕ};

    ghost Value = { ℕ };

    ghost view = { λ fault_counter. fault_counter.faults };
}

impl FaultCounter {
    /// A device that has never failed, and whose calls fail as the fuse says; with no fuse they all go well.
    pub fn new(fuse: Option<Fuse>) -> Self
        ensures { result ≡ 0 }
    {
        FaultCounter { fuse, faults: 0 }
    }

    /// Begins a call: the fuse counts it, and may refuse it. A refused call raises the count of faults, which stands
    /// still at 2^64 - 1. Takes no memory.
    pub fn begin(&mut self) -> Result<(), Refused>
        ensures { HasCause self.old self.new result }
    {
        let goes_well = !self.fuse.as_ref().is_some_and(Fuse::blows);
        self.noted(goes_well.then_some(()).ok_or(Refused))
    }

    /// Notes how a call of the host ended: one that failed raises the count. Takes no memory.
    pub fn noted<T, E: Drop>(&mut self, outcome: Result<T, E>) -> Result<T, Refused>
        ensures value { IfOk result (λ value. outcome ≡ Ok value) }
        ensures failed { OnErr result (IsErr outcome) }
        ensures cause { HasCause self.old self.new result }
    {
        match outcome {
            Ok(value) => Ok(value),
            Err(_) => {
                self.faults = self.faults.saturating_add(1);
                Err(Refused)
            }
        }
    }

    /// How often a call was refused, up to 2^64 - 1.
    pub fn faults(&self) -> u64
        ensures { result ≡ self.now }
    {
        self.faults
    }
}
