//! Which calls of a stream in memory fail.
ghost use Rattle.std.specs.Prelude.{◌≡◌, IfOk};
ghost use Rattle.nv_plain.specs.Faults.{Rose};
ghost use Rattle.nv_trace.specs.MemStreams.{fresh_plan, is_next_to_fail, after_call, after_fault};

use crate::Failed;
use std::alloc::{AllocError, Global};
use std::marker::Model;

/// Which calls of a stream fail, by their numbers from 1. Both counts stand still at 2^64 - 1.
#[derive(Debug, Drop)]
pub struct Plan {
    fails: Vec<u64>,
    calls: u64,
    faults: u64,
}

impl Model for Plan {
    ghost use Rattle.nv_trace.specs.MemStreams.{Planned};

    ghost Value = { Planned };

    ghost view = { λ p. record { fails = p.fails.items; calls = p.calls; faults = p.faults } };
}

impl Plan {
    pub(crate) fn new(alloc: Global, fails: &[u64]) -> Result<Self, AllocError>
        ensures { IfOk result (λ plan. plan ≡ fresh_plan fails.now) }
    {
        Ok(Plan {
            fails: Vec::from_slice(alloc, fails)?,
            calls: 0,
            faults: 0,
        })
    }

    // Counts a call, and says whether it is to fail.
    pub(crate) fn next_fails(&mut self) -> bool
        ensures answer { result ≡ is_next_to_fail self.old }
        ensures after { self.new ≡ after_call self.old }
    {
        self.calls = self.calls.saturating_add(1);
        self.fails.contains(&self.calls)
    }

    // Counts a fault.
    pub(crate) fn fail(&mut self) -> Failed
        ensures after { self.new ≡ after_fault self.old }
        ensures rose { Rose self.old.faults self.new.faults }
    {
        self.faults = self.faults.saturating_add(1);
        Failed
    }

    // How many calls have failed.
    pub(crate) fn faults(&self) -> u64
        ensures { result ≡ self.now.faults }
    {
        self.faults
    }
}
