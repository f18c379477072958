//! A thread of a round: its pass, and what its calls work in.
ghost use Rattle.std.specs.Prelude.{◌≡◌, [], OnOk};
ghost use Rattle.nv_runner.specs.Lists.{calls_made};
ghost use Rattle.nv_runner.specs.Workers.{HasDonePart, HasWorked, IsReady};

use crate::{Calls, Gate, make_all};
use nv_mount::Mount;
use nv_plain::NoMemory;
use nv_pmem::Lines;
use nv_store::Backing;
use nv_table::{Pass, Workspace};
use std::alloc::Global;
use std::marker::Model;
use std::sync::Wait;
use std::sync::atomic::{AtomicU64, Ordering};

/// The number by which the cleaner passes the gate, behind those of all threads.
pub(crate) const CLEANER: u64 = 8;

/// A thread's pass, what its calls work in, their owner, and whether it has done its part. The cleaner has no calls.
pub(crate) struct Worker<C: Calls, L: Lines, B: Backing> {
    pub(crate) thread: u64,
    pub(crate) pass: Pass<L, B>,
    pub(crate) workspace: Workspace<L, B>,
    pub(crate) calls: Option<C>,
    pub(crate) done: bool,
}

impl<C: Calls, L: Lines, B: Backing> Model for Worker<C, L, B> {
    ghost use Rattle.nv_runner.specs.Owners.{if_owner};
    ghost use Rattle.nv_runner.specs.Workers.{WorkerState};

    ghost Value = { WorkerState L B };

    ghost view = { λ w. record { thread = w.thread; pass = w.pass; workspace = w.workspace; made = if_owner C.made w.calls; left = if_owner C.left w.calls; done = w.done } };
}

impl<C: Calls, L: Lines + Drop, B: Backing + Drop> Worker<C, L, B> {
    /// Makes its calls.
    pub(crate) fn work<R: Wait, G: Gate>(
        &mut self,
        rt: &R,
        alloc: Global,
        gate: &G,
        mount: &Mount<L, B>,
        batch: Option<u64>,
    ) -> Result<(), NoMemory>
        requires ready { IsReady mount.now self.old }
        requires none { self.old.made ≡ [] }
        ensures worked { HasWorked mount.now batch self.old self.new }
        ensures all { OnOk result (calls_made self.new.made ≡ self.old.left) }
    {
        let Some(calls) = &mut self.calls else {
            return Ok(());
        };
        make_all(
            rt,
            alloc,
            gate,
            mount,
            &mut self.pass,
            &mut self.workspace,
            calls,
            self.thread,
            batch,
        )
    }

    /// Does its part of a round beside the others, of which so many are at work: its calls, or, as the cleaner, batches until it is alone.
    pub(crate) fn serve<R: Wait, G: Gate>(
        &mut self,
        rt: &R,
        alloc: Global,
        gate: &G,
        mount: &Mount<L, B>,
        batch: Option<u64>,
        working: &AtomicU64,
    )
        requires ready { IsReady mount.now self.old }
        requires none { self.old.made ≡ [] }
        ensures { HasDonePart mount.now batch self.old self.new }
    {
        if self.calls.is_none() {
            self.clean(rt, gate, mount, batch, working);
            self.done = true;
            return;
        }
        let result = self.work(rt, alloc, gate, mount, batch);
        self.done = result.is_ok();
        working.fetch_sub(1, Ordering::SeqCst);
    }
}
