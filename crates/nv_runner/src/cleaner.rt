//! The cleaner beside the threads of a round.
ghost use Rattle.std.specs.Prelude.{Some};
ghost use Rattle.nv_table.specs.invariant.Idle.{IsIdle, IsLater};
ghost use Rattle.nv_table.specs.state.States.{IsOf};
ghost use Rattle.nv_mirror.specs.Answers.{IsUnplaced};
ghost use Rattle.nv_runner.specs.OpenWrites.{KeepsFaults};
ghost use Rattle.nv_runner.specs.Runs.{GoesOn};
ghost use Rattle.nv_runner.specs.Tries.{HasRunBatches};
ghost use Rattle.nv_runner.specs.Workers.{HasCleaned, IsReady};

use crate::laws::{batches_come_one_by_one, tries_go_on};
use crate::worker::Worker;
use crate::{Calls, Gate, Point};
use nv_clean::{CleanRefusal, try_clean};
use nv_mount::Mount;
use nv_pmem::Lines;
use nv_store::Backing;
use nv_table::Pass;
use std::sync::Wait;
use std::sync::atomic::{AtomicU64, Ordering};
use std::thread::yield_now;

// Trying again mends nothing: a device has failed.
fn lasts(refusal: CleanRefusal) -> bool {
    matches!(
        refusal,
        CleanRefusal::Stopped | CleanRefusal::RegionFault | CleanRefusal::StoreFault
    )
}

// Batches of at most so many entries until it alone is at work, or a device has failed.
fn clean_until_alone<R: Wait, G: Gate, L: Lines + Drop, B: Backing + Drop>(
    rt: &R,
    gate: &G,
    mount: &Mount<L, B>,
    pass: &mut Pass<L, B>,
    thread: u64,
    batch: u64,
    working: &AtomicU64,
)
    requires board { IsOf mount.now.board pass.old }
    requires idle { IsIdle pass.old }
    ensures board { IsOf mount.now.board pass.new }
    ensures idle { IsIdle pass.new }
    ensures later { IsLater pass.old pass.new }
    ensures unplaced { IsUnplaced pass.old.view pass.new.view }
    ensures on { GoesOn (Some batch) 0 pass.old pass.new }
    ensures batches { HasRunBatches (Some batch) pass.old pass.new }
    ensures keeps { KeepsFaults pass.old pass.new }
{
    tries_go_on();
    batches_come_one_by_one();
    for _ in rt.forever() {
        if working.load(Ordering::SeqCst) <= 1 {
            break;
        }
        match try_clean(mount, pass, batch) {
            Ok(_) => gate.at(thread, 0, Point::Cleaned),
            Err(refusal) if lasts(refusal) => break,
            Err(_) => yield_now(),
        }
    }
}

impl<C: Calls, L: Lines + Drop, B: Backing + Drop> Worker<C, L, B> {
    /// Runs batches of at most so many entries until it alone is at work, or a device has failed, and passes the gate behind each that has retired some. None where there are none to run.
    pub(crate) fn clean<R: Wait, G: Gate>(
        &mut self,
        rt: &R,
        gate: &G,
        mount: &Mount<L, B>,
        batch: Option<u64>,
        working: &AtomicU64,
    )
        requires ready { IsReady mount.now self.old }
        ensures cleaned { HasCleaned mount.now batch self.old self.new }
    {
        batches_come_one_by_one();
        let Some(most) = batch else {
            return;
        };
        clean_until_alone(rt, gate, mount, &mut self.pass, self.thread, most, working);
    }
}
