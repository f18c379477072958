//! One round of a trace: its threads at the same time.
ghost use Rattle.std.specs.List.{flat_map};
ghost use Rattle.std.specs.Prelude.{◌≡◌, ◌+◌, ◌<◌, ◌≤◌, ◌^◌, true, List, [], All, IsPermutation, OnOk, length, map};
ghost use Rattle.nv_table.specs.state.Views.{AreDistinctNumbers, made_of};
ghost use Rattle.nv_trace.specs.declared.trace_call.TracedCall.{TracedCall as AnyTraced};
ghost use Rattle.nv_runner.specs.Lists.{MadeCall, calls_made};
ghost use Rattle.nv_runner.specs.Owners.{AreShares};
ghost use Rattle.nv_runner.specs.Rounds.{HasRunRound, IsNextRound};
ghost use Rattle.nv_runner.specs.Shifts.{HasRun};
ghost use Rattle.nv_runner.specs.Workers.{HasMadeAll, HasServed, IsReady, IsZero, IsZeroStill, crew_of, threads_of};

use crate::crew::serve_all;
use crate::hiring::{hire, take_in_all};
use crate::worker::Worker;
use crate::{Calls, Gate};
use nv_mount::Mount;
use nv_plain::NoMemory;
use nv_pmem::Lines;
use nv_store::Backing;
use nv_table::Pass;
use std::alloc::Global;
use std::sync::Wait;
use std::thread::Threads;

/// The most workers of a round: the cleaner, and eight threads.
const MOST_WORKERS: usize = 9;

// Whether all workers have done their part.
fn all_done<C: Calls, L: Lines, B: Backing>(workers: &[Worker<C, L, B>]) -> bool
    ensures { result ≡ true → All (λ worker. worker.done ≡ true) workers.now }
{
    for worker in workers {
        if !worker.done {
            return false;
        }
    }
    true
}

// Pass 0 makes the workers of a round, and they make the calls of these owners.
fn serve<
    R: Threads + Wait + Sync,
    G: Gate + Sync,
    L: Lines + Drop + Send,
    B: Backing + Drop + Send,
    C: Calls + Drop + Send,
>(
    rt: &R,
    alloc: Global,
    gate: &G,
    mount: &Mount<L, B>,
    zero: &mut Pass<L, B>,
    owners: Vec<C>,
    batch: Option<u64>,
    workers: &mut Vec<Worker<C, L, B>>,
) -> Result<(), NoMemory>
    requires zero { IsZero mount.now zero.old }
    requires threads { length owners.items ≤ 8 }
    requires fresh { All (λ owner. C.made owner ≡ []) owners.items }
    requires few { made_of zero.old.view + 10 < 2 ^ 32 }
    requires none { workers.old.items ≡ [] }
    ensures zero { IsZero mount.now zero.new }
    ensures still { IsZeroStill zero.old zero.new }
    ensures ended { zero.new.view.ended ≡ zero.old.view.ended }
    ensures made { made_of zero.new.view ≡ made_of zero.old.view + length workers.new.items }
    ensures few { length workers.new.items ≤ 9 }
    ensures ready { All (IsReady mount.now) workers.new.items }
    ensures served { (calls : List AnyTraced) → All (λ call. call.thread < 8) calls → AreShares calls 0 (map C.left owners.items)
        → All (HasServed mount.now batch zero.old.view.ended calls) workers.new.items }
    ensures distinct { AreDistinctNumbers (threads_of workers.new.items) }
    ensures crew { OnOk result (threads_of workers.new.items ≡ crew_of (length owners.items) batch) }
    ensures all { OnOk result ((calls : List AnyTraced) → All (λ call. call.thread < 8) calls → AreShares calls 0 (map C.left owners.items) → All (HasMadeAll calls) workers.new.items) }
{
    hire(alloc, mount, zero, owners, batch, workers)?;
    serve_all(rt, alloc, gate, mount, batch, workers.as_mut_slice());
    if all_done(workers) {
        Ok(())
    } else {
        Err(NoMemory)
    }
}

/// Makes the calls of one round, each thread those of its owner in their order, and all threads at the same time, each by a pass that pass 0 makes, and takes in behind them. The first owner is that of
/// thread 0, and so on. Where `batch` tells the most entries of a batch, a cleaner runs beside them, by a pass of its own. The owners, with what their calls are answered, are in `done` then, in no order.
/// Where memory is
/// wanting, some first ones of each thread's calls were made, and an owner whose calls weren't begun may not come back.
pub fn run_round<
    R: Threads + Wait + Sync,
    G: Gate + Sync,
    L: Lines + Drop + Send,
    B: Backing + Drop + Send,
    C: Calls + Drop + Send,
>(
    rt: &R,
    alloc: Global,
    gate: &G,
    mount: &Mount<L, B>,
    zero: &mut Pass<L, B>,
    owners: Vec<C>,
    batch: Option<u64>,
    done: &mut Vec<C>,
) -> Result<(), NoMemory>
    requires zero { IsZero mount.now zero.old }
    requires all_in { length zero.old.view.ended ≡ made_of zero.old.view }
    requires threads { length owners.items ≤ 8 }
    requires fresh { All (λ owner. C.made owner ≡ []) owners.items }
    requires few { made_of zero.old.view + 10 < 2 ^ 32 }
    requires none { done.old.items ≡ [] }
    ensures zero { IsZero mount.now zero.new }
    ensures still { IsZeroStill zero.old zero.new }
    ensures all_in { length zero.new.view.ended ≡ made_of zero.new.view }
    ensures few { made_of zero.new.view ≤ made_of zero.old.view + 9 }
    ensures crew { OnOk result (made_of zero.new.view ≡ made_of zero.old.view + length (crew_of (length owners.items) batch)) }
    ensures run { (calls : List AnyTraced) (before : List MadeCall) → AreShares calls 0 (map C.left owners.items) → IsNextRound (length owners.items) calls before → HasRun mount.now.fds batch before zero.old
        → HasRunRound mount.now.fds batch calls before (flat_map C.made done.new.items) zero.new }
    ensures all { OnOk result ((calls : List AnyTraced) (before : List MadeCall) → AreShares calls 0 (map C.left owners.items) → IsNextRound (length owners.items) calls before
        → IsPermutation (calls_made (flat_map C.made done.new.items)) calls) }
{
    done.reserve(MOST_WORKERS)?;
    let mut workers = Vec::new(alloc);
    let result = serve(rt, alloc, gate, mount, zero, owners, batch, &mut workers);
    take_in_all(mount, zero, workers, done);
    result
}
