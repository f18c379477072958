//! The workers of a round, at the same time.
ghost use Rattle.std.specs.Prelude.{◌≡◌, ℕ, ◌<◌, true, List, [], All, length, slice_index_or};
ghost use Rattle.nv_table.specs.state.Views.{Past};
ghost use Rattle.nv_trace.specs.declared.trace_call.TracedCall.{TracedCall as AnyTraced};
ghost use Rattle.nv_runner.specs.Workers.{HasDonePart, HasMadeAll, HasServed, HasShare, IsNewWorker, IsReady, threads_of};

use crate::worker::Worker;
use crate::{Calls, Gate};
use nv_mount::Mount;
use nv_pmem::Lines;
use nv_store::Backing;
use std::alloc::Global;
use std::sync::Wait;
use std::sync::atomic::AtomicU64;
use std::thread::{Threads, for_each_mut};

// Each worker does its part, all of them at the same time where threads can be started. Where one can't be, it begins behind those that are listed after it.
fn serve_each<
    R: Threads + Wait + Sync,
    G: Gate + Sync,
    L: Lines + Drop + Send,
    B: Backing + Drop + Send,
    C: Calls + Drop + Send,
>(
    rt: &R,
    alloc: Global,
    gate: &G,
    mount: &Mount<L, B>,
    batch: Option<u64>,
    workers: &mut [Worker<C, L, B>],
)
    requires ready { All (IsReady mount.now) workers.old }
    requires none { All (λ worker. worker.made ≡ []) workers.old }
    ensures count { length workers.new ≡ length workers.old }
    ensures each { (i : ℕ) (d : _) → i < length workers.old → HasDonePart mount.now batch (slice_index_or workers.old i d) (slice_index_or workers.new i d) }
{
    let count = workers.len();
    if count == 0 {
        return;
    }
    let at_work = AtomicU64::new(count as u64);
    let working = &at_work;
    for_each_mut(
        rt,
        workers,
        count,
        &|_place, worker|
            requires { IsReady mount.now worker.now × (worker.now.made ≡ []) }
            ensures { HasDonePart mount.entry.now batch worker.entry.now worker.exit.now }
        { worker.serve(rt, alloc, gate, mount, batch, working) },
    );
}

/// The workers of a round do their parts at the same time. The cleaner, which waits for the others, comes first among them, so that it begins last where no thread can be started.
pub(crate) fn serve_all<
    R: Threads + Wait + Sync,
    G: Gate + Sync,
    L: Lines + Drop + Send,
    B: Backing + Drop + Send,
    C: Calls + Drop + Send,
>(
    rt: &R,
    alloc: Global,
    gate: &G,
    mount: &Mount<L, B>,
    batch: Option<u64>,
    workers: &mut [Worker<C, L, B>],
)
    requires ready { All (IsReady mount.now) workers.old }
    requires none { All (λ worker. worker.made ≡ []) workers.old }
    ensures count { length workers.new ≡ length workers.old }
    ensures threads { threads_of workers.new ≡ threads_of workers.old }
    ensures ready { All (IsReady mount.now) workers.new }
    ensures served { (ended : List Past) (calls : List AnyTraced) → All (IsNewWorker mount.now ended) workers.old → All (HasShare calls) workers.old
        → All (HasServed mount.now batch ended calls) workers.new }
    ensures all { (calls : List AnyTraced) → All (HasShare calls) workers.old → All (λ worker. worker.done ≡ true → HasMadeAll calls worker) workers.new }
{
    serve_each(rt, alloc, gate, mount, batch, workers);
}
