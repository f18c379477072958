//! How pass 0 makes the workers of a round, and takes them in.
ghost use Rattle.std.specs.Prelude.{◌≡◌, ◌+◌, ◌<◌, ◌≤◌, ◌^◌, ◌++◌, List, [], All, IsPermutation, OnErr, OnOk, length, map, vec_capacity};
ghost use Rattle.std.specs.List.{flat_map};
ghost use Rattle.nv_table.specs.passes.Seats.{past_of};
ghost use Rattle.nv_table.specs.state.Views.{AreDistinctNumbers, made_of};
ghost use Rattle.nv_trace.specs.declared.trace_call.TracedCall.{TracedCall as AnyTraced};
ghost use Rattle.nv_runner.specs.Owners.{AreShares, if_owner};
ghost use Rattle.nv_runner.specs.Workers.{HasShare, IsHired, IsNewWorker, IsReady, IsZero, IsZeroStill, cleaner_thread, crew_of, threads_of};

use crate::Calls;
use crate::worker::{CLEANER, Worker};
use crate::zero::{new_worker, take_in};
use nv_mount::Mount;
use nv_plain::NoMemory;
use nv_pmem::Lines;
use nv_store::Backing;
use nv_table::Pass;
use std::alloc::Global;

// Makes one more worker, for the calls of this owner.
fn hire_one<C: Calls + Drop, L: Lines + Drop, B: Backing + Drop>(
    alloc: Global,
    mount: &Mount<L, B>,
    zero: &mut Pass<L, B>,
    thread: u64,
    calls: Option<C>,
    workers: &mut Vec<Worker<C, L, B>>,
) -> Result<(), NoMemory>
    requires zero { IsZero mount.now zero.old }
    requires few { made_of zero.old.view + 1 < 2 ^ 32 }
    requires fresh { if_owner C.made calls ≡ [] }
    ensures zero { IsZero mount.now zero.new }
    ensures still { IsZeroStill zero.old zero.new }
    ensures ended { zero.new.view.ended ≡ zero.old.view.ended }
    ensures hired { OnOk result (IsHired mount.now thread (if_owner C.left calls) zero.old zero.new workers.old.items workers.new.items) }
    ensures none { OnErr result (workers.new.items ≡ workers.old.items) }
    ensures none_made { OnErr result (made_of zero.new.view ≡ made_of zero.old.view) }
{
    workers.reserve(1)?;
    let worker = new_worker(alloc, mount, zero, thread, calls)?;
    workers.push_reserved(worker);
    Ok(())
}

// Makes one for the cleaner, where batches are wanted.
fn hire_cleaner<C: Calls + Drop, L: Lines + Drop, B: Backing + Drop>(
    alloc: Global,
    mount: &Mount<L, B>,
    zero: &mut Pass<L, B>,
    batch: Option<u64>,
    workers: &mut Vec<Worker<C, L, B>>,
) -> Result<(), NoMemory>
    requires zero { IsZero mount.now zero.old }
    requires few { made_of zero.old.view + 10 < 2 ^ 32 }
    requires none { workers.old.items ≡ [] }
    ensures zero { IsZero mount.now zero.new }
    ensures still { IsZeroStill zero.old zero.new }
    ensures ended { zero.new.view.ended ≡ zero.old.view.ended }
    ensures new { All (IsNewWorker mount.now zero.old.view.ended) workers.new.items }
    ensures made { made_of zero.new.view ≡ made_of zero.old.view + length workers.new.items }
    ensures crew { OnOk result (threads_of workers.new.items ≡ crew_of 0 batch) }
    ensures shares { (calls : List AnyTraced) → All (λ call. call.thread < 8) calls → All (HasShare calls) workers.new.items }
    ensures none { OnErr result (workers.new.items ≡ []) }
{
    if batch.is_some() {
        hire_one(alloc, mount, zero, CLEANER, None, workers)?;
    }
    Ok(())
}

/// Makes a worker for the cleaner, where there is one, and then one for the calls of each owner, whose thread is that of its place. Where memory is wanting, some first ones of them.
pub(crate) fn hire<C: Calls + Drop, L: Lines + Drop, B: Backing + Drop>(
    alloc: Global,
    mount: &Mount<L, B>,
    zero: &mut Pass<L, B>,
    owners: Vec<C>,
    batch: Option<u64>,
    workers: &mut Vec<Worker<C, L, B>>,
) -> Result<(), NoMemory>
    requires zero { IsZero mount.now zero.old }
    requires threads { length owners.items ≤ 8 }
    requires fresh { All (λ owner. C.made owner ≡ []) owners.items }
    requires few { made_of zero.old.view + 10 < 2 ^ 32 }
    requires none { workers.old.items ≡ [] }
    ensures zero { IsZero mount.now zero.new }
    ensures still { IsZeroStill zero.old zero.new }
    ensures ended { zero.new.view.ended ≡ zero.old.view.ended }
    ensures new { All (IsNewWorker mount.now zero.old.view.ended) workers.new.items }
    ensures made { made_of zero.new.view ≡ made_of zero.old.view + length workers.new.items }
    ensures few { length workers.new.items ≤ 9 }
    ensures distinct { AreDistinctNumbers (threads_of workers.new.items) }
    ensures crew { OnOk result (threads_of workers.new.items ≡ crew_of (length owners.items) batch) }
    ensures shares { (calls : List AnyTraced) → All (λ call. call.thread < 8) calls → AreShares calls 0 (map C.left owners.items) → All (HasShare calls) workers.new.items }
{
    hire_cleaner(alloc, mount, zero, batch, workers)?;
    let mut thread = 0;
    for owner in owners {
        hire_one(alloc, mount, zero, thread, Some(owner), workers)?;
        thread += 1;
    }
    Ok(())
}

// Puts an owner behind the others, where there is one.
fn put_owner<C: Calls + Drop>(owner: Option<C>, owners: &mut Vec<C>)
    requires { length owners.old.items < vec_capacity owners.old }
    ensures made { flat_map C.made owners.new.items ≡ flat_map C.made owners.old.items ++ if_owner C.made owner }
    ensures few { length owners.new.items ≤ length owners.old.items + 1 }
    ensures room { vec_capacity owners.new ≡ vec_capacity owners.old }
{
    if let Some(owner) = owner {
        owners.push_reserved(owner);
    }
}

/// Takes in the passes of all workers. The owners of their calls go to the end of `owners`, in which there is room for them.
pub(crate) fn take_in_all<C: Calls + Drop, L: Lines + Drop, B: Backing + Drop>(
    mount: &Mount<L, B>,
    zero: &mut Pass<L, B>,
    mut workers: Vec<Worker<C, L, B>>,
    owners: &mut Vec<C>,
)
    requires zero { IsZero mount.now zero.old }
    requires ready { All (IsReady mount.now) workers.items }
    requires room { length owners.old.items + length workers.items ≤ vec_capacity owners.old }
    ensures zero { IsZero mount.now zero.new }
    ensures still { IsZeroStill zero.old zero.new }
    ensures ended { zero.new.view.ended ≡ map (λ worker. past_of worker.pass.view) workers.items ++ zero.old.view.ended }
    ensures made { made_of zero.new.view ≡ made_of zero.old.view }
    ensures owners { IsPermutation (flat_map C.made owners.new.items) (flat_map C.made owners.old.items ++ flat_map (λ worker. worker.made) workers.items) }
{
    while let Some(worker) = workers.pop() {
        let Worker {
            thread: _,
            pass,
            workspace,
            calls,
            done: _,
        } = worker;
        drop(workspace);
        put_owner(calls, owners);
        take_in(mount, zero, pass);
    }
    workers.destroy_empty();
}
