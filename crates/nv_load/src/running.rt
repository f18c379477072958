//! The run of a load over a mount.
ghost use Rattle.std.specs.List.{flat_map};
ghost use Rattle.std.specs.Prelude.{◌≡◌, ◌+◌, ◌<◌, ◌≤◌, ◌^◌, ◌++◌, List, [], All, IfOk, IsPermutation, OnOk, Result, length, map, sum_by};
ghost use Rattle.nv_table.specs.ends.Closing.{IsClosed};
ghost use Rattle.nv_table.specs.invariant.Idle.{IsIdle};
ghost use Rattle.nv_table.specs.passes.Alone.{IsAlone};
ghost use Rattle.nv_table.specs.state.SlotValues.{part_value, slot_value, store_value};
ghost use Rattle.nv_table.specs.state.States.{IsOf, PassState};
ghost use Rattle.nv_table.specs.state.Views.{first_view, made_of};
ghost use Rattle.nv_trace.specs.declared.trace_call.TracedCall.{TracedCall as AnyTraced};
ghost use Rattle.nv_runner.specs.EndedRuns.{HasOutcome, IsClosedBy};
ghost use Rattle.nv_runner.specs.Lists.{MadeCall, calls_made};
ghost use Rattle.nv_runner.specs.Owners.{AreShares};
ghost use Rattle.nv_runner.specs.Rounds.{IsNextRound};
ghost use Rattle.nv_runner.specs.Shifts.{HasRun};
ghost use Rattle.nv_runner.specs.Workers.{IsZero, IsZeroStill};
ghost use Rattle.nv_runner.specs.declared.run_error.RunError.{RunError as AnyError};
ghost use Rattle.nv_runner.specs.declared.sorted.SortedCalls.{SortedCalls as AnySorted};
ghost use Rattle.nv_load.specs.Counts.{counts_of};
ghost use Rattle.nv_load.specs.Generated.{IsLoad, first_round, generated_calls, second_round};
ghost use Rattle.nv_load.specs.Generators.{generator_left, generator_made};
ghost use Rattle.nv_load.specs.LoadRuns.{HasCountedRound, HaveCountedBoth, IsCountOf, if_ok};

use crate::Load;
use crate::counts::Counts;
use crate::generator::Generator;
use nv_mount::Mount;
use nv_plain::NoMemory;
use nv_pmem::Lines;
use nv_runner::{Gate, Plan, RunError, close_alone, end_rounds, run_round, worker_batch};
use nv_store::Backing;
use nv_table::{Closed, Pass};
use std::alloc::Global;
use std::sync::Wait;
use std::thread::Threads;

/// What is left of a mount over which a load was run.
#[derive(Drop)]
pub struct LoadEnded<L, B> {
    /// What comes out of the mount.
    pub closed: Closed<L, B>,
    /// What is counted of its calls; or why there is nothing to tell.
    pub outcome: Result<Counts, RunError>,
}

// Adds what is counted of the calls of some owners.
fn add_all(done: &[Generator], counts: &mut Counts)
    ensures { (made : List MadeCall) → counts.old ≡ counts_of made → counts.new ≡ counts_of (made ++ flat_map generator_made done.now) }
{
    for owner in done {
        counts.add(owner.counts());
    }
}

// Makes the calls of a round of a load, and counts them.
fn run_owners<
    R: Threads + Wait + Sync,
    G: Gate + Sync,
    L: Lines + Drop + Send,
    B: Backing + Drop + Send,
>(
    rt: &R,
    alloc: Global,
    gate: &G,
    mount: &Mount<L, B>,
    zero: &mut Pass<L, B>,
    owners: Vec<Generator>,
    batch: Option<u64>,
    counts: &mut Counts,
) -> Result<(), NoMemory>
    requires zero { IsZero mount.now zero.old }
    requires all_in { length zero.old.view.ended ≡ made_of zero.old.view }
    requires threads { length owners.items ≤ 8 }
    requires fresh { All (λ owner. generator_made owner ≡ []) owners.items }
    requires few { made_of zero.old.view + 10 < 2 ^ 32 }
    ensures zero { IsZero mount.now zero.new }
    ensures still { IsZeroStill zero.old zero.new }
    ensures all_in { length zero.new.view.ended ≡ made_of zero.new.view }
    ensures few { made_of zero.new.view ≤ made_of zero.old.view + 9 }
    ensures ran { (calls : List AnyTraced) (before : List MadeCall) → AreShares calls 0 (map generator_left owners.items) → IsNextRound (length owners.items) calls before
        → HasRun mount.now.fds batch before zero.old → HasCountedRound mount.now.fds batch calls before zero.new counts.old counts.new result }
{
    let mut done = Vec::new(alloc);
    let result = run_round(rt, alloc, gate, mount, zero, owners, batch, &mut done);
    add_all(&done, counts);
    result
}

// The owner of the calls of the first round.
fn first_owners(alloc: Global) -> Result<Vec<Generator>, NoMemory>
    ensures one { IfOk result (λ owners. length owners.items ≡ 1) }
    ensures fresh { IfOk result (λ owners. All (λ owner. generator_made owner ≡ []) owners.items) }
    ensures shares { IfOk result (λ owners. AreShares first_round 0 (map generator_left owners.items)) }
{
    let mut owners = Vec::new(alloc);
    owners.push(Generator::first(alloc))?;
    Ok(owners)
}

// The owners of those of the second.
fn second_owners(alloc: Global, load: Load) -> Result<Vec<Generator>, NoMemory>
    requires { IsLoad load }
    ensures many { IfOk result (λ owners. length owners.items ≡ load.threads) }
    ensures fresh { IfOk result (λ owners. All (λ owner. generator_made owner ≡ []) owners.items) }
    ensures shares { IfOk result (λ owners. AreShares (second_round load) 0 (map generator_left owners.items)) }
{
    let mut owners = Vec::new(alloc);
    for thread in 0..load.threads {
        owners.push(Generator::second(alloc, load, thread))?;
    }
    Ok(owners)
}

// The first round of a load.
fn run_first<
    R: Threads + Wait + Sync,
    G: Gate + Sync,
    L: Lines + Drop + Send,
    B: Backing + Drop + Send,
>(
    rt: &R,
    alloc: Global,
    gate: &G,
    mount: &Mount<L, B>,
    zero: &mut Pass<L, B>,
    batch: Option<u64>,
    counts: &mut Counts,
) -> Result<(), NoMemory>
    requires zero { IsZero mount.now zero.old }
    requires new { zero.old.view.ended ≡ [] }
    requires none_made { made_of zero.old.view ≡ 0 }
    ensures zero { IsZero mount.now zero.new }
    ensures still { IsZeroStill zero.old zero.new }
    ensures all_in { length zero.new.view.ended ≡ made_of zero.new.view }
    ensures few { made_of zero.new.view ≤ 9 }
    ensures ran { HasCountedRound mount.now.fds batch first_round [] zero.new counts.old counts.new result }
{
    let owners = first_owners(alloc)?;
    run_owners(rt, alloc, gate, mount, zero, owners, batch, counts)
}

// The second one, behind it.
fn run_second<
    R: Threads + Wait + Sync,
    G: Gate + Sync,
    L: Lines + Drop + Send,
    B: Backing + Drop + Send,
>(
    rt: &R,
    alloc: Global,
    gate: &G,
    mount: &Mount<L, B>,
    zero: &mut Pass<L, B>,
    load: Load,
    batch: Option<u64>,
    counts: &mut Counts,
) -> Result<(), NoMemory>
    requires zero { IsZero mount.now zero.old }
    requires all_in { length zero.old.view.ended ≡ made_of zero.old.view }
    requires few { made_of zero.old.view ≤ 9 }
    requires load { IsLoad load }
    ensures zero { IsZero mount.now zero.new }
    ensures still { IsZeroStill zero.old zero.new }
    ensures all_in { length zero.new.view.ended ≡ made_of zero.new.view }
    ensures ran { (before : List MadeCall) → IsPermutation (calls_made before) first_round → HasRun mount.now.fds batch before zero.old
        → HasCountedRound mount.now.fds batch (second_round load) before zero.new counts.old counts.new result }
{
    let owners = second_owners(alloc, load)?;
    run_owners(rt, alloc, gate, mount, zero, owners, batch, counts)
}

// Both rounds.
fn run_both<
    R: Threads + Wait + Sync,
    G: Gate + Sync,
    L: Lines + Drop + Send,
    B: Backing + Drop + Send,
>(
    rt: &R,
    alloc: Global,
    gate: &G,
    mount: &Mount<L, B>,
    zero: &mut Pass<L, B>,
    load: Load,
    batch: Option<u64>,
    counts: &mut Counts,
) -> Result<(), NoMemory>
    requires zero { IsZero mount.now zero.old }
    requires new { zero.old.view.ended ≡ [] }
    requires none_made { made_of zero.old.view ≡ 0 }
    requires load { IsLoad load }
    requires none { counts.old ≡ counts_of [] }
    ensures zero { IsZero mount.now zero.new }
    ensures still { IsZeroStill zero.old zero.new }
    ensures all_in { length zero.new.view.ended ≡ made_of zero.new.view }
    ensures ran { HaveCountedBoth mount.now.fds batch load zero.new counts.new result }
{
    run_first(rt, alloc, gate, mount, zero, batch, counts)?;
    run_second(rt, alloc, gate, mount, zero, load, batch, counts)
}

// What was counted, where the run came to its end.
fn counted(ran: Result<(), RunError>, counts: Counts) -> Result<Counts, RunError>
    ensures { result ≡ if_ok ran counts }
{
    ran?;
    Ok(counts)
}

// Both rounds; and where the run isn't to be stopped, the log is cleaned until it is empty. What is counted of the calls, where they came to their end.
fn run_out<
    R: Threads + Wait + Sync,
    G: Gate + Sync,
    L: Lines + Drop + Send,
    B: Backing + Drop + Send,
>(
    rt: &R,
    alloc: Global,
    gate: &G,
    mount: &Mount<L, B>,
    pass: &mut Pass<L, B>,
    load: Load,
    plan: Plan,
) -> Result<Counts, RunError>
    requires board { IsOf mount.now.board pass.old }
    requires new { pass.old.view ≡ first_view mount.now.board.opened }
    requires bare { pass.old.now ≡ [] }
    requires load { IsLoad load }
    ensures board { IsOf mount.now.board pass.new }
    ensures idle { IsIdle pass.new }
    ensures alone { IsAlone pass.new.view }
    ensures ran { (outcome : Result AnySorted AnyError) × HasOutcome mount.now.fds plan (generated_calls load) pass.old outcome pass.new × IsCountOf result outcome }
{
    let mut counts = Counts::NONE;
    let rounds = run_both(
        rt,
        alloc,
        gate,
        mount,
        pass,
        load,
        worker_batch(plan),
        &mut counts,
    );
    pass.sees_a_run();
    pass.has_taken_in();
    let ran = end_rounds(rt, mount, pass, plan, rounds);
    counted(ran, counts)
}

/// Makes the calls of a load over a mount: thread 0 fills the blocks of descriptor 0's file, and then each thread makes its calls, each as it is drawn, with a cleaner beside them where the plan has a worker.
/// They are counted, and no list of them is kept. Where the run isn't to be stopped the log is cleaned until it is empty. Then the mount is closed.
pub fn run_generated<
    R: Threads + Wait + Sync,
    G: Gate + Sync,
    L: Lines + Drop + Send,
    B: Backing + Drop + Send,
>(
    rt: &R,
    alloc: Global,
    gate: &G,
    mount: Mount<L, B>,
    pass: Pass<L, B>,
    load: Load,
    plan: Plan,
) -> LoadEnded<L, B>
    requires board { IsOf mount.board pass }
    requires new { pass.view ≡ first_view mount.board.opened }
    requires bare { pass.now ≡ [] }
    requires load { IsLoad load }
    ensures ran { (zero : PassState) × (outcome : Result AnySorted AnyError)
        × HasOutcome mount.fds plan (generated_calls load) pass outcome zero
        × IsCountOf result.outcome outcome
        × IsClosed L.device B.device
        (slot_value (part_value L.device L.history L.fault_count L.room) (store_value B.device B.history B.fault_count))
        mount.board zero result.closed.parts.items result.closed.stores.items result.closed.placed result.closed.tail
        × IsClosedBy zero (map (part_value L.device L.history L.fault_count L.room) result.closed.parts.items)
        (map (store_value B.device B.history B.fault_count) result.closed.stores.items)
        (map L.history result.closed.parts.items) (map B.history result.closed.stores.items)
        (sum_by L.fault_count result.closed.parts.items + sum_by B.fault_count result.closed.stores.items)
        result.closed.placed result.closed.tail }
{
    let mut pass = pass;
    let outcome = run_out(rt, alloc, gate, &mount, &mut pass, load, plan);
    let closed = close_alone(mount, pass);
    LoadEnded { closed, outcome }
}
