//! The run of a trace over a mount.
ghost use Rattle.std.specs.List.Sorted.{IsStrictlyIncreasing};
ghost use Rattle.std.specs.Prelude.{◌≡◌, ◌+◌, ◌≤◌, List, [], IsOk, IsPermutation, OnOk, length, map, sum_by, Result};
ghost use Rattle.nv_table.specs.invariant.Idle.{IsIdle};
ghost use Rattle.nv_table.specs.passes.Alone.{IsAlone};
ghost use Rattle.nv_table.specs.ends.Closing.{IsClosed};
ghost use Rattle.nv_table.specs.state.SlotValues.{part_value, store_value, slot_value};
ghost use Rattle.nv_table.specs.state.States.{IsOf, PassState};
ghost use Rattle.nv_table.specs.state.Views.{first_view, made_of};
ghost use Rattle.nv_trace.specs.Shape.{IsWellFormed};
ghost use Rattle.nv_trace.specs.Traced.{lines_in};
ghost use Rattle.nv_trace.specs.declared.trace_call.TracedCall.{TracedCall as AnyTraced};
ghost use Rattle.nv_runner.specs.EndedRuns.{HasOutcome, HaveRunRounds, IsClosedBy, IsOutcomeOf, batch_of};
ghost use Rattle.nv_runner.specs.Lists.{MadeCall, calls_made, made_calls};
ghost use Rattle.nv_runner.specs.Workers.{IsZero};
ghost use Rattle.nv_runner.specs.declared.run_error.RunError.{RunError as AnyError};
ghost use Rattle.nv_runner.specs.declared.running.TheConstants.{MOST_CALLS};
ghost use Rattle.nv_runner.specs.declared.sorted.SortedCalls.{SortedCalls as AnySorted};

use crate::cleaning::clean_all;
use crate::closing::close_alone;
use crate::laws::{
    lines_keep_order, open_calls_are_the_faults, refusals_in_runs_have_causes, runs_draw_in_a_row,
};
use crate::{AnsweredCall, Gate, Plan, RunError, SortedCalls, run_rounds, sort_out};
use nv_core::{histories_go_on, passes_are_left_alone, runs_are_sound};
use nv_mount::Mount;
use nv_plain::NoMemory;
use nv_pmem::Lines;
use nv_store::Backing;
use nv_table::{Closed, Pass};
use nv_trace::Trace;
use std::alloc::Global;
use std::sync::Wait;
use std::thread::Threads;

/// The most calls of a trace that is run.
pub const MOST_CALLS: usize = 67_108_864;

/// What is left of a mount over which a trace was run.
#[derive(Drop)]
pub struct Ended<'a, L, B> {
    /// What comes out of the mount.
    pub closed: Closed<L, B>,
    /// Its calls, with what they were answered; or why there is nothing to tell.
    pub outcome: Result<SortedCalls<'a>, RunError>,
}

/// The most entries of a batch, where a worker runs any.
pub fn worker_batch(plan: Plan) -> Option<u64>
    ensures { result ≡ batch_of plan }
{
    if plan.worker { Some(plan.batch) } else { None }
}

/// Ends a run of rounds that came to this: where they were all made, and the run isn't to be stopped, the log is cleaned until it is empty.
pub fn end_rounds<R: Wait, L: Lines + Drop, B: Backing + Drop>(
    rt: &R,
    mount: &Mount<L, B>,
    pass: &mut Pass<L, B>,
    plan: Plan,
    rounds: Result<(), NoMemory>,
) -> Result<(), RunError>
    requires zero { IsZero mount.now pass.old }
    requires all_in { length pass.old.view.ended ≡ made_of pass.old.view }
    ensures board { IsOf mount.now.board pass.new }
    ensures idle { IsIdle pass.new }
    ensures alone { IsAlone pass.new.view }
    ensures brought { IsOk result → IsOk rounds }
    ensures outcome { (calls : List AnyTraced) (made : List MadeCall) (start : PassState) (outcome : Result AnySorted AnyError)
        → HaveRunRounds mount.now.fds (batch_of plan) mount.now.board.opened calls made start pass.old → OnOk rounds (IsPermutation (calls_made made) calls)
        → IsOutcomeOf result made outcome → (out : HasOutcome mount.now.fds plan calls start outcome pass.new) × (out.made ≡ made) }
{
    runs_are_sound();
    passes_are_left_alone();
    histories_go_on();
    lines_keep_order();
    refusals_in_runs_have_causes();
    runs_draw_in_a_row();
    open_calls_are_the_faults();
    pass.sees_a_run();
    pass.has_taken_in();
    if rounds.is_err() {
        return Err(RunError::NoMemory);
    }
    if plan.stop.is_some() {
        return Ok(());
    }
    let cleaned = clean_all(rt, mount, pass, plan.batch);
    pass.sees_a_run();
    cleaned
}

// The rounds of calls; and where the run isn't to be stopped, the log is cleaned until it is empty. What the calls are answered is in `answered` then.
fn run_out<
    'a,
    R: Threads + Wait + Sync,
    G: Gate + Sync,
    L: Lines + Drop + Send,
    B: Backing + Drop + Send,
>(
    rt: &R,
    alloc: Global,
    gate: &G,
    mount: &Mount<L, B>,
    pass: &mut Pass<L, B>,
    trace: &'a Trace,
    plan: Plan,
    answered: &mut Vec<AnsweredCall<'a>>,
) -> Result<(), RunError>
    requires board { IsOf mount.now.board pass.old }
    requires new { pass.old.view ≡ first_view mount.now.board.opened }
    requires bare { pass.old.now ≡ [] }
    requires none { answered.old.items ≡ [] }
    requires well_formed { IsWellFormed trace.now }
    requires lines { IsStrictlyIncreasing (lines_in trace.now) }
    requires few { length trace.now.calls ≤ MOST_CALLS }
    ensures board { IsOf mount.now.board pass.new }
    ensures idle { IsIdle pass.new }
    ensures alone { IsAlone pass.new.view }
    ensures outcome { (outcome : Result AnySorted AnyError) → IsOutcomeOf result (made_calls answered.new.items) outcome → HasOutcome mount.now.fds plan trace.now.calls pass.old outcome pass.new }
{
    let rounds = run_rounds(
        rt,
        alloc,
        gate,
        mount,
        pass,
        trace.calls(),
        trace.thread_count(),
        worker_batch(plan),
        answered,
    );
    end_rounds(rt, mount, pass, plan, rounds)
}

// The calls sorted out, where they came to their end.
fn tell<'a>(
    alloc: Global,
    ran: Result<(), RunError>,
    answered: Vec<AnsweredCall<'a>>,
) -> Result<SortedCalls<'a>, RunError>
    ensures { IsOutcomeOf ran (made_calls answered.entry.items) result }
{
    ran?;
    Ok(sort_out(alloc, answered)?)
}

/// Makes the calls of a trace over a mount: as many threads as it has, each its own calls in the order of their lines, round by round, with a cleaner beside them where the plan has a worker. Where the
/// run isn't to be stopped the log is cleaned until it is empty. Then the mount is closed.
pub fn run_calls<
    'a,
    R: Threads + Wait + Sync,
    G: Gate + Sync,
    L: Lines + Drop + Send,
    B: Backing + Drop + Send,
>(
    rt: &R,
    alloc: Global,
    gate: &G,
    mount: Mount<L, B>,
    pass: Pass<L, B>,
    trace: &'a Trace,
    plan: Plan,
) -> Ended<'a, L, B>
    requires board { IsOf mount.board pass }
    requires new { pass.view ≡ first_view mount.board.opened }
    requires bare { pass.now ≡ [] }
    requires well_formed { IsWellFormed trace.now }
    requires lines { IsStrictlyIncreasing (lines_in trace.now) }
    requires few { length trace.now.calls ≤ MOST_CALLS }
    ensures ran { (zero : PassState)
        × HasOutcome mount.fds plan trace.now.calls pass result.outcome zero
        × IsClosed L.device B.device
        (slot_value (part_value L.device L.history L.fault_count L.room) (store_value B.device B.history B.fault_count))
        mount.board zero result.closed.parts.items result.closed.stores.items result.closed.placed result.closed.tail
        × IsClosedBy zero (map (part_value L.device L.history L.fault_count L.room) result.closed.parts.items)
        (map (store_value B.device B.history B.fault_count) result.closed.stores.items)
        (map L.history result.closed.parts.items) (map B.history result.closed.stores.items)
        (sum_by L.fault_count result.closed.parts.items + sum_by B.fault_count result.closed.stores.items)
        result.closed.placed result.closed.tail }
{
    let mut pass = pass;
    let mut answered = Vec::new(alloc);
    let ran = run_out(
        rt,
        alloc,
        gate,
        &mount,
        &mut pass,
        trace,
        plan,
        &mut answered,
    );
    let closed = close_alone(mount, pass);
    Ended {
        closed,
        outcome: tell(alloc, ran, answered),
    }
}
