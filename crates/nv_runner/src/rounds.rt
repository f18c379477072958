//! All rounds of a trace, one behind the other.
ghost use Rattle.std.specs.List.{flat_map};
ghost use Rattle.std.specs.Prelude.{◌≡◌, ◌+◌, ◌<◌, ◌≤◌, ◌^◌, ◌++◌, List, [], All, IfOk, IsPermutation, OnOk, length, map, vec_capacity};
ghost use Rattle.nv_table.specs.state.Views.{AreDistinctNumbers, made_of, numbers};
ghost use Rattle.nv_trace.specs.Shape.{IsWellFormed};
ghost use Rattle.nv_trace.specs.Traced.{thread_count};
ghost use Rattle.nv_runner.specs.declared.running.TheConstants.{MOST_CALLS};
ghost use Rattle.nv_runner.specs.Lists.{MadeCall, calls_made, made_calls};
ghost use Rattle.nv_runner.specs.Owners.{AreShares, list_left, list_made};
ghost use Rattle.nv_runner.specs.Rounds.{AreCallsOf, AreInLineOrder, AreInRoundOrder, HasRunListed, IsNextRound, IsRoundLong};
ghost use Rattle.nv_runner.specs.Shifts.{HasRun};
ghost use Rattle.nv_runner.specs.StreamRounds.{HasRunSorted};
ghost use Rattle.nv_runner.specs.Workers.{IsZero, IsZeroStill};

use crate::call_list::CallList;
use crate::{AnsweredCall, Gate, SortedCalls, run_round, sort_out};
use nv_mount::Mount;
use nv_plain::NoMemory;
use nv_pmem::Lines;
use nv_store::Backing;
use nv_table::Pass;
use nv_trace::{Trace, TracedCall};
use std::alloc::Global;
use std::sync::Wait;
use std::thread::Threads;

// How many first ones are of the round of the first.
fn round_len(calls: &[TracedCall]) -> usize
    requires some { 0 < length calls.now }
    requires round_order { AreInRoundOrder calls.now }
    ensures { IsRoundLong calls.now result }
{
    let round = calls[0].round;
    for place in 1..calls.len() {
        if calls[place].round != round {
            return place;
        }
    }
    calls.len()
}

// An owner for each of so many threads: of its calls among these.
fn hand_out<'a>(
    alloc: Global,
    calls: &'a [TracedCall],
    threads: u64,
) -> Result<Vec<CallList<'a>>, NoMemory>
    ensures count { IfOk result (λ lists. length lists.items ≡ threads) }
    ensures fresh { IfOk result (λ lists. All (λ list. list_made list ≡ []) lists.items) }
    ensures shares { IfOk result (λ lists. AreShares calls.now 0 (map list_left lists.items)) }
{
    let mut lists = Vec::new(alloc);
    for thread in 0..threads {
        lists.push(CallList::new(alloc, thread, calls))?;
    }
    Ok(lists)
}

// Puts what the calls of some owners were answered to the end of `answered`, in which there is room for it.
fn put_down<'a>(mut lists: Vec<CallList<'a>>, answered: &mut Vec<AnsweredCall<'a>>)
    requires room { length answered.old.items + length (flat_map list_made lists.items) ≤ vec_capacity answered.old }
    ensures { IsPermutation (made_calls answered.new.items) (flat_map list_made lists.entry.items ++ made_calls answered.old.items) }
{
    while let Some(list) = lists.pop() {
        let mut more = list.into_answered();
        let _ = answered.append(&mut more);
    }
}

// Makes the calls of one round of a trace, by so many threads, behind those of the rounds before it. What they are answered goes to the end of `answered`.
fn run_listed<
    'a,
    R: Threads + Wait + Sync,
    G: Gate + Sync,
    L: Lines + Drop + Send,
    B: Backing + Drop + Send,
>(
    rt: &R,
    alloc: Global,
    gate: &G,
    mount: &Mount<L, B>,
    zero: &mut Pass<L, B>,
    calls: &'a [TracedCall],
    threads: u64,
    batch: Option<u64>,
    answered: &mut Vec<AnsweredCall<'a>>,
) -> Result<(), NoMemory>
    requires zero { IsZero mount.now zero.old }
    requires all_in { length zero.old.view.ended ≡ made_of zero.old.view }
    requires threads { threads ≤ 8 }
    requires few { made_of zero.old.view + 10 < 2 ^ 32 }
    requires next { (before : List MadeCall) × IsNextRound threads calls.now before × HasRun mount.now.fds batch before zero.old }
    ensures zero { IsZero mount.now zero.new }
    ensures still { IsZeroStill zero.old zero.new }
    ensures all_in { length zero.new.view.ended ≡ made_of zero.new.view }
    ensures few { made_of zero.new.view ≤ made_of zero.old.view + 9 }
    ensures ran { (before : List MadeCall) → IsNextRound threads calls.now before → HasRun mount.now.fds batch before zero.old
        → HasRunListed mount.now.fds batch calls.now before zero.new (made_calls answered.old.items) (made_calls answered.new.items) result }
{
    answered.reserve(calls.len())?;
    let lists = hand_out(alloc, calls, threads)?;
    let mut done = Vec::new(alloc);
    let result = run_round(rt, alloc, gate, mount, zero, lists, batch, &mut done);
    put_down(done, answered);
    result
}

/// Makes the calls of a trace of one round, by its threads, behind those of the rounds before it, and sorts them out.
pub(crate) fn run_sorted<
    'a,
    R: Threads + Wait + Sync,
    G: Gate + Sync,
    L: Lines + Drop + Send,
    B: Backing + Drop + Send,
>(
    rt: &R,
    alloc: Global,
    gate: &G,
    mount: &Mount<L, B>,
    zero: &mut Pass<L, B>,
    trace: &'a Trace,
    batch: Option<u64>,
) -> Result<SortedCalls<'a>, NoMemory>
    requires zero { IsZero mount.now zero.old }
    requires all_in { length zero.old.view.ended ≡ made_of zero.old.view }
    requires few { made_of zero.old.view + 10 < 2 ^ 32 }
    requires next { (before : List MadeCall) × IsNextRound (thread_count trace.now) trace.now.calls before × HasRun mount.now.fds batch before zero.old }
    ensures zero { IsZero mount.now zero.new }
    ensures still { IsZeroStill zero.old zero.new }
    ensures all_in { length zero.new.view.ended ≡ made_of zero.new.view }
    ensures few { made_of zero.new.view ≤ made_of zero.old.view + 9 }
    ensures well_formed { IsWellFormed trace.now }
    ensures ran { (before : List MadeCall) → IsNextRound (thread_count trace.now) trace.now.calls before → HasRun mount.now.fds batch before zero.old
        → HasRunSorted mount.now.fds batch trace.now.calls before zero.new result }
{
    let mut answered = Vec::new(alloc);
    run_listed(
        rt,
        alloc,
        gate,
        mount,
        zero,
        trace.calls(),
        trace.thread_count(),
        batch,
        &mut answered,
    )?;
    sort_out(alloc, answered)
}

/// Makes the calls of a trace, by so many threads, round by round: each round begins when the one before it has been taken in. Where `batch` tells the most entries of a batch, a
/// cleaner runs beside the threads. What the calls are answered is in `answered` then, in no order. Where memory is wanting, the calls of the rounds so far were made, and some
/// first ones of each thread's of one round. Pass 0 has taken in all passes that it made, and made no call.
pub fn run_rounds<
    'a,
    R: Threads + Wait + Sync,
    G: Gate + Sync,
    L: Lines + Drop + Send,
    B: Backing + Drop + Send,
>(
    rt: &R,
    alloc: Global,
    gate: &G,
    mount: &Mount<L, B>,
    zero: &mut Pass<L, B>,
    calls: &'a [TracedCall],
    threads: u64,
    batch: Option<u64>,
    answered: &mut Vec<AnsweredCall<'a>>,
) -> Result<(), NoMemory>
    requires zero { IsZero mount.now zero.old }
    requires new { zero.old.view.ended ≡ [] }
    requires none_made { made_of zero.old.view ≡ 0 }
    requires none { answered.old.items ≡ [] }
    requires threads { threads ≤ 8 }
    requires few { length calls.now ≤ MOST_CALLS }
    requires below { All (λ call. call.thread < threads) calls.now }
    requires line_order { AreInLineOrder calls.now }
    requires round_order { AreInRoundOrder calls.now }
    ensures zero { IsZero mount.now zero.new }
    ensures still { IsZeroStill zero.old zero.new }
    ensures all_in { length zero.new.view.ended ≡ made_of zero.new.view }
    ensures distinct { AreDistinctNumbers (numbers zero.new.view.ended) }
    ensures run { HasRun mount.now.fds batch (made_calls answered.new.items) zero.new }
    ensures within { AreCallsOf calls.now (made_calls answered.new.items) }
    ensures all { OnOk result (IsPermutation (calls_made (made_calls answered.new.items)) calls.now) }
{
    let result = run_all(
        rt, alloc, gate, mount, zero, calls, threads, batch, answered,
    );
    zero.sees_a_run();
    zero.has_taken_in();
    result
}

// The same, but for what only the numbers of passes tell.
fn run_all<
    'a,
    R: Threads + Wait + Sync,
    G: Gate + Sync,
    L: Lines + Drop + Send,
    B: Backing + Drop + Send,
>(
    rt: &R,
    alloc: Global,
    gate: &G,
    mount: &Mount<L, B>,
    zero: &mut Pass<L, B>,
    calls: &'a [TracedCall],
    threads: u64,
    batch: Option<u64>,
    answered: &mut Vec<AnsweredCall<'a>>,
) -> Result<(), NoMemory>
    requires zero { IsZero mount.now zero.old }
    requires new { zero.old.view.ended ≡ [] }
    requires none_made { made_of zero.old.view ≡ 0 }
    requires none { answered.old.items ≡ [] }
    requires threads { threads ≤ 8 }
    requires few { length calls.now ≤ MOST_CALLS }
    requires below { All (λ call. call.thread < threads) calls.now }
    requires line_order { AreInLineOrder calls.now }
    requires round_order { AreInRoundOrder calls.now }
    ensures zero { IsZero mount.now zero.new }
    ensures still { IsZeroStill zero.old zero.new }
    ensures all_in { length zero.new.view.ended ≡ made_of zero.new.view }
    ensures run { HasRun mount.now.fds batch (made_calls answered.new.items) zero.new }
    ensures within { AreCallsOf calls.now (made_calls answered.new.items) }
    ensures all { OnOk result (IsPermutation (calls_made (made_calls answered.new.items)) calls.now) }
{
    let mut rest = calls;
    while !rest.is_empty() {
        let (round, later) = rest.split_at(round_len(rest));
        run_listed(
            rt, alloc, gate, mount, zero, round, threads, batch, answered,
        )?;
        rest = later;
    }
    Ok(())
}
