//! A schedule over a mount.
ghost use Rattle.std.specs.Prelude.{◌≡◌, ◌+◌, ◌^◌, ◌<◌, [], All, length, map, sum_by, true, false, Result};
ghost use Rattle.nv_table.specs.ends.Closing.{IsClosed};
ghost use Rattle.nv_table.specs.state.SlotValues.{part_value, slot_value, store_value};
ghost use Rattle.nv_table.specs.state.States.{IsOf, PassState};
ghost use Rattle.nv_table.specs.state.Views.{first_view, made_of};
ghost use Rattle.nv_runner.specs.EndedRuns.{IsClosedBy};
ghost use Rattle.nv_runner.specs.Workers.{IsZero};
ghost use Rattle.nv_schedule.specs.Cuts.{CutTells, IsArmedOnly};
ghost use Rattle.nv_schedule.specs.Following.{Stands};
ghost use Rattle.nv_schedule.specs.Going.{HaveBegun};
ghost use Rattle.nv_schedule.specs.Ran.{RunTells};
ghost use Rattle.nv_schedule.specs.Scheduled.{HasScheduled, IsAside, IsToldBy};
ghost use Rattle.nv_trace.specs.Shape.{IsTokenWithin};

use crate::ScheduleError;
use crate::caller::Caller;
use crate::ending::{close_bare, take_in_all};
use crate::hiring::hire;
use crate::scheduled::{Scheduled, ScheduledCalls};
use crate::tokens::follow;
use nv_bench::Bench;
use nv_calls::{ended_calls_heed_stop, faults_open_writes, refused_writes_leave_words};
use nv_core::{passes_are_left_alone, runs_are_sound};
use nv_mount::Mount;
use nv_plain::NoMemory;
use nv_pmem::Lines;
use nv_runner::tries_go_on;
use nv_store::Backing;
use nv_table::{Pass, Workspace, export_view, import_view};
use nv_trace::{Token, TracedCall};
use std::alloc::Global;

/// Makes the callers of a trace's calls, by passes that pass 0 makes, and lets them follow a schedule. Pass 0 is told the run up to their last step then, and `cut` is set where a cut was reached.
pub(crate) fn run_on<'a, D: Bench, L: Lines + Drop, B: Backing + Drop>(
    alloc: Global,
    bench: &mut D,
    mount: &Mount<L, B>,
    zero: &mut Pass<L, B>,
    calls: &'a [TracedCall],
    batch: u64,
    tokens: &[Token],
    callers: &mut Vec<Caller<'a, L, B>>,
    cut: &mut bool,
) -> Result<(), ScheduleError>
    requires zero { IsZero mount.now zero.old }
    requires none { callers.old.items ≡ [] }
    requires first { made_of zero.old.view ≡ 0 }
    requires uncut { cut.old ≡ false }
    requires images { D.can_lose_power ≡ true }
    requires within { All IsTokenWithin tokens.now }
    requires arms { (D.state bench.old).arms + length tokens.now < 2 ^ 64 }
    ensures zero { IsZero mount.now zero.new }
    ensures aside { IsAside zero.old zero.new }
    ensures ended { zero.new.view.ended ≡ zero.old.view.ended }
    ensures count { made_of zero.new.view ≡ length callers.new.items }
    ensures stand { All (Stands mount.now) callers.new.items }
    ensures begun { HaveBegun mount.now calls.now batch callers.new.items }
    ensures tells { RunTells mount.now tokens.now calls.now batch callers.new.items zero.new (D.state bench.old) (D.state bench.new) result }
    ensures cut { CutTells cut.new (D.state bench.old) (D.state bench.new) }
    ensures armed { IsArmedOnly (D.state bench.old) (D.state bench.new) }
{
    let mut workspace = Workspace::new(alloc, mount.board().layout())?;
    hire(alloc, mount, zero, calls, batch, callers)?;
    let board = mount.board();
    let view = export_view(board, zero);
    let (after, done, reached) = follow(
        alloc,
        bench,
        mount,
        callers.as_mut_slice(),
        &mut workspace,
        view,
        tokens,
    );
    import_view(board, zero, after);
    *cut = reached;
    done
}

// The calls that were begun, where the schedule was followed to its end and there was memory to put them down.
fn tell<'a>(
    ran: Result<(), ScheduleError>,
    taken: Result<(), NoMemory>,
    calls: ScheduledCalls<'a>,
) -> Result<ScheduledCalls<'a>, ScheduleError>
    ensures { IsToldBy ran taken calls.entry result }
{
    ran?;
    taken?;
    Ok(calls)
}

/// Makes the calls of a trace over a new mount one step at a time, as the tokens of a schedule say: each thread makes its own calls in their order, each by a pass of its own, and a cleaner beside them
/// makes batches of at most so many entries. A token makes the advances of one of them, each behind all that was done before, and as few as come to its point, but no more than 100,000. A cut makes none: it
/// arms the bench, over whose devices in use the mount is, so that the device call of its number from then on, and each later one, is refused.
/// Behind the last token all passes are taken in as they stand, and the mount is closed. A call that stands in mid-call then is told as placed where it has its place, and as open where it is a write that
/// has drawn its numbers. The calls that no token has come to aren't told.
pub fn run_schedule<'a, D: Bench, L: Lines + Drop, B: Backing + Drop>(
    alloc: Global,
    bench: &mut D,
    mount: Mount<L, B>,
    pass: Pass<L, B>,
    calls: &'a [TracedCall],
    tokens: &[Token],
    batch: u64,
) -> Scheduled<'a, L, B>
    requires board { IsOf mount.board pass }
    requires new { pass.view ≡ first_view mount.board.opened }
    requires bare { pass.now ≡ [] }
    requires images { D.can_lose_power ≡ true }
    requires within { All IsTokenWithin tokens.now }
    requires arms { (D.state bench.old).arms + length tokens.now < 2 ^ 64 }
    ensures ran { (zero : PassState)
        × HasScheduled mount tokens.now calls.now batch pass zero (D.state bench.old) (D.state bench.new) result.outcome
        × IsClosed L.device B.device
        (slot_value (part_value L.device L.history L.fault_count L.room) (store_value B.device B.history B.fault_count))
        mount.board zero result.closed.parts.items result.closed.stores.items result.closed.placed result.closed.tail
        × IsClosedBy zero (map (part_value L.device L.history L.fault_count L.room) result.closed.parts.items)
        (map (store_value B.device B.history B.fault_count) result.closed.stores.items)
        (map L.history result.closed.parts.items) (map B.history result.closed.stores.items)
        (sum_by L.fault_count result.closed.parts.items + sum_by B.fault_count result.closed.stores.items)
        result.closed.placed result.closed.tail }
    ensures cut { CutTells result.cut (D.state bench.old) (D.state bench.new) }
    ensures armed { IsArmedOnly (D.state bench.old) (D.state bench.new) }
{
    ended_calls_heed_stop();
    refused_writes_leave_words();
    faults_open_writes();
    tries_go_on();
    runs_are_sound();
    passes_are_left_alone();
    pass.sees_a_run();
    let mut pass = pass;
    let mut callers = Vec::new(alloc);
    let mut begun = ScheduledCalls {
        answered: Vec::new(alloc),
        unanswered: Vec::new(alloc),
    };
    let mut cut = false;
    let ran = run_on(
        alloc,
        bench,
        &mount,
        &mut pass,
        calls,
        batch,
        tokens,
        &mut callers,
        &mut cut,
    );
    let taken = take_in_all(&mount, &mut pass, callers, &mut begun);
    let closed = close_bare(mount, pass);
    Scheduled {
        closed,
        outcome: tell(ran, taken, begun),
        cut,
    }
}
