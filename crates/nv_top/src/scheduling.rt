//! A schedule of a trace, the loss of power behind it, and the recovery.
ghost use Rattle.std.specs.Prelude.{◌≡◌, ℕ, ◌+◌, ◌^◌, ◌<◌, ◌≤◌, max, [], ◌∷◌, List, None, ◌≢◌, true, false, length, map, sum_by, All, Ok, Err, IfOk, IfErr, IfSome, OnOk};
ghost use Rattle.nv_plain.specs.Faults.{Rose, saturated};
ghost use Rattle.nv_plain.specs.Layouts.{mount_layout};
ghost use Rattle.nv_pmem.specs.Moments.{Tells};
ghost use Rattle.nv_pmem.specs.Part.{Part};
ghost use Rattle.nv_pmem.specs.RowStates.{AreNow};
ghost use Rattle.nv_store.specs.Store.{IsQuietStore, Store};
ghost use Rattle.nv_bench.specs.Holding.{IsQuietHolding};
ghost use Rattle.nv_header.specs.FileNames.{AreFileNames};
ghost use Rattle.nv_recover.specs.Standing.{files_of};
ghost use Rattle.nv_open.specs.Refusals.{IsRefusedFor};
ghost use Rattle.nv_open.specs.Unopened.{HasHeader, StandsAsBefore, TellsOf, line_counts};
ghost use Rattle.nv_table.specs.state.Opened.{mount_of};
ghost use Rattle.nv_table.specs.state.States.{IsOf};
ghost use Rattle.nv_table.specs.state.Views.{first_view};
ghost use Rattle.nv_mount.specs.RisenCounts.{failed_before};
ghost use Rattle.nv_mount.specs.Telling.{mounted_lines};
ghost use Rattle.nv_trace.specs.Forms.{has_rounds};
ghost use Rattle.nv_trace.specs.Reading.{largest_input};
ghost use Rattle.nv_trace.specs.Said.{said_place};
ghost use Rattle.nv_trace.specs.Shape.{IsTokenWithin};
ghost use Rattle.nv_trace.specs.Traced.{token_count};
ghost use Rattle.nv_runner.specs.Faithful.{Basis};
ghost use Rattle.nv_schedule.specs.Cuts.{cuts_of};
ghost use Rattle.nv_schedule.specs.declared.schedule_error.ScheduleError.TheVariants as schedule_errors;
ghost use Rattle.nv_schedule.specs.declared.scheduled.ScheduledCalls.{ScheduledCalls as AnyCalls};
ghost use Rattle.nv_top.specs.Commands.{HasRecovered, IsGivenBack};
ghost use Rattle.nv_top.specs.Followed.{HasUsedTurnsOn, ShowsFollowed};
ghost use Rattle.nv_top.specs.Headline.{IsRunRefused, expected_faults};
ghost use Rattle.nv_top.specs.LifeLines.{HaveALineEach, KeepALineEach};
ghost use Rattle.nv_top.specs.LifeOver.{AreLivesOver, IsLifeEnded, IsLifeStopped};
ghost use Rattle.nv_top.specs.LifeRows.{trace_of, with_pick};
ghost use Rattle.nv_top.specs.Lives.{HasLived, LeavesRun, TellsNothing};
ghost use Rattle.nv_top.specs.Runs.{BeginsMount, HasCache, basis_over};
ghost use Rattle.nv_top.specs.Scheduling.{HasUsedTurns, IsArmedAt, IsArmedAtSome, ShowsOutcome, ShowsScheduled};
ghost use Rattle.nv_top.specs.Stopping.{IsAllBack, IsAway, IsOff, IsOffOnce, IsSettledStop};
ghost use Rattle.nv_top.specs.Stops.{CountHasCause};
ghost use Rattle.nv_top.specs.Ready.{IsAtHome, IsReady, IsRunnable};
ghost use Rattle.nv_words.specs.Words.{AreInLimits};
ghost use Rattle.nv_top.specs.declared.ending.Stop.TheVariants as stops;

use crate::ending::Stop;
use crate::laws::a_refused_region_shows_nothing;
use crate::life::{LifeLines, LivesShown, show_life};
use crate::mounting::{Unmounted, mount_over};
use crate::names::copy_names;
use crate::recovery::recover;
use nv_bench::{Bench, power_leaves_an_image};
use nv_header::a_header_has_one_answer;
use nv_mount::Mount;
use nv_open::{Opened, open};
use nv_pmem::{Geometry, images_follow_calls};
use nv_recover::images_stand_for_files;
use nv_runner::{history_of_threads_is_legal, open_calls_are_the_faults, sort_out};
use nv_schedule::{
    ScheduleError, Scheduled, ScheduledCalls, run_schedule, schedules_are_faithful,
    schedules_are_told, schedules_begin_in_order, schedules_leave_lives, schedules_run_in_the_core,
};
use nv_table::Pass;
use nv_trace::{EndedLife, Trace};
use nv_words::RunOptions;
use std::alloc::Global;

/// Follows the lives of a trace over a bench, each a schedule behind which power fails: those that crashes end, and then the last one. The text of their report.
pub(crate) fn schedule<T: Bench>(
    alloc: Global,
    bench: &mut T,
    options: RunOptions,
    mut trace: Trace,
) -> Result<Vec<u8>, Stop>
    requires ready { IsReady (T.state bench.old) }
    requires images { T.can_lose_power ≡ true }
    requires limits { AreInLimits options }
    requires trace { IsRunnable trace }
    requires no_rounds { has_rounds trace.form ≡ false }
    requires few { token_count trace + length trace.lives ≤ largest_input }
    ensures { AreLivesOver options trace (T.state bench.old) (T.state bench.new) result }
{
    a_refused_region_shows_nothing();
    let lives = trace.take_lives();
    let mut shown = LivesShown::new(alloc);
    for life in lives {
        end_life(alloc, bench, options, life, &mut trace, &mut shown)?;
    }
    let last = follow_life(alloc, bench, options, &trace, shown.placed, true)?;
    Ok(shown.text_with(alloc, last)?)
}

// Follows a life of a trace that a crash ends over a bench, and keeps its lines; of the calls those that it has begun are dropped then.
fn end_life<T: Bench>(
    alloc: Global,
    bench: &mut T,
    options: RunOptions,
    mut life: EndedLife,
    trace: &mut Trace,
    shown: &mut LivesShown,
) -> Result<(), Stop>
    requires at_home { IsAtHome (T.state bench.old) }
    requires arms { (T.state bench.old).arms + length life.tokens < 2 ^ 64 }
    requires settled { (T.state bench.old).settled ≤ (T.state bench.old).faults }
    requires images { T.can_lose_power ≡ true }
    requires limits { AreInLimits options }
    requires trace { IsRunnable trace.old }
    requires one { trace.old.lives ≡ [] }
    requires no_rounds { has_rounds trace.old.form ≡ false }
    requires within { All IsTokenWithin life.tokens }
    requires kept { KeepALineEach shown.old }
    ensures stopped { IfErr result (IsLifeStopped (with_pick life.pick options) (trace_of trace.old trace.old.calls life.tokens) (T.state bench.old) (T.state bench.new)) }
    ensures ended { OnOk result (IsLifeEnded options trace.old life trace.new (T.state bench.old) (T.state bench.new) shown.old shown.new) }
{
    let options = RunOptions {
        image: life.pick(),
        ..options
    };
    trace.swap_tokens(&mut life);
    let lines = follow_life(alloc, bench, options, trace, shown.placed, false)?;
    trace.swap_tokens(&mut life);
    trace.drop_begun(lines.listed);
    shown.end_life(lines)?;
    Ok(())
}

// Follows the schedule of a trace over a bench: opens its region, of these sizes where it is blank, with the files of the trace, lets callers follow the tokens over a mount of them, gives all back, powers
// off, and recovers. The lines of the calls that were begun, the first place being this, and of the files, where it is the last life.
fn follow_life<T: Bench>(
    alloc: Global,
    bench: &mut T,
    options: RunOptions,
    trace: &Trace,
    place: u64,
    last: bool,
) -> Result<LifeLines, Stop>
    requires place { place < 2 ^ 63 }
    requires at_home { IsAtHome (T.state bench.old) }
    requires arms { (T.state bench.old).arms + length trace.now.tokens < 2 ^ 64 }
    requires settled { (T.state bench.old).settled ≤ (T.state bench.old).faults }
    requires images { T.can_lose_power ≡ true }
    requires limits { AreInLimits options }
    requires trace { IsRunnable trace.now }
    requires no_rounds { has_rounds trace.now.form ≡ false }
    ensures runnable { IsRunnable trace.now }
    ensures back { IsAllBack (T.state bench.new) }
    ensures cuts { IsArmedAtSome trace.now.tokens (T.state bench.old) (T.state bench.new) }
    ensures all_cuts { OnOk result (IsArmedAt trace.now.tokens (T.state bench.old) (T.state bench.new)) }
    ensures power { IsOffOnce options.image (T.state bench.old) (T.state bench.new) }
    ensures off { OnOk result (IsOff options.image (T.state bench.old) (T.state bench.new)) }
    ensures uncut { OnOk result (cuts_of trace.now.tokens ≡ [] → (T.state bench.new).faults ≡ (T.state bench.old).faults) }
    ensures settles { (T.state bench.old).settled ≤ (T.state bench.new).settled }
    ensures silent { OnOk result ((T.state bench.old).told ≡ None → (T.state bench.new).told ≡ None) }
    ensures each { IfOk result HaveALineEach }
    ensures cause { IsSettledStop (expected_faults (T.state bench.old) (T.state bench.new)) (T.state bench.new).faults result }
    ensures turns { result ≡ Err stops.Turns → (T.state bench.new).picked ≡ options.image ∷ (T.state bench.old).picked }
    ensures used { result ≡ Err stops.Turns → IfSome (T.state bench.old).told (λ holding. HasUsedTurnsOn options (T.state bench.old) (T.state bench.new) holding trace.now) }
    ensures never_falls { (T.state bench.old).faults ≤ (T.state bench.new).faults }
    ensures life { IfSome (T.state bench.old).told (λ was. LeavesRun TellsNothing options was trace.now [] (T.state bench.new).told) }
    ensures followed { IfOk result (λ lines. IfSome (T.state bench.old).told (λ holding.
        ShowsFollowed (Rose (T.state bench.old).faults (T.state bench.new).faults) options (T.state bench.old).picked holding (T.state bench.new) trace.now place last lines)) }
    ensures refused { (why : _) → result ≡ Err (stops.Region why) → IfSome (T.state bench.old).told (λ holding. IsRunRefused options holding trace.now.names (T.state bench.old) (T.state bench.new) why
        × ((T.state bench.new).picked ≡ (T.state bench.old).picked)) }
    ensures unarmed { (why : _) → result ≡ Err (stops.Region why) → IfSome (T.state bench.old).told (λ holding. (T.state bench.new).arms ≡ (T.state bench.old).arms) }
{
    images_follow_calls();
    let geometry = Geometry {
        page: options.page,
        entries: options.entries,
    };
    let before = bench.faults();
    let wanted = copy_names(alloc, trace.names())?;
    let opened = open(alloc, bench, geometry, &wanted)?;
    schedule_region(alloc, bench, opened, options, trace, before, place, last)
}

// Follows the schedule of a trace over a region whose log is empty, with a store for each of its names, that are lent by a bench. Before that its devices had failed so often.
fn schedule_region<T: Bench>(
    alloc: Global,
    bench: &mut T,
    opened: Opened<T::Part, T::Store>,
    options: RunOptions,
    trace: &Trace,
    before: u64,
    place: u64,
    last: bool,
) -> Result<LifeLines, Stop>
    requires place { place < 2 ^ 63 }
    requires images { T.can_lose_power ≡ true }
    requires limits { AreInLimits options }
    requires arms { (T.state bench.old).arms + length trace.now.tokens < 2 ^ 64 }
    requires open { (T.state bench.old).is_open ≡ true }
    requires lent { (T.state bench.old).lent ≡ opened.region.names }
    requires quiet { IfSome (T.state bench.old).told IsQuietHolding }
    requires stores { length opened.stores.items ≡ length opened.region.names }
    requires synced { All (λ store. Tells (T.Store.history store) IsQuietStore) opened.stores.items }
    requires trace { IsRunnable trace.now }
    requires no_rounds { has_rounds trace.now.form ≡ false }
    requires known { All (λ name. said_place name opened.region.names < length opened.region.names) trace.now.names }
    requires before { before ≡ saturated ((T.state bench.old).faults
        + (sum_by T.Part.fault_count opened.region.parts.items + sum_by T.Store.fault_count opened.stores.items)) }
    requires settled { (T.state bench.old).settled ≤ before }
    ensures back { IsAllBack (T.state bench.new) }
    ensures cuts { IsArmedAtSome trace.now.tokens (T.state bench.old) (T.state bench.new) }
    ensures all_cuts { OnOk result (IsArmedAt trace.now.tokens (T.state bench.old) (T.state bench.new)) }
    ensures power { IsOffOnce options.image (T.state bench.old) (T.state bench.new) }
    ensures off { OnOk result (IsOff options.image (T.state bench.old) (T.state bench.new)) }
    ensures uncut { OnOk result (cuts_of trace.now.tokens ≡ [] → (T.state bench.new).faults ≤ before) }
    ensures settles { (T.state bench.old).settled ≤ (T.state bench.new).settled }
    ensures silent { OnOk result ((T.state bench.old).told ≡ None → (T.state bench.new).told ≡ None) }
    ensures each { IfOk result HaveALineEach }
    ensures cause { IsSettledStop (max before (T.state bench.new).settled) (T.state bench.new).faults result }
    ensures never_falls { before ≤ (T.state bench.new).faults }
    ensures never { (why : _) → result ≡ Err (stops.Region why) → (parts : List Part) (now : List Store)
        → AreNow (map T.Part.history opened.region.parts.items) parts → AreNow (map T.Store.history opened.stores.items) now
        → (T.state bench.old).told ≡ None }
    ensures turns { result ≡ Err stops.Turns → (T.state bench.new).picked ≡ options.image ∷ (T.state bench.old).picked }
    ensures life { (parts : List Part) (now : List Store) → AreNow (map T.Part.history opened.region.parts.items) parts → AreNow (map T.Store.history opened.stores.items) now
        → IfSome (T.state bench.old).told (λ home. IsAway opened.region.names home → HasLived TellsNothing (basis_over opened.region options.pages (files_of now)) trace.now [] (line_counts parts) home.stores (T.state bench.new).told) }
    ensures used { result ≡ Err stops.Turns → (parts : List Part) (now : List Store)
        → AreNow (map T.Part.history opened.region.parts.items) parts → AreNow (map T.Store.history opened.stores.items) now
        → IfSome (T.state bench.old).told (λ home. IsAway opened.region.names home
        → HasUsedTurns (Rose (saturated ((T.state bench.old).faults
        + (sum_by T.Part.fault_count opened.region.parts.items + sum_by T.Store.fault_count opened.stores.items))) (T.state bench.new).faults)
        options (basis_over opened.region options.pages (files_of now)) trace.now (length opened.region.parts.items) home.stores (T.state bench.old) (T.state bench.new)) }
    ensures scheduled { IfOk result (λ lines. (parts : List Part) (now : List Store)
        → AreNow (map T.Part.history opened.region.parts.items) parts → AreNow (map T.Store.history opened.stores.items) now
        → IfSome (T.state bench.old).told (λ home. IsAway opened.region.names home
        → ShowsScheduled (Rose (saturated ((T.state bench.old).faults
        + (sum_by T.Part.fault_count opened.region.parts.items + sum_by T.Store.fault_count opened.stores.items))) (T.state bench.new).faults)
        options (T.state bench.old).picked (basis_over opened.region options.pages (files_of now)) trace.now (length opened.region.parts.items) home.stores (T.state bench.new) place last lines)) }
{
    let Opened { region, stores } = opened;
    match mount_over(alloc, region, stores, options, trace) {
        Ok((mount, pass)) => schedule_mount(
            alloc, bench, mount, pass, options, trace, before, place, last,
        ),
        Err(
            Unmounted {
                parts,
                stores,
                stop,
            },
        ) => {
            bench.give_back(parts, stores);
            Err(stop)
        }
    }
}

// Follows the schedule of a trace over a mount whose parts and stores are lent by a bench; gives all back, powers off, recovers, and shows what became of the calls that were begun, and the files. A device
// that fails meanwhile ends it before power goes off.
fn schedule_mount<T: Bench>(
    alloc: Global,
    bench: &mut T,
    mount: Mount<T::Part, T::Store>,
    pass: Pass<T::Part, T::Store>,
    options: RunOptions,
    trace: &Trace,
    before: u64,
    place: u64,
    last: bool,
) -> Result<LifeLines, Stop>
    requires place { place < 2 ^ 63 }
    requires cache { HasCache options.cache mount }
    requires images { T.can_lose_power ≡ true }
    requires arms { (T.state bench.old).arms + length trace.now.tokens < 2 ^ 64 }
    requires open { (T.state bench.old).is_open ≡ true }
    requires quiet { IfSome (T.state bench.old).told IsQuietHolding }
    requires board { IsOf mount.board pass }
    requires new { pass.view ≡ first_view mount.board.opened }
    requires bare { pass.now ≡ [] }
    requires names { AreFileNames mount_layout (T.state bench.old).lent }
    requires lent { length (T.state bench.old).lent ≡ mount.board.opened.sizes.files }
    requires trace { IsRunnable trace.now }
    requires no_rounds { has_rounds trace.now.form ≡ false }
    requires before { before ≡ saturated ((T.state bench.old).faults + failed_before pass) }
    requires settled { (T.state bench.old).settled ≤ before }
    ensures back { IsAllBack (T.state bench.new) }
    ensures cuts { IsArmedAtSome trace.now.tokens (T.state bench.old) (T.state bench.new) }
    ensures all_cuts { OnOk result (IsArmedAt trace.now.tokens (T.state bench.old) (T.state bench.new)) }
    ensures power { IsOffOnce options.image (T.state bench.old) (T.state bench.new) }
    ensures off { OnOk result (IsOff options.image (T.state bench.old) (T.state bench.new)) }
    ensures uncut { OnOk result (cuts_of trace.now.tokens ≡ [] → (T.state bench.new).faults ≤ before) }
    ensures settles { (T.state bench.old).settled ≤ (T.state bench.new).settled }
    ensures silent { OnOk result ((T.state bench.old).told ≡ None → (T.state bench.new).told ≡ None) }
    ensures each { IfOk result HaveALineEach }
    ensures cause { IsSettledStop (max before (T.state bench.new).settled) (T.state bench.new).faults result }
    ensures never_falls { before ≤ (T.state bench.new).faults }
    ensures never { (why : _) → result ≡ Err (stops.Region why) → (basis : Basis) → BeginsMount basis trace.now mount pass
        → basis.names ≡ (T.state bench.old).lent → (T.state bench.old).told ≡ None }
    ensures turns { result ≡ Err stops.Turns → (T.state bench.new).picked ≡ options.image ∷ (T.state bench.old).picked }
    ensures life { (basis : Basis) → BeginsMount basis trace.now mount pass → basis.names ≡ (T.state bench.old).lent
        → IfSome (T.state bench.old).told (λ home. IsAway basis.names home → HasLived TellsNothing basis trace.now [] (mounted_lines (mount_of mount.board.opened) pass.spare) home.stores (T.state bench.new).told) }
    ensures used { result ≡ Err stops.Turns → (basis : Basis) → BeginsMount basis trace.now mount pass → basis.names ≡ (T.state bench.old).lent
        → IfSome (T.state bench.old).told (λ home. IsAway basis.names home
        → HasUsedTurns (Rose (saturated ((T.state bench.old).faults + failed_before pass)) (T.state bench.new).faults)
        options basis trace.now (1 + mount.board.opened.sizes.entries + length pass.spare) home.stores (T.state bench.old) (T.state bench.new)) }
    ensures scheduled { IfOk result (λ lines. (basis : Basis) → BeginsMount basis trace.now mount pass → basis.names ≡ (T.state bench.old).lent
        → IfSome (T.state bench.old).told (λ home. IsAway basis.names home
        → ShowsScheduled (Rose (saturated ((T.state bench.old).faults + failed_before pass)) (T.state bench.new).faults)
        options (T.state bench.old).picked basis trace.now (1 + mount.board.opened.sizes.entries + length pass.spare) home.stores (T.state bench.new) place last lines)) }
{
    images_stand_for_files();
    a_header_has_one_answer();
    power_leaves_an_image();
    history_of_threads_is_legal();
    open_calls_are_the_faults();
    schedules_begin_in_order();
    schedules_are_told();
    schedules_are_faithful();
    schedules_leave_lives();
    schedules_run_in_the_core();
    images_follow_calls();
    pass.sees_a_run();
    let Scheduled {
        closed,
        outcome,
        cut,
    } = run_schedule(
        alloc,
        bench,
        mount,
        pass,
        trace.calls(),
        trace.tokens(),
        options.batch,
    );
    bench.give_back(closed.parts, closed.stores);
    if has_failed(bench, cut, before) {
        return Err(Stop::Device);
    }
    bench.power(options.image)?;
    show_outcome(alloc, bench, outcome, place, last)
}

// Whether a device has failed before any cut.
fn has_failed<T: Bench>(bench: &T, cut: bool, before: u64) -> bool
    ensures failed { result ≡ true → (cut ≡ false) × (before < (T.state bench.now).faults) }
    ensures sound { result ≡ false → cut ≡ false → (T.state bench.now).faults ≤ before }
{
    !cut && bench.faults() > before
}

// Recovers the region of a bench over which a schedule was followed, and shows what became of the calls that were begun, and the files, where the schedule was followed to its end.
fn show_outcome<T: Bench>(
    alloc: Global,
    bench: &mut T,
    outcome: Result<ScheduledCalls<'_>, ScheduleError>,
    place: u64,
    last: bool,
) -> Result<LifeLines, Stop>
    requires place { place < 2 ^ 63 }
    requires at_home { IsAtHome (T.state bench.old) }
    ensures back { IsGivenBack (T.state bench.old) (T.state bench.new) }
    ensures refused { (why : _) → result ≡ Err (stops.Region why) → IfSome (T.state bench.old).told (λ holding. IsRefusedFor holding.parts why) }
    ensures followed { OnOk result ((calls : AnyCalls) × (outcome.entry ≡ Ok calls)) }
    ensures used { result ≡ Err stops.Turns → outcome.entry ≡ Err schedule_errors.TurnsUsed }
    ensures recovered { result ≡ Err stops.Turns → IfSome (T.state bench.old).told (λ holding. (text : List ℕ) × HasRecovered holding (T.state bench.new).told text) }
    ensures shown { IfOk result (λ lines. IfSome (T.state bench.old).told (λ holding. ShowsOutcome place last holding outcome.entry (T.state bench.new).told lines)) }
    ensures each { IfOk result HaveALineEach }
    ensures standing { IfSome (T.state bench.old).told (λ was. HasHeader was.parts → TellsOf (StandsAsBefore was) (T.state bench.new).told) }
    ensures silent { OnOk result ((T.state bench.old).told ≡ None → (T.state bench.new).told ≡ None) }
    ensures cause { IsSettledStop (T.state bench.old).faults (T.state bench.new).faults result }
    ensures never_falls { (T.state bench.old).faults ≤ (T.state bench.new).faults }
{
    match outcome {
        Ok(calls) => {
            let ScheduledCalls {
                answered,
                unanswered,
            } = calls;
            let sorted = sort_out(alloc, answered)?;
            show_life(alloc, bench, sorted, &unanswered, place, last)
        }
        Err(ScheduleError::TurnsUsed) => {
            recover(alloc, bench)?;
            Err(Stop::Turns)
        }
        // A fault has raised the count, where that doesn't stand at its end, and so has ended the command before.
        Err(ScheduleError::NoMemory | ScheduleError::Fault) => Err(Stop::NoMemory),
    }
}
