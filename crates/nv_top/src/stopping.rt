//! A run that power ends, and its recovery.
ghost use Rattle.std.specs.Prelude.{◌≡◌, ◌≢◌, ◌⊎◌, ◌++◌, ◌+◌, ◌-◌, ◌^◌, ◌<◌, ◌≤◌, [], List, true, length, map, sum_by, All, Some, Err, IfOk, IfSome};
ghost use Rattle.nv_plain.specs.Faults.{saturated};
ghost use Rattle.nv_plain.specs.Layouts.{mount_layout, mount_version};
ghost use Rattle.nv_pmem.specs.Moments.{Tells};
ghost use Rattle.nv_pmem.specs.Part.{Part};
ghost use Rattle.nv_pmem.specs.RowStates.{AreNow};
ghost use Rattle.nv_store.specs.Store.{IsQuietStore, Store};
ghost use Rattle.nv_bench.specs.Holding.{IsQuietHolding};
ghost use Rattle.nv_header.specs.FileNames.{AreFileNames};
ghost use Rattle.nv_open.specs.Refusals.{IsRefusedFor};
ghost use Rattle.nv_open.specs.Unopened.{HasHeader, StandsAsBefore, TellsOf, line_counts};
ghost use Rattle.nv_recover.specs.Standing.{files_of};
ghost use Rattle.nv_table.specs.state.Opened.{mount_of};
ghost use Rattle.nv_table.specs.state.States.{IsOf};
ghost use Rattle.nv_table.specs.state.Views.{first_view};
ghost use Rattle.nv_mount.specs.RisenCounts.{failed_before};
ghost use Rattle.nv_mount.specs.Telling.{mounted_lines};
ghost use Rattle.nv_trace.specs.Said.{said_place};
ghost use Rattle.nv_trace.specs.Shape.{IsWellFormed};
ghost use Rattle.nv_runner.specs.KeptRounds.{AreKeptOf};
ghost use Rattle.nv_runner.specs.Reports.{history_lines};
ghost use Rattle.nv_runner.specs.Sorted.{placed_call};
ghost use Rattle.nv_runner.specs.declared.sorted.SortedCalls.{SortedCalls as AnySorted};
ghost use Rattle.nv_top.specs.Commands.{IsGivenBack};
ghost use Rattle.nv_top.specs.Ran.{IsRunInput};
ghost use Rattle.nv_top.specs.Ready.{IsAtHome, IsReady};
ghost use Rattle.nv_top.specs.RunInputs.{HasRunInput, HasStoppedInput};
ghost use Rattle.nv_top.specs.Runs.{BeginsMount, basis_over};
ghost use Rattle.nv_top.specs.Stopping.{IsBackUnarmed, IsPickedOnce, IsPoweredBack, ShowsOpen, ShowsRecovered};
ghost use Rattle.nv_top.specs.Stops.{CountHasCause};
ghost use Rattle.nv_words.specs.Words.{AreInLimits};
ghost use Rattle.nv_top.specs.declared.ending.Stop.TheVariants as stops;
ghost use Rattle.nv_top.specs.declared.show.Show.TheVariants as shows;

use crate::ending::Stop;
use crate::fates::open_fates;
use crate::files::read_files;
use crate::input::Input;
use crate::mounting::{Unmounted, mount_over};
use crate::names::copy_names;
use crate::ran::answer;
use crate::recovery::parts_have_lines;
use crate::text::rest_of;
use nv_bench::{Bench, power_leaves_an_image};
use nv_header::{Names, a_header_has_one_answer};
use nv_mount::Mount;
use nv_open::{Opened, Restored, open, recover_region};
use nv_plain::{Bytes, NoMemory};
use nv_pmem::{Geometry, images_follow_calls};
use nv_recover::{Recovered, images_stand_for_files};
use nv_runner::{
    Gate, KeptCalls, Plan, StreamEnded, StreamError, history_of_threads_is_legal,
    open_calls_are_the_faults, run_stream, runs_are_faithful, runs_are_told,
    runs_leave_shown_lives,
};
use nv_store::Backing;
use nv_table::Pass;
use nv_trace::{Sink, Source, TracedCall};
use nv_words::RunOptions;
use std::alloc::Global;
use std::sync::Wait;
use std::thread::Threads;

/// Runs the rounds of an input over a bench to its stop at a device call: opens its region, of these sizes where it is blank, with the files of its trace, and has power end the run over it. The text that shows, behind
/// the lines of the rounds, what became of each call.
pub(crate) fn run_to_stop<R: Threads + Wait + Sync, T: Bench, G: Gate + Sync, I: Source, O: Sink>(
    rt: &R,
    alloc: Global,
    gate: &G,
    bench: &mut T,
    options: RunOptions,
    input: &mut Input,
    src: &mut I,
    out: &mut O,
    k: u64,
) -> Result<Vec<u8>, Stop>
    requires ready { IsReady (T.state bench.old) }
    requires images { T.can_lose_power ≡ true }
    requires limits { AreInLimits options }
    requires k { 1 ≤ k }
    requires input { IsRunInput shows.Report input.old }
    requires well_formed { IsWellFormed input.old.trace }
    ensures { HasRunInput (Some k) options input.old (I.left src.old) (I.left src.new) (I.fault_count src.old) (I.fault_count src.new)
        (O.written out.old) (O.written out.new) (O.fault_count out.old) (O.fault_count out.new) (T.state bench.old) (T.state bench.new) result }
{
    images_follow_calls();
    let geometry = Geometry {
        page: options.page,
        entries: options.entries,
    };
    let wanted = copy_names(alloc, input.trace.names())?;
    let opened = open(alloc, bench, geometry, &wanted)?;
    stop_region(rt, alloc, gate, bench, opened, options, input, src, out, k)
}

// Runs the rounds of an input over a region whose log is empty, with a store for each of its names, that are lent by a bench: it is armed once the
// mount is open, makes the calls, gives all back, powers off, recovers, and shows what became of each call, and the files.
fn stop_region<R: Threads + Wait + Sync, T: Bench, G: Gate + Sync, I: Source, O: Sink>(
    rt: &R,
    alloc: Global,
    gate: &G,
    bench: &mut T,
    opened: Opened<T::Part, T::Store>,
    options: RunOptions,
    input: &mut Input,
    src: &mut I,
    out: &mut O,
    k: u64,
) -> Result<Vec<u8>, Stop>
    requires images { T.can_lose_power ≡ true }
    requires limits { AreInLimits options }
    requires k { 1 ≤ k }
    requires arms { (T.state bench.old).arms < 2 ^ 64 - 1 }
    requires open { (T.state bench.old).is_open ≡ true }
    requires lent { (T.state bench.old).lent ≡ opened.region.names }
    requires quiet { IfSome (T.state bench.old).told IsQuietHolding }
    requires stores { length opened.stores.items ≡ length opened.region.names }
    requires synced { All (λ store. Tells (T.Store.history store) IsQuietStore) opened.stores.items }
    requires input { IsRunInput shows.Report input.old }
    requires well_formed { IsWellFormed input.old.trace }
    requires known { All (λ name. said_place name opened.region.names < length opened.region.names) input.old.trace.names }
    ensures back { IsPoweredBack k (T.state bench.old) (T.state bench.new) ⊎ IsBackUnarmed (T.state bench.old) (T.state bench.new) }
    ensures picked { IsPickedOnce options.image (T.state bench.old) (T.state bench.new) }
    ensures no_less { (T.state bench.new).arms ≡ (T.state bench.old).arms + 1 → saturated ((T.state bench.old).faults
        + (sum_by T.Part.fault_count opened.region.parts.items + sum_by T.Store.fault_count opened.stores.items)) ≤ (T.state bench.new).settled }
    ensures never_falls { saturated ((T.state bench.old).faults
        + (sum_by T.Part.fault_count opened.region.parts.items + sum_by T.Store.fault_count opened.stores.items)) ≤ (T.state bench.new).faults }
    ensures ran { HasStoppedInput (λ basis counts all. (parts : List Part) × (now : List Store) × AreNow (map T.Part.history opened.region.parts.items) parts × AreNow (map T.Store.history opened.stores.items) now
        × (basis ≡ basis_over opened.region options.pages (files_of now)) × (counts ≡ line_counts parts)) options.worker options.image
        (saturated ((T.state bench.old).faults + (sum_by T.Part.fault_count opened.region.parts.items + sum_by T.Store.fault_count opened.stores.items)))
        (length opened.region.parts.items)
        input.old (I.left src.old) (I.left src.new) (I.fault_count src.old) (I.fault_count src.new) (O.written out.old) (O.written out.new) (O.fault_count out.old) (O.fault_count out.new)
        (T.state bench.old) (T.state bench.new) result }
{
    let Opened { region, stores } = opened;
    let plan = Plan {
        batch: options.batch,
        worker: options.worker,
        stop: Some(k),
        image: options.image,
    };
    match mount_over(alloc, region, stores, options, &input.trace) {
        Ok((mount, pass)) => stop_mount(
            rt, alloc, gate, bench, mount, pass, plan, input, src, out, k,
        ),
        Err(
            Unmounted {
                parts,
                stores,
                stop,
            },
        ) => {
            bench.give_back(parts, stores);
            Err(stop)
        }
    }
}

// Runs the rounds of an input over a mount whose parts and stores are lent by a bench that is armed first; gives all back, powers off, recovers, and
// shows what became of the calls, and the files. Where the sink fails there is nobody to show that to, and power stays on.
fn stop_mount<R: Threads + Wait + Sync, T: Bench, G: Gate + Sync, I: Source, O: Sink>(
    rt: &R,
    alloc: Global,
    gate: &G,
    bench: &mut T,
    mount: Mount<T::Part, T::Store>,
    pass: Pass<T::Part, T::Store>,
    plan: Plan,
    input: &mut Input,
    src: &mut I,
    out: &mut O,
    k: u64,
) -> Result<Vec<u8>, Stop>
    requires images { T.can_lose_power ≡ true }
    requires stop { plan.stop ≡ Some k }
    requires k { 1 ≤ k }
    requires arms { (T.state bench.old).arms < 2 ^ 64 - 1 }
    requires open { (T.state bench.old).is_open ≡ true }
    requires quiet { IfSome (T.state bench.old).told IsQuietHolding }
    requires board { IsOf mount.board pass }
    requires new { pass.view ≡ first_view mount.board.opened }
    requires bare { pass.now ≡ [] }
    requires names { AreFileNames mount_layout (T.state bench.old).lent }
    requires lent { length (T.state bench.old).lent ≡ mount.board.opened.sizes.files }
    requires input { IsRunInput shows.Report input.old }
    ensures back { IsPoweredBack k (T.state bench.old) (T.state bench.new) }
    ensures picked { IsPickedOnce plan.image (T.state bench.old) (T.state bench.new) }
    ensures no_less { saturated ((T.state bench.old).faults + failed_before pass) ≤ (T.state bench.new).settled }
    ensures never_falls { saturated ((T.state bench.old).faults + failed_before pass) ≤ (T.state bench.new).faults }
    ensures ran { HasStoppedInput (λ basis counts all. BeginsMount basis all mount pass × (basis.names ≡ (T.state bench.old).lent) × (counts ≡ mounted_lines (mount_of mount.board.opened) pass.spare)) plan.worker plan.image
        (saturated ((T.state bench.old).faults + failed_before pass)) (1 + mount.board.opened.sizes.entries + length pass.spare)
        input.old (I.left src.old) (I.left src.new) (I.fault_count src.old) (I.fault_count src.new) (O.written out.old) (O.written out.new) (O.fault_count out.old) (O.fault_count out.new)
        (T.state bench.old) (T.state bench.new) result }
{
    images_stand_for_files();
    a_header_has_one_answer();
    power_leaves_an_image();
    history_of_threads_is_legal();
    open_calls_are_the_faults();
    runs_are_told();
    runs_are_faithful();
    runs_leave_shown_lives();
    images_follow_calls();
    bench.arm(k);
    let StreamEnded {
        closed,
        calls,
        ended,
    } = run_stream(
        rt,
        alloc,
        gate,
        mount,
        pass,
        &mut input.reader,
        src,
        &mut input.trace,
        input.more,
        out,
        plan,
    );
    bench.give_back(closed.parts, closed.stores);
    if let Err(StreamError::Write) = ended {
        return Err(Stop::Write);
    }
    bench.power(plan.image)?;
    // It is given up for want of memory alone: what its devices refuse is in its report.
    let kept = calls?;
    let told = show_recovered(alloc, bench, &kept, &[]);
    answer(told, ended)
}

/// Recovers the region of a bench, shows what became of the calls of a run, and the files, and gives all back: the report behind the lines of the calls that have a place. Beside those that are kept some calls were
/// begun, and drew no number.
pub(crate) fn show_recovered<T: Bench>(
    alloc: Global,
    bench: &mut T,
    kept: &KeptCalls,
    begun: &[&TracedCall],
) -> Result<Vec<u8>, Stop>
    requires at_home { IsAtHome (T.state bench.old) }
    ensures back { IsGivenBack (T.state bench.old) (T.state bench.new) }
    ensures shown { IfOk result (λ text. IfSome (T.state bench.old).told (λ holding. (sorted : AnySorted) → AreKeptOf kept.now sorted
        → ShowsRecovered holding sorted (map (λ call. call.now) begun.now) (T.state bench.new).told (history_lines 0 (map placed_call sorted.placed.items) ++ text.items))) }
    ensures refused { (why : _) → result ≡ Err (stops.Region why) → IfSome (T.state bench.old).told (λ holding. IsRefusedFor holding.parts why) }
    ensures standing { IfSome (T.state bench.old).told (λ was. HasHeader was.parts → TellsOf (StandsAsBefore was) (T.state bench.new).told) }
    ensures cause { CountHasCause (T.state bench.old).faults (T.state bench.new).faults result }
    ensures turns { result ≢ Err stops.Turns }
    ensures never_falls { (T.state bench.old).faults ≤ (T.state bench.new).faults }
{
    images_stand_for_files();
    let restored = recover_region(alloc, bench)?;
    let Restored {
        region,
        mut stores,
        found,
    } = restored;
    let report = show_fates(alloc, kept, begun, region.names(), &found, &mut stores);
    let parts = region.into_parts();
    parts_have_lines(&parts);
    bench.give_back(parts, stores);
    report
}

// The rest of the report of a run whose writes that were left open a recovery met, and whose files the stores hold.
fn show_fates<B: Backing>(
    alloc: Global,
    kept: &KeptCalls,
    begun: &[&TracedCall],
    names: &Names,
    found: &Recovered,
    stores: &mut Vec<B>,
) -> Result<Vec<u8>, Stop>
    requires { length stores.old.items ≡ length names.now }
    ensures text { IfOk result (λ text. (now : List Store) → AreNow (map B.history stores.old.items) now → (sorted : AnySorted) → AreKeptOf kept.now sorted
        → ShowsOpen sorted (map (λ call. call.now) begun.now) found.now names.now (files_of now) (history_lines 0 (map placed_call sorted.placed.items) ++ text.items)) }
    ensures histories { map B.history stores.new.items ≡ map B.history stores.old.items }
    ensures never { (why : _) → ¬ (result ≡ Err (stops.Region why)) }
    ensures cause { CountHasCause (sum_by B.fault_count stores.old.items) (sum_by B.fault_count stores.new.items) result }
{
    let files = read_files(alloc, stores)?;
    let text = show_open(alloc, kept, begun, names, found, &files)?;
    Ok(text)
}

// The rest of the report of the calls of such a run, and of these files.
fn show_open(
    alloc: Global,
    kept: &KeptCalls,
    begun: &[&TracedCall],
    names: &Names,
    found: &Recovered,
    files: &[Bytes],
) -> Result<Vec<u8>, NoMemory>
    requires { length files.now ≡ length names.now }
    ensures { IfOk result (λ text. (sorted : AnySorted) → AreKeptOf kept.now sorted
        → ShowsOpen sorted (map (λ call. call.now) begun.now) found.now names.now (record { contents = files.now }) (history_lines 0 (map placed_call sorted.placed.items) ++ text.items)) }
{
    let fated = open_fates(alloc, &kept.open_calls, begun, found)?;
    rest_of(alloc, kept, &fated, names.as_slice(), files)
}
