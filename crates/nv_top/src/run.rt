//! A run of an input, or of a load, and its report.
ghost use Rattle.std.specs.Prelude.{◌≡◌, ◌++◌, ◌+◌, ◌<◌, [], List, None, length, map, sum_by, All, Err, IfOk, IfSome, IsErr};
ghost use Rattle.nv_plain.specs.Layouts.{mount_layout, mount_version};
ghost use Rattle.nv_pmem.specs.Moments.{Tells};
ghost use Rattle.nv_pmem.specs.Part.{Part};
ghost use Rattle.nv_pmem.specs.RowStates.{AreNow};
ghost use Rattle.nv_store.specs.Store.{IsQuietStore, Store};
ghost use Rattle.nv_recover.specs.Standing.{files_of};
ghost use Rattle.nv_header.specs.FileNames.{AreFileNames};
ghost use Rattle.nv_open.specs.Unopened.{line_counts};
ghost use Rattle.nv_table.specs.state.Opened.{mount_of};
ghost use Rattle.nv_table.specs.state.States.{IsOf};
ghost use Rattle.nv_table.specs.state.Views.{first_view};
ghost use Rattle.nv_mount.specs.RisenCounts.{failed_before};
ghost use Rattle.nv_mount.specs.Telling.{mounted_lines};
ghost use Rattle.nv_runner.specs.Faithful.{Basis};
ghost use Rattle.nv_runner.specs.Histories.{PlacedCall};
ghost use Rattle.nv_runner.specs.Reports.{history_lines};
ghost use Rattle.nv_runner.specs.declared.sorted.SortedCalls.{SortedCalls as AnySorted};
ghost use Rattle.nv_runner.specs.declared.stream.StreamError.TheVariants as ends;
ghost use Rattle.nv_trace.specs.Said.{said_place};
ghost use Rattle.nv_trace.specs.Shape.{IsWellFormed};
ghost use Rattle.nv_trace.specs.Traced.{Traced};
ghost use Rattle.nv_top.specs.Commands.{IsGivenBack};
ghost use Rattle.nv_top.specs.Lives.{AreLeftSo, tells_as};
ghost use Rattle.nv_plain.specs.Faults.{Rose};
ghost use Rattle.nv_top.specs.Outcomes.{shown_report};
ghost use Rattle.nv_top.specs.Ran.{AreOf, HasStreamedOn, IsRunInput, shown_of};
ghost use Rattle.nv_top.specs.Ready.{IsAtHome};
ghost use Rattle.nv_top.specs.RunInputs.{HasRunToEnd};
ghost use Rattle.nv_top.specs.Runs.{BeginsMount, HasRunBehind, IsQuietSpare, basis_over};
ghost use Rattle.nv_top.specs.Shows.{text_as};
ghost use Rattle.nv_top.specs.Stops.{CountHasCause, RunHasCause};
ghost use Rattle.nv_words.specs.Words.{AreInLimits};
ghost use Rattle.nv_top.specs.declared.ending.Stop.TheVariants as stops;
ghost use Rattle.nv_top.specs.declared.show.Show.{Show as AnyShow};

use crate::ending::Stop;
use crate::files::read_files;
use crate::input::Input;
use crate::mounting::{Unmounted, mount_over};
use crate::names::copy_names;
use crate::ran::{Ran, RanCalls, answer, run_shown};
use crate::show::Show;
use crate::summary::show_summary;
use crate::text::rest_of;
use nv_bench::Bench;
use nv_core::{
    crashes_leave_whole_writes, empty_logs_rest, passes_are_left_alone, runs_are_sound,
    runs_keep_the_log,
};
use nv_header::{Names, Region};
use nv_mount::Mount;
use nv_open::{Opened, open};
use nv_plain::{Bytes, NoMemory};
use nv_pmem::{Geometry, Lines, images_follow_calls};
use nv_runner::{
    Gate, Plan, StreamError, runs_leave_lives, runs_leave_shown_lives,
    unstopped_runs_leave_nothing_open,
};
use nv_store::Backing;
use nv_table::Pass;
use nv_trace::{Sink, Source};
use nv_words::RunOptions;
use std::alloc::Global;
use std::sync::Wait;
use std::thread::Threads;

/// Runs an input, or a load, over a bench to its end: opens its region, of these sizes where it is blank, with the files of its trace, has its threads make their calls over a mount of
/// them, brings the stores to the files, and gives all back. The text that shows it, behind the lines of the rounds, unless a device or the sink failed meanwhile.
pub(crate) fn run_to_end<R: Threads + Wait + Sync, T: Bench, G: Gate + Sync, I: Source, O: Sink>(
    rt: &R,
    alloc: Global,
    gate: &G,
    bench: &mut T,
    options: RunOptions,
    show: Show,
    input: &mut Input,
    src: &mut I,
    out: &mut O,
) -> Result<Vec<u8>, Stop>
    requires at_home { IsAtHome (T.state bench.old) }
    requires limits { AreInLimits options }
    requires input { IsRunInput show input.old }
    requires well_formed { IsWellFormed input.old.trace }
    ensures back { IsGivenBack (T.state bench.old) (T.state bench.new) }
    ensures ran { HasRunToEnd show options input.old (I.left src.old) (I.left src.new) (I.fault_count src.old) (I.fault_count src.new)
        (O.written out.old) (O.written out.new) (O.fault_count out.old) (O.fault_count out.new) (T.state bench.old) (T.state bench.new) result }
{
    images_follow_calls();
    let geometry = Geometry {
        page: options.page,
        entries: options.entries,
    };
    let before = bench.faults();
    let wanted = copy_names(alloc, input.trace.names())?;
    let Opened { region, stores } = open(alloc, bench, geometry, &wanted)?;
    let Ended {
        parts,
        stores,
        report,
        ended,
    } = run_region(
        rt, alloc, gate, region, stores, options, show, input, src, out,
    );
    bench.give_back(parts, stores);
    let told = if bench.faults() > before {
        Err(Stop::Device)
    } else {
        report
    };
    answer(told, ended)
}

/// What is left of a run: its devices, and its report, or why there is none.
#[derive(Drop)]
struct Ended<L, B> {
    parts: Vec<L>,
    stores: Vec<B>,
    report: Result<Vec<u8>, Stop>,
    /// Whether the last round was run; or why no further one was. Where none was run nothing further is read, as where memory is wanting.
    ended: Result<(), StreamError>,
}

// Runs an input, or a load, over a region whose log is empty, with a store for each of its names.
fn run_region<
    R: Threads + Wait + Sync,
    G: Gate + Sync,
    L: Lines + Drop + Send,
    B: Backing + Drop + Send,
    I: Source,
    O: Sink,
>(
    rt: &R,
    alloc: Global,
    gate: &G,
    region: Region<L>,
    stores: Vec<B>,
    options: RunOptions,
    show: Show,
    input: &mut Input,
    src: &mut I,
    out: &mut O,
) -> Ended<L, B>
    requires version { region.version ≡ mount_version }
    requires limits { AreInLimits options }
    requires stores { length stores.items ≡ length region.names }
    requires quiet { All (λ store. Tells (B.history store) IsQuietStore) stores.items }
    requires input { IsRunInput show input.old }
    requires well_formed { IsWellFormed input.old.trace }
    requires known { All (λ name. said_place name region.names < length region.names) input.old.trace.names }
    ensures count { length result.stores.items ≡ length stores.items }
    ensures many { length result.parts.items ≡ length region.parts.items }
    ensures ran { (all : Traced) × (shown : List PlacedCall)
        × HasStreamedOn show input.old (I.left src.old) (I.left src.new) (I.fault_count src.old) (I.fault_count src.new)
        (O.written out.old) (O.written out.new) (O.fault_count out.old) (O.fault_count out.new) result.ended all shown
        × ((parts : List Part) (now : List Store) → AreNow (map L.history region.parts.items) parts → AreNow (map B.history stores.items) now
        → AreLeftSo (tells_as show (Rose (sum_by L.fault_count region.parts.items + sum_by B.fault_count stores.items) (sum_by L.fault_count result.parts.items + sum_by B.fault_count result.stores.items)) options.worker)
        L.history B.history (basis_over region options.pages (files_of now)) all shown (line_counts parts) result.parts.items result.stores.items)
        × IfOk result.report (λ text. (parts : List Part) (now : List Store) → AreNow (map L.history region.parts.items) parts → AreNow (map B.history stores.items) now
        → HasRunBehind L.history B.history show options.worker (basis_over region options.pages (files_of now)) all shown text.items result.parts.items result.stores.items) }
    ensures memory { result.ended ≡ Err ends.NoMemory → IsErr result.report }
    ensures cause { RunHasCause (sum_by L.fault_count region.parts.items + sum_by B.fault_count stores.items)
        (sum_by L.fault_count result.parts.items + sum_by B.fault_count result.stores.items) result.report }
{
    let Ok(names) = copy_names(alloc, region.names().as_slice()) else {
        return Ended {
            parts: region.into_parts(),
            stores,
            report: Err(Stop::NoMemory),
            ended: Err(StreamError::NoMemory),
        };
    };
    let plan = Plan {
        batch: options.batch,
        worker: options.worker,
        stop: None,
        image: options.image,
    };
    match mount_over(alloc, region, stores, options, &input.trace) {
        Ok((mount, pass)) => run_mount(
            rt, alloc, gate, mount, pass, &names, plan, show, input, src, out,
        ),
        Err(
            Unmounted {
                parts,
                stores,
                stop,
            },
        ) => Ended {
            parts,
            stores,
            report: Err(stop),
            ended: Err(StreamError::NoMemory),
        },
    }
}

// Runs an input, or a load, over a mount of a region with these names, whose log is empty.
fn run_mount<
    R: Threads + Wait + Sync,
    G: Gate + Sync,
    L: Lines + Drop + Send,
    B: Backing + Drop + Send,
    I: Source,
    O: Sink,
>(
    rt: &R,
    alloc: Global,
    gate: &G,
    mount: Mount<L, B>,
    pass: Pass<L, B>,
    names: &Names,
    plan: Plan,
    show: Show,
    input: &mut Input,
    src: &mut I,
    out: &mut O,
) -> Ended<L, B>
    requires board { IsOf mount.board pass }
    requires new { pass.view ≡ first_view mount.board.opened }
    requires bare { pass.now ≡ [] }
    requires stop { plan.stop ≡ None }
    requires names { AreFileNames mount_layout names.now }
    requires files { length names.now ≡ mount.board.opened.sizes.files }
    requires input { IsRunInput show input.old }
    ensures count { length result.stores.items ≡ mount.board.opened.sizes.files }
    ensures many { length result.parts.items ≡ 1 + mount.board.opened.sizes.entries + length pass.spare }
    ensures ran { (all : Traced) × (shown : List PlacedCall)
        × HasStreamedOn show input.old (I.left src.old) (I.left src.new) (I.fault_count src.old) (I.fault_count src.new)
        (O.written out.old) (O.written out.new) (O.fault_count out.old) (O.fault_count out.new) result.ended all shown
        × ((basis : Basis) → BeginsMount basis all mount pass
        → AreLeftSo (tells_as show (Rose (failed_before pass) (sum_by L.fault_count result.parts.items + sum_by B.fault_count result.stores.items)) plan.worker) L.history B.history basis all shown
        (mounted_lines (mount_of mount.board.opened) pass.spare) result.parts.items result.stores.items)
        × IfOk result.report (λ text. (basis : Basis) → BeginsMount basis all mount pass → basis.names ≡ names.now → All IsQuietSpare pass.spare
        → HasRunBehind L.history B.history show plan.worker basis all shown text.items result.parts.items result.stores.items) }
    ensures memory { result.ended ≡ Err ends.NoMemory → IsErr result.report }
    ensures cause { RunHasCause (failed_before pass) (sum_by L.fault_count result.parts.items + sum_by B.fault_count result.stores.items) result.report }
{
    runs_are_sound();
    passes_are_left_alone();
    runs_keep_the_log();
    empty_logs_rest();
    unstopped_runs_leave_nothing_open();
    pass.sees_a_run();
    crashes_leave_whole_writes();
    runs_leave_lives();
    runs_leave_shown_lives();
    let Ran {
        closed,
        calls,
        ended,
    } = run_shown(rt, alloc, gate, mount, pass, plan, show, input, src, out);
    let parts = closed.parts;
    let mut stores = closed.stores;
    let report = match calls {
        Ok(calls) => show_run(alloc, calls, names, &mut stores),
        Err(error) => Err(error.into()),
    };
    Ended {
        parts,
        stores,
        report,
        ended,
    }
}

// What is shown of a run whose files the stores hold, and of which no call was left open, behind the lines of its rounds.
fn show_run<B: Backing>(
    alloc: Global,
    calls: RanCalls,
    names: &Names,
    stores: &mut Vec<B>,
) -> Result<Vec<u8>, Stop>
    requires { length stores.old.items ≡ length names.now }
    ensures text { IfOk result (λ text. (show : AnyShow) (sorted : AnySorted) → AreOf show calls sorted → (now : List Store) → AreNow (map B.history stores.old.items) now
        → history_lines 0 (shown_of show sorted) ++ text.items ≡ text_as show (shown_report sorted [] names.now (files_of now))) }
    ensures histories { map B.history stores.new.items ≡ map B.history stores.old.items }
    ensures never { (why : _) → ¬ (result ≡ Err (stops.Region why)) }
    ensures cause { CountHasCause (sum_by B.fault_count stores.old.items) (sum_by B.fault_count stores.new.items) result }
{
    let files = read_files(alloc, stores)?;
    let text = show_calls(alloc, calls, names, &files)?;
    Ok(text)
}

// What is shown of the calls of a run, of which none was left open, and of its files, behind the lines of its rounds.
fn show_calls(
    alloc: Global,
    calls: RanCalls,
    names: &Names,
    files: &[Bytes],
) -> Result<Vec<u8>, NoMemory>
    requires { length files.now ≡ length names.now }
    ensures { IfOk result (λ text. (show : AnyShow) (sorted : AnySorted) → AreOf show calls sorted
        → history_lines 0 (shown_of show sorted) ++ text.items ≡ text_as show (shown_report sorted [] names.now (record { contents = files.now }))) }
{
    match calls {
        RanCalls::Listed(kept) => rest_of(alloc, &kept, &[], names.as_slice(), files),
        RanCalls::Counted(load, counts) => show_summary(
            alloc,
            load,
            counts,
            names.as_slice(),
            files,
        ),
    }
}
