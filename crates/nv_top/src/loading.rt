//! A run of generated calls.
ghost use Rattle.std.specs.Prelude.{◌≡◌, [], Err, IfOk, IfSome};
ghost use Rattle.nv_load.specs.Generated.{IsLoad, generated};
ghost use Rattle.nv_trace.specs.Streams.{Appends};
ghost use Rattle.nv_top.specs.Commands.{IsGivenBack};
ghost use Rattle.nv_top.specs.Headline.{IsRunRefused};
ghost use Rattle.nv_top.specs.Lives.{LeavesRun, TellsNothing};
ghost use Rattle.nv_top.specs.Loads.{HasGenerated, load_options};
ghost use Rattle.nv_top.specs.Ready.{IsAtHome};
ghost use Rattle.nv_top.specs.Stops.{CountHasCause};
ghost use Rattle.nv_top.specs.declared.ending.Stop.TheVariants as stops;

use crate::ending::Stop;
use crate::input::read_already;
use crate::run::run_to_end;
use crate::show::Show;
use nv_bench::Bench;
use nv_load::{Load, declare, fresh_summaries_are_of_the_load, generated_traces_are_sound};
use nv_pmem::{Pick, images_follow_calls};
use nv_runner::Gate;
use nv_trace::{Sink, Source};
use nv_words::RunOptions;
use std::alloc::Global;
use std::sync::Wait;
use std::thread::Threads;

/// Runs the calls of a load over a bench; nothing is read, and nothing written. The text of what is counted of them.
pub(crate) fn run_load<R: Threads + Wait + Sync, T: Bench, G: Gate + Sync, I: Source, O: Sink>(
    rt: &R,
    alloc: Global,
    gate: &G,
    bench: &mut T,
    load: Load,
    src: &mut I,
    out: &mut O,
) -> Result<Vec<u8>, Stop>
    requires at_home { IsAtHome (T.state bench.old) }
    requires load { IsLoad load }
    ensures back { IsGivenBack (T.state bench.old) (T.state bench.new) }
    ensures ran { IfOk result (λ text. IfSome (T.state bench.old).told (λ holding. HasGenerated load holding (T.state bench.new).told text.items)) }
    ensures refused { (why : _) → result ≡ Err (stops.Region why)
        → IfSome (T.state bench.old).told (λ holding. IsRunRefused load_options holding (generated load).names (T.state bench.old) (T.state bench.new) why) }
    ensures life { IfSome (T.state bench.old).told (λ was. LeavesRun TellsNothing load_options was (generated load) [] (T.state bench.new).told) }
    ensures cause { CountHasCause (T.state bench.old).faults (T.state bench.new).faults result }
    ensures unread { (I.left src.new ≡ I.left src.old) × (I.fault_count src.new ≡ I.fault_count src.old) }
    ensures unwritten { Appends (O.written out.old) (O.written out.new) [] × (O.fault_count out.new ≡ O.fault_count out.old) }
{
    images_follow_calls();
    fresh_summaries_are_of_the_load();
    generated_traces_are_sound();
    let mut input = read_already(alloc, declare(alloc)?)?;
    run_to_end(
        rt,
        alloc,
        gate,
        bench,
        options(),
        Show::Summary(load),
        &mut input,
        src,
        out,
    )
}

// How generated calls are run.
fn options() -> RunOptions
    ensures { result ≡ load_options }
{
    RunOptions {
        page: 64,
        entries: 16,
        cache: 8,
        batch: 4,
        pages: 96,
        worker: true,
        stop: None,
        image: Pick::Old,
    }
}
