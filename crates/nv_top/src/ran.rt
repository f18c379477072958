//! What a run over a mount comes to.
ghost use Rattle.std.specs.Prelude.{◌≡◌, ◌+◌, [], List, Result, IsErr, Err, map, sum_by};
ghost use Rattle.nv_table.specs.ends.Closing.{IsClosed};
ghost use Rattle.nv_table.specs.state.SlotValues.{part_value, slot_value, store_value};
ghost use Rattle.nv_table.specs.state.States.{IsOf, PassState};
ghost use Rattle.nv_table.specs.state.Views.{first_view};
ghost use Rattle.nv_trace.specs.Traced.{Traced};
ghost use Rattle.nv_runner.specs.EndedRuns.{IsClosedBy};
ghost use Rattle.nv_runner.specs.Histories.{PlacedCall};
ghost use Rattle.nv_runner.specs.KeptRounds.{IsKeptOf};
ghost use Rattle.nv_runner.specs.declared.run_error.RunError.{RunError as AnyError};
ghost use Rattle.nv_runner.specs.declared.sorted.SortedCalls.{SortedCalls as AnySorted};
ghost use Rattle.nv_runner.specs.declared.stream.StreamError.TheVariants as ends;
ghost use Rattle.nv_load.specs.LoadRuns.{IsCountOf};
ghost use Rattle.nv_top.specs.Ran.{HasRunCalls, HasStreamedOn, IsRunInput, IsToldAs, answer_of};
ghost use Rattle.nv_top.specs.declared.show.Show.TheVariants as shows;

use crate::ending::Stop;
use crate::input::Input;
use crate::show::Show;
use nv_load::{Counts, Load, run_generated};
use nv_mount::Mount;
use nv_pmem::Lines;
use nv_runner::{Gate, KeptCalls, Plan, RunError, StreamError, run_stream};
use nv_store::Backing;
use nv_table::{Closed, Pass};
use nv_trace::{Sink, Source};
use std::alloc::Global;
use std::sync::Wait;
use std::thread::Threads;

/// The calls of a run, as what is shown of it needs them.
#[derive(Drop)]
pub(crate) enum RanCalls {
    /// What is kept of those of an input, whose lines are written.
    Listed(KeptCalls),
    /// Those of a load, which were counted.
    Counted(Load, Counts),
}

/// What is left of a mount over which calls were run.
#[derive(Drop)]
pub(crate) struct Ran<L, B> {
    pub(crate) closed: Closed<L, B>,
    pub(crate) calls: Result<RanCalls, RunError>,
    /// Whether the last round was run; or why no further one was.
    pub(crate) ended: Result<(), StreamError>,
}

/// Runs the rounds of an input over a mount, each as it is read, or the calls of a load, as what is shown of them says. The lines of the rounds are written as they end.
pub(crate) fn run_shown<
    R: Threads + Wait + Sync,
    G: Gate + Sync,
    L: Lines + Drop + Send,
    B: Backing + Drop + Send,
    I: Source,
    O: Sink,
>(
    rt: &R,
    alloc: Global,
    gate: &G,
    mount: Mount<L, B>,
    pass: Pass<L, B>,
    plan: Plan,
    show: Show,
    input: &mut Input,
    src: &mut I,
    out: &mut O,
) -> Ran<L, B>
    requires board { IsOf mount.board pass }
    requires new { pass.view ≡ first_view mount.board.opened }
    requires bare { pass.now ≡ [] }
    requires input { IsRunInput show input.old }
    ensures ran { (all : Traced) × (shown : List PlacedCall) × (zero : PassState)
        × HasStreamedOn show input.old (I.left src.old) (I.left src.new) (I.fault_count src.old) (I.fault_count src.new)
        (O.written out.old) (O.written out.new) (O.fault_count out.old) (O.fault_count out.new) result.ended all shown
        × HasRunCalls show mount.fds plan pass result.calls all shown zero
        × IsClosed L.device B.device
        (slot_value (part_value L.device L.history L.fault_count L.room) (store_value B.device B.history B.fault_count))
        mount.board zero result.closed.parts.items result.closed.stores.items result.closed.placed result.closed.tail
        × IsClosedBy zero (map (part_value L.device L.history L.fault_count L.room) result.closed.parts.items)
        (map (store_value B.device B.history B.fault_count) result.closed.stores.items)
        (map L.history result.closed.parts.items) (map B.history result.closed.stores.items)
        (sum_by L.fault_count result.closed.parts.items + sum_by B.fault_count result.closed.stores.items)
        result.closed.placed result.closed.tail }
    ensures memory { result.ended ≡ Err ends.NoMemory → IsErr result.calls }
{
    match show {
        Show::Report => {
            let ended = run_stream(
                rt,
                alloc,
                gate,
                mount,
                pass,
                &mut input.reader,
                src,
                &mut input.trace,
                input.more,
                out,
                plan,
            );
            Ran {
                closed: ended.closed,
                calls: listed(ended.calls),
                ended: ended.ended,
            }
        }
        Show::Summary(load) => {
            let ended = run_generated(rt, alloc, gate, mount, pass, load, plan);
            Ran {
                closed: ended.closed,
                calls: counted(load, ended.outcome),
                ended: Ok(()),
            }
        }
    }
}

/// What is answered of a run whose rounds ended so, and of which this was to be told: a sink that has failed is told first, and what the input is refused for last.
pub(crate) fn answer(
    told: Result<Vec<u8>, Stop>,
    ended: Result<(), StreamError>,
) -> Result<Vec<u8>, Stop>
    ensures { result ≡ answer_of ended told }
{
    match (ended, told) {
        (Err(StreamError::Write), _) => Err(Stop::Write),
        (Err(StreamError::Read(_)), Err(Stop::Device)) => Err(Stop::Device),
        (Err(StreamError::Read(_)), Err(Stop::NoMemory)) => Err(Stop::NoMemory),
        (Err(StreamError::Read(error)), _) => Err(error.into()),
        (_, told) => told,
    }
}

// What is kept of calls as those of a run.
fn listed(calls: Result<KeptCalls, RunError>) -> Result<RanCalls, RunError>
    ensures told { (sorted : Result AnySorted AnyError) → IsKeptOf calls sorted → IsToldAs shows.Report result sorted }
    ensures error { IsErr calls → IsErr result }
{
    match calls {
        Ok(kept) => Ok(RanCalls::Listed(kept)),
        Err(error) => Err(error),
    }
}

// Counted calls as those of a run.
fn counted(load: Load, outcome: Result<Counts, RunError>) -> Result<RanCalls, RunError>
    ensures { (sorted : Result AnySorted AnyError) → IsCountOf outcome sorted → IsToldAs (shows.Summary load) result sorted }
{
    match outcome {
        Ok(counts) => Ok(RanCalls::Counted(load, counts)),
        Err(error) => Err(error),
    }
}
