//! Rounds that are run as they are read.
ghost use Rattle.std.specs.Prelude.{◌≡◌, ◌≢◌, ◌+◌, ◌<◌, ◌≤◌, ◌^◌, [], List, Some, Err, IsErr, IsOk, IfSome, OnErr, OnOk, length, map, sum_by, false, true};
ghost use Rattle.nv_plain.specs.Faults.{Rose};
ghost use Rattle.nv_table.specs.ends.Closing.{IsClosed};
ghost use Rattle.nv_table.specs.state.SlotValues.{part_value, slot_value, store_value};
ghost use Rattle.nv_table.specs.state.States.{IsOf, PassState};
ghost use Rattle.nv_table.specs.state.Views.{first_view, made_of};
ghost use Rattle.nv_trace.specs.Shape.{IsWellFormed};
ghost use Rattle.nv_trace.specs.Traced.{thread_count};
ghost use Rattle.nv_trace.specs.declared.read_error.ReadError.TheVariants as read_errors;
ghost use Rattle.nv_runner.specs.EndedRuns.{IsClosedBy};
ghost use Rattle.nv_runner.specs.KeptRounds.{AreKept};
ghost use Rattle.nv_runner.specs.Lists.{MadeCall};
ghost use Rattle.nv_runner.specs.Rounds.{IsNextRound};
ghost use Rattle.nv_runner.specs.Shifts.{HasRun};
ghost use Rattle.nv_runner.specs.StreamRounds.{HasRunRead, HasRunWritten, kept_if};
ghost use Rattle.nv_runner.specs.Streams.{HasStreamed, IsRoundAtHand};
ghost use Rattle.nv_runner.specs.Workers.{IsZero, IsZeroStill};
ghost use Rattle.nv_runner.specs.declared.stream.StreamError.TheVariants as errors;

use crate::rounds::run_sorted;
use crate::{Gate, KeptCalls, Plan, RunError, close_alone, end_rounds, worker_batch};
use nv_mount::Mount;
use nv_plain::NoMemory;
use nv_pmem::Lines;
use nv_store::Backing;
use nv_table::{Closed, Pass};
use nv_trace::{Failed, LineReader, ReadError, Sink, Source, Trace, write_all};
use std::alloc::Global;
use std::sync::Wait;
use std::thread::Threads;
use thiserror::Error;

/// Why no further round of an input was run.
#[derive(Clone, Copy, Debug, PartialEq, Eq, Error)]
pub enum StreamError {
    /// There was not enough memory.
    #[error("no memory")]
    NoMemory,
    /// The next round is refused, or the source failed.
    #[error("{0}")]
    Read(ReadError),
    /// The sink failed.
    #[error("the sink failed")]
    Write,
}

impl From<NoMemory> for StreamError {
    ghost use Rattle.std.specs.Prelude.{◌≡◌};
    ghost use Rattle.nv_runner.specs.declared.stream.StreamError.TheVariants as errors;

    ghost from_gives = { λ _ error. error ≡ errors.NoMemory };

    fn from(_: NoMemory) -> Self {
        StreamError::NoMemory
    }
}

impl From<Failed> for StreamError {
    ghost use Rattle.std.specs.Prelude.{◌≡◌};
    ghost use Rattle.nv_runner.specs.declared.stream.StreamError.TheVariants as errors;

    ghost from_gives = { λ _ error. error ≡ errors.Write };

    fn from(_: Failed) -> Self {
        StreamError::Write
    }
}

impl From<ReadError> for StreamError {
    ghost use Rattle.std.specs.Prelude.{◌≡◌};
    ghost use Rattle.nv_runner.specs.Streams.{stream_error};

    ghost from_gives = { λ error given. given ≡ stream_error error };

    fn from(error: ReadError) -> Self {
        match error {
            ReadError::NoMemory => StreamError::NoMemory,
            _ => StreamError::Read(error),
        }
    }
}

/// What is left of a mount over which rounds were run as they were read.
#[derive(Drop)]
pub struct StreamEnded<L, B> {
    /// What comes out of the mount.
    pub closed: Closed<L, B>,
    /// What is kept of their calls; or why there is nothing to tell.
    pub calls: Result<KeptCalls, RunError>,
    /// Whether the last round was run; or why no further one was.
    pub ended: Result<(), StreamError>,
}

// Makes the calls of a round, and writes the lines of those that have a place, behind those of the rounds before it.
fn run_written<
    R: Threads + Wait + Sync,
    G: Gate + Sync,
    L: Lines + Drop + Send,
    B: Backing + Drop + Send,
    O: Sink,
>(
    rt: &R,
    alloc: Global,
    gate: &G,
    mount: &Mount<L, B>,
    zero: &mut Pass<L, B>,
    trace: &Trace,
    batch: Option<u64>,
    out: &mut O,
    kept: &mut KeptCalls,
) -> Result<(), StreamError>
    requires zero { IsZero mount.now zero.old }
    requires all_in { length zero.old.view.ended ≡ made_of zero.old.view }
    requires few { made_of zero.old.view + 10 < 2 ^ 32 }
    requires next { (before : List MadeCall) × IsNextRound (thread_count trace.now) trace.now.calls before × HasRun mount.now.fds batch before zero.old }
    requires placed { kept.old.placed + length trace.now.calls < 2 ^ 64 }
    requires refused { kept.old.refused_count + length trace.now.calls < 2 ^ 64 }
    ensures zero { IsZero mount.now zero.new }
    ensures still { IsZeroStill zero.old zero.new }
    ensures all_in { length zero.new.view.ended ≡ made_of zero.new.view }
    ensures few { made_of zero.new.view ≤ made_of zero.old.view + 9 }
    ensures well_formed { IsWellFormed trace.now }
    ensures ran { (before : List MadeCall) → IsNextRound (thread_count trace.now) trace.now.calls before → HasRun mount.now.fds batch before zero.old
        → HasRunWritten mount.now.fds batch trace.now.calls before zero.new (O.written out.old) (O.written out.new) kept.old kept.new result }
    ensures never_read { (error : _) → result ≢ Err (errors.Read error) }
    ensures failed { result ≡ Err errors.Write → Rose (O.fault_count out.old) (O.fault_count out.new) }
    ensures same { result ≢ Err errors.Write → O.fault_count out.new ≡ O.fault_count out.old }
{
    let sorted = run_sorted(rt, alloc, gate, mount, zero, trace, batch)?;
    let lines = kept.take(alloc, sorted)?;
    write_all(out, &lines)?;
    Ok(())
}

// Runs the round at hand and then each further one, as soon as it is read. A round's lines are written before the next is read.
fn run_read<
    R: Threads + Wait + Sync,
    G: Gate + Sync,
    L: Lines + Drop + Send,
    B: Backing + Drop + Send,
    I: Source,
    O: Sink,
>(
    rt: &R,
    alloc: Global,
    gate: &G,
    mount: &Mount<L, B>,
    zero: &mut Pass<L, B>,
    reader: &mut LineReader,
    src: &mut I,
    trace: &mut Trace,
    more: bool,
    batch: Option<u64>,
    out: &mut O,
    kept: &mut KeptCalls,
) -> Result<(), StreamError>
    requires zero { IsZero mount.now zero.old }
    requires new { zero.old.view.ended ≡ [] }
    requires none_made { made_of zero.old.view ≡ 0 }
    requires first { IsRoundAtHand more trace.old reader.old }
    requires none { AreKept kept.old [] [] [] }
    ensures zero { IsZero mount.now zero.new }
    ensures still { IsZeroStill zero.old zero.new }
    ensures all_in { length zero.new.view.ended ≡ made_of zero.new.view }
    ensures ran { HasRunRead mount.now.fds batch more trace.old reader.old (I.left src.old) (O.written out.old) (O.written out.new) kept.new zero.new result }
    ensures unread { more ≡ false → src.new ≡ src.old }
    ensures at_end { IsOk result → more ≡ true → IfSome (I.left src.old) (λ _. I.left src.new ≡ Some []) }
    ensures read_failed { result ≡ Err (errors.Read read_errors.Failed) → Rose (I.fault_count src.old) (I.fault_count src.new) }
    ensures read_kept { result ≢ Err (errors.Read read_errors.Failed) → I.fault_count src.new ≡ I.fault_count src.old }
    ensures write_failed { result ≡ Err errors.Write → Rose (O.fault_count out.old) (O.fault_count out.new) }
    ensures write_kept { result ≢ Err errors.Write → O.fault_count out.new ≡ O.fault_count out.old }
{
    let mut more = more;
    loop {
        run_written(rt, alloc, gate, mount, zero, trace, batch, out, kept)?;
        trace.drop_calls();
        if !more {
            return Ok(());
        }
        more = reader.next_round(src, trace)?;
    }
}

// Whether the rounds that were read were all made.
fn all_made(ended: Result<(), StreamError>) -> Result<(), NoMemory>
    ensures wanting { OnErr result (ended ≡ Err errors.NoMemory) }
    ensures made { OnOk result (ended ≢ Err errors.NoMemory) }
{
    match ended {
        Err(StreamError::NoMemory) => Err(NoMemory),
        _ => Ok(()),
    }
}

// What is kept, where the run came to its end.
fn tell_kept(ran: Result<(), RunError>, kept: KeptCalls) -> Result<KeptCalls, RunError>
    ensures { result ≡ kept_if ran kept }
{
    ran?;
    Ok(kept)
}

/// Runs the rounds of an input over a mount, each as soon as it is read: the one at hand first, which `trace` holds and a line ended where `more` says so, and then, where one did, those that `reader` takes of the source.
/// A round has as many threads as its calls ask for, and a cleaner beside them where the plan has a worker. The lines of those of its calls that have a place are written before the next round is read. Where the
/// run isn't to be stopped the log is cleaned until it is empty, also where a round is refused or a stream has failed. Then the mount is closed. Of the rounds that ended only what is kept stays in memory.
pub fn run_stream<
    R: Threads + Wait + Sync,
    G: Gate + Sync,
    L: Lines + Drop + Send,
    B: Backing + Drop + Send,
    I: Source,
    O: Sink,
>(
    rt: &R,
    alloc: Global,
    gate: &G,
    mount: Mount<L, B>,
    pass: Pass<L, B>,
    reader: &mut LineReader,
    src: &mut I,
    trace: &mut Trace,
    more: bool,
    out: &mut O,
    plan: Plan,
) -> StreamEnded<L, B>
    requires board { IsOf mount.board pass }
    requires new { pass.view ≡ first_view mount.board.opened }
    requires bare { pass.now ≡ [] }
    requires first { IsRoundAtHand more trace.old reader.old }
    ensures ran { (zero : PassState)
        × HasStreamed mount.fds plan pass more trace.old reader.old (I.left src.old) (O.written out.old) (O.written out.new) result.ended result.calls zero
        × IsClosed L.device B.device
        (slot_value (part_value L.device L.history L.fault_count L.room) (store_value B.device B.history B.fault_count))
        mount.board zero result.closed.parts.items result.closed.stores.items result.closed.placed result.closed.tail
        × IsClosedBy zero (map (part_value L.device L.history L.fault_count L.room) result.closed.parts.items)
        (map (store_value B.device B.history B.fault_count) result.closed.stores.items)
        (map L.history result.closed.parts.items) (map B.history result.closed.stores.items)
        (sum_by L.fault_count result.closed.parts.items + sum_by B.fault_count result.closed.stores.items)
        result.closed.placed result.closed.tail }
    ensures memory { result.ended ≡ Err errors.NoMemory → IsErr result.calls }
    ensures unread { more ≡ false → src.new ≡ src.old }
    ensures at_end { IsOk result.ended → more ≡ true → IfSome (I.left src.old) (λ _. I.left src.new ≡ Some []) }
    ensures read_failed { result.ended ≡ Err (errors.Read read_errors.Failed) → Rose (I.fault_count src.old) (I.fault_count src.new) }
    ensures read_kept { result.ended ≢ Err (errors.Read read_errors.Failed) → I.fault_count src.new ≡ I.fault_count src.old }
    ensures write_failed { result.ended ≡ Err errors.Write → Rose (O.fault_count out.old) (O.fault_count out.new) }
    ensures write_kept { result.ended ≢ Err errors.Write → O.fault_count out.new ≡ O.fault_count out.old }
{
    let mut pass = pass;
    let mut kept = KeptCalls::new(alloc);
    let ended = run_read(
        rt,
        alloc,
        gate,
        &mount,
        &mut pass,
        reader,
        src,
        trace,
        more,
        worker_batch(plan),
        out,
        &mut kept,
    );
    pass.sees_a_run();
    pass.has_taken_in();
    let ran = end_rounds(rt, &mount, &mut pass, plan, all_made(ended));
    let closed = close_alone(mount, pass);
    StreamEnded {
        closed,
        calls: tell_kept(ran, kept),
        ended,
    }
}
