//! The command: what a program does, whole.
ghost use Rattle.std.specs.Prelude.{◌≡◌, ◌≤◌, ◌<◌, ◌^◌, [], List, map, string_bytes, false, true, None, Some, IfSome, IfOk, Err};
ghost use Rattle.nv_bench.specs.Holding.{IsQuietHolding};
ghost use Rattle.nv_open.specs.declared.error.Refusal.{Refusal};
ghost use Rattle.nv_top.specs.Headline.{HasInput, HasRefusal, command_over, possible};
ghost use Rattle.nv_runner.specs.Histories.{PlacedCall};
ghost use Rattle.nv_top.specs.Ran.{IsRunInput};
ghost use Rattle.nv_top.specs.Ready.{IsReady};
ghost use Rattle.nv_top.specs.Reported.{HasReported};
ghost use Rattle.nv_top.specs.RunInputs.{HasRunInput};
ghost use Rattle.nv_runner.specs.Reports.{history_lines};
ghost use Rattle.nv_top.specs.Said.{HasShown, IsSaid, Outcome};
ghost use Rattle.nv_trace.specs.Shape.{IsWellFormed};
ghost use Rattle.nv_top.specs.declared.show.Show.TheVariants as shows;
ghost use Rattle.nv_words.specs.Words.{AreInLimits};
ghost use Rattle.nv_words.specs.declared.words.Command.{Command};
ghost use Rattle.nv_words.specs.declared.words.Command.TheVariants as commands;
ghost use Rattle.nv_words.specs.declared.words.WordsError.TheVariants as words_errors;

use crate::ending::{DONE, Stop, say, say_stop};
use crate::input::{Input, first_round};
use crate::laws::a_refused_region_shows_nothing;
use crate::loading::run_load;
use crate::looking::look;
use crate::recovery::recover;
use crate::run::run_to_end;
use crate::scheduling::schedule;
use crate::show::Show;
use crate::stopping::run_to_stop;
use nv_bench::Bench;
use nv_pmem::images_follow_calls;
use nv_runner::Gate;
use nv_trace::{Form, Sink, Source, read_trace};
use nv_words::{Command, RunOptions, WordsError, parse_command};
use std::alloc::Global;
use std::sync::Wait;
use std::thread::Threads;

/// Follows a command over a bench: `run` reads a trace, makes its calls and writes the report, `sched` makes them step by step as the tokens of the trace say, and powers off then, `recover` recovers the region and writes
/// what it found, `look` writes what the region holds and changes nothing, and `gen` makes calls of its own and writes what is counted of them. `words` are the words
/// behind the program's name. The result is the program's status.
pub fn nv_main<R: Threads + Wait + Sync, I: Source, O: Sink, B: Bench, G: Gate + Sync>(
    rt: &R,
    alloc: Global,
    words: &[String],
    src: &mut I,
    out: &mut O,
    bench: &mut B,
    gate: &G,
) -> u8
    requires closed { (B.state bench.old).is_open ≡ false }
    requires home { (B.state bench.old).lent ≡ [] }
    requires quiet { IfSome (B.state bench.old).told IsQuietHolding }
    requires arms { (B.state bench.old).arms < 2 ^ 63 }
    requires settled { (B.state bench.old).settled ≤ (B.state bench.old).faults }

    // What the command comes to, behind the placed calls that it has shown: its report or why there is none, each with its cause, and what it makes of its source and its bench.
    // The lines of those calls, its status and its text are said, or a front of them and the sink's fault.
    ensures came { (came : Outcome) × (shown : List PlacedCall)
        × HasReported (command_over B.can_lose_power (map string_bytes words.now)) (I.left src.old) (I.left src.new) (I.fault_count src.old) (I.fault_count src.new)
        (B.state bench.old) (B.state bench.new) shown came
        × IsSaid came (history_lines 0 shown) (O.written out.old) (O.written out.new) (O.fault_count out.old) (O.fault_count out.new) result }

    // With status 0 the region wasn't refused, where the input tells. So a command that nothing else stands in the way of ends with 7 exactly where it is, unless memory is wanting.
    ensures unrefused { result ≡ DONE → (command : Command) → command_over B.can_lose_power (map string_bytes words.now) ≡ Some command → HasInput command (I.left src.old)
        → IfSome (B.state bench.old).told (λ holding. (why : Refusal) → ¬ (HasRefusal command (I.left src.old) holding why)) }
{
    a_refused_region_shows_nothing();
    match report(rt, alloc, words, src, out, bench, gate) {
        Ok(text) => say(out, DONE, &text),
        Err(stop) => say_stop(alloc, out, &stop),
    }
}

// The report of a command behind what it has shown before its end, or why there is none.
fn report<R: Threads + Wait + Sync, I: Source, O: Sink, B: Bench, G: Gate + Sync>(
    rt: &R,
    alloc: Global,
    words: &[String],
    src: &mut I,
    out: &mut O,
    bench: &mut B,
    gate: &G,
) -> Result<Vec<u8>, Stop>
    requires ready { IsReady (B.state bench.old) }
    ensures { (shown : List PlacedCall)
        × HasReported (command_over B.can_lose_power (map string_bytes words.now)) (I.left src.old) (I.left src.new) (I.fault_count src.old) (I.fault_count src.new)
        (B.state bench.old) (B.state bench.new) shown result
        × HasShown result shown (O.written out.old) (O.written out.new) (O.fault_count out.old) (O.fault_count out.new) }
{
    images_follow_calls();
    let command = command_over::<B>(alloc, words)?;
    match command {
        Command::Run(options) => run_input(rt, alloc, gate, src, out, bench, options),
        Command::Sched(options) => schedule_input(alloc, src, bench, options),
        Command::Recover => recover(alloc, bench),
        Command::Look { files } => look(alloc, bench, files),
        Command::Gen(load) => run_load(rt, alloc, gate, bench, load, src, out),
    }
}

// The command that these words are over such a bench.
fn command_over<B: Bench>(alloc: Global, words: &[String]) -> Result<Command, WordsError>
    ensures command { IfOk result (λ command. command_over B.can_lose_power (map string_bytes words.now) ≡ Some command) }
    ensures usage { result ≡ Err words_errors.Usage → command_over B.can_lose_power (map string_bytes words.now) ≡ None }
{
    let command = parse_command(alloc, words)?;
    command_on(command, B::images()).ok_or(WordsError::Usage)
}

// A command, where a bench can follow it.
fn command_on(command: Command, images: bool) -> Option<Command>
    ensures { result ≡ possible images command }
{
    match command {
        Command::Run(options) if options.stop.is_some() && !images => None,
        Command::Sched(_) if !images => None,
        _ => Some(command),
    }
}

// The report of a run of the rounds that the source gives, each as it is read, behind their lines.
fn run_input<R: Threads + Wait + Sync, I: Source, O: Sink, B: Bench, G: Gate + Sync>(
    rt: &R,
    alloc: Global,
    gate: &G,
    src: &mut I,
    out: &mut O,
    bench: &mut B,
    options: RunOptions,
) -> Result<Vec<u8>, Stop>
    requires ready { IsReady (B.state bench.old) }
    requires limits { AreInLimits options }
    requires stop { IfSome options.stop (λ k. (1 ≤ k) × (B.can_lose_power ≡ true)) }
    ensures { (shown : List PlacedCall)
        × HasReported (Some (commands.Run options)) (I.left src.old) (I.left src.new) (I.fault_count src.old) (I.fault_count src.new)
        (B.state bench.old) (B.state bench.new) shown result
        × HasShown result shown (O.written out.old) (O.written out.new) (O.fault_count out.old) (O.fault_count out.new) }
{
    images_follow_calls();
    let mut input = first_round(alloc, src)?;
    run_rounds(rt, alloc, gate, bench, options, &mut input, src, out)
}

// The report of the schedule of the trace that the source gives.
fn schedule_input<I: Source, B: Bench>(
    alloc: Global,
    src: &mut I,
    bench: &mut B,
    options: RunOptions,
) -> Result<Vec<u8>, Stop>
    requires ready { IsReady (B.state bench.old) }
    requires limits { AreInLimits options }
    requires images { B.can_lose_power ≡ true }
    ensures { HasReported (Some (commands.Sched options)) (I.left src.old) (I.left src.new) (I.fault_count src.old) (I.fault_count src.new)
        (B.state bench.old) (B.state bench.new) [] result }
{
    images_follow_calls();
    let trace = read_trace(alloc, Form::Sched, src)?;
    schedule(alloc, bench, options, trace)
}

// The report of a run of the rounds of an input, which may be stopped.
fn run_rounds<R: Threads + Wait + Sync, T: Bench, G: Gate + Sync, I: Source, O: Sink>(
    rt: &R,
    alloc: Global,
    gate: &G,
    bench: &mut T,
    options: RunOptions,
    input: &mut Input,
    src: &mut I,
    out: &mut O,
) -> Result<Vec<u8>, Stop>
    requires ready { IsReady (T.state bench.old) }
    requires limits { AreInLimits options }
    requires stop { IfSome options.stop (λ k. (1 ≤ k) × (T.can_lose_power ≡ true)) }
    requires input { IsRunInput shows.Report input.old }
    requires well_formed { IsWellFormed input.old.trace }
    ensures { HasRunInput options.stop options input.old (I.left src.old) (I.left src.new) (I.fault_count src.old) (I.fault_count src.new)
        (O.written out.old) (O.written out.new) (O.fault_count out.old) (O.fault_count out.new) (T.state bench.old) (T.state bench.new) result }
{
    match options.stop {
        None => run_to_end(
            rt,
            alloc,
            gate,
            bench,
            options,
            Show::Report,
            input,
            src,
            out,
        ),
        Some(k) => run_to_stop(rt, alloc, gate, bench, options, input, src, out, k),
    }
}
