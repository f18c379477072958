//! A program's statuses, and the ways to each.
ghost use Rattle.std.specs.Prelude.{◌≡◌, ◌≢◌, [], Err};
ghost use Rattle.nv_plain.specs.Faults.{Rose};
ghost use Rattle.nv_trace.specs.Streams.{Appends};
ghost use Rattle.nv_top.specs.declared.ending.Stop.TheVariants as stops;
ghost use Rattle.nv_top.specs.Endings.{why_text, AppendsFront};
ghost use Rattle.nv_top.specs.Said.{IsSaid};
ghost use Rattle.nv_top.specs.Stops.{stop_of_mount, stop_of_opening, stop_of_read, stop_of_recovery, stop_of_run, stop_of_words};

use crate::region_text::region_line_of;
use nv_mount::OpenError as MountError;
use nv_open::{OpenError, Refusal};
use nv_plain::NoMemory;
use nv_recover::RecoverError;
use nv_runner::RunError;
use nv_store::StoreFault;
use nv_trace::{BadLine, ReadError, Sink, Why, write_all};
use nv_words::WordsError;
use std::alloc::{AllocError, AllocFailed, Global};

/// The statuses of a program: the report is written.
pub const DONE: u8 = 0;

/// The words are no command.
pub const USAGE: u8 = 1;

/// The input is no trace.
pub const BAD_INPUT: u8 = 2;

/// The input could not be read.
pub const READ_FAULT: u8 = 3;

/// The output could not be written.
pub const WRITE_FAULT: u8 = 4;

/// A device failed.
pub const DEVICE_FAULT: u8 = 5;

/// There was not enough memory.
pub const NO_MEMORY: u8 = 6;

/// The region is refused.
pub const BAD_REGION: u8 = 7;

/// A token of a schedule has used its advances up, and none of them came to its point.
pub const TURNS_USED: u8 = 8;

/// Why a program wrote no report.
#[derive(Clone, Copy, Debug, PartialEq, Eq)]
pub(crate) enum Stop {
    Usage,
    BadLine(BadLine),
    InputLong,
    Read,
    Write,
    Device,
    Region(Refusal),
    NoMemory,
    Turns,
}

impl From<WordsError> for Stop {
    ghost from_gives = { λ error stop. stop ≡ stop_of_words error };

    fn from(error: WordsError) -> Self {
        match error {
            WordsError::Usage => Stop::Usage,
            WordsError::NoMemory => Stop::NoMemory,
        }
    }
}

impl From<ReadError> for Stop {
    ghost from_gives = { λ error stop. stop ≡ stop_of_read error };

    fn from(error: ReadError) -> Self {
        match error {
            ReadError::Bad(bad) => Stop::BadLine(bad),
            ReadError::InputLong => Stop::InputLong,
            ReadError::Failed => Stop::Read,
            ReadError::NoMemory => Stop::NoMemory,
        }
    }
}

impl From<OpenError> for Stop {
    ghost from_gives = { λ error stop. stop ≡ stop_of_opening error };

    fn from(error: OpenError) -> Self {
        match error {
            OpenError::Refused(refusal) => Stop::Region(refusal),
            OpenError::Fault => Stop::Device,
            OpenError::NoMemory => Stop::NoMemory,
        }
    }
}

impl From<MountError> for Stop {
    ghost from_gives = { λ error stop. stop ≡ stop_of_mount error };

    fn from(error: MountError) -> Self {
        match error {
            MountError::StoreFault => Stop::Device,
            MountError::NoMemory => Stop::NoMemory,
        }
    }
}

impl From<RunError> for Stop {
    ghost from_gives = { λ error stop. stop ≡ stop_of_run error };

    fn from(error: RunError) -> Self {
        match error {
            RunError::Fault => Stop::Device,
            RunError::NoMemory => Stop::NoMemory,
        }
    }
}

impl From<RecoverError> for Stop {
    ghost from_gives = { λ error stop. stop ≡ stop_of_recovery error };

    fn from(error: RecoverError) -> Self {
        match error {
            RecoverError::BadEntry { number } => Stop::Region(Refusal::BadEntry { number }),
            RecoverError::RegionFault | RecoverError::StoreFault => Stop::Device,
            RecoverError::NoMemory => Stop::NoMemory,
        }
    }
}

impl From<StoreFault> for Stop {
    ghost from_gives = { λ _ stop. stop ≡ stops.Device };

    fn from(_: StoreFault) -> Self {
        Stop::Device
    }
}

impl From<NoMemory> for Stop {
    ghost from_gives = { λ _ stop. stop ≡ stops.NoMemory };

    fn from(_: NoMemory) -> Self {
        Stop::NoMemory
    }
}

impl From<AllocError> for Stop {
    ghost from_gives = { λ _ stop. stop ≡ stops.NoMemory };

    fn from(_: AllocError) -> Self {
        Stop::NoMemory
    }
}

impl<T: Drop> From<AllocFailed<T>> for Stop {
    ghost from_gives = { λ _ stop. stop ≡ stops.NoMemory };

    fn from(_: AllocFailed<T>) -> Self {
        Stop::NoMemory
    }
}

/// Writes a line in place of a report, and answers the status that goes with it, or that of a fault of the sink.
pub fn say<O: Sink>(out: &mut O, status: u8, text: &[u8]) -> u8
    requires { status ≢ WRITE_FAULT }
    ensures front { result ≡ WRITE_FAULT → AppendsFront (O.written out.old) (O.written out.new) text.now }
    ensures said { result ≢ WRITE_FAULT → (result ≡ status) × Appends (O.written out.old) (O.written out.new) text.now }
    ensures fault { result ≡ WRITE_FAULT → Rose (O.fault_count out.old) (O.fault_count out.new) }
    ensures sound { result ≢ WRITE_FAULT → O.fault_count out.new ≡ O.fault_count out.old }
{
    match write_all(out, text) {
        Ok(()) => status,
        Err(_) => WRITE_FAULT,
    }
}

// Writes the line that says why there is no report, and none where the sink has failed before. Only a line with a number in it, and that of a region, take memory.
pub(crate) fn say_stop<O: Sink>(alloc: Global, out: &mut O, stop: &Stop) -> u8
    ensures said { stop.now ≢ stops.Write → IsSaid (Err stop.now) [] (O.written out.old) (O.written out.new) (O.fault_count out.old) (O.fault_count out.new) result }
    ensures write { stop.now ≡ stops.Write → (result ≡ WRITE_FAULT) × (out.new ≡ out.old) }
{
    match stop {
        Stop::Usage => say(out, USAGE, b"error usage\n"),
        Stop::BadLine(bad) => say_bad_line(alloc, out, *bad),
        Stop::InputLong => say(out, BAD_INPUT, b"error input long\n"),
        Stop::Read => say(out, READ_FAULT, b"error read\n"),
        Stop::Write => WRITE_FAULT,
        Stop::Device => say(out, DEVICE_FAULT, b"error device\n"),
        Stop::Region(refusal) => say_refusal(alloc, out, refusal),
        Stop::NoMemory => say(out, NO_MEMORY, b"error no memory\n"),
        Stop::Turns => say(out, TURNS_USED, b"error turns\n"),
    }
}

fn say_bad_line<O: Sink>(alloc: Global, out: &mut O, bad: BadLine) -> u8
    ensures { IsSaid (Err (stops.BadLine bad)) [] (O.written out.old) (O.written out.new) (O.fault_count out.old) (O.fault_count out.new) result }
{
    let BadLine { number, why } = bad;
    let why = why_text(why);
    match format!(in alloc; "error line {number} {why}\n") {
        Ok(line) => say(out, BAD_INPUT, line.as_bytes()),
        Err(_) => say(out, NO_MEMORY, b"error no memory\n"),
    }
}

// The word for why a line is bad.
fn why_text(why: Why) -> &'static str
    ensures { result.now ≡ why_text why }
{
    match why {
        Why::Long => "long",
        Why::Bytes => "bytes",
        Why::Form => "form",
        Why::Late => "late",
        Why::Number => "number",
        Why::Name => "name",
        Why::Mode => "mode",
        Why::Hex => "hex",
        Why::Many => "many",
        Why::Repeat => "repeat",
        Why::Unknown => "unknown",
    }
}

fn say_refusal<O: Sink>(alloc: Global, out: &mut O, refusal: &Refusal) -> u8
    ensures { IsSaid (Err (stops.Region refusal.now)) [] (O.written out.old) (O.written out.new) (O.fault_count out.old) (O.fault_count out.new) result }
{
    match region_line_of(alloc, refusal) {
        Ok(line) => say(out, BAD_REGION, line.as_bytes()),
        Err(_) => say(out, NO_MEMORY, b"error no memory\n"),
    }
}
