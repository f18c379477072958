//! What is counted of calls that were made.
ghost use Rattle.std.specs.Prelude.{◌≡◌, ◌∷◌, ◌++◌, length, List, []};
ghost use Rattle.std.specs.List.{concat};
ghost use Rattle.nv_plain.specs.Faults.{saturated};
ghost use Rattle.nv_runner.specs.Lists.{MadeCall};
ghost use Rattle.nv_load.specs.Counts.{counts_of};
ghost use Rattle.nv_load.specs.Summaries.{bytes_read, bytes_written};

use nv_plain::{Bytes, Reply};
use nv_runner::Answer;
use nv_trace::{TraceCall, TracedCall};

/// What is counted of calls that were made. A count stands still at 2^64 - 1.
#[derive(Clone, Copy, Debug, PartialEq, Eq)]
pub struct Counts {
    /// Those that have their place in the history.
    pub placed: u64,
    /// The bytes that these wrote.
    pub written: u64,
    /// The bytes that they read.
    pub read: u64,
}

impl Counts {
    /// Those of no calls.
    pub const NONE: Counts = Counts {
        placed: 0,
        written: 0,
        read: 0,
    };

    /// That of one call.
    pub fn of_one(call: &TracedCall, answer: &Answer) -> Counts
        ensures { result ≡ counts_of (record { call = call.now; answer = answer.now } ∷ []) }
    {
        match answer {
            Answer::Placed { reply, .. } => Counts {
                placed: 1,
                written: bytes_written(&call.call),
                read: bytes_read(reply),
            },
            Answer::Refused(_) => Counts::NONE,
            Answer::Open { .. } => Counts::NONE,
        }
    }

    /// With those of more calls.
    pub fn add(&mut self, more: Counts)
        ensures { (made later : List MadeCall) → self.old ≡ counts_of made → more ≡ counts_of later → self.new ≡ counts_of (made ++ later) }
    {
        self.placed = self.placed.saturating_add(more.placed);
        self.written = self.written.saturating_add(more.written);
        self.read = self.read.saturating_add(more.read);
    }
}

// How many bytes a call writes, up to 2^64 - 1.
fn bytes_written(call: &TraceCall) -> u64
    ensures { result ≡ saturated (bytes_written call.now) }
{
    match call {
        TraceCall::Pwrite { bytes, .. } => bytes.len() as u64,
        TraceCall::Pwritev { parts, .. } => bytes_in(parts.as_slice()),
        TraceCall::Pread { .. } | TraceCall::Preadv { .. } | TraceCall::Fsync { .. } => 0,
    }
}

// How many bytes a reply gives, up to 2^64 - 1.
fn bytes_read(reply: &Reply) -> u64
    ensures { result ≡ saturated (bytes_read reply.now) }
{
    match reply {
        Reply::Bytes(bytes) => bytes.len() as u64,
        Reply::Parts(parts) => bytes_in(parts.as_slice()),
        Reply::Count(_) | Reply::Done => 0,
    }
}

// How many bytes some parts have, up to 2^64 - 1.
fn bytes_in(parts: &[Bytes]) -> u64
    ensures { result ≡ saturated (length (concat parts.now)) }
{
    let mut all: u64 = 0;
    for part in parts {
        all = all.saturating_add(part.len() as u64);
    }
    all
}
