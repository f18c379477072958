//! The calls of a trace.
ghost use Rattle.std.specs.Prelude.{◌≡◌, IfOk};

use crate::part_list::{LenList, PartList, copied};
use nv_plain::{Bytes, NoMemory};
use std::alloc::Global;

/// A call as a trace has it, by its descriptor's number. Offsets and lengths are in bytes.
#[derive(Debug, Drop)]
pub enum TraceCall {
    Pread { fd: u64, at: u64, len: u64 },
    Pwrite { fd: u64, at: u64, bytes: Bytes },
    Preadv { fd: u64, at: u64, lens: LenList },
    Pwritev { fd: u64, at: u64, parts: PartList },
    Fsync { fd: u64 },
}

/// A call of a trace, with the number of its line, counted from 1, its round, counted from 0, and its thread.
#[derive(Debug, Drop)]
pub struct TracedCall {
    pub line: u64,
    /// How many `round` lines stand before it.
    pub round: u64,
    pub thread: u64,
    pub call: TraceCall,
}

impl TraceCall {
    /// The same call once more.
    pub fn copy(&self, alloc: Global) -> Result<TraceCall, NoMemory>
        ensures { IfOk result (λ copy. copy ≡ self.now) }
    {
        match self {
            TraceCall::Pread { fd, at, len } => Ok(TraceCall::Pread {
                fd: *fd,
                at: *at,
                len: *len,
            }),
            TraceCall::Pwrite { fd, at, bytes } => Ok(TraceCall::Pwrite {
                fd: *fd,
                at: *at,
                bytes: copied(alloc, bytes)?,
            }),
            TraceCall::Preadv { fd, at, lens } => Ok(TraceCall::Preadv {
                fd: *fd,
                at: *at,
                lens: lens.copy(alloc)?,
            }),
            TraceCall::Pwritev { fd, at, parts } => Ok(TraceCall::Pwritev {
                fd: *fd,
                at: *at,
                parts: parts.copy(alloc)?,
            }),
            TraceCall::Fsync { fd } => Ok(TraceCall::Fsync { fd: *fd }),
        }
    }
}

impl TracedCall {
    /// The same call once more.
    pub fn copy(&self, alloc: Global) -> Result<TracedCall, NoMemory>
        ensures { IfOk result (λ copy. copy ≡ self.now) }
    {
        let call = self.call.copy(alloc)?;
        Ok(TracedCall {
            line: self.line,
            round: self.round,
            thread: self.thread,
            call,
        })
    }
}
