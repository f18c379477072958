//! A sink in memory.
ghost use Rattle.std.specs.Prelude.{◌≡◌, ◌<◌, ◌≤◌, ◌↔◌, IsErr, IsTrue, IfOk, IfSome, OnErr, Some, length, take};
ghost use Rattle.nv_plain.specs.Faults.{HasCause};
ghost use Rattle.nv_trace.specs.Streams.{Appends};
ghost use Rattle.nv_trace.specs.MemStreams.{fresh_sink, sink_written, sink_faults, refuses_next, count_taken, after_write, after_failed_write};

use crate::plan::Plan;
use crate::{Failed, Sink};
use nv_plain::NoMemory;
use std::alloc::Global;
use std::marker::Model;

/// A sink in memory, which tells all.
#[derive(Debug, Drop)]
pub struct MemSink {
    bytes: Vec<u8>,
    room: usize,
    plan: Plan,
}

impl Model for MemSink {
    ghost use Rattle.std.specs.Prelude.{◌+◌, ◌≤◌, vec_len, vec_capacity};
    ghost use Rattle.nv_trace.specs.MemStreams.{SinkState};

    ghost Value = { SinkState };

    ghost view = { λ s. record { written = s.bytes.items; room = s.room; plan = s.plan } };

    ghost invariant = { λ s. vec_len s.bytes + s.room ≤ vec_capacity s.bytes };
}

impl MemSink {
    /// A sink with room for so many bytes, whose memory it takes at once. The writes are numbered from 1 to 2^64 - 1,
    /// which all later ones share; those that `fails` lists fail, and so does each where no room is left. A write that
    /// fails writes nothing.
    pub fn new(alloc: Global, room: u64, fails: &[u64]) -> Result<Self, NoMemory>
        ensures { IfOk result (λ sink. sink ≡ fresh_sink room fails.now) }
    {
        let room = room as usize;
        Ok(MemSink {
            bytes: Vec::with_capacity(alloc, room)?,
            room,
            plan: Plan::new(alloc, fails)?,
        })
    }

    /// The bytes that were written.
    pub fn bytes(&self) -> &[u8]
        ensures { result.now ≡ self.now.written }
    {
        &self.bytes
    }
}

impl Sink for MemSink {
    ghost written = { sink_written };

    ghost fault_count = { sink_faults };

    fn write(&mut self, bytes: &[u8]) -> Result<u64, Failed>
        ensures count { IfOk result (λ count. count ≤ length bytes.now) }
        ensures some { IfOk result (λ count. 0 < length bytes.now → 0 < count) }
        ensures told { IfOk result
            (λ count. Appends (sink_written self.old) (sink_written self.new) (take count bytes.now)) }
        ensures unchanged { OnErr result
            (IfSome (sink_written self.old) (λ before. sink_written self.new ≡ Some before)) }
        ensures cause { HasCause (sink_faults self.old) (sink_faults self.new) result }

        ensures refused { IsErr result ↔ IsTrue (refuses_next self.old) }
        ensures piece { IfOk result (λ count. count ≡ count_taken self.old bytes.now) }
        ensures after { IfOk result (λ count. self.new ≡ after_write self.old bytes.now count) }
        ensures failed { OnErr result (self.new ≡ after_failed_write self.old) }
    {
        if self.plan.next_fails() || self.room == 0 {
            return Err(self.plan.fail());
        }
        let piece = &bytes[..bytes.len().min(self.room)];
        self.bytes.extend_from_slice(piece).unwrap();
        self.room -= piece.len();
        Ok(piece.len() as u64)
    }

    fn faults(&self) -> u64 {
        self.plan.faults()
    }
}
