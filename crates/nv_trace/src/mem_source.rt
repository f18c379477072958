//! A source in memory.
ghost use Rattle.std.specs.Prelude.{◌≡◌, ◌<◌, ◌≤◌, ◌↔◌, IsErr, IsTrue, IfOk, OnErr, length};
ghost use Rattle.nv_plain.specs.Faults.{HasCause};
ghost use Rattle.nv_trace.specs.Streams.{HasRead};
ghost use Rattle.nv_trace.specs.MemStreams.{is_next_to_fail, fresh_source, source_left, source_faults, count_given, after_read, after_failed_read};

use crate::plan::Plan;
use crate::{Failed, Source};
use nv_plain::NoMemory;
use std::alloc::Global;
use std::marker::Model;

/// A source of bytes in memory, which tells all.
#[derive(Debug, Drop)]
pub struct MemSource {
    bytes: Vec<u8>,
    taken: usize,
    most: usize,
    plan: Plan,
}

impl Model for MemSource {
    ghost use Rattle.std.specs.Prelude.{◌<◌, ◌≤◌, drop, vec_len};
    ghost use Rattle.nv_trace.specs.MemStreams.{SourceState};

    ghost Value = { SourceState };

    ghost view = { λ s. record { left = drop s.taken s.bytes.items; most = s.most; plan = s.plan } };

    ghost invariant = { λ s. (s.taken ≤ vec_len s.bytes) × (0 < s.most) };
}

impl MemSource {
    /// A source of these bytes. The reads are numbered from 1 to 2^64 - 1, which all later ones share; those that `fails`
    /// lists fail and give nothing.
    pub fn new(alloc: Global, bytes: &[u8], fails: &[u64]) -> Result<Self, NoMemory>
        ensures { IfOk result (λ source. source ≡ fresh_source bytes.now fails.now) }
    {
        Ok(MemSource {
            bytes: Vec::from_slice(alloc, bytes)?,
            taken: 0,
            most: usize::MAX,
            plan: Plan::new(alloc, fails)?,
        })
    }

    /// The same source, whose reads give at most so many bytes each.
    pub fn with_pieces(mut self, most: u64) -> Self
        requires { 0 < most }
        ensures { result ≡ record self { most = most } }
    {
        self.most = most as usize;
        self
    }
}

impl Source for MemSource {
    ghost left = { source_left };

    ghost fault_count = { source_faults };

    fn read(&mut self, buf: &mut [u8]) -> Result<u64, Failed>
        ensures count { IfOk result (λ count. count ≤ length buf.old) }
        ensures told { IfOk result
            (λ count. HasRead (source_left self.old) (source_left self.new) count buf.old buf.new) }
        ensures cause { HasCause (source_faults self.old) (source_faults self.new) result }

        ensures planned { IsErr result ↔ IsTrue (is_next_to_fail self.old.plan) }
        ensures piece { IfOk result (λ count. count ≡ count_given self.old (length buf.old)) }
        ensures after { IfOk result (λ count. self.new ≡ after_read self.old count) }
        ensures failed { OnErr result (self.new ≡ after_failed_read self.old) }
        ensures unchanged { OnErr result (buf.new ≡ buf.old) }
    {
        if self.plan.next_fails() {
            return Err(self.plan.fail());
        }
        let left = &self.bytes[self.taken..];
        let count = left.len().min(buf.len()).min(self.most);
        buf[..count].copy_from_slice(&left[..count]);
        self.taken += count;
        Ok(count as u64)
    }

    fn faults(&self) -> u64 {
        self.plan.faults()
    }
}
