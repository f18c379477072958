//! Tests of commands.
ghost use Rattle.std.specs.Prelude.{◌≡◌, ◌+◌, ◌≤◌, [], false, map, string_bytes, IfOk, IfSome};
ghost use Rattle.nv_bench.specs.Holding.{IsQuietHolding};
ghost use Rattle.nv_bench.specs.MemBench.{mem_state};
ghost use Rattle.nv_words.specs.Words.{names_schedule};

use nv_bench::MemBench;
use nv_plain::NoMemory;
use nv_top::{OpenGate, nv_main};
use nv_trace::{MemSink, MemSource};
use std::alloc::Global;
use std::process::Abort;
use std::sync::Wait;
use std::test::Fail;
use std::thread::Threads;

pub(crate) const RUN: &[&str] = &["run", "--noworker"];

pub(crate) const RECOVER: &[&str] = &["recover"];

// A trace of six writes of one byte, each behind the one before.
pub(crate) const SIX_WRITES: &str =
    "file a\nfd 0 a rw\n0 pwrite 0 0 00\n0 pwrite 0 1 01\n0 pwrite 0 2 02\n0 pwrite 0 3 03\n0 pwrite 0 4 04\n0 pwrite 0 5 05\n";

pub(crate) fn strings(alloc: Global, words: &[&str]) -> Result<Vec<String>, Fail> {
    let mut strings = Vec::new(alloc);
    for word in words {
        strings.push(String::from_str(alloc, word)?)?;
    }
    Ok(strings)
}

// The status and the output of a command over a bench, the trace read in pieces of 16 bytes, its reads and writes of these
// numbers failing. Schedules have their own way, since they may arm a bench more than once.
pub(crate) fn call<R>(
    rt: &R,
    bench: &mut MemBench,
    words: &[&str],
    trace: &str,
    reads: &[u64],
    writes: &[u64],
) -> Result<(u8, Vec<u8>), Fail>
where
    R: AllocGlobal + Abort + Threads + Wait + Sync,
    requires closed { (mem_state bench.old).is_open ≡ false }
    requires home { (mem_state bench.old).lent ≡ [] }
    requires quiet { IfSome (mem_state bench.old).told IsQuietHolding }
    requires arms { (mem_state bench.old).arms ≤ 10 }
    requires settled { (mem_state bench.old).settled ≤ (mem_state bench.old).faults }
    ensures closed { (mem_state bench.new).is_open ≡ false }
    ensures home { (mem_state bench.new).lent ≡ [] }
    ensures arms { (mem_state bench.new).arms ≤ (mem_state bench.old).arms + 1 }
{
    let words = strings(rt.alloc(), words)?;
    let schedules = is_schedule(&words);
    assert!(rt; !schedules);
    call_any(rt, bench, &words, trace, reads, writes)
}

// Whether words are those of a schedule.
fn is_schedule(words: &[String]) -> bool
    ensures { result ≡ names_schedule (map string_bytes words.now) }
{
    match words {
        [first, ..] => first.as_str() == "sched",
        [] => false,
    }
}

// The same of any command.
pub(crate) fn call_any<R>(
    rt: &R,
    bench: &mut MemBench,
    words: &[String],
    trace: &str,
    reads: &[u64],
    writes: &[u64],
) -> Result<(u8, Vec<u8>), Fail>
where
    R: AllocGlobal + Threads + Wait + Sync,
    requires closed { (mem_state bench.old).is_open ≡ false }
    requires home { (mem_state bench.old).lent ≡ [] }
    requires quiet { IfSome (mem_state bench.old).told IsQuietHolding }
    requires arms { (mem_state bench.old).arms ≤ 10 }
    requires settled { (mem_state bench.old).settled ≤ (mem_state bench.old).faults }
    ensures closed { (mem_state bench.new).is_open ≡ false }
    ensures home { (mem_state bench.new).lent ≡ [] }
    ensures arms { names_schedule (map string_bytes words.now) ≡ false → (mem_state bench.new).arms ≤ (mem_state bench.old).arms + 1 }
{
    let alloc = rt.alloc();
    let mut source = MemSource::new(alloc, trace.as_bytes(), reads)?.with_pieces(16);
    let mut sink = MemSink::new(alloc, 100_000, writes)?;
    let status = nv_main(rt, alloc, words, &mut source, &mut sink, bench, &OpenGate);
    Ok((status, sink.bytes().to_vec(alloc)?))
}

// A bench of no part and no store.
pub(crate) fn new_bench(alloc: Global, fails: &[u64]) -> Result<MemBench, NoMemory>
    ensures closed { IfOk result (λ bench. (mem_state bench).is_open ≡ false) }
    ensures home { IfOk result (λ bench. (mem_state bench).lent ≡ []) }
    ensures quiet { IfOk result (λ bench. IfSome (mem_state bench).told IsQuietHolding) }
    ensures arms { IfOk result (λ bench. (mem_state bench).arms ≡ 0) }
    ensures settled { IfOk result (λ bench. (mem_state bench).settled ≤ (mem_state bench).faults) }
{
    MemBench::new(alloc, fails)
}

// A text, then two digits so many times, and then another text.
pub(crate) fn filled(
    alloc: Global,
    head: &str,
    digits: &str,
    count: u64,
    tail: &str,
) -> Result<Vec<u8>, Fail> {
    let mut text = Vec::from_slice(alloc, head.as_bytes())?;
    for _ in 0..count {
        text.extend_from_slice(digits.as_bytes())?;
    }
    text.extend_from_slice(tail.as_bytes())?;
    Ok(text)
}
