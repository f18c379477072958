//! Trusted edge: the program over fresh devices in memory. A trace comes on standard input; the report, or one line that says why
//! there is none, goes to standard output, and the exit status is that of `nv_main`.
#![tactic(auto)]

use nv_bench::MemBench;
use nv_plain::NoMemory;
use nv_top::{NO_MEMORY, OpenGate, nv_main, program_words, say};
use nv_trace::{ReaderSource, Sink, WriterSink};
use std::io;
use std::process::ExitCode;
use std::rt::Env;
use std::sync::Wait;
use std::thread::Threads;

fn main(rt: HostRuntime) -> ExitCode {
    let mut sink = WriterSink::new(io::writer(&rt));
    let status = match run(&rt, &mut sink) {
        Ok(status) => status,
        Err(NoMemory) => say(&mut sink, NO_MEMORY, b"error no memory\n"),
    };
    ExitCode::from(status)
}

fn run<R, O: Sink>(rt: &R, sink: &mut O) -> Result<u8, NoMemory>
where
    R: AllocGlobal + Env + Input + Threads + Wait + Sync,
{
    let alloc = rt.alloc();
    let words = program_words(rt)?;
    let mut bench = MemBench::of(alloc, &[], &[], &[])?;
    let mut source = ReaderSource::new(rt.reader());
    Ok(nv_main(rt, alloc, &words, &mut source, sink, &mut bench, &OpenGate))
}
