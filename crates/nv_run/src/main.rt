//! Trusted edge: the program over a folder, which the first word names; the words behind it are the command. A trace comes on
//! standard input; the report, or one line that says why there is none, goes to standard output, and the exit status is that of
//! `nv_main`. A look is given a bench that writes nothing.
#![tactic(auto)]

use nv_bench::FolderBench;
use nv_top::{NO_MEMORY, OpenGate, USAGE, nv_main, program_words, say};
use nv_trace::{ReaderSource, WriterSink};
use std::io;
use std::process::ExitCode;

fn main(rt: HostRuntime) -> ExitCode {
    let mut sink = WriterSink::new(io::writer(&rt));
    let alloc = rt.alloc();
    let Ok(words) = program_words(&rt) else {
        return ExitCode::from(say(&mut sink, NO_MEMORY, b"error no memory\n"));
    };
    let Some((folder, command)) = words.split_first() else {
        return ExitCode::from(say(&mut sink, USAGE, b"error usage\n"));
    };
    let is_look = command.first().is_some_and(|word| word.as_str() == "look");
    let opened = if is_look {
        FolderBench::read_only(rt, alloc, folder.as_str())
    } else {
        FolderBench::new(rt, alloc, folder.as_str())
    };
    let Ok(mut bench) = opened else {
        return ExitCode::from(say(&mut sink, NO_MEMORY, b"error no memory\n"));
    };
    let mut source = ReaderSource::new(rt.reader());
    let status = nv_main(
        &rt,
        alloc,
        command,
        &mut source,
        &mut sink,
        &mut bench,
        &OpenGate,
    );
    ExitCode::from(status)
}
