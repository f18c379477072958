//! Tests of traces: how their lines are read, and the lines of reports.
use nv_plain::{Bytes, Mode, NoMemory, Reply};
use nv_trace::{
    BadLine, Fate, Form, LineError, MemSink, MemSource, Reach, Refusal, StepName, Token, Trace,
    TraceCall, Turn, Why, end_line, file_line, history_line, open_line, read_line, read_trace,
    recovered_line, refused_line, schedule, write_all,
};
use std::alloc::Global;
use std::process::Abort;
use std::test::Fail;

/// A file, a descriptor of it, and two calls.
const LINES: [&[u8]; 4] = [
    b"file a",
    b"fd 0 a rw",
    b"0 pwrite 0 0 68656c6c6f",
    b"0 pread 0 0 16",
];

fn assert_two_calls(rt: &impl Abort, trace: &Trace) {
    let ([name], [descriptor], [write, read]) = (trace.names(), trace.descriptors(), trace.calls())
    else {
        panic!(rt; "one name, one descriptor and two calls are wanted");
    };
    assert_eq!(rt; name.as_slice(), b"a".as_slice());
    assert!(rt; descriptor.file == 0 && descriptor.mode == Mode::Rw);
    assert_eq!(rt;
        ((write.line, write.thread), (read.line, read.thread)),
        ((3, 0), (4, 0))
    );
    assert!(rt;
        matches!(&write.call, TraceCall::Pwrite { fd: 0, at: 0, bytes } if bytes.as_slice() == b"hello".as_slice())
    );
    assert!(rt;
        matches!(
            &read.call,
            TraceCall::Pread {
                fd: 0,
                at: 0,
                len: 16
            }
        )
    );
}

// A line that is refused leaves the trace as it was.
#[test]
fn a_trace_by_lines(rt: HostRuntime) -> Result<(), Fail> {
    let mut trace = Trace::new(rt.alloc(), Form::Run);
    let mut number = 0u64;
    for line in LINES {
        number = number.wrapping_add(1);
        read_line(&mut trace, number, line)?;
    }
    assert_two_calls(&rt, &trace);
    let bad = LineError::Bad(BadLine {
        number: 5,
        why: Why::Form,
    });
    assert_eq!(rt; read_line(&mut trace, 5, b"x"), Err(bad));
    assert_two_calls(&rt, &trace);
    assert_eq!(rt; (trace.thread_count(), trace.rounds()), (1, 0));
    Ok(())
}

// Each file has a name of its own.
#[test]
fn a_trace_has_64_files_at_most(rt: HostRuntime) -> Result<(), Fail> {
    let mut trace = Trace::new(rt.alloc(), Form::Run);
    for i in 0..64u64 {
        let line = format!(in rt.alloc(); "file f{i}")?;
        read_line(&mut trace, i + 1, line.as_bytes())?;
    }
    let bad = LineError::Bad(BadLine {
        number: 65,
        why: Why::Many,
    });
    assert_eq!(rt; read_line(&mut trace, 65, b"file f64"), Err(bad));
    assert_eq!(rt; trace.names().len(), 64);
    Ok(())
}

#[test]
fn a_name_has_248_bytes_at_most(rt: HostRuntime) -> Result<(), Fail> {
    let mut trace = Trace::new(rt.alloc(), Form::Run);
    let mut line = Vec::from_slice(rt.alloc(), b"file ")?;
    for _ in 0..248u64 {
        line.push(b'a')?;
    }
    read_line(&mut trace, 1, &line)?;
    line.push(b'a')?;
    let bad = LineError::Bad(BadLine {
        number: 2,
        why: Why::Name,
    });
    assert_eq!(rt; read_line(&mut trace, 2, &line), Err(bad));
    assert_eq!(rt; trace.names().len(), 1);
    Ok(())
}

const SCHEDULED: &[u8] = b"file a\nfd 0 a rw\n0 pwrite 0 0 aa\nsteps 0:seize cut:12 w\n";

const TOKENS: [Token; 4] = [
    Token::Advance {
        turn: Turn::Thread(0),
        reach: Reach::Kind(StepName::Seize),
    },
    Token::Cut(12),
    Token::Advance {
        turn: Turn::Cleaner,
        reach: Reach::One,
    },
    Token::Advance {
        turn: Turn::Thread(7),
        reach: Reach::Done,
    },
];

#[test]
fn a_schedule_is_read(rt: HostRuntime) -> Result<(), Fail> {
    let mut source = MemSource::new(rt.alloc(), SCHEDULED, &[])?;
    let mut trace = read_trace(rt.alloc(), Form::Sched, &mut source)?;
    schedule(&mut trace, 5, b"steps 7:done")?;
    assert_eq!(rt; trace.tokens(), TOKENS.as_slice());
    Ok(())
}

/// A write of bytes at an offset, or a read of so many, by descriptor 0; or a sync of a descriptor.
#[derive(Clone, Copy)]
enum Call {
    Write(u64, &'static [u8]),
    Read(u64, u64),
    Sync(u64),
}

/// A line of a report, of a thread where it is one of a call.
#[derive(Clone, Copy)]
enum Line {
    Counted(u64, u64, Call, u64),
    Given(u64, u64, Call, &'static [u8]),
    Synced(u64, u64, Call),
    Refused(u64, Call, Refusal),
    Open(u64, Call, Fate),
    File(&'static [u8], &'static [u8]),
    End(u64, u64, u64),
    Recovered(u64, u64, u64),
}

const X: Call = Call::Write(0, b"x");

const SPENT: Refusal = Refusal::Spent {
    found: 1_152_921_504_606_846_976,
};

/// Lines, and their texts.
const TEXTS: [(Line, &str); 18] = [
    (
        Line::Counted(0, 0, Call::Write(0, b"hello"), 5),
        "0 0 pwrite 0 0 5 = 5\n",
    ),
    (
        Line::Given(1, 0, Call::Read(0, 16), b"hello"),
        "1 0 pread 0 0 16 = 68656c6c6f\n",
    ),
    (
        Line::Given(2, 0, Call::Read(9, 0), b""),
        "2 0 pread 0 9 0 = -\n",
    ),
    (Line::Synced(3, 0, Call::Sync(0)), "3 0 fsync 0 = 0\n"),
    (
        Line::Refused(0, Call::Write(128, b"x"), Refusal::TooFar),
        "refused 0 pwrite 0 128 1: too far\n",
    ),
    (
        Line::Refused(0, Call::Write(128, b"x"), Refusal::TooLong),
        "refused 0 pwrite 0 128 1: too long\n",
    ),
    (
        Line::Refused(0, X, Refusal::Stopped),
        "refused 0 pwrite 0 0 1: stopped\n",
    ),
    (
        Line::Refused(0, X, SPENT),
        "refused 0 pwrite 0 0 1: spent 1152921504606846976\n",
    ),
    (
        Line::Refused(0, Call::Write(2, b"x"), Refusal::Again { head: 2, tail: 0 }),
        "refused 0 pwrite 0 2 1: again 2 0\n",
    ),
    (
        Line::Refused(0, X, Refusal::RegionFault),
        "refused 0 pwrite 0 0 1: region fault\n",
    ),
    (
        Line::Refused(0, X, Refusal::StoreFault),
        "refused 0 pwrite 0 0 1: store fault\n",
    ),
    (
        Line::Open(0, Call::Write(0, b"hello"), Fate::Kept),
        "open 0 pwrite 0 0 5: kept\n",
    ),
    (
        Line::Open(0, Call::Write(0, b"hello"), Fate::Lost),
        "open 0 pwrite 0 0 5: lost\n",
    ),
    (
        Line::Open(7, Call::Sync(3), Fate::Unanswered),
        "open 7 fsync 3: unanswered\n",
    ),
    (Line::File(b"a", b"hello"), "file a 5 68656c6c6f\n"),
    (Line::File(b"a", b""), "file a 0 -\n"),
    (Line::End(2, 0, 0), "end 2 0 0\n"),
    (Line::Recovered(1, 1, 0), "recovered 1 1 0\n"),
];

fn traced(alloc: Global, call: Call) -> Result<TraceCall, NoMemory> {
    Ok(match call {
        Call::Write(at, bytes) => TraceCall::Pwrite {
            fd: 0,
            at,
            bytes: Bytes::from_vec(Vec::from_slice(alloc, bytes)?),
        },
        Call::Read(at, len) => TraceCall::Pread { fd: 0, at, len },
        Call::Sync(fd) => TraceCall::Fsync { fd },
    })
}

fn answered(
    alloc: Global,
    place: u64,
    thread: u64,
    call: Call,
    reply: &Reply,
) -> Result<Bytes, NoMemory> {
    history_line(alloc, place, thread, &traced(alloc, call)?, reply)
}

fn text(alloc: Global, line: Line) -> Result<Bytes, NoMemory> {
    match line {
        Line::Counted(place, thread, call, count) => {
            answered(alloc, place, thread, call, &Reply::Count(count))
        }
        Line::Given(place, thread, call, bytes) => {
            let bytes = Bytes::from_vec(Vec::from_slice(alloc, bytes)?);
            answered(alloc, place, thread, call, &Reply::Bytes(bytes))
        }
        Line::Synced(place, thread, call) => answered(alloc, place, thread, call, &Reply::Done),
        Line::Refused(thread, call, refusal) => {
            refused_line(alloc, thread, &traced(alloc, call)?, &refusal)
        }
        Line::Open(thread, call, fate) => open_line(alloc, thread, &traced(alloc, call)?, fate),
        Line::File(name, bytes) => file_line(alloc, name, bytes),
        Line::End(placed, refused, open) => end_line(alloc, placed, refused, open),
        Line::Recovered(first, next, groups) => recovered_line(alloc, first, next, groups),
    }
}

#[test]
fn lines_of_reports(rt: HostRuntime) -> Result<(), Fail> {
    for (line, want) in TEXTS {
        let text = text(rt.alloc(), line)?;
        assert_eq!(rt; text.as_slice(), want.as_bytes(), "{want}");
    }
    Ok(())
}

#[test]
fn a_sink_takes_a_line(rt: HostRuntime) -> Result<(), Fail> {
    let mut sink = MemSink::new(rt.alloc(), 9, &[])?;
    assert_eq!(rt; write_all(&mut sink, b"hello"), Ok(()));
    assert_eq!(rt; sink.bytes(), b"hello".as_slice());
    Ok(())
}
