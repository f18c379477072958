//! Tests of schedules, by whole commands.
use crate::commands::{call_any, new_bench, strings};
use nv_top::TURNS_USED;
use std::alloc::Global;
use std::process::Abort;
use std::sync::Wait;
use std::test::Fail;
use std::thread::Threads;

// A trace of one file that is open to read and write: its calls, and the tokens of its schedule.
fn scheduled(alloc: Global, calls: &str, tokens: &str) -> Result<String, Fail> {
    let mut trace = String::from_str(alloc, "file a\nfd 0 a rw\n")?;
    trace.push_str(calls)?;
    trace.push_str("steps ")?;
    trace.push_str(tokens)?;
    trace.push_str("\n")?;
    Ok(trace)
}

fn expect_status<R>(
    rt: &R,
    words: &[&str],
    trace: &str,
    status: u8,
    report: &[u8],
) -> Result<(), Fail>
where
    R: AllocGlobal + Abort + Threads + Wait + Sync,
{
    let words = strings(rt.alloc(), words)?;
    let mut bench = new_bench(rt.alloc(), &[])?;
    let (found, text) = call_any(rt, &mut bench, &words, trace, &[], &[])?;
    let text = String::from_utf8_lossy(rt.alloc(), &text)?;
    let wanted = String::from_utf8_lossy(rt.alloc(), report)?;
    assert_eq!(rt;
        (found, text.as_str()),
        (status, wanted.as_str()),
        "{trace}"
    );
    Ok(())
}

// A token that never comes to its point: a reader behind a write that stands still.
#[test]
fn turns_are_used_up(rt: HostRuntime) -> Result<(), Fail> {
    let trace = scheduled(
        rt.alloc(),
        "0 pwrite 0 0 01\n1 pwrite 0 0 02\n",
        "0:place 1:done",
    )?;
    expect_status(
        &rt,
        &["sched"],
        trace.as_str(),
        TURNS_USED,
        b"error turns\n",
    )
}
