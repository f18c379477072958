//! The commands that tests run, with what they print.
use crate::commands::{RUN, SIX_WRITES, call, filled, new_bench};
use nv_top::{DONE, report_has_one_reading};
use std::process::Abort;
use std::sync::Wait;
use std::test::Fail;
use std::thread::Threads;

const HELLO: &str = "file a\nfd 0 a rw\n0 pwrite 0 0 68656c6c6f\n0 pread 0 0 16\n";

const WHOLE: &str =
    "0 0 pwrite 0 0 5 = 5\n1 0 pread 0 0 16 = 68656c6c6f\nfile a 5 68656c6c6f\nend 2 0 0\n";

const KEPT: &str =
    "refused 0 pread 0 0 16: stopped\nopen 0 pwrite 0 0 5: kept\nfile a 5 68656c6c6f\nend 0 1 1\n";

const ROOM_MADE: &str =
    "0 0 pwrite 0 0 1 = 1\n1 0 pwrite 0 1 1 = 1\n2 0 pwrite 0 2 1 = 1\n3 0 pwrite 0 3 1 = 1\n4 0 pwrite 0 4 1 = 1\n5 0 pwrite 0 5 1 = 1\nfile a 6 000102030405\nend 6 0 0\n";

// Commands over a new bench: the words, the trace, and the report, which is a head, two digits so many times, and a tail. A write of at
// most 64 bytes takes 12 device calls, of which the last is the fence of its commit. Of a group each entry of one line of data takes 9, and
// the commit word 3, so the 30th of three is the fence of the commit word. All rows are run by the programs (checks/rows.py).
const RUNS: [(&[&str], &str, &str, &str, u64, &str); 4] = [
    (RUN, HELLO, WHOLE, "", 0, ""),
    // A worker makes room in a log of two entries.
    (&["run", "--entries", "2"], SIX_WRITES, ROOM_MADE, "", 0, ""),
    (
        &["run", "--noworker", "--stop=12", "--image=new"],
        HELLO,
        KEPT,
        "",
        0,
        "",
    ),
    (
        &["run", "--noworker", "--image", "new", "--stop", "30"],
        "file a\nfd 0 a rw\n0 pfill 0 0 192 5\n",
        "open 0 pwrite 0 0 192: kept\nfile a 192 ",
        "05",
        192,
        "\nend 0 0 1\n",
    ),
];

// What a command over a new bench answers.
fn expect<R>(rt: &R, words: &[&str], trace: &str, status: u8, output: &[u8]) -> Result<(), Fail>
where
    R: AllocGlobal + Abort + Threads + Wait + Sync,
{
    let mut bench = new_bench(rt.alloc(), &[])?;
    let (found, text) = call(rt, &mut bench, words, trace, &[], &[])?;
    assert_eq!(rt;
        (found, text.as_slice()),
        (status, output),
        "for {words:?} and {trace:?}"
    );
    Ok(())
}

#[test]
fn reports_of_runs(rt: HostRuntime) -> Result<(), Fail> {
    // The law has no value to look at: that it can be called is all.
    report_has_one_reading();
    for (words, trace, head, digits, count, tail) in &RUNS {
        let report = filled(rt.alloc(), head, digits, *count, tail)?;
        expect(&rt, words, trace, DONE, &report)?;
    }
    Ok(())
}
