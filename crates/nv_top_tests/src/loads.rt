//! Tests of runs of generated calls.
use crate::commands::{call, new_bench};
use nv_load::fresh_summaries_are_of_the_load;
use nv_top::{DEVICE_FAULT, DONE, WRITE_FAULT};
use std::process::Abort;
use std::sync::Wait;
use std::test::Fail;
use std::thread::Threads;

// No call but the first fills; and one, a write.
const NONE: &str = "gen 0 0 1\nplaced 64\nwritten 6144\nread 0\nsum 0\n";

const NONE_OF_TWO: &str = "gen 0 0 2\nplaced 64\nwritten 6144\nread 0\nsum 0\n";

const ONE: &str = "gen 0 1 1\nplaced 65\nwritten 6240\nread 0\nsum 38227152\n";

// Words, and what they print. A number may have a plus, and zeros before it.
const LOADS: [(&[&str], &str); 4] = [
    (&["gen", "0", "0", "1"], NONE),
    (&["gen", "0", "0", "2"], NONE_OF_TWO),
    (&["gen", "0", "1", "1"], ONE),
    (&["gen", "+0", "0001", "+01"], ONE),
];

// What a command prints over a bench of no part and no store whose device calls of these numbers fail, as do these writes. Its source fails, and isn't read.
fn prints<R>(
    rt: &R,
    words: &[&str],
    calls: &[u64],
    writes: &[u64],
    status: u8,
    output: &str,
) -> Result<(), Fail>
where
    R: AllocGlobal + Abort + Threads + Wait + Sync,
{
    let mut bench = new_bench(rt.alloc(), calls)?;
    let (found, text) = call(rt, &mut bench, words, "", &[1], writes)?;
    assert_eq!(rt; (found, text.as_slice()), (status, output.as_bytes()));
    Ok(())
}

#[test]
fn loads(rt: HostRuntime) -> Result<(), Fail> {
    // The law has no value to look at: that it can be called is all.
    fresh_summaries_are_of_the_load();
    for (words, output) in &LOADS {
        prints(&rt, words, &[], &[], DONE, output)?;
    }
    let words = &["gen", "0", "1", "1"];
    prints(&rt, words, &[1], &[], DEVICE_FAULT, "error device\n")?;
    prints(&rt, words, &[], &[1], WRITE_FAULT, "")
}
