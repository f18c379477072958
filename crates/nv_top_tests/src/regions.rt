//! Tests of commands over regions that are refused.
ghost use Rattle.std.specs.Prelude.{◌≡◌, ◌≤◌, ◌%◌, [], false, length, IfOk, IfSome};
ghost use Rattle.nv_bench.specs.Holding.{IsQuietHolding};
ghost use Rattle.nv_bench.specs.MemBench.{mem_state};

use crate::commands::{RECOVER, call};
use nv_bench::MemBench;
use nv_plain::NoMemory;
use nv_top::BAD_REGION;
use std::alloc::Global;
use std::test::Fail;

// The bytes `NVCACHE1`, little-endian.
const MAGIC: u64 = 0x3145_4843_4143_564e;

// The line of these words, and zeros behind them.
fn line(words: [u64; 6]) -> [u8; 64] {
    let mut line = [0; 64];
    for (i, word) in words.iter().enumerate() {
        line[8 * i..8 * i + 8].copy_from_slice(&word.to_le_bytes());
    }
    line
}

// The first line of a header with a page of 64 bytes, two entries, one file and tail 0.
const GOOD: [u64; 6] = [MAGIC, 1, 64, 2, 1, 0];

// A header's part with these words in its first line, and these two names of one byte, where the byte isn't 0.
fn header(words: [u64; 6], names: [u8; 2]) -> [u8; 1152] {
    let mut part = [0; 1152];
    part[..64].copy_from_slice(&line(words));
    for (i, name) in names.iter().enumerate() {
        let len = u64::from(*name != 0);
        part[128 + 64 * i..192 + 64 * i].copy_from_slice(&line([
            len,
            u64::from(*name),
            0,
            0,
            0,
            0,
        ]));
    }
    part
}

// The part of an entry with these words, and these bytes of data.
fn entry(words: [u64; 6], data: [u8; 3]) -> [u8; 128] {
    let mut part = [0; 128];
    part[..64].copy_from_slice(&line(words));
    part[64..67].copy_from_slice(&data);
    part
}

const NONE: [u64; 6] = [0; 6];

const A: [u8; 2] = [b'a', 0];

// The first line of a header and its names, the first lines of two entries, how many lines the second one's part has, and why the
// region is refused: another magic, a follower that leads itself, and a last part that lacks its line of data. All rules are tried over
// folders (checks/regions.py).
const REFUSED: [([u64; 6], [u8; 2], [u64; 6], [u64; 6], u64, &str); 3] = [
    (
        [MAGIC + (1 << 56), 1, 64, 2, 1, 0],
        A,
        NONE,
        NONE,
        2,
        "bad magic",
    ),
    (
        GOOD,
        A,
        [1, 0, 0, 64, 2, 0],
        [2, 0, 64, 1, 0, 0],
        2,
        "bad entry 1",
    ),
    (GOOD, A, NONE, NONE, 1, "truncated 21 22"),
];

// So many lines of an entry's part.
fn lines_of(part: &[u8; 128], lines: u64) -> &[u8]
    ensures { length result.now % 64 ≡ 0 }
{
    if lines == 1 { &part[..64] } else { &part[..] }
}

// A bench of a region of two entries, by the bytes of its parts, and of the store of the file `a`.
fn region_of(
    alloc: Global,
    head: &[u8; 1152],
    first: &[u8; 128],
    second: &[u8; 128],
    lines: u64,
) -> Result<MemBench, NoMemory>
    ensures closed { IfOk result (λ bench. (mem_state bench).is_open ≡ false) }
    ensures home { IfOk result (λ bench. (mem_state bench).lent ≡ []) }
    ensures quiet { IfOk result (λ bench. IfSome (mem_state bench).told IsQuietHolding) }
    ensures arms { IfOk result (λ bench. (mem_state bench).arms ≡ 0) }
    ensures settled { IfOk result (λ bench. (mem_state bench).settled ≤ (mem_state bench).faults) }
{
    MemBench::of(
        alloc,
        &[&head[..], &first[..], lines_of(second, lines)],
        &[("a", b"....")],
        &[],
    )
}

// A region that breaks a rule is refused by the first that it breaks.
#[test]
fn refused_regions(rt: HostRuntime) -> Result<(), Fail> {
    let alloc = rt.alloc();
    for (head, names, first, second, lines, why) in REFUSED {
        let head = header(head, names);
        let first = entry(first, [0; 3]);
        let second = entry(second, [0; 3]);
        let mut bench = region_of(alloc, &head, &first, &second, lines)?;
        let (status, text) = call(&rt, &mut bench, RECOVER, "", &[], &[])?;
        let output = format!(in alloc; "error region {why}\n")?;
        assert_eq!(rt; (status, text.as_slice()), (BAD_REGION, output.as_bytes()));
    }
    Ok(())
}
