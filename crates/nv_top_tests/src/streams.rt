//! Tests of runs whose source or sink fails amid their rounds, and of what a recovery finds then.
ghost use Rattle.std.specs.Prelude.{◌≡◌, ◌≤◌, [], false, IfSome, OnOk};
ghost use Rattle.nv_bench.specs.Holding.{IsQuietHolding};
ghost use Rattle.nv_bench.specs.MemBench.{mem_state};

use crate::commands::{RECOVER, RUN, call, new_bench};
use nv_bench::{Bench, MemBench, power_leaves_an_image};
use nv_plain::NoMemory;
use nv_pmem::Pick;
use nv_top::{BAD_INPUT, DONE, READ_FAULT, WRITE_FAULT};
use std::process::Abort;
use std::sync::Wait;
use std::test::Fail;
use std::thread::Threads;

// Two rounds of one write each. The line that ends the first is in the third piece of 16 bytes, and the input ends in the fourth.
const TWO_ROUNDS: &str = "file a\nfd 0 a rw\n0 pwrite 0 0 01\nround\n0 pwrite 0 1 02\n";

// The first round, and a bad line in the second.
const BAD_LINE: &str = "file a\nfd 0 a rw\n0 pwrite 0 0 01\nround\n0 pread 0 00 4\n";

// The first round is of no call, so nothing is written behind it.
const NO_CALL: &str = "file a\nfd 0 a rw\nround\n0 pwrite 0 0 01\n";

const FIRST: &str = "recovered 1 1 0\nfile a 1 01\n";

const BOTH: &str = "recovered 2 2 0\nfile a 2 0102\n";

// A trace, the numbers of the reads and of the writes that fail, the status and the output, and what a recovery prints then.
type Row = (
    &'static str,
    &'static [u64],
    &'static [u64],
    u8,
    &'static str,
    &'static str,
);

const ROWS: [Row; 6] = [
    (
        BAD_LINE,
        &[],
        &[],
        BAD_INPUT,
        "0 0 pwrite 0 0 1 = 1\nerror line 5 number\n",
        FIRST,
    ),
    (
        TWO_ROUNDS,
        &[4],
        &[],
        READ_FAULT,
        "0 0 pwrite 0 0 1 = 1\nerror read\n",
        FIRST,
    ),
    // The read that finds the end of the input fails, so the second round isn't run.
    (
        TWO_ROUNDS,
        &[5],
        &[],
        READ_FAULT,
        "0 0 pwrite 0 0 1 = 1\nerror read\n",
        FIRST,
    ),
    // A round whose lines can't be written was run, and none is behind it.
    (TWO_ROUNDS, &[], &[1], WRITE_FAULT, "", FIRST),
    (
        TWO_ROUNDS,
        &[],
        &[2],
        WRITE_FAULT,
        "0 0 pwrite 0 0 1 = 1\n",
        BOTH,
    ),
    (NO_CALL, &[], &[1], WRITE_FAULT, "", FIRST),
];

// Power goes off, and leaves a bench as a command asks for it.
fn lose_power(bench: &mut MemBench) -> Result<(), NoMemory>
    requires closed { (mem_state bench.old).is_open ≡ false }
    requires home { (mem_state bench.old).lent ≡ [] }
    ensures closed { OnOk result ((mem_state bench.new).is_open ≡ false) }
    ensures home { OnOk result ((mem_state bench.new).lent ≡ []) }
    ensures quiet { OnOk result (IfSome (mem_state bench.new).told IsQuietHolding) }
    ensures arms { OnOk result ((mem_state bench.new).arms ≡ (mem_state bench.old).arms) }
    ensures settled { OnOk result ((mem_state bench.new).settled ≤ (mem_state bench.new).faults) }
{
    power_leaves_an_image();
    bench.power(Pick::Old)
}

// A run comes to this, and once power has gone off a recovery prints that.
fn leaves<R>(rt: &R, row: &Row) -> Result<(), Fail>
where
    R: AllocGlobal + Abort + Threads + Wait + Sync,
{
    let (trace, reads, writes, status, output, recovered) = row;
    let mut bench = new_bench(rt.alloc(), &[])?;
    let (found, text) = call(rt, &mut bench, RUN, trace, reads, writes)?;
    assert_eq!(rt;
        (found, text.as_slice()),
        (*status, output.as_bytes()),
        "for {trace:?}"
    );
    lose_power(&mut bench)?;
    let (found, text) = call(rt, &mut bench, RECOVER, "", &[], &[])?;
    assert_eq!(rt;
        (found, text.as_slice()),
        (DONE, recovered.as_bytes()),
        "behind {trace:?}"
    );
    Ok(())
}

#[test]
fn streams_that_fail(rt: HostRuntime) -> Result<(), Fail> {
    for row in &ROWS {
        leaves(&rt, row)?;
    }
    Ok(())
}
