//! Trusted edge: a third program that shows the library, a log of keys and values in memory. One thread appends 20 records to it; another
//! follows, and keeps the last record of each key.
#![tactic(auto)]

use nv_session::{
    Backing, Bytes, Fds, FirstSession, Geometry, Lines, MemBench, Mode, Mounted, Names, Refusal,
    Session, Work, open, open_fd,
};
use std::sync::Wait;
use std::thread::yield_now;

/// How many records there are.
const RECORDS: u64 = 20;

/// A record: a digit of its key, and two of its value.
type Record = [u8; 8];

/// What a thread is there for, and what comes of it: the last record of each key.
#[derive(Drop)]
struct Side {
    appends: bool,
    last: [Record; 8],
    done: Result<(), Refusal>,
}

impl<R: Wait, L: Lines + Drop, B: Backing + Drop> Work<R, L, B> for Side {
    fn work<M: Mounted>(&mut self, rt: &R, session: &mut Session<'_, M, L, B>) {
        self.done = if self.appends {
            append(rt, session)
        } else {
            follow(rt, session, &mut self.last)
        };
    }
}

// Writes each record behind the one before it. It is durable when its write returns.
fn append<R: Wait, M: Mounted, L: Lines + Drop, B: Backing + Drop>(
    rt: &R,
    session: &mut Session<'_, M, L, B>,
) -> Result<(), Refusal> {
    for i in 0..RECORDS {
        let mut record: Record = *b"k0 = 00\n";
        record[1] += (i % 8) as u8;
        record[5] += (i / 10) as u8;
        record[6] += (i % 10) as u8;
        session.write(rt, 0, 8 * i, &record)?;
    }
    Ok(())
}

// Reads each record as soon as it is there.
fn follow<R: Wait, M: Mounted, L: Lines + Drop, B: Backing + Drop>(
    rt: &R,
    session: &mut Session<'_, M, L, B>,
    last: &mut [Record; 8],
) -> Result<(), Refusal> {
    for i in 0..RECORDS {
        let record = wait_for(rt, session, 8 * i)?;
        last[record[1] as usize % 8] = record;
    }
    Ok(())
}

// A read finds a write as a whole, or nothing of it.
fn wait_for<R: Wait, M: Mounted, L: Lines + Drop, B: Backing + Drop>(
    rt: &R,
    session: &mut Session<'_, M, L, B>,
    at: u64,
) -> Result<Record, Refusal> {
    let mut record = [0; 8];
    for _ in rt.forever() {
        if session.read(rt, 0, at, &mut record)?.len > 0 {
            return Ok(record);
        }
        yield_now();
    }
    unreachable!()
}

fn main(rt: HostRuntime) -> anyhow::Result<()> {
    let alloc = rt.alloc();
    let mut sides = Vec::new(alloc);
    for appends in [true, false] {
        let last = [[0; 8]; 8];
        let done = Ok(());
        sides.push(Side {
            appends,
            last,
            done,
        })?;
    }
    let mut names = Names::new(alloc);
    names.push(Bytes::from_vec(Vec::from_slice(alloc, b"log")?))?;
    let mut bench = MemBench::of(alloc, &[], &[], &[])?;
    let opened = open(alloc, &mut bench, Geometry::new(64, 64)?, &names)?;
    let mut fds = Fds::new(alloc);
    open_fd(&opened, &mut fds, b"log", Mode::Rw)?;
    let mut first = FirstSession::open(alloc, bench, opened, fds, 16, 8)?;
    let ran = first.run(&rt, alloc, &mut sides);
    let cleaned = first.clean_all(&rt, 8);
    drop(first.close());
    ran?;
    cleaned?;
    for side in sides {
        side.done?;
        let shown = if side.appends { 0 } else { 8 };
        for record in &side.last[..shown] {
            print!(rt; "{}", str::from_utf8(record)?)?;
        }
    }
    Ok(())
}
