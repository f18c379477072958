//! Trusted edge: a program that shows the library. Ann and Bob, two threads, write records to one file through a mount over a
//! folder, which the first word names, and read them back; then the log is carried to the file, and the mount is closed.
#![tactic(auto)]

use anyhow::{Context, bail};
use nv_session::{
    Backing, Bench, Bytes, Fds, FirstSession, FolderBench, Geometry, Lines, Mode, Mounted, Names,
    Session, Work, open, open_fd,
};
use std::alloc::Global;
use std::env;
use std::sync::Wait;
use std::thread::Threads;

/// Records, with their places in the file.
type Records = [(u64, [u8; 6]); 3];

const ANN: Records = [(0, *b"ann 1\n"), (6, *b"ann 2\n"), (12, *b"ann 3\n")];

const BOB: Records = [(18, *b"bob 1\n"), (24, *b"bob 2\n"), (30, *b"bob 3\n")];

/// What one of them keeps, and what comes of it.
#[derive(Drop)]
struct Keeping {
    fd: u64,
    records: Records,
    kept: anyhow::Result<()>,
}

impl<R: Wait, L: Lines + Drop, B: Backing + Drop> Work<R, L, B> for Keeping {
    fn work<M: Mounted>(&mut self, rt: &R, session: &mut Session<'_, M, L, B>) {
        self.kept = keep(rt, session, self.fd, self.records);
    }
}

// Writes records, each at its place in the file, and reads each back.
fn keep<R: Wait, M: Mounted, L: Lines + Drop, B: Backing + Drop>(
    rt: &R,
    session: &mut Session<'_, M, L, B>,
    fd: u64,
    records: Records,
) -> anyhow::Result<()> {
    for (at, record) in records {
        session.write(rt, fd, at, &record)?;
        let mut back = [0; 6];
        session.read(rt, fd, at, &mut back)?;
        if back != record {
            bail!("a record was not read as it was written");
        }
    }
    Ok(())
}

// Ann and Bob keep their records at the same time; then the first thread shows them, and empties the log.
fn call<R: Threads + Wait + Print + Sync, T: Bench>(
    rt: &R,
    alloc: Global,
    first: &mut FirstSession<T>,
    fd: u64,
) -> anyhow::Result<()> {
    let mut works = Vec::new(alloc);
    for records in [ANN, BOB] {
        let kept = Ok(());
        works.push(Keeping { fd, records, kept })?;
    }
    first.run(rt, alloc, &mut works)?;
    for work in works {
        work.kept?;
    }
    let mut all = [0; 36];
    let done = first.read(rt, fd, 0, &mut all)?;
    println!(rt; "{} bytes, read behind {} calls", done.len, done.place)?;
    print!(rt; "{}", str::from_utf8(&all)?)?;
    let cleaned = first.clean(16)?;
    println!(rt; "{} entries cleaned", cleaned.retired)?;
    Ok(first.clean_all(rt, 16)?)
}

fn main(rt: HostRuntime) -> anyhow::Result<()> {
    let alloc = rt.alloc();
    let folder = env::args(&rt)?.nth(1).context("usage: nv_example FOLDER")?;
    let mut bench = FolderBench::new(rt, alloc, folder.as_str())?;
    let mut names = Names::new(alloc);
    names.push(Bytes::from_vec(Vec::from_slice(alloc, b"records")?))?;
    let opened = open(alloc, &mut bench, Geometry::new(4096, 64)?, &names)?;
    let mut fds = Fds::new(alloc);
    let fd = open_fd(&opened, &mut fds, b"records", Mode::Rw)?;
    let mut first = FirstSession::open(alloc, bench, opened, fds, 16, 8)?;
    let result = call(&rt, alloc, &mut first, fd);
    drop(first.close());
    result
}
