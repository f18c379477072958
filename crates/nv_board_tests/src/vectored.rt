//! Vectored calls on a mount by one thread.
ghost use Rattle.std.specs.Prelude.{◌≡◌, []};
ghost use Rattle.nv_table.specs.invariant.Idle.{IsIdle, IsLater};
ghost use Rattle.nv_table.specs.state.States.{IsOf};
ghost use Rattle.nv_table.specs.state.Workspaces.{IsWorkspace};

use crate::given::{close, opened_with, region_of, room, stores};
use crate::machines::{read_parts_slowly, write_parts_slowly};
use nv_calls::{
    AddError, Done, Gather, MOST_PARTS, ReadMachine, Refusal, Scatter, WriteMachine, preadv,
    pwritev, try_preadv, try_pwritev,
};
use nv_mount::Mount;
use nv_pmem::MemPart;
use nv_store::MemStore;
use nv_table::{Pass, Workspace};
use std::alloc::Global;
use std::process::Abort;
use std::sync::Wait;
use std::test::Fail;

/// How a call is made: as a whole, in which it may be refused for a lock that is held; as a whole, in which it waits for such a lock; or step by step.
#[derive(Clone, Copy, Debug)]
enum How {
    Try,
    Wait,
    Steps,
}

/// A call at an offset: a write of parts, or a read into parts of these lengths, which get these.
#[derive(Clone, Copy)]
enum Call {
    Write(u64, &'static [&'static [u8]]),
    Read(u64, &'static [u64], &'static [&'static [u8]]),
}

/// A mount over a file of these bytes, and calls by one of its descriptors, each with its answer.
struct Play {
    name: &'static str,
    file: &'static [u8],
    calls: &'static [(u64, Call, Result<Done, Refusal>)],
}

/// Each row with its calls, worked out by hand.
const PLAYS: [Play; 4] = [
    Play {
        name: "parts lie across a page's end",
        file: &[],
        calls: &[
            (
                0,
                Call::Write(62, &[&[0xaa], &[], &[0xbb, 0xcc]]),
                Ok(Done { place: 0, len: 3 }),
            ),
            (
                0,
                Call::Read(61, &[2, 0, 9, 1], &[&[0, 0xaa], &[], &[0xbb, 0xcc], &[]]),
                Ok(Done { place: 1, len: 4 }),
            ),
        ],
    },
    Play {
        name: "empty parts stand first, last and alone",
        file: &[],
        calls: &[
            (
                0,
                Call::Write(0, &[&[], &[1, 2], &[]]),
                Ok(Done { place: 0, len: 2 }),
            ),
            (
                0,
                Call::Read(0, &[0, 1, 1, 0], &[&[], &[1], &[2], &[]]),
                Ok(Done { place: 1, len: 2 }),
            ),
            (0, Call::Write(1, &[&[]]), Ok(Done { place: 2, len: 0 })),
            (
                0,
                Call::Read(1, &[0], &[&[]]),
                Ok(Done { place: 3, len: 0 }),
            ),
            (0, Call::Write(1, &[]), Ok(Done { place: 4, len: 0 })),
            (0, Call::Read(1, &[], &[]), Ok(Done { place: 5, len: 0 })),
            (
                0,
                Call::Read(0, &[2], &[&[1, 2]]),
                Ok(Done { place: 6, len: 2 }),
            ),
        ],
    },
    Play {
        name: "a file ends within a part, and before one",
        file: &[1, 2, 3],
        calls: &[
            (
                0,
                Call::Read(1, &[1, 4, 2], &[&[2], &[3], &[]]),
                Ok(Done { place: 0, len: 2 }),
            ),
            (
                0,
                Call::Read(3, &[1, 1], &[&[], &[]]),
                Ok(Done { place: 1, len: 0 }),
            ),
        ],
    },
    Play {
        name: "they are refused by what they ask for together",
        file: &[7; 8],
        calls: &[
            (2, Call::Write(0, &[&[1]]), Err(Refusal::BadFd)),
            (1, Call::Read(0, &[1, 1], &[&[], &[]]), Err(Refusal::BadFd)),
            (0, Call::Write(4094, &[&[1, 2], &[3]]), Err(Refusal::TooFar)),
            (
                0,
                Call::Read(4094, &[2, 1], &[&[], &[]]),
                Err(Refusal::TooFar),
            ),
            (
                0,
                Call::Read(0, &[512, 513], &[&[], &[]]),
                Err(Refusal::TooLong),
            ),
            (
                0,
                Call::Write(4094, &[&[1], &[2]]),
                Ok(Done { place: 0, len: 2 }),
            ),
            (
                0,
                Call::Read(4094, &[1, 1], &[&[1], &[2]]),
                Ok(Done { place: 1, len: 2 }),
            ),
        ],
    },
];

// Makes a vectored write.
fn write<R: Wait>(
    rt: &R,
    mount: &Mount<MemPart, MemStore>,
    pass: &mut Pass<MemPart, MemStore>,
    workspace: &mut Workspace<MemPart, MemStore>,
    how: How,
    fd: u64,
    at: u64,
    parts: &Gather,
) -> Result<Done, Refusal>
    requires board { IsOf mount.now.board pass.old }
    requires idle { IsIdle pass.old }
    requires workspace { IsWorkspace mount.now.board.opened.sizes workspace.old }
    requires bare { workspace.old.parts.items ≡ [] }
    ensures board { IsOf mount.now.board pass.new }
    ensures idle { IsIdle pass.new }
    ensures later { IsLater pass.old pass.new }
    ensures workspace { IsWorkspace mount.now.board.opened.sizes workspace.new }
    ensures bare { workspace.new.parts.items ≡ [] }
{
    match how {
        How::Try => try_pwritev(mount, pass, workspace, fd, at, parts),
        How::Wait => pwritev(rt, mount, pass, workspace, fd, at, parts),
        How::Steps => {
            let mut write = WriteMachine::new(fd, at, parts.total());
            write_parts_slowly(mount, pass, workspace, &mut write, parts)
        }
    }
}

// Makes a vectored read.
fn read<R: Wait>(
    rt: &R,
    mount: &Mount<MemPart, MemStore>,
    pass: &mut Pass<MemPart, MemStore>,
    how: How,
    fd: u64,
    at: u64,
    parts: &mut Scatter,
) -> Result<Done, Refusal>
    requires board { IsOf mount.now.board pass.old }
    requires idle { IsIdle pass.old }
    ensures board { IsOf mount.now.board pass.new }
    ensures idle { IsIdle pass.new }
    ensures later { IsLater pass.old pass.new }
{
    match how {
        How::Try => try_preadv(mount, pass, fd, at, parts),
        How::Wait => preadv(rt, mount, pass, fd, at, parts),
        How::Steps => {
            let mut read = ReadMachine::new(fd, at, parts.total());
            read_parts_slowly(mount, pass, &mut read, parts)
        }
    }
}

// The parts that are written.
fn gathered(alloc: Global, parts: &[&[u8]]) -> Result<Gather, AddError> {
    let mut gather = Gather::new(alloc);
    for part in parts {
        gather.add(part)?;
    }
    Ok(gather)
}

// Parts of these lengths.
fn scattered(alloc: Global, lens: &[u64]) -> Result<Scatter, AddError> {
    let mut scatter = Scatter::new(alloc);
    for len in lens {
        scatter.add(*len)?;
    }
    Ok(scatter)
}

// Whether the parts got these.
fn has_got(scatter: &Scatter, parts: &[&[u8]]) -> bool {
    if scatter.len() != parts.len() {
        return false;
    }
    for i in 0..scatter.len() {
        if Some(&scatter.part(i)) != parts.get(i) {
            return false;
        }
    }
    true
}

// Makes a call: its answer, and whether each part of a read got what the row says.
fn make<R: Wait + Abort>(
    rt: &R,
    alloc: Global,
    mount: &Mount<MemPart, MemStore>,
    pass: &mut Pass<MemPart, MemStore>,
    workspace: &mut Workspace<MemPart, MemStore>,
    how: How,
    fd: u64,
    call: Call,
) -> (Result<Done, Refusal>, bool)
    requires board { IsOf mount.now.board pass.old }
    requires idle { IsIdle pass.old }
    requires workspace { IsWorkspace mount.now.board.opened.sizes workspace.old }
    requires bare { workspace.old.parts.items ≡ [] }
    ensures board { IsOf mount.now.board pass.new }
    ensures idle { IsIdle pass.new }
    ensures later { IsLater pass.old pass.new }
    ensures workspace { IsWorkspace mount.now.board.opened.sizes workspace.new }
    ensures bare { workspace.new.parts.items ≡ [] }
{
    match call {
        Call::Write(at, parts) => {
            let gather = gathered(alloc, parts).expect(rt, "there is memory");
            let ended = write(rt, mount, pass, workspace, how, fd, at, &gather);
            (ended, true)
        }
        Call::Read(at, lens, parts) => {
            let mut scatter = scattered(alloc, lens).expect(rt, "there is memory");
            let ended = read(rt, mount, pass, how, fd, at, &mut scatter);
            (ended, has_got(&scatter, parts))
        }
    }
}

// Makes the calls of a play in one way, one after another, and closes its mount.
fn played<R: Wait + Abort>(rt: &R, alloc: Global, play: &Play, how: How) -> Result<(), Fail> {
    let name = play.name;
    let stores = stores(alloc, play.file)?;
    let (mount, mut pass) = opened_with(alloc, region_of(alloc, 16)?, stores, 64, 4)?;
    let mut workspace = room(rt, alloc, &mount);
    for row in play.calls {
        let (fd, call, answer) = *row;
        let (ended, is_well) = make(rt, alloc, &mount, &mut pass, &mut workspace, how, fd, call);
        assert_eq!(rt; ended, answer, "{name} {how:?}");
        assert!(rt; is_well, "{name} {how:?}");
    }
    let _closed = close(rt, mount, pass);
    Ok(())
}

#[test]
fn vectored_calls_of_one_thread(rt: HostRuntime) -> Result<(), Fail> {
    for play in &PLAYS {
        for how in [How::Try, How::Wait, How::Steps] {
            played(&rt, rt.alloc(), play, how)?;
        }
    }
    Ok(())
}

// Writes a record's header and payload by one call, and reads them back.
fn keeps_a_record<R: Wait + Abort>(
    rt: &R,
    alloc: Global,
    mount: &Mount<MemPart, MemStore>,
    pass: &mut Pass<MemPart, MemStore>,
    workspace: &mut Workspace<MemPart, MemStore>,
    at: u64,
    payload: &[u8],
)
    requires board { IsOf mount.now.board pass.old }
    requires idle { IsIdle pass.old }
    requires workspace { IsWorkspace mount.now.board.opened.sizes workspace.old }
    requires bare { workspace.old.parts.items ≡ [] }
    ensures board { IsOf mount.now.board pass.new }
    ensures idle { IsIdle pass.new }
    ensures later { IsLater pass.old pass.new }
{
    let fd = 0;
    let len = payload.len() as u64;
    let header = len.to_le_bytes();
    let mut record = Gather::new(alloc);
    record.add(&header).expect(rt, "there is memory");
    record.add(payload).expect(rt, "there is memory");
    let written = pwritev(rt, mount, pass, workspace, fd, at, &record);
    let mut back = Scatter::new(alloc);
    back.add(8).expect(rt, "there is memory");
    back.add(len).expect(rt, "there is memory");
    let read = preadv(rt, mount, pass, fd, at, &mut back);
    let told = (written.is_ok(), read.is_ok());
    assert_eq!(rt; told, (true, true));
    assert!(rt; has_got(&back, &[&header, payload]));
}

#[test]
fn a_record_comes_back(rt: HostRuntime) -> Result<(), Fail> {
    let alloc = rt.alloc();
    let stores = stores(alloc, &[])?;
    let (mount, mut pass) = opened_with(alloc, region_of(alloc, 16)?, stores, 64, 4)?;
    let mut workspace = room(&rt, alloc, &mount);
    keeps_a_record(
        &rt,
        alloc,
        &mount,
        &mut pass,
        &mut workspace,
        60,
        b"payload",
    );
    let _closed = close(&rt, mount, pass);
    Ok(())
}

#[test]
fn a_part_too_many(rt: HostRuntime) -> Result<(), Fail> {
    let mut gather = Gather::new(rt.alloc());
    let mut scatter = Scatter::new(rt.alloc());
    for _ in 0..MOST_PARTS {
        gather.add(&[1])?;
        scatter.add(1)?;
    }
    assert_eq!(rt; gather.add(&[1]), Err(AddError::TooManyParts));
    assert_eq!(rt; scatter.add(1), Err(AddError::TooManyParts));
    assert_eq!(rt; (gather.len(), gather.total()), (MOST_PARTS, 16));
    assert_eq!(rt; (scatter.len(), scatter.total()), (MOST_PARTS, 16));
    Ok(())
}
