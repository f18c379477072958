//! Calls on a mount by one thread, as a whole and step by step.
ghost use Rattle.std.specs.Prelude.{◌≡◌, []};
ghost use Rattle.nv_table.specs.invariant.Idle.{IsIdle, IsLater};
ghost use Rattle.nv_table.specs.state.States.{IsOf};
ghost use Rattle.nv_table.specs.state.Workspaces.{IsWorkspace};

use crate::given::{close, opened_with, region_of, room, stores};
use crate::machines::{read_slowly, sync_slowly, write_slowly};
use nv_calls::{
    Done, Kind, ReadMachine, Refusal, SyncMachine, WriteMachine, pread, pwrite, try_fsync,
    try_pread, try_pwrite,
};
use nv_clean::{CleanRefusal, Cleaned, try_clean};
use nv_mount::Mount;
use nv_pmem::MemPart;
use nv_store::{Backing, MemStore};
use nv_table::{Pass, Workspace};
use std::alloc::Global;
use std::process::Abort;
use std::sync::Wait;
use std::test::Fail;

/// How a call is made: as a whole, in which it may be refused for a lock that is held; as a whole, in which it waits for such a lock; or
/// step by step, of which there are so many, and from one of them on they are of these kinds.
#[derive(Clone, Copy)]
enum How {
    Try,
    Wait,
    Steps(usize, usize, &'static [Kind]),
}

/// A call: a write of bytes at an offset by a descriptor, a read of so many that finds these pieces, a sync, or a batch.
#[derive(Clone, Copy)]
enum Call {
    Write(u64, u64, &'static [u8]),
    Read(u64, u64, usize, &'static [&'static [u8]]),
    Sync(u64),
    Clean(u64),
}

/// What a call is answered: its place and its length, why it was refused, and how many entries a batch retired.
#[derive(Clone, Copy, Debug, PartialEq, Eq)]
enum Answer {
    Done(u64, u64),
    Refused(Refusal),
    Cleaned(u64),
    Unclean(CleanRefusal),
}

/// A mount over a file of some bytes in front, and calls on it.
struct Play {
    name: &'static str,
    entries: u64,
    one_buffer: bool,
    file: &'static [u8],
    calls: &'static [(How, Call, Answer)],
    // The calls that have a place, the tail and the pieces of what the store has at the end.
    end: (u64, u64, &'static [&'static [u8]]),
}

/// A read past the end: PAGE, LENGTH, SIZE, LENGTH, STOP, ORDER, DIRTY, STORE and back, the place, and SIZE and PAGE back.
const READ_PAST_THE_END: [Kind; 12] = [
    Kind::Take,
    Kind::Load,
    Kind::Take,
    Kind::Load,
    Kind::Load,
    Kind::Load,
    Kind::Load,
    Kind::Take,
    Kind::Give,
    Kind::Place,
    Kind::Give,
    Kind::Give,
];

/// The search of a buffer: HAND, the HINT of buffer 0, page 0 taken and given back, and the HINT set lie between ORDER and DIRTY.
const SEARCH: [Kind; 5] = [Kind::Hand, Kind::Load, Kind::Take, Kind::Give, Kind::Hint];

/// A write with growth: PAGE, LENGTH, SIZE, LENGTH again, STOP, ORDER, HEAD, TAIL; the draw; its entry, DIRTY, and its entry again; the place; LENGTH;
/// SIZE and PAGE back.
const WRITE_WITH_GROWTH: [Kind; 16] = [
    Kind::Take,
    Kind::Load,
    Kind::Take,
    Kind::Load,
    Kind::Load,
    Kind::Load,
    Kind::Load,
    Kind::Load,
    Kind::Draw,
    Kind::Seize,
    Kind::Pledge,
    Kind::Ready,
    Kind::Place,
    Kind::Grow,
    Kind::Give,
    Kind::Give,
];

/// A call that touches no page: STOP, ORDER, and the place.
const NO_PAGE: [Kind; 3] = [Kind::Load, Kind::Load, Kind::Place];

const ZEROS: [u8; 1025] = [0; 1025];

/// Each row with its calls, worked out by hand.
const PLAYS: [Play; 17] = [
    Play {
        name: "a read past the end tells what there is",
        entries: 16,
        one_buffer: false,
        file: &[1, 2, 3],
        calls: &[
            (
                How::Try,
                Call::Read(0, 1, 9, &[&[2, 3]]),
                Answer::Done(0, 2),
            ),
            (
                How::Wait,
                Call::Read(0, 1, 9, &[&[2, 3]]),
                Answer::Done(1, 2),
            ),
        ],
        end: (2, 0, &[&[1, 2, 3]]),
    },
    Play {
        name: "a read past the end is twelve advances, and its page's buffer is valid then",
        entries: 16,
        one_buffer: false,
        file: &[1, 2, 3],
        calls: &[
            (
                How::Steps(12, 0, &READ_PAST_THE_END),
                Call::Read(0, 1, 9, &[&[2, 3]]),
                Answer::Done(0, 2),
            ),
            (
                How::Try,
                Call::Read(0, 1, 9, &[&[2, 3]]),
                Answer::Done(1, 2),
            ),
        ],
        end: (2, 0, &[&[1, 2, 3]]),
    },
    Play {
        name: "a page without a buffer gets that of another",
        entries: 16,
        one_buffer: false,
        file: &[7; 320],
        calls: &[(
            How::Steps(14, 4, &SEARCH),
            Call::Read(0, 256, 16, &[&[7; 16]]),
            Answer::Done(0, 16),
        )],
        end: (1, 0, &[&[7; 320]]),
    },
    // Page 0 is loaded, found in its buffer, robbed of it, and robs page 1 in turn.
    Play {
        name: "one buffer goes from page to page",
        entries: 16,
        one_buffer: true,
        file: &[7; 128],
        calls: &[
            (
                How::Steps(9, 0, &[]),
                Call::Read(0, 0, 1, &[&[7]]),
                Answer::Done(0, 1),
            ),
            (
                How::Steps(6, 0, &[]),
                Call::Read(0, 0, 1, &[&[7]]),
                Answer::Done(1, 1),
            ),
            (
                How::Steps(14, 0, &[]),
                Call::Read(0, 64, 1, &[&[7]]),
                Answer::Done(2, 1),
            ),
            (
                How::Steps(14, 0, &[]),
                Call::Read(0, 0, 1, &[&[7]]),
                Answer::Done(3, 1),
            ),
        ],
        end: (4, 0, &[&[7; 128]]),
    },
    // No read is placed but those that are answered so.
    Play {
        name: "reads are refused by what they ask for",
        entries: 16,
        one_buffer: false,
        file: &[1, 2, 3],
        calls: &[
            (
                How::Try,
                Call::Read(5, 0, 1, &[]),
                Answer::Refused(Refusal::BadFd),
            ),
            (
                How::Try,
                Call::Read(1, 4096, 1, &[]),
                Answer::Refused(Refusal::BadFd),
            ),
            (
                How::Try,
                Call::Read(0, 4096, 1, &[]),
                Answer::Refused(Refusal::TooFar),
            ),
            (
                How::Try,
                Call::Read(0, 4097, 0, &[]),
                Answer::Refused(Refusal::TooFar),
            ),
            (
                How::Try,
                Call::Read(0, u64::MAX, 1, &[]),
                Answer::Refused(Refusal::TooFar),
            ),
            (
                How::Try,
                Call::Read(0, 0, 1025, &[]),
                Answer::Refused(Refusal::TooLong),
            ),
            (
                How::Try,
                Call::Read(0, 0, 1024, &[&[1, 2, 3]]),
                Answer::Done(0, 3),
            ),
            (How::Try, Call::Read(0, 4095, 1, &[]), Answer::Done(1, 0)),
            (How::Try, Call::Read(0, 4096, 0, &[]), Answer::Done(2, 0)),
        ],
        end: (3, 0, &[&[1, 2, 3]]),
    },
    Play {
        name: "a log of two entries is full after two writes",
        entries: 2,
        one_buffer: false,
        file: &[],
        calls: &[
            (How::Try, Call::Write(0, 0, &[7]), Answer::Done(0, 1)),
            (How::Try, Call::Write(0, 1, &[8]), Answer::Done(1, 1)),
            (
                How::Try,
                Call::Write(0, 2, &[9]),
                Answer::Refused(Refusal::Again { head: 2, tail: 0 }),
            ),
            (
                How::Try,
                Call::Read(0, 0, 3, &[&[7, 8]]),
                Answer::Done(2, 2),
            ),
        ],
        end: (3, 0, &[]),
    },
    // It waits for locks alone: a full log it tells at once.
    Play {
        name: "a write that waits ends at a full log, and is done once there is room",
        entries: 2,
        one_buffer: false,
        file: &[],
        calls: &[
            (How::Wait, Call::Write(0, 0, &[7]), Answer::Done(0, 1)),
            (How::Wait, Call::Write(0, 1, &[8]), Answer::Done(1, 1)),
            (
                How::Wait,
                Call::Write(0, 2, &[9]),
                Answer::Refused(Refusal::Again { head: 2, tail: 0 }),
            ),
            (How::Try, Call::Clean(1), Answer::Cleaned(1)),
            (How::Wait, Call::Write(0, 2, &[9]), Answer::Done(2, 1)),
            (
                How::Wait,
                Call::Read(0, 0, 3, &[&[7, 8, 9]]),
                Answer::Done(3, 3),
            ),
        ],
        end: (4, 1, &[&[7]]),
    },
    Play {
        name: "a write over three pages is read by its pieces",
        entries: 16,
        one_buffer: false,
        file: &[1; 70],
        calls: &[
            (
                How::Try,
                Call::Read(0, 0, 128, &[&[1; 70]]),
                Answer::Done(0, 70),
            ),
            (How::Try, Call::Write(0, 60, &[2; 72]), Answer::Done(1, 72)),
            (
                How::Try,
                Call::Read(0, 0, 136, &[&[1; 60], &[2; 72]]),
                Answer::Done(2, 132),
            ),
        ],
        end: (3, 0, &[&[1; 70]]),
    },
    Play {
        name: "writes are refused by what they ask for",
        entries: 16,
        one_buffer: false,
        file: &[],
        calls: &[
            (
                How::Try,
                Call::Write(2, 0, &[1]),
                Answer::Refused(Refusal::BadFd),
            ),
            (
                How::Try,
                Call::Write(1, 4096, &[1]),
                Answer::Refused(Refusal::TooFar),
            ),
            (
                How::Try,
                Call::Write(1, 0, &ZEROS),
                Answer::Refused(Refusal::TooLong),
            ),
            (How::Try, Call::Write(1, 4096, &[]), Answer::Done(0, 0)),
        ],
        end: (1, 0, &[]),
    },
    Play {
        name: "a write with growth is sixteen advances",
        entries: 16,
        one_buffer: false,
        file: &[],
        calls: &[(
            How::Steps(16, 0, &WRITE_WITH_GROWTH),
            Call::Write(0, 60, &[1, 2, 3]),
            Answer::Done(0, 3),
        )],
        end: (1, 0, &[]),
    },
    Play {
        name: "a write of nothing is three advances",
        entries: 16,
        one_buffer: false,
        file: &[],
        calls: &[(
            How::Steps(3, 0, &NO_PAGE),
            Call::Write(0, 9, &[]),
            Answer::Done(0, 0),
        )],
        end: (1, 0, &[]),
    },
    Play {
        name: "a write that is barred ends without a step",
        entries: 16,
        one_buffer: false,
        file: &[],
        calls: &[(
            How::Steps(1, 0, &[Kind::Take]),
            Call::Write(5, 0, &[7]),
            Answer::Refused(Refusal::BadFd),
        )],
        end: (0, 0, &[]),
    },
    Play {
        name: "syncs take their places, and one is three advances",
        entries: 16,
        one_buffer: false,
        file: &[1, 2, 3],
        calls: &[
            (How::Try, Call::Sync(0), Answer::Done(0, 0)),
            (How::Try, Call::Sync(5), Answer::Refused(Refusal::BadFd)),
            (
                How::Steps(3, 0, &NO_PAGE),
                Call::Sync(0),
                Answer::Done(1, 0),
            ),
        ],
        end: (2, 0, &[&[1, 2, 3]]),
    },
    Play {
        name: "a cleaner tells what it found",
        entries: 16,
        one_buffer: false,
        file: &[],
        calls: &[
            (
                How::Try,
                Call::Clean(4),
                Answer::Unclean(CleanRefusal::Idle { at: 0 }),
            ),
            (How::Try, Call::Write(0, 0, &[7]), Answer::Done(0, 1)),
            (How::Try, Call::Clean(4), Answer::Cleaned(1)),
            (
                How::Try,
                Call::Clean(4),
                Answer::Unclean(CleanRefusal::Idle { at: 1 }),
            ),
        ],
        end: (1, 1, &[&[7]]),
    },
    Play {
        name: "one entry of two is cleaned",
        entries: 16,
        one_buffer: false,
        file: &[],
        calls: &[
            (
                How::Try,
                Call::Write(0, 0, &[1, 2, 3, 4]),
                Answer::Done(0, 4),
            ),
            (How::Try, Call::Write(0, 1, &[9]), Answer::Done(1, 1)),
            (How::Try, Call::Clean(1), Answer::Cleaned(1)),
            (
                How::Try,
                Call::Read(0, 0, 4, &[&[1, 9, 3, 4]]),
                Answer::Done(2, 4),
            ),
        ],
        end: (3, 1, &[&[1, 2, 3, 4]]),
    },
    Play {
        name: "two entries are cleaned between reads",
        entries: 16,
        one_buffer: false,
        file: &[],
        calls: &[
            (
                How::Try,
                Call::Write(0, 0, &[1, 2, 3, 4]),
                Answer::Done(0, 4),
            ),
            (How::Try, Call::Write(0, 1, &[9]), Answer::Done(1, 1)),
            (
                How::Try,
                Call::Read(0, 0, 4, &[&[1, 9, 3, 4]]),
                Answer::Done(2, 4),
            ),
            (How::Try, Call::Clean(1), Answer::Cleaned(1)),
            (
                How::Try,
                Call::Read(0, 0, 4, &[&[1, 9, 3, 4]]),
                Answer::Done(3, 4),
            ),
            (How::Try, Call::Clean(1), Answer::Cleaned(1)),
            (
                How::Try,
                Call::Read(0, 0, 4, &[&[1, 9, 3, 4]]),
                Answer::Done(4, 4),
            ),
            (
                How::Try,
                Call::Clean(1),
                Answer::Unclean(CleanRefusal::Idle { at: 2 }),
            ),
        ],
        end: (5, 2, &[&[1, 9, 3, 4]]),
    },
    Play {
        name: "a group is cleaned whole",
        entries: 4,
        one_buffer: false,
        file: &[],
        calls: &[
            (How::Try, Call::Write(0, 60, &[1; 72]), Answer::Done(0, 72)),
            (How::Try, Call::Write(0, 0, &[2]), Answer::Done(1, 1)),
            (
                How::Try,
                Call::Write(0, 0, &[3]),
                Answer::Refused(Refusal::Again { head: 4, tail: 0 }),
            ),
            (How::Try, Call::Clean(1), Answer::Cleaned(3)),
            (How::Try, Call::Write(0, 0, &[4]), Answer::Done(2, 1)),
            (How::Try, Call::Clean(2), Answer::Cleaned(2)),
        ],
        end: (3, 5, &[&[4], &[0; 59], &[1; 72]]),
    },
];

/// What a call came to: its answer, the kinds of its steps, as it named them before, and whether the machine tells its place and no fault.
#[derive(Drop)]
struct Made {
    answer: Answer,
    kinds: Vec<Kind>,
    told: bool,
}

fn answer_of(ended: Result<Done, Refusal>) -> Answer {
    match ended {
        Ok(Done { place, len }) => Answer::Done(place, len),
        Err(refusal) => Answer::Refused(refusal),
    }
}

fn whole(alloc: Global, answer: Answer) -> Made {
    Made {
        answer,
        kinds: Vec::new(alloc),
        told: true,
    }
}

// Makes a write.
fn write<R: Wait + Abort>(
    rt: &R,
    alloc: Global,
    mount: &Mount<MemPart, MemStore>,
    pass: &mut Pass<MemPart, MemStore>,
    workspace: &mut Workspace<MemPart, MemStore>,
    how: How,
    fd: u64,
    at: u64,
    bytes: &[u8],
) -> Made
    requires board { IsOf mount.now.board pass.old }
    requires idle { IsIdle pass.old }
    requires workspace { IsWorkspace mount.now.board.opened.sizes workspace.old }
    requires bare { workspace.old.parts.items ≡ [] }
    ensures board { IsOf mount.now.board pass.new }
    ensures idle { IsIdle pass.new }
    ensures later { IsLater pass.old pass.new }
    ensures workspace { IsWorkspace mount.now.board.opened.sizes workspace.new }
    ensures bare { workspace.new.parts.items ≡ [] }
{
    match how {
        How::Try => whole(
            alloc,
            answer_of(try_pwrite(mount, pass, workspace, fd, at, bytes)),
        ),
        How::Wait => whole(
            alloc,
            answer_of(pwrite(rt, mount, pass, workspace, fd, at, bytes)),
        ),
        How::Steps(..) => {
            let mut write = WriteMachine::new(fd, at, bytes.len() as u64);
            let (kinds, ended) = write_slowly(rt, alloc, mount, pass, workspace, &mut write, bytes);
            Made {
                answer: answer_of(ended),
                kinds,
                told: write.placed() == ended.ok() && !write.faulted(),
            }
        }
    }
}

// Makes a read.
fn read<R: Wait + Abort>(
    rt: &R,
    alloc: Global,
    mount: &Mount<MemPart, MemStore>,
    pass: &mut Pass<MemPart, MemStore>,
    how: How,
    fd: u64,
    at: u64,
    list: &mut [u8],
) -> Made
    requires board { IsOf mount.now.board pass.old }
    requires idle { IsIdle pass.old }
    ensures board { IsOf mount.now.board pass.new }
    ensures idle { IsIdle pass.new }
    ensures later { IsLater pass.old pass.new }
{
    match how {
        How::Try => whole(alloc, answer_of(try_pread(mount, pass, fd, at, list))),
        How::Wait => whole(alloc, answer_of(pread(rt, mount, pass, fd, at, list))),
        How::Steps(..) => {
            let mut read = ReadMachine::new(fd, at, list.len() as u64);
            let (kinds, ended) = read_slowly(rt, alloc, mount, pass, &mut read, list);
            Made {
                answer: answer_of(ended),
                kinds,
                told: read.placed() == ended.ok() && !read.faulted(),
            }
        }
    }
}

// Makes a sync.
fn sync(
    rt: &impl Abort,
    alloc: Global,
    mount: &Mount<MemPart, MemStore>,
    pass: &mut Pass<MemPart, MemStore>,
    how: How,
    fd: u64,
) -> Made
    requires board { IsOf mount.now.board pass.old }
    requires idle { IsIdle pass.old }
    ensures board { IsOf mount.now.board pass.new }
    ensures idle { IsIdle pass.new }
    ensures later { IsLater pass.old pass.new }
{
    if !matches!(how, How::Steps(..)) {
        return whole(alloc, answer_of(try_fsync(mount, pass, fd)));
    }
    let mut sync = SyncMachine::new(fd);
    let (kinds, ended) = sync_slowly(rt, alloc, mount, pass, &mut sync);
    Made {
        answer: answer_of(ended),
        kinds,
        told: sync.placed() == ended.ok() && !sync.faulted(),
    }
}

// Makes a batch.
fn clean(
    alloc: Global,
    mount: &Mount<MemPart, MemStore>,
    pass: &mut Pass<MemPart, MemStore>,
    batch: u64,
) -> Made
    requires board { IsOf mount.now.board pass.old }
    requires idle { IsIdle pass.old }
    ensures board { IsOf mount.now.board pass.new }
    ensures idle { IsIdle pass.new }
    ensures later { IsLater pass.old pass.new }
{
    let answer = match try_clean(mount, pass, batch) {
        Ok(Cleaned { retired }) => Answer::Cleaned(retired),
        Err(refusal) => Answer::Unclean(refusal),
    };
    whole(alloc, answer)
}

// Makes a call; a read puts what it finds into the front of a list.
fn make<R: Wait + Abort>(
    rt: &R,
    alloc: Global,
    mount: &Mount<MemPart, MemStore>,
    pass: &mut Pass<MemPart, MemStore>,
    workspace: &mut Workspace<MemPart, MemStore>,
    how: How,
    call: Call,
    list: &mut [u8],
) -> Made
    requires board { IsOf mount.now.board pass.old }
    requires idle { IsIdle pass.old }
    requires workspace { IsWorkspace mount.now.board.opened.sizes workspace.old }
    requires bare { workspace.old.parts.items ≡ [] }
    ensures board { IsOf mount.now.board pass.new }
    ensures idle { IsIdle pass.new }
    ensures later { IsLater pass.old pass.new }
    ensures workspace { IsWorkspace mount.now.board.opened.sizes workspace.new }
    ensures bare { workspace.new.parts.items ≡ [] }
{
    match call {
        Call::Write(fd, at, bytes) => write(rt, alloc, mount, pass, workspace, how, fd, at, bytes),
        Call::Read(fd, at, ..) => read(rt, alloc, mount, pass, how, fd, at, list),
        Call::Sync(fd) => sync(rt, alloc, mount, pass, how, fd),
        Call::Clean(batch) => clean(alloc, mount, pass, batch),
    }
}

/// What a list has before a read.
const UNREAD: u8 = 0xee;

// Whether a list has these bytes from an offset on.
fn has_at(list: &[u8], at: usize, piece: &[u8]) -> bool {
    list.get(at..at.saturating_add(piece.len())) == Some(piece)
}

// Whether a list has these pieces in front, and is as it was behind them.
fn has_alone(list: &[u8], pieces: &[&[u8]]) -> bool {
    let mut at = 0usize;
    for piece in pieces {
        if !has_at(list, at, piece) {
            return false;
        }
        at = at.saturating_add(piece.len());
    }
    match list.get(at..) {
        Some(left) => is_unread(left),
        None => false,
    }
}

// Whether a list is as it was before a read.
fn is_unread(list: &[u8]) -> bool {
    for byte in list {
        if *byte != UNREAD {
            return false;
        }
    }
    true
}

// Whether a call that was made so is as the row says: its steps, and what it found.
fn is_made(how: How, call: Call, made: &Made, list: &[u8]) -> bool {
    let steps = match how {
        How::Steps(count, from, kinds) => {
            made.kinds.len() == count
                && made.kinds.get(from..from.saturating_add(kinds.len())) == Some(kinds)
        }
        _ => made.kinds.is_empty(),
    };
    let found = match call {
        Call::Read(_, _, _, pieces) => has_alone(list, pieces),
        _ => is_unread(list),
    };
    steps && made.told && found
}

// How many bytes a call is to read.
fn asked(call: Call) -> usize {
    match call {
        Call::Read(_, _, len, _) => len,
        _ => 0,
    }
}

// Makes the calls of a play, one after another, and closes its mount.
fn played<R: Wait + Abort>(rt: &R, alloc: Global, play: &Play) -> Result<(), Fail> {
    let name = play.name;
    let stores = stores(alloc, play.file)?;
    let cache = if play.one_buffer { 1 } else { 4 };
    let (mount, mut pass) = opened_with(alloc, region_of(alloc, play.entries)?, stores, 64, cache)?;
    let mut workspace = room(rt, alloc, &mount);
    for row in play.calls {
        let (how, call, answer) = *row;
        let mut bytes = [UNREAD; 1025];
        let list = bytes.get_mut(..asked(call)).expect(rt, "there is room");
        let made = make(
            rt,
            alloc,
            &mount,
            &mut pass,
            &mut workspace,
            how,
            call,
            list,
        );
        assert_eq!(rt; made.answer, answer, "{name}");
        assert!(rt; is_made(how, call, &made, list), "{name}");
    }
    let mut closed = close(rt, mount, pass);
    let (placed, tail, stored) = play.end;
    assert_eq!(rt; (closed.placed, closed.tail), (placed, tail), "{name}");
    let mut bytes = [UNREAD; 1025];
    if let Some(store) = closed.stores.first_mut() {
        store.pread(0, &mut bytes)?;
    }
    assert!(rt; has_alone(&bytes, stored), "{name}");
    Ok(())
}

#[test]
fn calls_of_one_thread(rt: HostRuntime) -> Result<(), Fail> {
    for play in &PLAYS {
        played(&rt, rt.alloc(), play)?;
    }
    Ok(())
}
