//! One call, made until it is answered for good.
ghost use Rattle.std.specs.Prelude.{◌≡◌, ℕ, true, false, ◌&&◌, [], length, Option, None, is_some, IfOk, OnOk, OnErr};
ghost use Rattle.nv_table.specs.invariant.Idle.{IsIdle, IsLater};
ghost use Rattle.nv_table.specs.state.States.{IsOf};
ghost use Rattle.nv_table.specs.state.Workspaces.{IsWorkspace};
ghost use Rattle.nv_mirror.specs.Answers.{IsUnplaced};
ghost use Rattle.nv_trace.specs.declared.trace_call.TraceCall.TheVariants as calls;
ghost use Rattle.nv_table.specs.invariant.Drawn.{drawn_by};
ghost use Rattle.nv_calls.specs.histories.Faults.{open_writes};
ghost use Rattle.nv_calls.specs.histories.Heeds.{HasSeenStop};
ghost use Rattle.nv_runner.specs.Calls.{IsAdmitted, IsAnswered, OpensAs, Tells, says_stop, wants_room};
ghost use Rattle.nv_runner.specs.OpenWrites.{without_place as answer_without_place};
ghost use Rattle.nv_runner.specs.Runs.{GoesOn, entries_drawn};
ghost use Rattle.nv_runner.specs.Tries.{HasRunBatch, IsMadeFor};
ghost use Rattle.nv_runner.specs.Written.{call_in};

use crate::Answer;
use crate::laws::tries_go_on;
use crate::parts::{fill_rooms, gathered, reply_rooms, scattered};
use crate::written::Written;
use nv_calls::{Refusal, early_read_refusal, faults_open_writes, pread, preadv, try_fsync};
use nv_clean::try_clean;
use nv_mount::Mount;
use nv_plain::{Bytes, NoMemory, Parts, Reply};
use nv_pmem::Lines;
use nv_store::Backing;
use nv_table::{Pass, Workspace};
use nv_trace::{LenList, TraceCall};
use std::alloc::Global;
use std::sync::Wait;
use std::thread::yield_now;

// So many bytes, in the last of `rooms` where there is one.
fn room_for(alloc: Global, rooms: &mut Vec<Vec<u8>>, len: u64) -> Result<Vec<u8>, NoMemory>
    ensures { IfOk result (λ room. length room.items ≡ len) }
{
    let mut room = match rooms.pop() {
        Some(room) => room,
        None => Vec::new(alloc),
    };
    room.resize(len as usize, 0)?;
    Ok(room)
}

// A read, with room for its bytes, the last of `rooms` where there is one; with none where it is refused by what it asks for.
fn make_read<R: Wait, L: Lines + Drop, B: Backing + Drop>(
    rt: &R,
    alloc: Global,
    mount: &Mount<L, B>,
    pass: &mut Pass<L, B>,
    fd: u64,
    at: u64,
    len: u64,
    rooms: &mut Vec<Vec<u8>>,
) -> Result<Answer, NoMemory>
    requires board { IsOf mount.now.board pass.old }
    requires idle { IsIdle pass.old }
    ensures board { IsOf mount.now.board pass.new }
    ensures idle { IsIdle pass.new }
    ensures later { IsLater pass.old pass.new }
    ensures made { (worker : Option ℕ) → IfOk result (λ answer. IsMadeFor mount.now.fds worker (calls.Pread fd at len) pass.old pass.new answer) }
    ensures told { (worker : Option ℕ) → IfOk result (λ answer. Tells mount.now.fds worker (calls.Pread fd at len) pass.old pass.new answer) }
    ensures stays { HasSeenStop pass.old → HasSeenStop pass.new }
    ensures stop { IfOk result (λ answer. says_stop answer ≡ true → HasSeenStop pass.new) }
    ensures opens { IfOk result (λ answer. OpensAs mount.now.fds (calls.Pread fd at len) pass.old pass.new answer) }
    ensures on { OnOk result (GoesOn None 0 pass.old pass.new) }
    ensures admitted { IfOk result (λ answer. IsAdmitted pass.new.view.opened.sizes mount.now.fds (calls.Pread fd at len) answer) }
    ensures memory { OnErr result (pass.new ≡ pass.old) }
{
    faults_open_writes();
    tries_go_on();
    pass.sees_a_run();
    if let Some(refusal) = early_read_refusal(mount, fd, at, len) {
        return Ok(Answer::Refused(refusal));
    }
    let mut bytes = room_for(alloc, rooms, len)?;
    match pread(rt, mount, pass, fd, at, &mut bytes) {
        Ok(done) => {
            bytes.truncate(done.len as usize);
            Ok(Answer::Placed {
                place: done.place,
                reply: Reply::Bytes(Bytes::from_vec(bytes)),
            })
        }
        Err(refusal) => Ok(Answer::Refused(refusal)),
    }
}

// Gives the processor up, unless a batch has made room: the thread that holds what the batch found locked may want it.
fn rest_unless(made_room: bool) {
    if !made_room {
        yield_now();
    }
}

// Whether the log had no room for a write that was refused so, and a batch of the cleaner was run. Whatever came of it, the log is looked at again.
fn makes_room<L: Lines + Drop, B: Backing + Drop>(
    mount: &Mount<L, B>,
    pass: &mut Pass<L, B>,
    refusal: Refusal,
    worker: Option<u64>,
) -> bool
    requires board { IsOf mount.now.board pass.old }
    requires idle { IsIdle pass.old }
    ensures board { IsOf mount.now.board pass.new }
    ensures idle { IsIdle pass.new }
    ensures later { IsLater pass.old pass.new }
    ensures kept { IsUnplaced pass.old.view pass.new.view }
    ensures stays { HasSeenStop pass.old → HasSeenStop pass.new }
    ensures on { GoesOn worker 0 pass.old pass.new }
    ensures none { result ≡ false → pass.new ≡ pass.old }
    ensures ran { result ≡ wants_room refusal && is_some worker }
    ensures batch { result ≡ true → HasRunBatch worker pass.old pass.new }
    ensures opens { open_writes pass.new ≡ open_writes pass.old }
{
    tries_go_on();
    if let (Refusal::Again { .. }, Some(batch)) = (refusal, worker) {
        let cleaned = try_clean(mount, pass, batch);
        rest_unless(cleaned.is_ok());
        return true;
    }
    false
}

// What a write is answered that has no place and isn't made again: it is open where a device fault ended it, from the first number on that its pass drew.
fn without_place<L: Lines + Drop, B: Backing + Drop>(pass: &Pass<L, B>, refusal: Refusal) -> Answer
    ensures { result ≡ answer_without_place refusal (drawn_by pass.now.view) }
{
    match (refusal, pass.drawn()) {
        (Refusal::RegionFault | Refusal::StoreFault, Some(number)) => Answer::Open { number },
        _ => Answer::Refused(refusal),
    }
}

// A vectored read. Room for what its parts get is taken before it is begun.
fn make_readv<R: Wait, L: Lines + Drop, B: Backing + Drop>(
    rt: &R,
    alloc: Global,
    mount: &Mount<L, B>,
    pass: &mut Pass<L, B>,
    fd: u64,
    at: u64,
    lens: &LenList,
) -> Result<Answer, NoMemory>
    requires board { IsOf mount.now.board pass.old }
    requires idle { IsIdle pass.old }
    ensures board { IsOf mount.now.board pass.new }
    ensures idle { IsIdle pass.new }
    ensures later { IsLater pass.old pass.new }
    ensures made { (worker : Option ℕ) → IfOk result (λ answer. IsMadeFor mount.now.fds worker (calls.Preadv fd at lens.now) pass.old pass.new answer) }
    ensures told { (worker : Option ℕ) → IfOk result (λ answer. Tells mount.now.fds worker (calls.Preadv fd at lens.now) pass.old pass.new answer) }
    ensures stays { HasSeenStop pass.old → HasSeenStop pass.new }
    ensures stop { IfOk result (λ answer. says_stop answer ≡ true → HasSeenStop pass.new) }
    ensures opens { IfOk result (λ answer. OpensAs mount.now.fds (calls.Preadv fd at lens.now) pass.old pass.new answer) }
    ensures on { OnOk result (GoesOn None 0 pass.old pass.new) }
    ensures admitted { IfOk result (λ answer. IsAdmitted pass.new.view.opened.sizes mount.now.fds (calls.Preadv fd at lens.now) answer) }
    ensures memory { OnErr result (pass.new ≡ pass.old) }
{
    faults_open_writes();
    tries_go_on();
    pass.sees_a_run();
    let mut scatter = scattered(alloc, lens)?;
    let mut rooms = reply_rooms(alloc, lens)?;
    match preadv(rt, mount, pass, fd, at, &mut scatter) {
        Ok(done) => {
            fill_rooms(alloc, &scatter, &mut rooms);
            Ok(Answer::Placed {
                place: done.place,
                reply: Reply::Parts(Parts::from_vec(rooms)),
            })
        }
        Err(refusal) => Ok(Answer::Refused(refusal)),
    }
}

// A write. Where the log has no room for it and a cleaner's batch may be run, one is, and it is made again.
fn make_write<R: Wait, L: Lines + Drop, B: Backing + Drop>(
    rt: &R,
    mount: &Mount<L, B>,
    pass: &mut Pass<L, B>,
    workspace: &mut Workspace<L, B>,
    fd: u64,
    at: u64,
    written: Written<'_>,
    worker: Option<u64>,
) -> Answer
    requires board { IsOf mount.now.board pass.old }
    requires idle { IsIdle pass.old }
    requires workspace { IsWorkspace mount.now.board.opened.sizes workspace.old }
    requires bare { workspace.old.parts.items ≡ [] }
    ensures board { IsOf mount.now.board pass.new }
    ensures idle { IsIdle pass.new }
    ensures later { IsLater pass.old pass.new }
    ensures workspace { IsWorkspace mount.now.board.opened.sizes workspace.new }
    ensures bare { workspace.new.parts.items ≡ [] }
    ensures made { IsMadeFor mount.now.fds worker (call_in written.entry fd at) pass.old pass.new result }
    ensures told { Tells mount.now.fds worker (call_in written.entry fd at) pass.old pass.new result }
    ensures stays { HasSeenStop pass.old → HasSeenStop pass.new }
    ensures stop { says_stop result ≡ true → HasSeenStop pass.new }
    ensures opens { OpensAs mount.now.fds (call_in written.entry fd at) pass.old pass.new result }
    ensures on { GoesOn worker (entries_drawn pass.new.view.opened.sizes (call_in written.entry fd at) result) pass.old pass.new }
    ensures admitted { IsAdmitted pass.new.view.opened.sizes mount.now.fds (call_in written.entry fd at) result }
{
    faults_open_writes();
    tries_go_on();
    for _ in rt.forever() {
        pass.sees_a_run();
        match written.write(rt, mount, pass, workspace, fd, at) {
            Ok(done) => {
                return Answer::Placed {
                    place: done.place,
                    reply: Reply::Count(done.len),
                };
            }
            Err(refusal) => {
                if !makes_room(mount, pass, refusal, worker) {
                    return without_place(pass, refusal);
                }
            }
        }
    }
    unreachable!()
}

// A sync.
fn make_sync<L: Lines + Drop, B: Backing + Drop>(
    mount: &Mount<L, B>,
    pass: &mut Pass<L, B>,
    fd: u64,
) -> Answer
    requires board { IsOf mount.now.board pass.old }
    requires idle { IsIdle pass.old }
    ensures board { IsOf mount.now.board pass.new }
    ensures idle { IsIdle pass.new }
    ensures later { IsLater pass.old pass.new }
    ensures made { (worker : Option ℕ) → IsMadeFor mount.now.fds worker (calls.Fsync fd) pass.old pass.new result }
    ensures told { (worker : Option ℕ) → Tells mount.now.fds worker (calls.Fsync fd) pass.old pass.new result }
    ensures stays { HasSeenStop pass.old → HasSeenStop pass.new }
    ensures stop { says_stop result ≡ true → HasSeenStop pass.new }
    ensures opens { OpensAs mount.now.fds (calls.Fsync fd) pass.old pass.new result }
    ensures on { GoesOn None 0 pass.old pass.new }
    ensures admitted { IsAdmitted pass.new.view.opened.sizes mount.now.fds (calls.Fsync fd) result }
{
    faults_open_writes();
    tries_go_on();
    pass.sees_a_run();
    match try_fsync(mount, pass, fd) {
        Ok(done) => Answer::Placed {
            place: done.place,
            reply: Reply::Done,
        },
        Err(refusal) => Answer::Refused(refusal),
    }
}

/// Makes one call, again as long as a lock is found held or another write draws its numbers, and, where `worker` tells the most entries of a batch, runs a batch of the cleaner
/// behind each try for which the log has no room. It may wait for ever, so it returns only where the others give their locks back, and the log gets room. The answer is the
/// call's place in the history, with the reply that plain files give after the calls before it; or why it has none, which is none of these; and a write that a device fault ended is open. A read's bytes
/// lie in the last of `rooms`, which is taken out of them, and in memory of `alloc` where it is too short or there is none; a vectored call takes memory for its parts before it is begun: where that is wanting nothing was
/// done. No other call takes memory.
pub fn make_call<R: Wait, L: Lines + Drop, B: Backing + Drop>(
    rt: &R,
    alloc: Global,
    mount: &Mount<L, B>,
    pass: &mut Pass<L, B>,
    workspace: &mut Workspace<L, B>,
    call: &TraceCall,
    worker: Option<u64>,
    rooms: &mut Vec<Vec<u8>>,
) -> Result<Answer, NoMemory>
    requires board { IsOf mount.now.board pass.old }
    requires idle { IsIdle pass.old }
    requires workspace { IsWorkspace mount.now.board.opened.sizes workspace.old }
    requires bare { workspace.old.parts.items ≡ [] }
    ensures board { IsOf mount.now.board pass.new }
    ensures idle { IsIdle pass.new }
    ensures later { IsLater pass.old pass.new }
    ensures workspace { IsWorkspace mount.now.board.opened.sizes workspace.new }
    ensures bare { workspace.new.parts.items ≡ [] }
    ensures answered { IfOk result (λ answer. IsAnswered mount.now.fds worker call.now pass.old pass.new answer) }
    ensures memory { OnErr result (pass.new ≡ pass.old) }
{
    match call {
        TraceCall::Pread { fd, at, len } => {
            make_read(rt, alloc, mount, pass, *fd, *at, *len, rooms)
        }
        TraceCall::Pwrite { fd, at, bytes } => Ok(make_write(
            rt,
            mount,
            pass,
            workspace,
            *fd,
            *at,
            Written::Bytes(bytes.as_slice()),
            worker,
        )),
        TraceCall::Preadv { fd, at, lens } => { make_readv(rt, alloc, mount, pass, *fd, *at, lens) }
        TraceCall::Pwritev { fd, at, parts } => {
            let parts = gathered(alloc, parts)?;
            let written = Written::Parts(&parts);
            Ok(make_write(rt, mount, pass, workspace, *fd, *at, written, worker))
        }
        TraceCall::Fsync { fd } => Ok(make_sync(mount, pass, *fd)),
    }
}
