//! Calls that are made one step at a time, to their ends.
ghost use Rattle.std.specs.Prelude.{◌≡◌, []};
ghost use Rattle.nv_table.specs.invariant.Idle.{IsIdle, IsLater};
ghost use Rattle.nv_table.specs.state.States.{IsOf, PassState};
ghost use Rattle.nv_table.specs.state.Workspaces.{IsWorkspace};
ghost use Rattle.nv_calls.specs.fsync.SyncMachines.{IsSyncUnderWay};
ghost use Rattle.nv_calls.specs.reads.ReadMachines.{IsReadUnderWay, IsReadvUnderWay};
ghost use Rattle.nv_calls.specs.writes.WriteMachines.{IsWriteUnderWay, IsWritevUnderWay};

use nv_calls::{
    Done, Gather, Kind, Progress, ReadMachine, Refusal, Scatter, SyncMachine, WriteMachine,
};
use nv_mount::Mount;
use nv_pmem::MemPart;
use nv_store::MemStore;
use nv_table::{Pass, Workspace};
use std::alloc::Global;
use std::process::Abort;

// Advances a read to its end, and writes down the kinds of its steps, as it names them before.
pub(crate) fn read_slowly(
    rt: &impl Abort,
    alloc: Global,
    mount: &Mount<MemPart, MemStore>,
    pass: &mut Pass<MemPart, MemStore>,
    read: &mut ReadMachine,
    list: &mut [u8],
) -> (Vec<Kind>, Result<Done, Refusal>)
    requires board { IsOf mount.now.board pass.old }
    requires way { (start : PassState) × IsIdle start × IsReadUnderWay mount.now.fds read.old list.old start pass.old }
    ensures board { IsOf mount.now.board pass.new }
    ensures idle { IsIdle pass.new }
    ensures later { (start : PassState) → IsIdle start → IsReadUnderWay mount.now.fds read.old list.old start pass.old → IsLater start pass.new }
{
    let mut kinds = Vec::new(alloc);
    loop {
        kinds.push(read.next_kind()).expect(rt, "there is memory");
        if let Progress::Ended(result) = read.advance(mount, pass, list) {
            return (kinds, result);
        }
    }
}

// Advances a write to its end, and writes down the kinds of its steps, as it names them before.
pub(crate) fn write_slowly(
    rt: &impl Abort,
    alloc: Global,
    mount: &Mount<MemPart, MemStore>,
    pass: &mut Pass<MemPart, MemStore>,
    workspace: &mut Workspace<MemPart, MemStore>,
    write: &mut WriteMachine,
    list: &[u8],
) -> (Vec<Kind>, Result<Done, Refusal>)
    requires board { IsOf mount.now.board pass.old }
    requires way { (start : PassState) × IsIdle start × IsWriteUnderWay mount.now.fds write.old list.now start pass.old }
    requires workspace { IsWorkspace mount.now.board.opened.sizes workspace.old }
    requires bare { workspace.old.parts.items ≡ [] }
    ensures board { IsOf mount.now.board pass.new }
    ensures idle { IsIdle pass.new }
    ensures later { (start : PassState) → IsIdle start → IsWriteUnderWay mount.now.fds write.old list.now start pass.old → IsLater start pass.new }
    ensures workspace { IsWorkspace mount.now.board.opened.sizes workspace.new }
    ensures bare { workspace.new.parts.items ≡ [] }
{
    let mut kinds = Vec::new(alloc);
    loop {
        kinds.push(write.next_kind()).expect(rt, "there is memory");
        if let Progress::Ended(result) = write.advance(mount, pass, workspace, list) {
            return (kinds, result);
        }
    }
}

// Advances a vectored read to its end.
pub(crate) fn read_parts_slowly(
    mount: &Mount<MemPart, MemStore>,
    pass: &mut Pass<MemPart, MemStore>,
    read: &mut ReadMachine,
    parts: &mut Scatter,
) -> Result<Done, Refusal>
    requires board { IsOf mount.now.board pass.old }
    requires way { (start : PassState) × IsIdle start × IsReadvUnderWay mount.now.fds read.old parts.old start pass.old }
    ensures board { IsOf mount.now.board pass.new }
    ensures idle { IsIdle pass.new }
    ensures later { (start : PassState) → IsIdle start → IsReadvUnderWay mount.now.fds read.old parts.old start pass.old → IsLater start pass.new }
{
    loop {
        if let Progress::Ended(result) = read.advance_parts(mount, pass, parts) {
            return result;
        }
    }
}

// Advances a vectored write to its end.
pub(crate) fn write_parts_slowly(
    mount: &Mount<MemPart, MemStore>,
    pass: &mut Pass<MemPart, MemStore>,
    workspace: &mut Workspace<MemPart, MemStore>,
    write: &mut WriteMachine,
    parts: &Gather,
) -> Result<Done, Refusal>
    requires board { IsOf mount.now.board pass.old }
    requires way { (start : PassState) × IsIdle start × IsWritevUnderWay mount.now.fds write.old parts.now start pass.old }
    requires workspace { IsWorkspace mount.now.board.opened.sizes workspace.old }
    requires bare { workspace.old.parts.items ≡ [] }
    ensures board { IsOf mount.now.board pass.new }
    ensures idle { IsIdle pass.new }
    ensures later { (start : PassState) → IsIdle start → IsWritevUnderWay mount.now.fds write.old parts.now start pass.old → IsLater start pass.new }
    ensures workspace { IsWorkspace mount.now.board.opened.sizes workspace.new }
    ensures bare { workspace.new.parts.items ≡ [] }
{
    loop {
        if let Progress::Ended(result) = write.advance_parts(mount, pass, workspace, parts) {
            return result;
        }
    }
}

// Advances a sync that has made no step to its end, and writes down the kinds of its steps, as it names them before.
pub(crate) fn sync_slowly(
    rt: &impl Abort,
    alloc: Global,
    mount: &Mount<MemPart, MemStore>,
    pass: &mut Pass<MemPart, MemStore>,
    sync: &mut SyncMachine,
) -> (Vec<Kind>, Result<Done, Refusal>)
    requires board { IsOf mount.now.board pass.old }
    requires begun { IsSyncUnderWay mount.now.fds sync.old pass.old pass.old }
    ensures board { IsOf mount.now.board pass.new }
    ensures idle { IsIdle pass.new }
    ensures later { IsLater pass.old pass.new }
{
    let mut kinds = Vec::new(alloc);
    loop {
        kinds.push(sync.next_kind()).expect(rt, "there is memory");
        if let Progress::Ended(result) = sync.advance(mount, pass) {
            return (kinds, result);
        }
    }
}
