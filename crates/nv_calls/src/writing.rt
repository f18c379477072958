//! A write that is made one step at a time.
ghost use Rattle.std.specs.Prelude.{◌≡◌, ◌<◌, ℕ, [], is_some, min, vec_capacity};
ghost use Rattle.nv_plain.specs.Layouts.{mount_layout};
ghost use Rattle.nv_plain.specs.declared.call.FileCall.{FileCall};
ghost use Rattle.nv_core.specs.state.Passes.{plain_call};
ghost use Rattle.nv_ring.specs.RunningWrites.{IsOpen, IsSettled, IsUnderWay, asked_in, write_measure};
ghost use Rattle.nv_ring.specs.WriteSteps.{HasMadeOne};
ghost use Rattle.nv_table.specs.state.States.{IsOf, PassState};
ghost use Rattle.nv_table.specs.state.Workspaces.{IsWorkspace};
ghost use Rattle.nv_calls.specs.calls.Advances.{IsFewer, IsOneOrNone};
ghost use Rattle.nv_calls.specs.declared.writing.WriteControl.TheVariants as writes;
ghost use Rattle.nv_calls.specs.writes.WriteMachines.{IsPutIn, IsSameWrite, IsWriteUnderWay, IsWriteUnderWayAs, IsWritevUnderWay, WriteGoes, WritevGoes, early_of, fault_so_far, measure, next_kind_of, placed_by, progress_of, standing};

use crate::admit::{Access, admit};
use crate::{Gather, Progress};
use nv_mirror::{Done, Refusal};
use nv_mount::Mount;
use nv_op::{Asked, Asks, Kind};
use nv_pmem::Lines;
use nv_ring::RunningWrite;
use nv_store::Backing;
use nv_table::{Board, Pass, Workspace};
use std::marker::Brand;

/// Where it stands.
#[derive(Clone, Copy, Debug, PartialEq, Eq)]
pub enum WriteControl {
    /// It has made no step yet.
    Begin,
    /// It has made some, or is over. Its list is put in at each advance, and taken out again.
    Running(RunningWrite<'static>),
}

/// A write of a descriptor, which makes one step at each advance.
#[derive(Clone, Copy, Debug, PartialEq, Eq)]
pub struct WriteMachine {
    pub fd: u64,
    pub at: u64,
    pub len: u64,
    pub control: WriteControl,
}

// What an advance came to behind which the write is so.
fn progress(write: RunningWrite<'_>, len: u64) -> Progress
    ensures { result ≡ progress_of len write.entry }
{
    match write {
        RunningWrite::Over(Ok(place)) => Progress::Ended(Ok(Done { place, len })),
        RunningWrite::Over(Err(refusal)) => Progress::Ended(Err(refusal)),
        _ => Progress::More,
    }
}

// Makes the next step of a vectored write, whose parts the marker's call names.
fn advance_in_parts<A: Asks, L: Lines + Drop, B: Backing + Drop>(
    board: &Board<L, B>,
    pass: &mut Pass<L, B>,
    workspace: &mut Workspace<L, B>,
    write: &mut RunningWrite<'_>,
    _parts: &Gather,
)
    requires board { IsOf board.now pass.old }
    requires open { IsOpen write.old }
    requires workspace { IsWorkspace board.now.opened.sizes workspace.old }
    requires bare { workspace.old.parts.items ≡ [] }
    requires way { (start : PassState) × IsUnderWay (plain_call A.call) write.old start pass.old }
    ensures board { IsOf board.now pass.new }
    ensures settled { IsSettled write.new }
    ensures one { HasMadeOne write.old write.new pass.old pass.new }
    ensures falls { write_measure write.new < write_measure write.old }
    ensures asks { asked_in A.call write.new pass.new ≡ asked_in A.call write.old pass.old }
    ensures way { (call : FileCall) (start : PassState) → IsUnderWay call write.old start pass.old → IsUnderWay call write.new start pass.new }
    ensures workspace { IsWorkspace board.now.opened.sizes workspace.new }
    ensures bare { workspace.new.parts.items ≡ [] }
{
    write.advance::<A, L, B>(board, pass, workspace.parts());
}

impl WriteMachine {
    /// A write of `len` bytes from the offset `at` on, which has made no step yet.
    pub fn new(fd: u64, at: u64, len: u64) -> Self
        ensures { result ≡ record { fd = fd; at = at; len = len; control = writes.Begin } }
    {
        WriteMachine {
            fd,
            at,
            len,
            control: WriteControl::Begin,
        }
    }

    /// The kind of the next step, if each device call before it ends well. Before the first advance it is that of the first step of a write
    /// which isn't refused before.
    pub fn next_kind(&self) -> Kind
        ensures { result ≡ next_kind_of self.now }
    {
        match self.control {
            WriteControl::Begin if self.len == 0 => Kind::Load,
            WriteControl::Begin => Kind::Take,
            WriteControl::Running(write) => write.next_kind(),
        }
    }

    /// Its answer, from the step on by which it takes its place.
    pub fn placed(&self) -> Option<Done>
        ensures { result ≡ placed_by self.now }
    {
        let place = match self.control {
            WriteControl::Begin => None,
            WriteControl::Running(write) => write.placed(),
        };
        place.map(|place| Done {
            place,
            len: self.len,
        })
    }

    /// Whether a device call of its advances has failed.
    pub fn faulted(&self) -> bool
        ensures { result ≡ is_some (fault_so_far self.now) }
    {
        match self.control {
            WriteControl::Begin => false,
            WriteControl::Running(write) => write.faulted(),
        }
    }

    // The write of its descriptor's file, with its list put in; unless it is refused before its first step.
    fn put_in<'a, L: Lines + Drop, B: Backing + Drop>(
        &self,
        mount: &Mount<L, B>,
        list: &'a [u8],
    ) -> Result<RunningWrite<'a>, Refusal>
        requires under_way { (asked : ℕ → FileCall) × (start : PassState) × (now : PassState) × (now.view.opened ≡ mount.now.board.opened) × IsWriteUnderWayAs asked mount.now.fds self.now list.now start now }
        ensures { IsPutIn mount.now.board.opened.sizes mount.now.fds self.now list.now result }
    {
        match self.control {
            WriteControl::Begin => {
                let layout = mount.board().layout();
                let file = admit(mount, Access::Writes, self.fd, self.at, self.len)?;
                let asked = Asked::Write {
                    file,
                    at: self.at,
                    bytes: list,
                };
                Ok(RunningWrite::new(layout, asked))
            }
            WriteControl::Running(write) => Ok(write.with_list(list)),
        }
    }

    /// Makes the next step, after the device calls that lie before it; a write that is refused by what it asks for ends at its first advance,
    /// with no step. `list` has the bytes that are written, as many as it was made for, and the same at each advance. The pass was idle before the
    /// first one, and has begun no other call since. On its workspace the parts of the write's entries lie while they are written.
    pub fn advance<L: Lines + Drop, B: Backing + Drop>(
        &mut self,
        mount: &Mount<L, B>,
        pass: &mut Pass<L, B>,
        workspace: &mut Workspace<L, B>,
        list: &[u8],
    ) -> Progress
        requires board { IsOf mount.now.board pass.old }
        requires under_way { (start : PassState) × IsWriteUnderWay mount.now.fds self.old list.now start pass.old }
        requires workspace { IsWorkspace mount.now.board.opened.sizes workspace.old }
        requires bare { workspace.old.parts.items ≡ [] }
        ensures board { IsOf mount.now.board pass.new }
        ensures same { IsSameWrite self.old self.new }
        ensures one { IsOneOrNone standing (early_of pass.old.view.opened.sizes mount.now.fds self.old) self.old self.new pass.old pass.new result }
        ensures fewer { IsFewer (measure pass.old.view.opened.sizes) self.old self.new result }
        ensures goes { (start : PassState) → IsWriteUnderWay mount.now.fds self.old list.now start pass.old → WriteGoes mount.now.fds start self.new list.now pass.new result }
        ensures workspace { IsWorkspace mount.now.board.opened.sizes workspace.new }
        ensures bare { workspace.new.parts.items ≡ [] }
    {
        let mut write = match self.put_in(mount, list) {
            Ok(write) => write,
            Err(refusal) => return Progress::Ended(Err(refusal)),
        };
        write.advance::<Brand, L, B>(mount.board(), pass, workspace.parts());
        self.control = WriteControl::Running(write.with_list(&[]));
        progress(write, self.len)
    }
    /// So an advance of a vectored write of these parts, whose bytes, joined in order, are as many as it was made for.
    pub fn advance_parts<L: Lines + Drop, B: Backing + Drop>(
        &mut self,
        mount: &Mount<L, B>,
        pass: &mut Pass<L, B>,
        workspace: &mut Workspace<L, B>,
        parts: &Gather,
    ) -> Progress
        requires board { IsOf mount.now.board pass.old }
        requires under_way { (start : PassState) × IsWritevUnderWay mount.now.fds self.old parts.now start pass.old }
        requires workspace { IsWorkspace mount.now.board.opened.sizes workspace.old }
        requires bare { workspace.old.parts.items ≡ [] }
        ensures board { IsOf mount.now.board pass.new }
        ensures same { IsSameWrite self.old self.new }
        ensures one { IsOneOrNone standing (early_of pass.old.view.opened.sizes mount.now.fds self.old) self.old self.new pass.old pass.new result }
        ensures fewer { IsFewer (measure pass.old.view.opened.sizes) self.old self.new result }
        ensures goes { (start : PassState) → IsWritevUnderWay mount.now.fds self.old parts.now start pass.old → WritevGoes mount.now.fds start self.new parts.now pass.new result }
        ensures workspace { IsWorkspace mount.now.board.opened.sizes workspace.new }
        ensures bare { workspace.new.parts.items ≡ [] }
    {
        let mut write = match self.put_in(mount, parts.joined()) {
            Ok(write) => write,
            Err(refusal) => return Progress::Ended(Err(refusal)),
        };
        advance_in_parts::<Brand, L, B>(mount.board(), pass, workspace, &mut write, parts);
        self.control = WriteControl::Running(write.with_list(&[]));
        progress(write, self.len)
    }
}
