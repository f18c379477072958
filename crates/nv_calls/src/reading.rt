//! A read that is made one step at a time.
ghost use Rattle.std.specs.Prelude.{◌≡◌, ◌<◌, ℕ, List, is_some, length};
ghost use Rattle.nv_plain.specs.declared.call.FileCall.{FileCall};
ghost use Rattle.nv_core.specs.state.Passes.{plain_call};
ghost use Rattle.nv_core.specs.state.Words.{Sizes};
ghost use Rattle.nv_cache.specs.ReadSteps.{HasMadeOne};
ghost use Rattle.nv_cache.specs.RunningReads.{IsOpen, IsSettled, IsUnderWay, asked_in, read_measure};
ghost use Rattle.nv_table.specs.state.States.{IsOf, PassState};
ghost use Rattle.nv_calls.specs.calls.Advances.{IsFewer, IsOneOrNone};
ghost use Rattle.nv_calls.specs.declared.reading.ReadControl.TheVariants as reads;
ghost use Rattle.nv_calls.specs.reads.Reads.{HaveGot};
ghost use Rattle.nv_calls.specs.reads.ReadMachines.{IsBegun, IsReadUnderWay, IsReadUnderWayAs, IsReadvUnderWay, IsSameRead, ReadGoes, ReadvGoes, early_of, fault_so_far, got_now, got_so_far, measure, next_kind_of, placed_by, progress_of, standing};

use crate::admit::{Access, admit};
use crate::{Progress, Scatter};
use nv_cache::{MOST_PAGE, RunningRead};
use nv_core::{passes_are_left_alone, runs_are_sound};
use nv_mirror::{Done, Refusal};
use nv_mount::Mount;
use nv_op::{Asks, Kind};
use nv_pmem::Lines;
use nv_store::Backing;
use nv_table::{Board, Pass};
use std::marker::Brand;

/// Where it stands.
#[derive(Clone, Copy, Debug, PartialEq, Eq)]
pub enum ReadControl {
    /// It has made no step yet.
    Begin,
    /// It has made some, or is over.
    Running(RunningRead),
}

/// A read of a descriptor, which makes one step at each advance.
#[derive(Debug, Drop)]
pub struct ReadMachine {
    pub fd: u64,
    pub at: u64,
    pub len: u64,
    pub control: ReadControl,
    /// Room for the bytes of a page that it loads.
    pub room: [u8; MOST_PAGE],
}

// What an advance came to behind which the read is so.
fn progress(read: RunningRead) -> Progress
    ensures { result ≡ progress_of read }
{
    match read {
        RunningRead::Over(result) => Progress::Ended(result),
        _ => Progress::More,
    }
}

// Makes the next step of a read that loads a page, with room for a piece of it: in a frame of its own, which no other step pays for.
#[inline(never)]
fn advance_with_piece<A: Asks, L: Lines, B: Backing>(
    board: &Board<L, B>,
    pass: &mut Pass<L, B>,
    read: &mut RunningRead,
    room: &mut [u8],
    list: &mut [u8],
)
    requires board { IsOf board.now pass.old }
    requires open { IsOpen read.old }
    requires room { length room.old ≡ pass.old.view.opened.sizes.page }
    requires way { (start : PassState) × IsUnderWay (plain_call A.call) read.old list.old room.old start pass.old }
    ensures board { IsOf board.now pass.new }
    ensures settled { IsSettled read.new }
    ensures one { HasMadeOne read.old read.new pass.old pass.new }
    ensures falls { read_measure pass.old.view.opened.sizes read.new < read_measure pass.old.view.opened.sizes read.old }
    ensures asks { asked_in A.call read.new pass.new ≡ asked_in A.call read.old pass.old }
    ensures way { (call : FileCall) (start : PassState) → IsUnderWay call read.old list.old room.old start pass.old → IsUnderWay call read.new list.new room.new start pass.new }
{
    let page = board.layout().page as usize;
    let mut piece = [0; MOST_PAGE];
    read.advance::<A, L, B>(board, pass, room, &mut piece[..page], list);
}

// Makes the next step of a read, in this room for a page.
pub(crate) fn advance_in<A: Asks, L: Lines, B: Backing>(
    board: &Board<L, B>,
    pass: &mut Pass<L, B>,
    read: &mut RunningRead,
    room: &mut [u8],
    list: &mut [u8],
)
    requires board { IsOf board.now pass.old }
    requires open { IsOpen read.old }
    requires room { length room.old ≡ pass.old.view.opened.sizes.page }
    requires way { (start : PassState) × IsUnderWay (plain_call A.call) read.old list.old room.old start pass.old }
    ensures board { IsOf board.now pass.new }
    ensures settled { IsSettled read.new }
    ensures one { HasMadeOne read.old read.new pass.old pass.new }
    ensures falls { read_measure pass.old.view.opened.sizes read.new < read_measure pass.old.view.opened.sizes read.old }
    ensures asks { asked_in A.call read.new pass.new ≡ asked_in A.call read.old pass.old }
    ensures way { (call : FileCall) (start : PassState) → IsUnderWay call read.old list.old room.old start pass.old → IsUnderWay call read.new list.new room.new start pass.new }
{
    if read.needs_rooms() {
        advance_with_piece::<A, L, B>(board, pass, read, room, list);
    } else {
        read.advance::<A, L, B>(board, pass, room, &mut [], list);
    }
}

// So of a vectored read, whose parts the marker's call names.
fn advance_in_parts<A: Asks, L: Lines, B: Backing>(
    board: &Board<L, B>,
    pass: &mut Pass<L, B>,
    read: &mut RunningRead,
    room: &mut [u8],
    parts: &mut Scatter,
)
    requires board { IsOf board.now pass.old }
    requires open { IsOpen read.old }
    requires room { length room.old ≡ pass.old.view.opened.sizes.page }
    requires way { (start : PassState) × IsUnderWay (plain_call A.call) read.old parts.old.list room.old start pass.old }
    ensures board { IsOf board.now pass.new }
    ensures settled { IsSettled read.new }
    ensures one { HasMadeOne read.old read.new pass.old pass.new }
    ensures falls { read_measure pass.old.view.opened.sizes read.new < read_measure pass.old.view.opened.sizes read.old }
    ensures asks { asked_in A.call read.new pass.new ≡ asked_in A.call read.old pass.old }
    ensures way { (call : FileCall) (start : PassState) → IsUnderWay call read.old parts.old.list room.old start pass.old → IsUnderWay call read.new parts.new.list room.new start pass.new }
    ensures got { HaveGot (got_now read.new) parts.old parts.new }
{
    parts.advance_as::<A, L, B>(board, pass, read, room);
    if let RunningRead::Over(Ok(done)) = *read {
        parts.fill(done.len);
    }
}

impl ReadMachine {
    /// A read of `len` bytes from the offset `at` on, which has made no step yet.
    pub fn new(fd: u64, at: u64, len: u64) -> Self
        ensures { result ≡ record { fd = fd; at = at; len = len; control = reads.Begin; room = result.room } }
    {
        ReadMachine {
            fd,
            at,
            len,
            control: ReadControl::Begin,
            room: [0; MOST_PAGE],
        }
    }

    /// The kind of the next step, if each device call before it ends well. Before the first advance it is that of the first step of a read
    /// which isn't refused before.
    pub fn next_kind(&self) -> Kind
        ensures { (sizes : Sizes) → result ≡ next_kind_of sizes self.now }
    {
        match self.control {
            ReadControl::Begin if self.len == 0 => Kind::Load,
            ReadControl::Begin => Kind::Take,
            ReadControl::Running(read) => read.next_kind(),
        }
    }

    /// Its answer, from the step on by which it takes its place.
    pub fn placed(&self) -> Option<Done>
        ensures { result ≡ placed_by self.now }
    {
        match self.control {
            ReadControl::Begin => None,
            ReadControl::Running(read) => read.placed(),
        }
    }

    /// Whether a device call of its advances has failed.
    pub fn faulted(&self) -> bool
        ensures { result ≡ is_some (fault_so_far self.now) }
    {
        match self.control {
            ReadControl::Begin => false,
            ReadControl::Running(read) => read.faulted(),
        }
    }

    // The read of its descriptor's file, unless it is refused before its first step.
    fn begun<L: Lines + Drop, B: Backing + Drop>(
        &self,
        mount: &Mount<L, B>,
    ) -> Result<RunningRead, Refusal>
        requires under_way { (asked : ℕ → ℕ → FileCall) × (list : List ℕ) × (start : PassState) × (now : PassState) × (now.view.opened ≡ mount.now.board.opened) × IsReadUnderWayAs asked mount.now.fds self.now list start now }
        ensures { IsBegun mount.now.board.opened.sizes mount.now.fds self.now result }
    {
        match self.control {
            ReadControl::Begin => {
                let file = admit(mount, Access::Reads, self.fd, self.at, self.len)?;
                let layout = mount.board().layout();
                Ok(RunningRead::new(layout, file, self.at, self.len))
            }
            ReadControl::Running(read) => Ok(read),
        }
    }

    /// Makes the next step, after the device calls that lie before it; a read that is refused by what it asks for ends at its first advance,
    /// with no step. `list` has as many bytes as the read asks for, the same at each advance; the reply comes to its front. The pass was
    /// idle before the first one, and has begun no other call since.
    pub fn advance<L: Lines + Drop, B: Backing + Drop>(
        &mut self,
        mount: &Mount<L, B>,
        pass: &mut Pass<L, B>,
        list: &mut [u8],
    ) -> Progress
        requires board { IsOf mount.now.board pass.old }
        requires under_way { (start : PassState) × IsReadUnderWay mount.now.fds self.old list.old start pass.old }
        ensures board { IsOf mount.now.board pass.new }
        ensures same { IsSameRead self.old self.new }
        ensures one { IsOneOrNone (standing pass.old.view.opened.sizes) (early_of pass.old.view.opened.sizes mount.now.fds self.old) self.old self.new pass.old pass.new result }
        ensures less { IsFewer (measure pass.old.view.opened.sizes) self.old self.new result }
        ensures goes { (start : PassState) → IsReadUnderWay mount.now.fds self.old list.old start pass.old → ReadGoes mount.now.fds start self.new list.new pass.new result }
    {
        runs_are_sound();
        passes_are_left_alone();
        pass.sees_a_run();
        let mut read = match self.begun(mount) {
            Ok(read) => read,
            Err(refusal) => return Progress::Ended(Err(refusal)),
        };
        let board = mount.board();
        let page = board.layout().page as usize;
        advance_in::<Brand, L, B>(board, pass, &mut read, &mut self.room[..page], list);
        self.control = ReadControl::Running(read);
        progress(read)
    }
    /// So an advance of a vectored read: it asks for as many bytes as the parts do together, and these have got none until it is over; then they have
    /// got its reply, each filled to its end before the next.
    pub fn advance_parts<L: Lines + Drop, B: Backing + Drop>(
        &mut self,
        mount: &Mount<L, B>,
        pass: &mut Pass<L, B>,
        parts: &mut Scatter,
    ) -> Progress
        requires board { IsOf mount.now.board pass.old }
        requires under_way { (start : PassState) × IsReadvUnderWay mount.now.fds self.old parts.old start pass.old }
        ensures board { IsOf mount.now.board pass.new }
        ensures same { IsSameRead self.old self.new }
        ensures one { IsOneOrNone (standing pass.old.view.opened.sizes) (early_of pass.old.view.opened.sizes mount.now.fds self.old) self.old self.new pass.old pass.new result }
        ensures less { IsFewer (measure pass.old.view.opened.sizes) self.old self.new result }
        ensures got { HaveGot (got_so_far result) parts.old parts.new }
        ensures goes { (start : PassState) → IsReadvUnderWay mount.now.fds self.old parts.old start pass.old → ReadvGoes mount.now.fds start self.new parts.new pass.new result }
    {
        runs_are_sound();
        passes_are_left_alone();
        pass.sees_a_run();
        parts.empty();
        let mut read = match self.begun(mount) {
            Ok(read) => read,
            Err(refusal) => return Progress::Ended(Err(refusal)),
        };
        let board = mount.board();
        let page = board.layout().page as usize;
        advance_in_parts::<Brand, L, B>(board, pass, &mut read, &mut self.room[..page], parts);
        self.control = ReadControl::Running(read);
        progress(read)
    }
}
