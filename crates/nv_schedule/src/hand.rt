//! What a thread has at hand of its present call.
ghost use Rattle.std.specs.Prelude.{◌≡◌, ℕ, List, [], IfOk, None, is_some, length, take};
ghost use Rattle.std.specs.List.{sum};
ghost use Rattle.nv_plain.specs.Calls.{filled};
ghost use Rattle.nv_plain.specs.declared.call.Reply.TheVariants as replies;
ghost use Rattle.nv_core.specs.state.Words.{Sizes};
ghost use Rattle.nv_table.specs.invariant.Idle.{IsIdle};
ghost use Rattle.nv_table.specs.state.States.{IsOf, PassState};
ghost use Rattle.nv_table.specs.state.Workspaces.{IsWorkspace};
ghost use Rattle.nv_calls.specs.calls.Advances.{IsOneOrNone};
ghost use Rattle.nv_calls.specs.reads.ReadMachines.{IsReadUnderWay, IsReadvUnderWay, IsSameRead, ReadGoes, ReadvGoes, early_of, standing};
ghost use Rattle.nv_mount.specs.declared.fds.Fd.{Fd};
ghost use Rattle.nv_schedule.specs.Barred.{IsRefusedEarly};
ghost use Rattle.nv_schedule.specs.Faulted.{fault_at_hand};
ghost use Rattle.nv_schedule.specs.Hands.{IsOneOrNoStep, IsTrying, TryGoes, kind_at_hand, list_at_hand};
ghost use Rattle.nv_schedule.specs.Listed.{ends_by_fault, has_drawn, has_drawn_at_hand, placed_at_hand, reply_at_hand, told_at_hand};
ghost use Rattle.nv_schedule.specs.Tries.{reply_to};

use nv_calls::{
    Done, Gather, Kind, Progress, ReadMachine, Refusal, Scatter, SyncMachine, WriteControl,
    WriteMachine,
};
use nv_core::{passes_are_left_alone, runs_are_sound};
use nv_mirror::{FrontControl, FrontMachine};
use nv_mount::Mount;
use nv_plain::{Bytes, NoMemory, Parts, Reply};
use nv_pmem::Lines;
use nv_ring::RunningWrite;
use nv_runner::{Answer, fill_rooms, gathered, reply_rooms, scattered};
use nv_store::Backing;
use nv_table::{Pass, Workspace};
use nv_trace::{LenList, TraceCall};
use std::alloc::Global;
use std::marker::Model;

/// The machine of a read that is tried, with room for the read's bytes.
#[derive(Drop)]
pub(crate) struct ReadAtHand {
    pub(crate) machine: ReadMachine,
    pub(crate) list: Vec<u8>,
}

impl ReadAtHand {
    // Makes the next step of the read, or none where it is refused by what it asks for.
    fn advance<L: Lines + Drop, B: Backing + Drop>(
        &mut self,
        mount: &Mount<L, B>,
        pass: &mut Pass<L, B>,
    ) -> Progress
        requires board { IsOf mount.now.board pass.old }
        requires under_way { (begun : PassState) × IsReadUnderWay mount.now.fds self.old.machine self.old.list.items begun pass.old }
        ensures board { IsOf mount.now.board pass.new }
        ensures one { IsOneOrNone (standing pass.old.view.opened.sizes) (early_of pass.old.view.opened.sizes mount.now.fds self.old.machine) self.old.machine self.new.machine pass.old pass.new result }
        ensures same { IsSameRead self.old.machine self.new.machine }
        ensures goes { (begun : PassState) → IsReadUnderWay mount.now.fds self.old.machine self.old.list.items begun pass.old
            → ReadGoes mount.now.fds begun self.new.machine self.new.list.items pass.new result }
        ensures size { length self.new.list.items ≡ length self.old.list.items }
    {
        self.machine.advance(mount, pass, self.list.as_mut_slice())
    }
}

/// The parts of a vectored read that is tried, with room for what each of them gets.
#[derive(Drop)]
pub(crate) struct PartsAtHand {
    alloc: Global,
    parts: Scatter,
    rooms: Vec<Bytes>,
}

impl Model for PartsAtHand {
    ghost use Rattle.std.specs.Prelude.{◌≡◌, length, map};
    ghost use Rattle.nv_calls.specs.calls.Scattered.{Scattered};

    ghost Value = { Scattered };

    ghost view = { λ p. p.parts };

    ghost invariant = { λ p. map (λ room. length room) p.rooms.items ≡ p.parts.lens };
}

impl PartsAtHand {
    // Parts of these lengths, which have got none.
    fn new(alloc: Global, lens: &LenList) -> Result<PartsAtHand, NoMemory>
        ensures { IfOk result (λ parts. parts.lens ≡ lens.now) }
    {
        Ok(PartsAtHand {
            alloc,
            parts: scattered(alloc, lens)?,
            rooms: reply_rooms(alloc, lens)?,
        })
    }

    // How many bytes all of them ask for together: as many as their room has.
    fn total(&self) -> u64
        ensures sum { result ≡ sum self.now.lens }
        ensures room { result ≡ length self.now.list }
    {
        self.parts.total()
    }

    // Makes the next step of their read, or none where it is refused by what it asks for.
    fn advance<L: Lines + Drop, B: Backing + Drop>(
        &mut self,
        machine: &mut ReadMachine,
        mount: &Mount<L, B>,
        pass: &mut Pass<L, B>,
    ) -> Progress
        requires board { IsOf mount.now.board pass.old }
        requires under_way { (begun : PassState) × IsReadvUnderWay mount.now.fds machine.old self.old begun pass.old }
        ensures board { IsOf mount.now.board pass.new }
        ensures one { IsOneOrNone (standing pass.old.view.opened.sizes) (early_of pass.old.view.opened.sizes mount.now.fds machine.old) machine.old machine.new pass.old pass.new result }
        ensures same { IsSameRead machine.old machine.new }
        ensures goes { (begun : PassState) → IsReadvUnderWay mount.now.fds machine.old self.old begun pass.old → ReadvGoes mount.now.fds begun machine.new self.new pass.new result }
        ensures lens { self.new.lens ≡ self.old.lens }
        ensures size { length self.new.list ≡ sum self.new.lens }
    {
        machine.advance_parts(mount, pass, &mut self.parts)
    }

    // Their reply, where they got so many bytes, or as many as they have room for.
    fn into_reply(self, len: u64) -> Reply
        ensures { result ≡ replies.Parts (filled self.lens (take len self.list)) }
    {
        let PartsAtHand {
            alloc,
            mut parts,
            mut rooms,
        } = self;
        let got = len.min(parts.total());
        parts.fill(got);
        fill_rooms(alloc, &parts, &mut rooms);
        Reply::Parts(Parts::from_vec(rooms))
    }
}

/// The machine of a vectored read that is tried, with its parts.
#[derive(Drop)]
pub(crate) struct ReadvAtHand {
    pub(crate) machine: ReadMachine,
    pub(crate) parts: PartsAtHand,
}

/// The machine of a vectored write that is tried, with its parts.
#[derive(Drop)]
pub(crate) struct WritevAtHand {
    pub(crate) machine: WriteMachine,
    pub(crate) parts: Gather,
}

/// The machine of a call that is tried.
#[derive(Drop)]
pub(crate) enum Hand {
    Reading(ReadAtHand),
    Writing(WriteMachine),
    ReadingParts(ReadvAtHand),
    WritingParts(WritevAtHand),
    Syncing(SyncMachine),
}

// Whether a device fault has ended a write that gives back what it holds.
fn ends_by_fault(front: FrontMachine<'_>) -> bool
    ensures { result ≡ ends_by_fault front.entry }
{
    matches!(
        front.control,
        FrontControl::GiveBack {
            refusal: Refusal::RegionFault | Refusal::StoreFault,
            ..
        } | FrontControl::Over(Refusal::RegionFault | Refusal::StoreFault)
    )
}

// Whether a write has drawn its numbers.
fn has_drawn(machine: &WriteMachine) -> bool
    ensures { result ≡ has_drawn machine.now.control }
{
    match machine.control {
        WriteControl::Running(RunningWrite::Front(front)) => ends_by_fault(front),
        WriteControl::Running(RunningWrite::Append(_) | RunningWrite::Release(_)) => true,
        _ => false,
    }
}

impl Hand {
    /// The machine of a call, which has made no step yet.
    pub(crate) fn new(alloc: Global, call: &TraceCall) -> Result<Hand, NoMemory>
        ensures trying { IfOk result (λ hand. (fds : List Fd) (now : PassState) → IsIdle now → IsTrying fds call.now hand now now) }
        ensures fault { IfOk result (λ hand. fault_at_hand hand ≡ None) }
    {
        Ok(match call {
            TraceCall::Pread { fd, at, len } => Hand::Reading(ReadAtHand {
                machine: ReadMachine::new(*fd, *at, *len),
                list: vec![in alloc; 0; *len as usize]?,
            }),
            TraceCall::Pwrite { fd, at, bytes } => {
                Hand::Writing(WriteMachine::new(*fd, *at, bytes.len() as u64))
            }
            TraceCall::Preadv { fd, at, lens } => {
                let parts = PartsAtHand::new(alloc, lens)?;
                Hand::ReadingParts(ReadvAtHand {
                    machine: ReadMachine::new(*fd, *at, parts.total()),
                    parts,
                })
            }
            TraceCall::Pwritev { fd, at, parts } => {
                let parts = gathered(alloc, parts)?;
                Hand::WritingParts(WritevAtHand {
                    machine: WriteMachine::new(*fd, *at, parts.total()),
                    parts,
                })
            }
            TraceCall::Fsync { fd } => Hand::Syncing(SyncMachine::new(*fd)),
        })
    }

    /// The reply of the call, which has its place, where it moved so many bytes.
    pub(crate) fn into_reply(self, len: u64) -> Reply
        ensures { result ≡ reply_at_hand self len }
    {
        match self {
            Hand::Reading(
                ReadAtHand {
                    machine: _,
                    mut list,
                },
            ) => {
                list.truncate(len as usize);
                Reply::Bytes(Bytes::from_vec(list))
            }
            Hand::ReadingParts(read) => read.parts.into_reply(len),
            Hand::Writing(_) | Hand::WritingParts(_) => Reply::Count(len),
            Hand::Syncing(_) => Reply::Done,
        }
    }

    // The place of the call, once it has one, and how many bytes it moved.
    fn placed(&self) -> Option<Done>
        ensures { result ≡ placed_at_hand self.now }
    {
        match self {
            Hand::Reading(read) => read.machine.placed(),
            Hand::Writing(machine) => machine.placed(),
            Hand::ReadingParts(read) => read.machine.placed(),
            Hand::WritingParts(write) => write.machine.placed(),
            Hand::Syncing(machine) => machine.placed(),
        }
    }

    // Whether it is a write that has drawn its numbers.
    fn has_drawn(&self) -> bool
        ensures { result ≡ has_drawn_at_hand self.now }
    {
        match self {
            Hand::Writing(machine) => has_drawn(machine),
            Hand::WritingParts(write) => has_drawn(&write.machine),
            Hand::Reading(_) | Hand::ReadingParts(_) | Hand::Syncing(_) => false,
        }
    }

    /// What the call is told as, where its pass tells this number: placed, once it has its place; else a write that has drawn its numbers is open, and any other call is told as nothing.
    pub(crate) fn told(self, drawn: Option<u64>) -> Option<Answer>
        ensures { result ≡ told_at_hand self drawn }
    {
        match (self.placed(), drawn) {
            (Some(done), _) => Some(Answer::Placed {
                place: done.place,
                reply: self.into_reply(done.len),
            }),
            (None, Some(number)) if self.has_drawn() => Some(Answer::Open { number }),
            _ => None,
        }
    }

    /// The kind of its next step, if each device call before it ends well.
    pub(crate) fn next_kind(&self) -> Kind
        ensures { (sizes : Sizes) → result ≡ kind_at_hand sizes self.now }
    {
        match self {
            Hand::Reading(read) => read.machine.next_kind(),
            Hand::Writing(machine) => machine.next_kind(),
            Hand::ReadingParts(read) => read.machine.next_kind(),
            Hand::WritingParts(write) => write.machine.next_kind(),
            Hand::Syncing(machine) => machine.next_kind(),
        }
    }

    /// Whether a device call has failed in the present try of the call.
    pub(crate) fn faulted(&self) -> bool
        ensures { result ≡ is_some (fault_at_hand self.now) }
    {
        match self {
            Hand::Reading(read) => read.machine.faulted(),
            Hand::Writing(machine) => machine.faulted(),
            Hand::ReadingParts(read) => read.machine.faulted(),
            Hand::WritingParts(write) => write.machine.faulted(),
            Hand::Syncing(machine) => machine.faulted(),
        }
    }

    /// Makes the next step of the call, after the device calls that lie before it, or none where the call is refused by what it asks for.
    pub(crate) fn advance<L: Lines + Drop, B: Backing + Drop>(
        &mut self,
        mount: &Mount<L, B>,
        pass: &mut Pass<L, B>,
        workspace: &mut Workspace<L, B>,
        call: &TraceCall,
    ) -> Progress
        requires board { IsOf mount.now.board pass.old }
        requires trying { (begun : PassState) × IsTrying mount.now.fds call.now self.old begun pass.old }
        requires workspace { IsWorkspace mount.now.board.opened.sizes workspace.old }
        requires bare { workspace.old.parts.items ≡ [] }
        ensures board { IsOf mount.now.board pass.new }
        ensures moved { IsOneOrNoStep (IsRefusedEarly pass.old.view.opened.sizes mount.now.fds call.now result) (is_some (fault_at_hand self.old)) (is_some (fault_at_hand self.new)) pass.old pass.new }
        ensures goes { (begun : PassState) → IsTrying mount.now.fds call.now self.old begun pass.old → TryGoes mount.now.fds call.now self.new begun pass.new result }
        ensures replies { (len : ℕ) → reply_at_hand self.new len ≡ reply_to call.now (list_at_hand self.new) len }
        ensures workspace { IsWorkspace mount.now.board.opened.sizes workspace.new }
        ensures bare { workspace.new.parts.items ≡ [] }
    {
        runs_are_sound();
        passes_are_left_alone();
        pass.sees_a_run();
        match self {
            Hand::Reading(read) => read.advance(mount, pass),
            Hand::Writing(machine) => {
                let TraceCall::Pwrite {
                    fd: _,
                    at: _,
                    bytes,
                } = call
                else {
                    unreachable!()
                };
                machine.advance(mount, pass, workspace, bytes.as_slice())
            }
            Hand::ReadingParts(read) => read.parts.advance(&mut read.machine, mount, pass),
            Hand::WritingParts(write) => {
                write
                    .machine
                    .advance_parts(mount, pass, workspace, &write.parts)
            }
            Hand::Syncing(machine) => machine.advance(mount, pass),
        }
    }
}
