//! A write that is made at once: as long as nothing refuses it each of its parts is a loop of its own, so that a compiler keeps in registers where the part
//! stands; and where it is refused, or has no page, it goes on step by step.
ghost use Rattle.std.specs.Prelude.{◌≡◌, ◌≤◌, [], min, vec_capacity};
ghost use Rattle.nv_plain.specs.Layouts.{mount_layout};
ghost use Rattle.nv_plain.specs.declared.call.FileCall.{FileCall};
ghost use Rattle.nv_core.specs.state.Passes.{plain_call};
ghost use Rattle.nv_table.specs.state.States.{IsOf, PassState};
ghost use Rattle.nv_table.specs.state.Views.{pass_of};
ghost use Rattle.nv_ring.specs.declared.append.AppendControl.TheVariants as appends;
ghost use Rattle.nv_ring.specs.declared.write.RunningWrite.TheVariants.{Append, Draw, Front, Over};
ghost use Rattle.nv_ring.specs.RunningWrites.{IsSettled, IsUnderWay, asked_in};

use crate::{AppendControl, AppendMachine, DrawControl, DrawMachine, RunningWrite};
use nv_mirror::{FrontControl, FrontMachine, Refusal, ReleaseControl};
use nv_op::Asks;
use nv_pmem::Lines;
use nv_store::Backing;
use nv_table::{Board, Pass};

// The rest of a write that is refused, or has no page: step by step, in a frame of its own, which no other write pays for.
#[inline(never)]
fn write_on<A: Asks, L: Lines, B: Backing>(
    board: &Board<L, B>,
    pass: &mut Pass<L, B>,
    parts: &mut Vec<L>,
    mut write: RunningWrite<'_>,
) -> Result<u64, Refusal>
    requires board { IsOf board.now pass.old }
    requires settled { IsSettled write }
    requires bare { parts.old.items ≡ [] }
    requires places { min mount_layout.group_limit board.now.opened.sizes.entries ≤ vec_capacity parts.old }
    requires way { (start : PassState) × IsUnderWay (plain_call A.call) write start pass.old }
    ensures board { IsOf board.now pass.new }
    ensures bare { parts.new.items ≡ [] }
    ensures places { vec_capacity parts.new ≡ vec_capacity parts.old }
    ensures asks { (pass_of pass.new.view).asked ≡ asked_in A.call write.entry pass.old }
    ensures way { (call : FileCall) (start : PassState) → IsUnderWay call write.entry start pass.old → IsUnderWay call (Over result) start pass.new }
{
    loop {
        if let RunningWrite::Over(result) = write {
            return result;
        }
        write.advance::<A, L, B>(board, pass, parts);
    }
}

// A write that is in the log gives back what it holds.
#[inline(always)]
fn end<L: Lines, B: Backing>(
    board: &Board<L, B>,
    pass: &mut Pass<L, B>,
    append: AppendMachine<'_>,
) -> Result<u64, Refusal>
    requires board { IsOf board.now pass.old }
    requires appended { append.control ≡ appends.Appended }
    requires way { (call : FileCall) × (start : PassState) × IsUnderWay call (Append append) start pass.old }
    ensures board { IsOf board.now pass.new }
    ensures asks { (pass_of pass.new.view).asked ≡ (pass_of pass.old.view).asked }
    ensures way { (call : FileCall) (start : PassState) → IsUnderWay call (Append append.entry) start pass.old → IsUnderWay call (Over result) start pass.new }
{
    let mut release = append.release();
    loop {
        if let ReleaseControl::Over = release.control {
            return Ok(release.place);
        }
        release.advance(board, pass);
    }
}

// Seizes its entries.
#[inline(always)]
fn seize<L: Lines, B: Backing>(
    board: &Board<L, B>,
    pass: &mut Pass<L, B>,
    append: &mut AppendMachine<'_>,
)
    requires board { IsOf board.now pass.old }
    requires way { (call : FileCall) × (start : PassState) × IsUnderWay call (Append append.old) start pass.old }
    ensures board { IsOf board.now pass.new }
    ensures asks { (pass_of pass.new.view).asked ≡ (pass_of pass.old.view).asked }
    ensures way { (call : FileCall) (start : PassState) → IsUnderWay call (Append append.old) start pass.old → IsUnderWay call (Append append.new) start pass.new }
{
    while let AppendControl::SeizeEntry { .. } = append.control {
        append.step(board, pass);
    }
}

// Makes the device calls of its commit, and pledges its pages.
#[inline(always)]
fn pledge<L: Lines, B: Backing>(
    board: &Board<L, B>,
    pass: &mut Pass<L, B>,
    parts: &mut Vec<L>,
    append: &mut AppendMachine<'_>,
)
    requires board { IsOf board.now pass.old }
    requires bare { parts.old.items ≡ [] }
    requires places { min mount_layout.group_limit board.now.opened.sizes.entries ≤ vec_capacity parts.old }
    requires way { (call : FileCall) × (start : PassState) × IsUnderWay call (Append append.old) start pass.old }
    ensures board { IsOf board.now pass.new }
    ensures bare { parts.new.items ≡ [] }
    ensures places { vec_capacity parts.new ≡ vec_capacity parts.old }
    ensures asks { (pass_of pass.new.view).asked ≡ (pass_of pass.old.view).asked }
    ensures way { (call : FileCall) (start : PassState) → IsUnderWay call (Append append.old) start pass.old → IsUnderWay call (Append append.new) start pass.new }
{
    let AppendControl::CommitGroup = append.control else {
        return;
    };
    append.commit(board, pass, parts);
    while let AppendControl::PledgePage { pledged } = append.control {
        append.pledge(board, pass, pledged);
    }
}

// Makes its entries ready.
#[inline(always)]
fn make_ready<L: Lines, B: Backing>(
    board: &Board<L, B>,
    pass: &mut Pass<L, B>,
    append: &mut AppendMachine<'_>,
)
    requires board { IsOf board.now pass.old }
    requires way { (call : FileCall) × (start : PassState) × IsUnderWay call (Append append.old) start pass.old }
    ensures board { IsOf board.now pass.new }
    ensures asks { (pass_of pass.new.view).asked ≡ (pass_of pass.old.view).asked }
    ensures way { (call : FileCall) (start : PassState) → IsUnderWay call (Append append.old) start pass.old → IsUnderWay call (Append append.new) start pass.new }
{
    while let AppendControl::ReadyEntry { .. } = append.control {
        append.step(board, pass);
    }
}

// Takes its place, and gives the file its new length, where it ends behind the old one.
#[inline(always)]
fn take_place<L: Lines, B: Backing>(
    board: &Board<L, B>,
    pass: &mut Pass<L, B>,
    append: &mut AppendMachine<'_>,
)
    requires board { IsOf board.now pass.old }
    requires way { (call : FileCall) × (start : PassState) × IsUnderWay call (Append append.old) start pass.old }
    ensures board { IsOf board.now pass.new }
    ensures asks { (pass_of pass.new.view).asked ≡ (pass_of pass.old.view).asked }
    ensures way { (call : FileCall) (start : PassState) → IsUnderWay call (Append append.old) start pass.old → IsUnderWay call (Append append.new) start pass.new }
{
    let AppendControl::TakePlace = append.control else {
        return;
    };
    append.step(board, pass);
    let AppendControl::GrowLength = append.control else {
        return;
    };
    append.step(board, pass);
}

// A write that has its numbers.
#[inline(always)]
fn pass_append<A: Asks, L: Lines, B: Backing>(
    board: &Board<L, B>,
    pass: &mut Pass<L, B>,
    parts: &mut Vec<L>,
    mut append: AppendMachine<'_>,
) -> Result<u64, Refusal>
    requires board { IsOf board.now pass.old }
    requires bare { parts.old.items ≡ [] }
    requires places { min mount_layout.group_limit board.now.opened.sizes.entries ≤ vec_capacity parts.old }
    requires way { (start : PassState) × IsUnderWay (plain_call A.call) (Append append) start pass.old }
    ensures board { IsOf board.now pass.new }
    ensures bare { parts.new.items ≡ [] }
    ensures places { vec_capacity parts.new ≡ vec_capacity parts.old }
    ensures asks { (pass_of pass.new.view).asked ≡ (pass_of pass.old.view).asked }
    ensures way { (call : FileCall) (start : PassState) → IsUnderWay call (Append append.entry) start pass.old → IsUnderWay call (Over result) start pass.new }
{
    seize(board, pass, &mut append);
    pledge(board, pass, parts, &mut append);
    make_ready(board, pass, &mut append);
    take_place(board, pass, &mut append);
    match append.control {
        AppendControl::Appended => end(board, pass, append),
        AppendControl::Refused(_) => {
            let back = append.give_back(board.layout());
            write_on::<A, L, B>(board, pass, parts, RunningWrite::Front(back))
        }
        _ => write_on::<A, L, B>(board, pass, parts, RunningWrite::Append(append)),
    }
}

// A write at the draw of its numbers.
#[inline(always)]
fn pass_draw<A: Asks, L: Lines, B: Backing>(
    board: &Board<L, B>,
    pass: &mut Pass<L, B>,
    parts: &mut Vec<L>,
    mut draw: DrawMachine<'_>,
) -> Result<u64, Refusal>
    requires board { IsOf board.now pass.old }
    requires bare { parts.old.items ≡ [] }
    requires places { min mount_layout.group_limit board.now.opened.sizes.entries ≤ vec_capacity parts.old }
    requires way { (start : PassState) × IsUnderWay (plain_call A.call) (Draw draw) start pass.old }
    ensures board { IsOf board.now pass.new }
    ensures bare { parts.new.items ≡ [] }
    ensures places { vec_capacity parts.new ≡ vec_capacity parts.old }
    ensures asks { (pass_of pass.new.view).asked ≡ (pass_of pass.old.view).asked }
    ensures way { (call : FileCall) (start : PassState) → IsUnderWay call (Draw draw.entry) start pass.old → IsUnderWay call (Over result) start pass.new }
{
    loop {
        match draw.control {
            DrawControl::Drawn => {
                return pass_append::<A, L, B>(board, pass, parts, draw.append());
            }
            DrawControl::Refused(_) => {
                let back = draw.give_back(board.layout());
                return write_on::<A, L, B>(board, pass, parts, RunningWrite::Front(back));
            }
            _ => draw.advance(board, pass),
        }
    }
}

// A write at its front.
#[inline(always)]
fn pass_front<A: Asks, L: Lines, B: Backing>(
    board: &Board<L, B>,
    pass: &mut Pass<L, B>,
    parts: &mut Vec<L>,
    mut front: FrontMachine<'_>,
) -> Result<u64, Refusal>
    requires board { IsOf board.now pass.old }
    requires bare { parts.old.items ≡ [] }
    requires places { min mount_layout.group_limit board.now.opened.sizes.entries ≤ vec_capacity parts.old }
    requires way { (start : PassState) × IsUnderWay (plain_call A.call) (Front front) start pass.old }
    ensures board { IsOf board.now pass.new }
    ensures bare { parts.new.items ≡ [] }
    ensures places { vec_capacity parts.new ≡ vec_capacity parts.old }
    ensures asks { (pass_of pass.new.view).asked ≡ asked_in A.call (Front front.entry) pass.old }
    ensures way { (call : FileCall) (start : PassState) → IsUnderWay call (Front front.entry) start pass.old → IsUnderWay call (Over result) start pass.new }
{
    loop {
        match front.control {
            FrontControl::Passed => {
                let draw = DrawMachine::behind(front, board.layout());
                return pass_draw::<A, L, B>(board, pass, parts, draw);
            }
            FrontControl::Over(refusal) => return Err(refusal),
            _ => front.advance::<A, L, B>(board, pass),
        }
    }
}

impl RunningWrite<'_> {
    /// Makes all its steps, and is answered. Its call begins as what was asked, which is made as this write. While the device calls of its commit are made the
    /// parts of its entries lie in `parts`, which is empty, and has a place for each that a write may have.
    #[inline(always)]
    pub fn run<A: Asks, L: Lines, B: Backing>(
        self,
        board: &Board<L, B>,
        pass: &mut Pass<L, B>,
        parts: &mut Vec<L>,
    ) -> Result<u64, Refusal>
        requires board { IsOf board.now pass.old }
        requires settled { IsSettled self }
        requires bare { parts.old.items ≡ [] }
        requires places { min mount_layout.group_limit board.now.opened.sizes.entries ≤ vec_capacity parts.old }
        requires way { (start : PassState) × IsUnderWay (plain_call A.call) self start pass.old }
        ensures board { IsOf board.now pass.new }
        ensures bare { parts.new.items ≡ [] }
        ensures places { vec_capacity parts.new ≡ vec_capacity parts.old }
        ensures asks { (pass_of pass.new.view).asked ≡ asked_in A.call self.entry pass.old }
        ensures way { (call : FileCall) (start : PassState) → IsUnderWay call self.entry start pass.old → IsUnderWay call (Over result) start pass.new }
    {
        match self {
            RunningWrite::Front(front) => pass_front::<A, L, B>(board, pass, parts, front),
            write => write_on::<A, L, B>(board, pass, parts, write),
        }
    }
}
