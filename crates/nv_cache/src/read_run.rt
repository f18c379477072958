//! A read that is made at once: as long as it misses no page each of its parts is a loop of its own, so that a compiler keeps in registers where the part
//! stands; and where it misses one it goes on step by step.
ghost use Rattle.std.specs.Prelude.{◌≡◌, ◌<◌, List, ℕ, [], true, false};
ghost use Rattle.nv_plain.specs.declared.call.FileCall.{FileCall};
ghost use Rattle.nv_mirror.specs.declared.visit.VisitControl.TheVariants as visits;
ghost use Rattle.nv_mirror.specs.Visits.{IsUnderWay as IsVisitUnderWay, visit_call_of};
ghost use Rattle.nv_core.specs.state.Passes.{plain_call};
ghost use Rattle.nv_table.specs.state.Views.{pass_of};
ghost use Rattle.nv_table.specs.state.States.{IsOf, PassState};
ghost use Rattle.nv_cache.specs.declared.read.RunningRead.TheVariants.{Front, Over, TakePlace};
ghost use Rattle.nv_cache.specs.RunningReads.{IsSettled, IsUnderWay, asked_in, holds_page, needs_rooms, read_measure};

use crate::RunningRead;
use nv_mirror::{Done, FrontControl, FrontMachine, Refusal, ReleaseControl, VisitMachine};
use nv_op::Asks;
use nv_pmem::Lines;
use nv_store::Backing;
use nv_table::{Board, Pass};

/// How many bytes a page has at most.
pub const MOST_PAGE: usize = 4096;

// The advances of a read from the load of a page on, with rooms for that, until it needs none.
#[inline(never)]
fn load_in_rooms<A: Asks, L: Lines, B: Backing>(
    board: &Board<L, B>,
    pass: &mut Pass<L, B>,
    read: &mut RunningRead,
    list: &mut [u8],
)
    requires board { IsOf board.now pass.old }
    requires settled { IsSettled read.old }
    requires needs { needs_rooms read.old ≡ true }
    requires bare { holds_page read.old ≡ false }
    requires way { (start : PassState) × IsUnderWay (plain_call A.call) read.old list.old [] start pass.old }
    ensures board { IsOf board.now pass.new }
    ensures settled { IsSettled read.new }
    ensures bare { holds_page read.new ≡ false }
    ensures falls { read_measure board.now.opened.sizes read.new < read_measure board.now.opened.sizes read.old }
    ensures asks { asked_in A.call read.new pass.new ≡ asked_in A.call read.old pass.old }
    ensures way { (call : FileCall) (start : PassState) → IsUnderWay call read.old list.old [] start pass.old → IsUnderWay call read.new list.new [] start pass.new }
{
    let page = board.layout().page as usize;
    let mut room = [0; MOST_PAGE];
    let mut piece = [0; MOST_PAGE];
    read.takes_any_room();
    loop {
        read.advance::<A, L, B>(board, pass, &mut room[..page], &mut piece[..page], list);
        if !read.needs_rooms() {
            read.takes_any_room();
            return;
        }
    }
}

// The rest of a read that misses a page, or has none: step by step, in a frame of its own, which no other read pays for.
#[inline(never)]
fn read_on<A: Asks, L: Lines, B: Backing>(
    board: &Board<L, B>,
    pass: &mut Pass<L, B>,
    mut read: RunningRead,
    list: &mut [u8],
) -> Result<Done, Refusal>
    requires board { IsOf board.now pass.old }
    requires settled { IsSettled read }
    requires bare { holds_page read ≡ false }
    requires way { (start : PassState) × IsUnderWay (plain_call A.call) read list.old [] start pass.old }
    ensures board { IsOf board.now pass.new }
    ensures asks { (pass_of pass.new.view).asked ≡ asked_in A.call read pass.old }
    ensures way { (call : FileCall) (start : PassState) → IsUnderWay call read list.old [] start pass.old → IsUnderWay call (Over result) list.new [] start pass.new }
{
    loop {
        if let RunningRead::Over(result) = read {
            return result;
        }
        if read.needs_rooms() {
            load_in_rooms::<A, L, B>(board, pass, &mut read, list);
        } else {
            read.advance::<A, L, B>(board, pass, &mut [], &mut [], list);
        }
    }
}

// A read whose whole reply is in its list takes its place, and gives back what it holds.
#[inline(always)]
fn end<L: Lines, B: Backing>(
    board: &Board<L, B>,
    pass: &mut Pass<L, B>,
    visit: VisitMachine,
) -> Result<Done, Refusal>
    requires board { IsOf board.now pass.old }
    requires way { (call : FileCall) × (list : List ℕ) × (start : PassState) × IsUnderWay call (TakePlace visit) list [] start pass.old }
    ensures board { IsOf board.now pass.new }
    ensures asks { (pass_of pass.new.view).asked ≡ (pass_of pass.old.view).asked }
    ensures way { (call : FileCall) (list : List ℕ) (start : PassState) → IsUnderWay call (TakePlace visit) list [] start pass.old → IsUnderWay call (Over result) list [] start pass.new }
{
    let mut release = visit.take_place(board, pass);
    loop {
        if let ReleaseControl::Over = release.control {
            return Ok(Done {
                place: release.place,
                len: visit.copied,
            });
        }
        release.advance(board, pass);
    }
}

// A read at its pages.
#[inline(always)]
fn pass_pages<A: Asks, L: Lines, B: Backing>(
    board: &Board<L, B>,
    pass: &mut Pass<L, B>,
    visit: VisitMachine,
    list: &mut [u8],
) -> Result<Done, Refusal>
    requires board { IsOf board.now pass.old }
    requires looks { visit.control ≡ visits.Look }
    requires makes { plain_call A.call ≡ visit_call_of visit }
    requires way { (start : PassState) × IsVisitUnderWay visit list.old start pass.old }
    ensures board { IsOf board.now pass.new }
    ensures asks { (pass_of pass.new.view).asked ≡ (pass_of pass.old.view).asked }
    ensures way { (start : PassState) → IsVisitUnderWay visit list.old start pass.old → IsUnderWay (visit_call_of visit) (Over result) list.new [] start pass.new }
{
    match RunningRead::looked(visit, board, pass, list) {
        RunningRead::TakePlace(visit) => end(board, pass, visit),
        read => read_on::<A, L, B>(board, pass, read, list),
    }
}

// A read at its front.
#[inline(always)]
fn pass_front<A: Asks, L: Lines, B: Backing>(
    board: &Board<L, B>,
    pass: &mut Pass<L, B>,
    mut front: FrontMachine<'static>,
    list: &mut [u8],
) -> Result<Done, Refusal>
    requires board { IsOf board.now pass.old }
    requires way { (start : PassState) × IsUnderWay (plain_call A.call) (Front front) list.old [] start pass.old }
    ensures board { IsOf board.now pass.new }
    ensures asks { (pass_of pass.new.view).asked ≡ asked_in A.call (Front front.entry) pass.old }
    ensures way { (call : FileCall) (start : PassState) → IsUnderWay call (Front front.entry) list.old [] start pass.old → IsUnderWay call (Over result) list.new [] start pass.new }
{
    loop {
        match front.control {
            FrontControl::Passed => {
                let visit = front.visit(board.layout());
                return pass_pages::<A, L, B>(board, pass, visit, list);
            }
            FrontControl::Over(refusal) => return Err(refusal),
            _ => front.advance::<A, L, B>(board, pass),
        }
    }
}

impl RunningRead {
    /// Makes all its steps, and is answered. Its call begins as what was asked, which is made as this read.
    #[inline(always)]
    pub fn run<A: Asks, L: Lines, B: Backing>(
        self,
        board: &Board<L, B>,
        pass: &mut Pass<L, B>,
        list: &mut [u8],
    ) -> Result<Done, Refusal>
        requires board { IsOf board.now pass.old }
        requires settled { IsSettled self }
        requires bare { holds_page self ≡ false }
        requires way { (start : PassState) × IsUnderWay (plain_call A.call) self list.old [] start pass.old }
        ensures board { IsOf board.now pass.new }
        ensures asks { (pass_of pass.new.view).asked ≡ asked_in A.call self pass.old }
        ensures way { (call : FileCall) (start : PassState) → IsUnderWay call self list.old [] start pass.old → IsUnderWay call (Over result) list.new [] start pass.new }
    {
        match self {
            RunningRead::Front(front) => pass_front::<A, L, B>(board, pass, front, list),
            read => read_on::<A, L, B>(board, pass, read, list),
        }
    }
}
