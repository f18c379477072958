//! A read of a file as a whole: one without a page, or its front, and then its pages, for each that it misses the search of a buffer and a load, its place,
//! and what it gives back.
ghost use Rattle.std.specs.Prelude.{◌≡◌, ◌≤◌, ◌<◌, ℕ, List, length, true, false};
ghost use Rattle.nv_plain.specs.declared.call.FileCall.{FileCall};
ghost use Rattle.nv_plain.specs.declared.call.FileCall.TheVariants.{Read};
ghost use Rattle.nv_core.specs.state.Passes.{IsAllowed, plain_call};
ghost use Rattle.nv_pages.specs.Altered.{IsAltered};
ghost use Rattle.nv_table.specs.invariant.Idle.{IsIdle};
ghost use Rattle.nv_table.specs.state.Keys.{sizes_of};
ghost use Rattle.nv_table.specs.state.States.{IsOf, PassState};
ghost use Rattle.nv_cache.specs.RunningReads.{AreRooms, IsOpen, IsSettled, IsUnderWay, asked_in, holds_page, needs_rooms, read_measure};
ghost use Rattle.nv_cache.specs.ReadSteps.{HasMadeOne, IsFresh, read_answer, read_fault, read_place};

use crate::{SearchControl, SearchMachine};
use nv_mirror::{
    Done, FrontControl, FrontMachine, LoadControl, LoadMachine, PagelessControl, PagelessMachine,
    Refusal, ReleaseControl, ReleaseMachine, VisitMachine,
};
use nv_op::{Asked, Asks};
use nv_pmem::Lines;
use nv_store::Backing;
use nv_table::{Board, Layout, Pass};

/// A read of a file, by the part that it is at.
#[derive(Clone, Copy, Debug, PartialEq, Eq)]
pub enum RunningRead {
    /// It has no bytes.
    Pageless(PagelessMachine<'static>),
    /// It takes its locks, or gives them back since it is refused.
    Front(FrontMachine<'static>),
    /// It searches a buffer for a page that it misses.
    Search {
        visit: VisitMachine,
        search: SearchMachine,
    },
    /// It loads the page.
    Load {
        visit: VisitMachine,
        load: LoadMachine,
    },
    /// Its whole reply is in its list, and it takes its place.
    TakePlace(VisitMachine),
    /// It has its place, and gives back what it holds. So many bytes are its reply.
    Release {
        release: ReleaseMachine<'static>,
        copied: u64,
    },
    Over(Result<Done, Refusal>),
}

impl RunningRead {
    /// A read that is allowed, and has made no step yet.
    #[inline(always)]
    pub fn new(layout: Layout, file: u64, at: u64, len: u64) -> Self
        requires allowed { IsAllowed (sizes_of layout) (Read file at len) }
        ensures begins { (list room : List ℕ) (pass : PassState) → length list ≡ len → pass.view.opened.sizes ≡ sizes_of layout → IsIdle pass → IsUnderWay (Read file at len) result list room pass pass }
        ensures open { IsOpen result }
        ensures bare { needs_rooms result ≡ false }
        ensures fresh { IsFresh (sizes_of layout) (Read file at len) result }
        ensures asks { (asked : FileCall) (pass : PassState) → asked_in asked result pass ≡ asked }
    {
        let asked = Asked::Read { file, at, len };
        if len == 0 {
            RunningRead::Pageless(PagelessMachine::new(asked))
        } else {
            RunningRead::Front(FrontMachine::new(layout, asked))
        }
    }

    // Makes the next step of its part.
    fn step<A: Asks, L: Lines, B: Backing>(
        &mut self,
        board: &Board<L, B>,
        pass: &mut Pass<L, B>,
        room: &mut [u8],
        piece: &mut [u8],
    )
        requires board { IsOf board.now pass.old }
        requires open { IsOpen self.old }
        requires rooms { needs_rooms self.old ≡ true → AreRooms pass.old.view.opened.sizes room.old piece.old }
        requires way { (list : List ℕ) × (start : PassState) × IsUnderWay (plain_call A.call) self.old list room.old start pass.old }
        ensures board { IsOf board.now pass.new }
        ensures one { HasMadeOne self.old self.new pass.old pass.new }
        ensures falls { read_measure pass.old.view.opened.sizes self.new < read_measure pass.old.view.opened.sizes self.old }
        ensures bare { needs_rooms self.old ≡ false → needs_rooms self.new ≡ false }
        ensures asks { asked_in A.call self.new pass.new ≡ asked_in A.call self.old pass.old }
        ensures way { (call : FileCall) (list : List ℕ) (start : PassState) → IsUnderWay call self.old list room.old start pass.old → IsUnderWay call self.new list room.new start pass.new }
    {
        match self {
            RunningRead::Pageless(m) => m.advance::<A, L, B>(board, pass),
            RunningRead::Front(m) => m.advance::<A, L, B>(board, pass),
            RunningRead::Search { search, .. } => search.advance(board, pass),
            RunningRead::Load { load, .. } => load.advance(board, pass, room, piece),
            RunningRead::TakePlace(visit) => {
                let release = visit.take_place(board, pass);
                let copied = visit.copied;
                *self = RunningRead::Release { release, copied };
            }
            RunningRead::Release { release, .. } => release.advance(board, pass),
            RunningRead::Over(_) => unreachable!(),
        }
    }

    /// Makes the next step, behind the device calls that lie before it. Its call begins as what was asked, which is made as this read. `list` has as many bytes as the read asks for, the same at each advance; the reply comes
    /// to its front. A read that loads a page needs rooms (`needs_rooms`), each of as many bytes as a page: the page's bytes lie in `room` from one advance to
    /// the next, and `piece` is room for the piece of an entry, and what it has then isn't said. At any other advance both may be empty.
    pub fn advance<A: Asks, L: Lines, B: Backing>(
        &mut self,
        board: &Board<L, B>,
        pass: &mut Pass<L, B>,
        room: &mut [u8],
        piece: &mut [u8],
        list: &mut [u8],
    )
        requires board { IsOf board.now pass.old }
        requires open { IsOpen self.old }
        requires rooms { needs_rooms self.old ≡ true → AreRooms pass.old.view.opened.sizes room.old piece.old }
        requires way { (start : PassState) × IsUnderWay (plain_call A.call) self.old list.old room.old start pass.old }
        ensures board { IsOf board.now pass.new }
        ensures settled { IsSettled self.new }
        ensures one { HasMadeOne self.old self.new pass.old pass.new }
        ensures falls { read_measure pass.old.view.opened.sizes self.new < read_measure pass.old.view.opened.sizes self.old }
        ensures bare { needs_rooms self.old ≡ false → holds_page self.new ≡ false }
        ensures asks { asked_in A.call self.new pass.new ≡ asked_in A.call self.old pass.old }
        ensures way { (call : FileCall) (start : PassState) → IsUnderWay call self.old list.old room.old start pass.old → IsUnderWay call self.new list.new room.new start pass.new }
    {
        self.step::<A, L, B>(board, pass, room, piece);
        self.settle(board, pass, room, list);
    }
}
