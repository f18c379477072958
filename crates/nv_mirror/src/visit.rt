//! A read at its pages: the bytes of those whose buffers are valid come to the front of its list, and the first other one is missed; behind its last page it
//! takes its place.
ghost use Rattle.std.specs.Prelude.{◌≡◌, ◌≢◌, ◌⊎◌, ℕ, ◌+◌, ◌-◌, ◌*◌, ◌/◌, ◌%◌, ◌<◌, ◌≤◌, nat_lt, List, length, true, false, if◌then◌else◌, None};
ghost use Rattle.nv_core.specs.state.Passes.{covered, end_read};
ghost use Rattle.nv_core.specs.state.Values.{is_valid, lacks_buffer};
ghost use Rattle.nv_core.specs.state.Words.{PAGE, page_total};
ghost use Rattle.nv_pages.specs.Altered.{IsAltered};
ghost use Rattle.nv_pages.specs.PageWork.{OfKept, page_slot};
ghost use Rattle.nv_op.specs.Ops.{core_op_of};
ghost use Rattle.nv_op.specs.declared.op.Op.TheVariants.{Place};
ghost use Rattle.nv_table.specs.state.Keys.{sizes_of};
ghost use Rattle.nv_table.specs.state.States.{IsOf, PassState};
ghost use Rattle.nv_table.specs.state.Views.{pass_of, slot_times, values_of};
ghost use Rattle.nv_table.specs.steps.StepContracts.{Postcondition};
ghost use Rattle.nv_mirror.specs.Answers.{IsListPlaced};
ghost use Rattle.nv_mirror.specs.Copied.{IsPut};
ghost use Rattle.nv_mirror.specs.Releases.{IsUnderWay as IsReleaseUnderWay};
ghost use Rattle.nv_mirror.specs.declared.release.ReleaseControl.TheVariants as releases;
ghost use Rattle.nv_mirror.specs.Visits.{Fits, HasLooked, IsInCall, IsUnderWay, KnowsAt, page_piece, read_released, visit_call_of};
ghost use Rattle.nv_mirror.specs.declared.visit.VisitControl.TheVariants as visits;

use crate::{ReleaseControl, ReleaseMachine};
use nv_core::{runs_are_sound, runs_keep_content};
use nv_op::{Asked, Op, perform};
use nv_pages::{copy_page, lacks_buffer};
use nv_plain::history_goes_on;
use nv_pmem::Lines;
use nv_store::Backing;
use nv_table::{Board, Layout, Pass};

/// What comes next.
#[derive(Clone, Copy, Debug, PartialEq, Eq)]
pub enum VisitControl {
    /// It looks at its pages, which is no step.
    Look,
    /// The page lacks a buffer, and one is searched.
    Search,
    /// The page is loaded.
    Load,
    /// The whole reply is in the list, and the read takes its place.
    TakePlace,
}

/// A read of at least one byte at its pages, between the loads of those that it misses.
#[derive(Clone, Copy, Debug, PartialEq, Eq)]
pub struct VisitMachine {
    pub file: u64,
    pub at: u64,
    pub len: u64,
    /// The read's first page among all, and how many it touches.
    pub first: u64,
    pub pages: u64,
    pub sized: bool,
    pub length: u64,
    /// The page at which its pass stands.
    pub from: u64,
    /// The first page whose bytes aren't in the list.
    pub page: u64,
    /// How many bytes are.
    pub copied: u64,
    pub control: VisitControl,
}

// Where the buffer of a page that the pass owns is valid, copies its bytes from the offset `at` on into a list, from a place on, and no more than
// `size`; and tells how many.
#[inline(always)]
fn copy_part<L: Lines, B: Backing>(
    board: &Board<L, B>,
    pass: &mut Pass<L, B>,
    page: u64,
    at: usize,
    list: &mut [u8],
    from: usize,
    size: usize,
) -> Option<usize>
    requires board { IsOf board.now pass.old }
    requires page { page < page_total board.now.opened.sizes }
    requires owns_slots { slot_times (page_slot board.now.opened.sizes page) pass.old.now ≡ 1 }
    requires room { from + size ≤ length list.old }
    ensures same { IsAltered (λ kept. kept) pass.old pass.new }
    ensures copied { OfKept pass.old (λ kept. IsPut (kept (PAGE page)) at from size list.old list.new result) }
{
    let end = from + size;
    copy_page(board, pass, page, at, &mut list[from..end])
}

impl VisitMachine {
    // How many bytes there are to read.
    #[inline(always)]
    pub(crate) fn covered(self) -> u64
        ensures { result ≡ covered (visit_call_of self) self.length }
    {
        self.len.min(self.length.saturating_sub(self.at))
    }

    // Where one of its pages begins in its file: by products alone, since its first page is known.
    #[inline(always)]
    fn begin_of(self, layout: Layout, page: u64) -> u64
        requires fits { Fits (sizes_of layout) self }
        requires own { self.first ≤ page }
        requires within { page ≤ self.first + self.pages }
        ensures { result ≡ (self.at / layout.page + (page - self.first)) * layout.page }
    {
        (page - self.file * layout.pages) * layout.page
    }

    // Whether a page has bytes of the reply.
    #[inline(always)]
    fn has_bytes(self, layout: Layout, page: u64) -> bool
        requires fits { Fits (sizes_of layout) self }
        requires own { self.first ≤ page }
        requires within { page ≤ self.first + self.pages }
        ensures { result ≡ nat_lt page (end_read (sizes_of layout) (visit_call_of self) self.length) }
    {
        let covered = self.covered();
        covered > 0 && self.begin_of(layout, page) < self.at + covered
    }

    // Which bytes of a page belong to the reply: their offset in the page, and how many they are.
    #[inline(always)]
    pub(crate) fn part_of(self, layout: Layout, page: u64) -> (usize, usize)
        requires fits { Fits (sizes_of layout) self }
        requires own { self.first ≤ page }
        requires within { page < end_read (sizes_of layout) (visit_call_of self) self.length }
        ensures at { result.0 ≡ (page_piece (sizes_of layout) (visit_call_of self) self.length page).at % layout.page }
        ensures size { result.1 ≡ (page_piece (sizes_of layout) (visit_call_of self) self.length page).size }
        ensures inside { (page_piece (sizes_of layout) (visit_call_of self) self.length page).from + result.1 ≤ covered (visit_call_of self) self.length }
    {
        let begin = self.begin_of(layout, page);
        let at = self.at.saturating_sub(begin);
        let end = (self.at + self.covered() - begin).min(layout.page);
        (at as usize, (end - at) as usize)
    }

    // Copies what the buffers of pages have, from the first on whose bytes aren't in the list, as long as these are valid. The result is the first whose buffer isn't,
    // or the one behind the last that has bytes of the reply; and how many bytes are in front of the list then.
    #[inline(always)]
    fn copy_on<L: Lines, B: Backing>(
        self,
        board: &Board<L, B>,
        pass: &mut Pass<L, B>,
        list: &mut [u8],
    ) -> (u64, u64)
        requires board { IsOf board.now pass.old }
        requires way { (start : PassState) × Fits pass.old.view.opened.sizes self × IsInCall self visits.Look list.old start pass.old }
        ensures same { IsAltered (λ kept. kept) pass.old pass.new }
        ensures copied { (start : PassState) → IsInCall self visits.Look list.old start pass.old → IsInCall (record self { page = result.0; copied = result.1 }) visits.Look list.new start pass.old }
        ensures missed { result.0 ≢ end_read pass.old.view.opened.sizes (visit_call_of self) self.length → is_valid (values_of pass.old.view (PAGE result.0)) ≡ false }
    {
        // What it has fetched lies below the page at which its pass stands.
        pass.sees_a_run();
        let layout = board.layout();
        let mut copied = self.copied;
        let mut page = self.page;
        while self.has_bytes(layout, page) {
            let (at, size) = self.part_of(layout, page);
            let Some(count) = copy_part(board, pass, page, at, list, copied as usize, size) else {
                break;
            };
            copied += count as u64;
            page += 1;
        }
        (page, copied)
    }

    // Whether its page lacks a buffer, and there is one to be searched.
    #[inline(always)]
    fn lacks<L: Lines, B: Backing>(self, board: &Board<L, B>, pass: &mut Pass<L, B>) -> bool
        requires board { IsOf board.now pass.old }
        requires way { (list : List ℕ) × (start : PassState) × Fits pass.old.view.opened.sizes self × IsInCall self visits.Look list start pass.old }
        requires more { self.page < end_read pass.old.view.opened.sizes (visit_call_of self) self.length }
        ensures board { IsOf board.now pass.new }
        ensures same { IsAltered (λ kept. kept) pass.old pass.new }
        ensures lacking { result ≡ true → (0 < pass.old.view.opened.sizes.buffers) × (lacks_buffer (values_of pass.old.view (PAGE self.page)) ≡ true) }
        ensures enough { result ≡ false → (lacks_buffer (values_of pass.old.view (PAGE self.page)) ≡ false) ⊎ (pass.old.view.opened.sizes.buffers ≡ 0) }
    {
        if board.layout().buffers == 0 {
            return false;
        }
        lacks_buffer(board, pass, self.page)
    }

    // What comes next, where the bytes of all pages before its own are in the list.
    #[inline(always)]
    fn next_at<L: Lines, B: Backing>(
        self,
        board: &Board<L, B>,
        pass: &mut Pass<L, B>,
    ) -> VisitControl
        requires board { IsOf board.now pass.old }
        requires way { (list : List ℕ) × (start : PassState) × Fits pass.old.view.opened.sizes self × IsInCall self visits.Look list start pass.old }
        requires missed { self.page ≢ end_read pass.old.view.opened.sizes (visit_call_of self) self.length → is_valid (values_of pass.old.view (PAGE self.page)) ≡ false }
        ensures board { IsOf board.now pass.new }
        ensures same { IsAltered (λ kept. kept) pass.old pass.new }
        ensures looked { HasLooked result }
        ensures knows { KnowsAt self result pass.old }
    {
        let layout = board.layout();
        if !self.has_bytes(layout, self.page) {
            return VisitControl::TakePlace;
        }
        if self.lacks(board, pass) {
            VisitControl::Search
        } else {
            VisitControl::Load
        }
    }

    /// Looks at its pages: copies what their buffers have to the list, up to the first that isn't valid, and finds what comes next. That is no step. The list has as
    /// many bytes as the read asks for, the same at each call.
    #[inline(always)]
    pub fn look<L: Lines, B: Backing>(
        &mut self,
        board: &Board<L, B>,
        pass: &mut Pass<L, B>,
        list: &mut [u8],
    )
        requires board { IsOf board.now pass.old }
        requires looks { self.old.control ≡ visits.Look }
        requires way { (start : PassState) × IsUnderWay self.old list.old start pass.old }
        ensures board { IsOf board.now pass.new }
        ensures same { IsAltered (λ kept. kept) pass.old pass.new }
        ensures looked { HasLooked self.new.control }
        ensures machine { self.new ≡ record self.old { page = self.new.page; copied = self.new.copied; control = self.new.control } }
        ensures way { (start : PassState) → IsUnderWay self.old list.old start pass.old → IsUnderWay self.new list.new start pass.new }
    {
        (self.page, self.copied) = self.copy_on(board, pass, list);
        self.control = self.next_at(board, pass);
    }

    // What it gives back first.
    #[inline(always)]
    fn first_given(self) -> ReleaseControl
        ensures { result ≡ (if self.sized then releases.GiveSize else releases.GivePage 0) }
    {
        if self.sized {
            ReleaseControl::GiveSize
        } else {
            ReleaseControl::GivePage { given: 0 }
        }
    }

    // The end of a read that has this place.
    #[inline(always)]
    fn released(self, place: u64) -> ReleaseMachine<'static>
        ensures { result ≡ read_released self place }
    {
        ReleaseMachine {
            asked: Asked::Read {
                file: self.file,
                at: self.at,
                len: self.len,
            },
            page: self.first,
            pages: self.pages,
            sized: self.sized,
            length: self.length,
            place,
            control: self.first_given(),
        }
    }

    /// Takes the read's place in the history, with the reply that is in front of the list. What it holds is given back next.
    #[inline(always)]
    pub fn take_place<L: Lines, B: Backing>(
        self,
        board: &Board<L, B>,
        pass: &mut Pass<L, B>,
    ) -> ReleaseMachine<'static>
        requires board { IsOf board.now pass.old }
        requires at { self.control ≡ visits.TakePlace }
        requires way { (list : List ℕ) × (start : PassState) × IsUnderWay self list start pass.old }
        ensures board { IsOf board.now pass.new }
        ensures one { (found : ℕ) × Postcondition pass.old None (core_op_of pass.old.view Place) found pass.new × (result ≡ read_released self found) }
        ensures placed { (list : List ℕ) (start : PassState) → IsUnderWay self list start pass.old → IsListPlaced (pass_of pass.new.view).asked list start.view pass.new.view record { place = result.place; len = self.copied } }
        ensures way { (list : List ℕ) (start : PassState) → IsUnderWay self list start pass.old → IsReleaseUnderWay result start pass.new }
    {
        runs_are_sound();
        runs_keep_content();
        history_goes_on();
        pass.sees_a_run();
        // Only its limits are wanted.
        let _layout = board.layout();
        let place = perform(board, pass, None, Op::Place);
        self.released(place)
    }
}
