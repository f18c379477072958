//! How a read goes on to its next part, where one is over: a look at its pages, which is no step, comes behind its front and behind each load.
ghost use Rattle.std.specs.Prelude.{◌≡◌, ◌+◌, ◌-◌, ◌≤◌, List, ℕ, length, true, false, None};
ghost use Rattle.nv_plain.specs.declared.call.FileCall.{FileCall};
ghost use Rattle.nv_mirror.specs.Visits.{IsUnderWay as IsVisitUnderWay, visit_call_of};
ghost use Rattle.nv_mirror.specs.declared.visit.VisitControl.TheVariants as visits;
ghost use Rattle.nv_pages.specs.Altered.{IsAltered};
ghost use Rattle.nv_table.specs.state.Views.{pass_of};
ghost use Rattle.nv_table.specs.state.States.{IsOf, PassState};
ghost use Rattle.nv_cache.specs.RunningReads.{IsSettled, IsUnderWay, asked_in, holds_page, needs_rooms, read_measure, visit_steps};
ghost use Rattle.nv_cache.specs.ReadSteps.{empty_answer, read_fault, read_place};

use crate::{RunningRead, SearchControl, SearchMachine};
use nv_mirror::{
    Done, FrontControl, LoadControl, PagelessControl, Refusal, ReleaseControl, VisitControl,
    VisitMachine,
};
use nv_pmem::Lines;
use nv_store::Backing;
use nv_table::{Board, Pass};

// What a read of no bytes is answered.
fn empty_answer(over: Result<u64, Refusal>) -> Result<Done, Refusal>
    ensures { result ≡ empty_answer over }
{
    match over {
        Ok(place) => Ok(Done { place, len: 0 }),
        Err(refusal) => Err(refusal),
    }
}

impl RunningRead {
    // A read at its pages looks at them, and goes on with a search, with a load, or with its place.
    #[inline(always)]
    pub(crate) fn looked<L: Lines, B: Backing>(
        mut visit: VisitMachine,
        board: &Board<L, B>,
        pass: &mut Pass<L, B>,
        list: &mut [u8],
    ) -> Self
        requires board { IsOf board.now pass.old }
        requires looks { visit.control ≡ visits.Look }
        requires way { (start : PassState) × IsVisitUnderWay visit list.old start pass.old }
        ensures board { IsOf board.now pass.new }
        ensures same { IsAltered (λ kept. kept) pass.old pass.new }
        ensures settled { IsSettled result }
        ensures few { read_measure pass.old.view.opened.sizes result ≤ visit_steps pass.old.view.opened.sizes visit.pages (visit.first + visit.pages - visit.from) }
        ensures fault { read_fault result ≡ None }
        ensures place { read_place result ≡ None }
        ensures bare { holds_page result ≡ false }
        ensures asks { (asked : FileCall) → asked_in asked result pass.new ≡ (pass_of pass.old.view).asked }
        ensures way { (room : List ℕ) (start : PassState) → IsVisitUnderWay visit list.old start pass.old → IsUnderWay (visit_call_of visit) result list.new room start pass.new }
    {
        visit.look(board, pass, list);
        match visit.control {
            VisitControl::Search => RunningRead::Search {
                visit,
                search: SearchMachine::new(visit.load(), visit.from),
            },
            VisitControl::Load => RunningRead::Load {
                visit,
                load: visit.load(),
            },
            VisitControl::TakePlace => RunningRead::TakePlace(visit),
            VisitControl::Look => unreachable!(),
        }
    }

    // Goes on to its next part where one is over.
    pub(crate) fn settle<L: Lines, B: Backing>(
        &mut self,
        board: &Board<L, B>,
        pass: &mut Pass<L, B>,
        room: &[u8],
        list: &mut [u8],
    )
        requires board { IsOf board.now pass.old }
        requires room { needs_rooms self.old ≡ true → length room.now ≡ pass.old.view.opened.sizes.page }
        requires way { (call : FileCall) × (start : PassState) × IsUnderWay call self.old list.old room.now start pass.old }
        ensures board { IsOf board.now pass.new }
        ensures same { IsAltered (λ kept. kept) pass.old pass.new }
        ensures settled { IsSettled self.new }
        ensures falls { read_measure pass.old.view.opened.sizes self.new ≤ read_measure pass.old.view.opened.sizes self.old }
        ensures fault { read_fault self.new ≡ read_fault self.old }
        ensures place { read_place self.new ≡ read_place self.old }
        ensures bare { needs_rooms self.old ≡ false → holds_page self.new ≡ false }
        ensures asks { (asked : FileCall) → asked_in asked self.new pass.new ≡ asked_in asked self.old pass.old }
        ensures way { (call : FileCall) (start : PassState) → IsUnderWay call self.old list.old room.now start pass.old → IsUnderWay call self.new list.new room.now start pass.new }
    {
        match *self {
            RunningRead::Pageless(m) => {
                if let PagelessControl::Over(result) = m.control {
                    *self = RunningRead::Over(empty_answer(result));
                }
            }
            RunningRead::Front(m) => match m.control {
                FrontControl::Passed => {
                    let visit = m.visit(board.layout());
                    *self = RunningRead::looked(visit, board, pass, list);
                }
                FrontControl::Over(refusal) => *self = RunningRead::Over(Err(refusal)),
                _ => {}
            },
            RunningRead::Search { visit, search } => match search.control {
                SearchControl::Found { .. } | SearchControl::NotFound { .. } => {
                    let load = search.load();
                    *self = RunningRead::Load { visit, load };
                }
                _ => {}
            },
            RunningRead::Load { visit, load } => match load.control {
                LoadControl::Loaded => {
                    let next = visit.pass_page(board.layout(), room, list);
                    *self = RunningRead::looked(next, board, pass, list);
                }
                LoadControl::Refused(_) => {
                    *self = RunningRead::Front(load.give_back(board.layout()));
                }
                _ => {}
            },
            RunningRead::TakePlace(_) => {}
            RunningRead::Release { release, copied } => {
                if let ReleaseControl::Over = release.control {
                    *self = RunningRead::Over(Ok(Done {
                        place: release.place,
                        len: copied,
                    }));
                }
            }
            RunningRead::Over(_) => {}
        }
    }
}
