//! What is told of a running read between two steps, and what it needs for the next.
ghost use Rattle.std.specs.Prelude.{◌≡◌, false, is_some, List, ℕ};
ghost use Rattle.nv_core.specs.state.Words.{Sizes};
ghost use Rattle.nv_plain.specs.declared.call.FileCall.{FileCall};
ghost use Rattle.nv_op.specs.Kinds.{kind_of};
ghost use Rattle.nv_table.specs.state.States.{PassState};
ghost use Rattle.nv_cache.specs.ReadSteps.{read_answer, read_fault, read_kind};
ghost use Rattle.nv_cache.specs.RunningReads.{IsUnderWay, holds_page, needs_rooms};
ghost use Rattle.nv_cache.specs.Searches.{search_op};

use crate::{RunningRead, SearchControl, SearchMachine};
use nv_mirror::{Done, Refusal};
use nv_op::Kind;

impl SearchMachine {
    /// The kind of the next step.
    pub fn next_kind(self) -> Kind
        ensures { result ≡ kind_of (search_op self) }
    {
        match self.control {
            SearchControl::LoadHint { .. } => Kind::Load,
            SearchControl::TakeVictim { .. } => Kind::Take,
            SearchControl::GiveVictim { .. } => Kind::Give,
            SearchControl::SetHint { .. } => Kind::Hint,
            _ => Kind::Hand,
        }
    }
}

impl RunningRead {
    /// The kind of the next step, if each device call before it ends well.
    pub fn next_kind(self) -> Kind
        ensures { (sizes : Sizes) → result ≡ read_kind sizes self }
    {
        match self {
            RunningRead::Pageless(m) => m.next_kind(),
            RunningRead::Front(m) => m.next_kind(),
            RunningRead::Search { search, .. } => search.next_kind(),
            RunningRead::Load { load, .. } => load.next_kind(),
            RunningRead::Release { release, .. } => release.next_kind(),
            RunningRead::TakePlace(_) | RunningRead::Over(_) => Kind::Place,
        }
    }

    /// Its place, and how many bytes are its reply, from the step on by which it takes it.
    pub fn placed(self) -> Option<Done>
        ensures { result ≡ read_answer self }
    {
        match self {
            RunningRead::Pageless(m) => m.placed().map(|place| Done { place, len: 0 }),
            RunningRead::Release { release, copied } => Some(Done {
                place: release.place,
                len: copied,
            }),
            RunningRead::Over(result) => result.ok(),
            _ => None,
        }
    }

    /// Whether a device call has failed that came before one of its steps: then it is refused for that, or is to be.
    pub fn faulted(self) -> bool
        ensures { result ≡ is_some (read_fault self) }
    {
        let refused = match self {
            RunningRead::Pageless(m) => m.refused(),
            RunningRead::Front(m) => m.refused(),
            RunningRead::Load { load, .. } => load.refused(),
            RunningRead::Over(result) => result.err(),
            _ => None,
        };
        matches!(
            refused,
            Some(Refusal::RegionFault) | Some(Refusal::StoreFault)
        )
    }

    /// Whether it loads a page, and so needs room for the page and for a piece of it at its next advance.
    pub fn needs_rooms(self) -> bool
        ensures { result ≡ needs_rooms self }
    {
        matches!(self, RunningRead::Load { .. })
    }

    /// A law: as long as the bytes of no page lie in its room, any other room serves.
    pub fn takes_any_room(&self)
        ensures { (call : FileCall) (list room other : List ℕ) (start now : PassState) → holds_page self.now ≡ false → IsUnderWay call self.now list room start now → IsUnderWay call self.now list other start now }
    {
        let _ = self;
    }
}
