//! Machines whose list is lent: it is put in before a step, and taken out behind it; and what is told of one between two steps.
ghost use Rattle.std.specs.Prelude.{◌≡◌, false};
ghost use Rattle.nv_core.specs.state.Words.{Sizes};
ghost use Rattle.nv_op.specs.Kinds.{kind_of};
ghost use Rattle.nv_op.specs.Ops.{asked_with};
ghost use Rattle.nv_mirror.specs.Fronts.{front_op, front_refusal_at};
ghost use Rattle.nv_mirror.specs.Loads.{load_op, load_refusal_at};
ghost use Rattle.nv_mirror.specs.Pageless.{pageless_op, pageless_place_at, pageless_refusal_at};
ghost use Rattle.nv_mirror.specs.Releases.{release_op};

use crate::{
    FrontControl, FrontMachine, LoadControl, LoadMachine, PagelessControl, PagelessMachine,
    Refusal, ReleaseControl, ReleaseMachine,
};
use nv_op::Kind;

impl PagelessMachine<'_> {
    /// The same machine, with this list where its own bytes were.
    pub fn with_list<'b>(self, list: &'b [u8]) -> PagelessMachine<'b>
        ensures { result ≡ record self.entry { asked = asked_with list.entry self.entry.asked } }
    {
        PagelessMachine {
            asked: self.asked.with_list(list),
            control: self.control,
        }
    }

    /// The kind of the next step.
    pub fn next_kind(self) -> Kind
        ensures { result ≡ kind_of (pageless_op self.entry.control) }
    {
        match self.control {
            PagelessControl::Begin | PagelessControl::LoadOrder => Kind::Load,
            PagelessControl::TakePlace | PagelessControl::Over(_) => Kind::Place,
        }
    }

    /// Its place, once it has one.
    pub fn placed(self) -> Option<u64>
        ensures { result ≡ pageless_place_at self.entry.control }
    {
        match self.control {
            PagelessControl::Over(result) => result.ok(),
            _ => None,
        }
    }

    /// Why it is refused, if it is.
    pub fn refused(self) -> Option<Refusal>
        ensures { result ≡ pageless_refusal_at self.entry.control }
    {
        match self.control {
            PagelessControl::Over(result) => result.err(),
            _ => None,
        }
    }
}

impl FrontMachine<'_> {
    /// The same machine, with this list where its own bytes were.
    pub fn with_list<'b>(self, list: &'b [u8]) -> FrontMachine<'b>
        ensures { result ≡ record self.entry { asked = asked_with list.entry self.entry.asked } }
    {
        FrontMachine {
            asked: self.asked.with_list(list),
            end: self.end,
            first: self.first,
            last: self.last,
            held: self.held,
            sized: self.sized,
            length: self.length,
            control: self.control,
        }
    }

    /// The kind of the next step.
    pub fn next_kind(self) -> Kind
        ensures { result ≡ kind_of (front_op self.entry) }
    {
        match self.control {
            FrontControl::Begin | FrontControl::TakePage | FrontControl::TakeSize => Kind::Take,
            FrontControl::GiveBack { size: true, .. } | FrontControl::GiveBack { .. } => Kind::Give,
            _ => Kind::Load,
        }
    }

    /// Why it is refused, if it is.
    pub fn refused(self) -> Option<Refusal>
        ensures { result ≡ front_refusal_at self.entry.control }
    {
        match self.control {
            FrontControl::GiveBack { refusal, .. } | FrontControl::Over(refusal) => Some(refusal),
            _ => None,
        }
    }
}

impl ReleaseMachine<'_> {
    /// The same machine, with this list where its own bytes were.
    pub fn with_list<'b>(self, list: &'b [u8]) -> ReleaseMachine<'b>
        ensures { result ≡ record self.entry { asked = asked_with list.entry self.entry.asked } }
    {
        ReleaseMachine {
            asked: self.asked.with_list(list),
            page: self.page,
            pages: self.pages,
            sized: self.sized,
            length: self.length,
            place: self.place,
            control: self.control,
        }
    }

    /// The kind of the next step.
    pub fn next_kind(self) -> Kind
        ensures { result ≡ kind_of (release_op self.entry) }
    {
        match self.control {
            ReleaseControl::GiveSize | ReleaseControl::GivePage { .. } => Kind::Give,
            ReleaseControl::Over => Kind::Place,
        }
    }
}

impl LoadMachine {
    /// The kind of the next step, if the device call before it ends well.
    pub fn next_kind(self) -> Kind
        ensures { (sizes : Sizes) → result ≡ kind_of (load_op sizes self false) }
    {
        match self.control {
            LoadControl::LoadDirty
            | LoadControl::LoadHead
            | LoadControl::LoadTail
            | LoadControl::LoadEntry { .. } => Kind::Load,
            LoadControl::TakeCleanup | LoadControl::TakeStore { .. } => Kind::Take,
            LoadControl::ReadStore { .. }
            | LoadControl::GiveCleanup
            | LoadControl::GiveBackStore { .. }
            | LoadControl::GiveBackCleanup { .. } => Kind::Give,
            LoadControl::HoldEntry { .. } => Kind::Hold,
            LoadControl::ReadPiece { .. } | LoadControl::ReturnEntry { .. } => Kind::Return,
            LoadControl::Loaded | LoadControl::Refused(_) => Kind::Place,
        }
    }

    /// Why its page isn't loaded, if it isn't.
    pub fn refused(self) -> Option<Refusal>
        ensures { result ≡ load_refusal_at self.control }
    {
        match self.control {
            LoadControl::ReturnEntry { .. } => Some(Refusal::RegionFault),
            LoadControl::GiveBackStore { .. } => Some(Refusal::StoreFault),
            LoadControl::GiveBackCleanup { refusal } | LoadControl::Refused(refusal) => {
                Some(refusal)
            }
            _ => None,
        }
    }
}
