//! What is told of a batch between two steps.
ghost use Rattle.std.specs.Prelude.{◌≡◌};
ghost use Rattle.nv_clean.specs.Cleaning.{is_over};
ghost use Rattle.nv_clean.specs.CleanSteps.{clean_kind, is_fault};

use crate::{CleanControl, CleanMachine, CleanRefusal};
use nv_op::Kind;

impl CleanMachine {
    /// The kind of the next step, if each device call before it ends well.
    pub fn next_kind(&self) -> Kind
        ensures { result ≡ clean_kind self.now }
    {
        match self.control {
            CleanControl::Begin
            | CleanControl::TakeHeader
            | CleanControl::TakeCleanup { .. }
            | CleanControl::TakeStore => Kind::Take,
            CleanControl::HoldEntry { .. } => Kind::Hold,
            CleanControl::WriteBack { at } if self.is_last(at) => Kind::Return,
            CleanControl::WriteBack { .. } => Kind::Hold,
            CleanControl::CleanEntry { .. }
            | CleanControl::ReturnEntry { .. }
            | CleanControl::ReturnFailed { .. } => Kind::Return,
            CleanControl::SubtractDirty { .. } => Kind::Subtract,
            CleanControl::Retire | CleanControl::FreeEntry { .. } => Kind::Free,
            CleanControl::AdvanceTail => Kind::Tail,
            CleanControl::GiveCleanup { .. }
            | CleanControl::UndoCleanup { .. }
            | CleanControl::GiveStore { .. }
            | CleanControl::GiveHeader
            | CleanControl::GiveCleaner
            | CleanControl::GiveBack => Kind::Give,
            _ => Kind::Load,
        }
    }

    /// Whether it has made its last step.
    pub fn is_over(&self) -> bool
        ensures { result ≡ is_over self.now.control }
    {
        matches!(self.control, CleanControl::Over)
    }

    /// Whether a device call has failed that came before one of its steps.
    pub fn faulted(&self) -> bool
        ensures { result ≡ is_fault self.now.refusal }
    {
        matches!(
            self.refusal,
            Some(CleanRefusal::RegionFault | CleanRefusal::StoreFault)
        )
    }
}
