//! Where the load of a page begins, and how its read goes on behind it.
ghost use Rattle.std.specs.Prelude.{◌≡◌, ℕ, ◌+◌, List};
ghost use Rattle.nv_table.specs.state.Keys.{sizes_of};
ghost use Rattle.nv_table.specs.state.States.{PassState};
ghost use Rattle.nv_mirror.specs.declared.load.LoadControl.TheVariants as loads;
ghost use Rattle.nv_mirror.specs.Fronts.{IsUnderWay as IsFrontUnderWay};
ghost use Rattle.nv_mirror.specs.LoadAnswers.{HasRun};
ghost use Rattle.nv_mirror.specs.Loads.{Fits as FitsLoad, IsRefused as IsLoadRefused, IsUnderWay as IsLoadUnderWay, Misses, given_back};
ghost use Rattle.nv_mirror.specs.declared.answers.Refusal.{Refusal};

use crate::{FrontControl, FrontMachine, LoadControl, LoadMachine};
use nv_op::Asked;
use nv_table::Layout;

impl LoadMachine {
    /// A law: it begins where its read misses its page, wherever that stands, and has made no step then.
    pub fn begins(&self)
        ensures run { (now : PassState) → self.now.control ≡ loads.LoadDirty → HasRun self.now self.now now now }
        ensures way { (room : List ℕ) (start now : PassState) → FitsLoad now.view.opened.sizes self.now → self.now.control ≡ loads.LoadDirty → Misses self.now start now → IsLoadUnderWay self.now room start now }
    {
        let _ = self.page;
    }

    /// The way back of a read whose page isn't loaded.
    pub fn give_back(self, layout: Layout) -> FrontMachine<'static>
        requires refused { IsLoadRefused self.control }
        requires fits { FitsLoad (sizes_of layout) self }
        ensures machine { (refusal : Refusal) × (self.control ≡ loads.Refused refusal) × (result ≡ given_back self refusal) }
        ensures way { (room : List ℕ) (start now : PassState) → IsLoadUnderWay self room start now → IsFrontUnderWay result start now }
    {
        // Only the clause speaks of it.
        let _ = layout;
        let LoadControl::Refused(refusal) = self.control else {
            unreachable!()
        };
        FrontMachine {
            asked: Asked::Read {
                file: self.file,
                at: self.at,
                len: self.len,
            },
            end: self.at + self.len,
            first: self.first,
            last: self.first + self.pages,
            held: self.pages,
            sized: self.sized,
            length: self.length,
            control: FrontControl::GiveBack {
                size: self.sized,
                refusal,
            },
        }
    }
}
