//! How one machine of a call goes on where another one ends.
ghost use Rattle.std.specs.Prelude.{◌≡◌, true, if◌then◌else◌};
ghost use Rattle.nv_mirror.specs.declared.release.ReleaseControl.TheVariants as releases;
ghost use Rattle.nv_core.specs.state.Passes.{is_write};
ghost use Rattle.nv_table.specs.state.Keys.{sizes_of};
ghost use Rattle.nv_table.specs.state.States.{PassState};
ghost use Rattle.nv_ring.specs.declared.append.AppendControl.TheVariants as appends;
ghost use Rattle.nv_mirror.specs.declared.front.FrontControl.TheVariants as fronts;
ghost use Rattle.nv_ring.specs.Appends.{Fits as FitsAppend, IsUnderWay as IsAppendUnderWay, append_asked};
ghost use Rattle.nv_mirror.specs.Fronts.{Fits as FitsFront, IsUnderWay as IsFrontUnderWay, front_call_of};
ghost use Rattle.nv_mirror.specs.Releases.{Fits as FitsRelease, IsUnderWay as IsReleaseUnderWay};
ghost use Rattle.nv_ring.specs.declared.numbers.DrawControl.TheVariants as draws;
ghost use Rattle.nv_ring.specs.Draws.{Fits as FitsDraw, HasCome, IsUnderWay as IsDrawUnderWay, append_of, draw_asked};
ghost use Rattle.nv_ring.specs.Ways.{IsRefused, IsRefusedDraw, refused_of, released_of};
ghost use Rattle.nv_mirror.specs.declared.answers.Refusal.{Refusal};

use crate::{AppendControl, AppendMachine, DrawControl, DrawMachine};
use nv_mirror::{FrontControl, FrontMachine, ReleaseControl, ReleaseMachine};
use nv_op::Asked;
use nv_table::Layout;

impl<'a> DrawMachine<'a> {
    /// The draw of a write whose front is over.
    #[inline(always)]
    pub fn behind(front: FrontMachine<'a>, layout: Layout) -> Self
        requires passed { front.control ≡ fronts.Passed }
        requires fits { FitsFront (sizes_of layout) front }
        requires write { is_write (front_call_of front) ≡ true }
        ensures asked { draw_asked result ≡ front.entry.asked }
        ensures machine { result ≡ record {
          file = result.file;
          at = result.at;
          bytes = result.bytes;
          end = front.entry.end;
          page = front.entry.first;
          pages = front.entry.held;
          sized = front.entry.sized;
          length = front.entry.length;
          head = 0;
          control = draws.LoadHead;
        } }
        ensures begins { (now : PassState) → HasCome result now now }
        ensures way { (start now : PassState) → IsFrontUnderWay front.entry start now → IsDrawUnderWay result start now }
    {
        // Only the clause speaks of it.
        let _ = layout;
        let Asked::Write { file, at, bytes } = front.asked else {
            unreachable!()
        };
        DrawMachine {
            file,
            at,
            bytes,
            end: front.end,
            page: front.first,
            pages: front.held,
            sized: front.sized,
            length: front.length,
            head: 0,
            control: DrawControl::LoadHead,
        }
    }

    /// The append of a write that has its numbers.
    #[inline(always)]
    pub fn append(self) -> AppendMachine<'a>
        requires drawn { self.control ≡ draws.Drawn }
        ensures machine { result ≡ append_of self.entry }
        ensures way { (start now : PassState) → IsDrawUnderWay self.entry start now → IsAppendUnderWay result start now }
    {
        AppendMachine {
            file: self.file,
            at: self.at,
            bytes: self.bytes,
            end: self.end,
            page: self.page,
            pages: self.pages,
            sized: self.sized,
            length: self.length,
            number: self.head,
            place: 0,
            control: AppendControl::SeizeEntry { seized: 0 },
        }
    }

    /// The way back of a write that has drawn none.
    #[inline(always)]
    pub fn give_back(self, layout: Layout) -> FrontMachine<'a>
        requires refused { IsRefusedDraw self.control }
        requires fits { FitsDraw (sizes_of layout) self }
        ensures machine { (refusal : Refusal) × (self.entry.control ≡ draws.Refused refusal) × (result ≡ refused_of (append_of self.entry) refusal) }
        ensures way { (start now : PassState) → IsDrawUnderWay self.entry start now → IsFrontUnderWay result start now }
    {
        // Only the clause speaks of it.
        let _ = layout;
        let DrawControl::Refused(refusal) = self.control else {
            unreachable!()
        };
        FrontMachine {
            asked: Asked::Write {
                file: self.file,
                at: self.at,
                bytes: self.bytes,
            },
            end: self.end,
            first: self.page,
            last: self.page + self.pages,
            held: self.pages,
            sized: self.sized,
            length: self.length,
            control: FrontControl::GiveBack {
                size: self.sized,
                refusal,
            },
        }
    }
}

impl<'a> AppendMachine<'a> {
    // What it asks for.
    #[inline(always)]
    fn asked(self) -> Asked<'a>
        ensures { result ≡ append_asked self.entry }
    {
        Asked::Write {
            file: self.file,
            at: self.at,
            bytes: self.bytes,
        }
    }

    // What it gives back first.
    #[inline(always)]
    fn first_given(self) -> ReleaseControl
        ensures { result ≡ (if self.entry.sized then releases.GiveSize else releases.GivePage 0) }
    {
        if self.sized {
            ReleaseControl::GiveSize
        } else {
            ReleaseControl::GivePage { given: 0 }
        }
    }

    /// The end of a write that is in the log.
    #[inline(always)]
    pub fn release(self) -> ReleaseMachine<'a>
        requires appended { self.control ≡ appends.Appended }
        ensures machine { result ≡ released_of self.entry }
        ensures way { (start now : PassState) → IsAppendUnderWay self.entry start now → IsReleaseUnderWay result start now }
    {
        ReleaseMachine {
            asked: self.asked(),
            page: self.page,
            pages: self.pages,
            sized: self.sized,
            length: self.length,
            place: self.place,
            control: self.first_given(),
        }
    }

    /// The way back of a write that is refused.
    #[inline(always)]
    pub fn give_back(self, layout: Layout) -> FrontMachine<'a>
        requires refused { IsRefused self.control }
        requires fits { FitsAppend (sizes_of layout) self }
        ensures machine { (refusal : Refusal) × (self.entry.control ≡ appends.Refused refusal) × (result ≡ refused_of self.entry refusal) }
        ensures way { (start now : PassState) → IsAppendUnderWay self.entry start now → IsFrontUnderWay result start now }
    {
        // Only the clause speaks of it.
        let _ = layout;
        let AppendControl::Refused(refusal) = self.control else {
            unreachable!()
        };
        FrontMachine {
            asked: self.asked(),
            end: self.end,
            first: self.page,
            last: self.page + self.pages,
            held: self.pages,
            sized: self.sized,
            length: self.length,
            control: FrontControl::GiveBack {
                size: self.sized,
                refusal,
            },
        }
    }
}
