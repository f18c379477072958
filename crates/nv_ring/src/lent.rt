//! A running write whose list is lent: it is put in before a step, and taken out behind it; and what is told of the write between two steps.
ghost use Rattle.std.specs.Prelude.{◌≡◌, false, is_some};
ghost use Rattle.nv_op.specs.Kinds.{kind_of};
ghost use Rattle.nv_ring.specs.Appends.{append_op, append_place_at, append_refusal_at};
ghost use Rattle.nv_ring.specs.Draws.{draw_op, draw_refusal_at};
ghost use Rattle.nv_ring.specs.WriteSteps.{with_list, write_fault, write_kind, write_place};

use crate::{AppendControl, AppendMachine, DrawControl, DrawMachine, RunningWrite};
use nv_mirror::Refusal;
use nv_op::Kind;

impl DrawMachine<'_> {
    fn with_list<'b>(self, list: &'b [u8]) -> DrawMachine<'b>
        ensures { result ≡ record self.entry { bytes = list.entry } }
    {
        DrawMachine {
            file: self.file,
            at: self.at,
            bytes: list,
            end: self.end,
            page: self.page,
            pages: self.pages,
            sized: self.sized,
            length: self.length,
            head: self.head,
            control: self.control,
        }
    }

    fn next_kind(self) -> Kind
        ensures { result ≡ kind_of (draw_op self.entry) }
    {
        match self.control {
            DrawControl::LoadHead | DrawControl::LoadTail => Kind::Load,
            _ => Kind::Draw,
        }
    }

    fn refused(self) -> Option<Refusal>
        ensures { result ≡ draw_refusal_at self.entry.control }
    {
        match self.control {
            DrawControl::Refused(refusal) => Some(refusal),
            _ => None,
        }
    }
}

impl AppendMachine<'_> {
    fn with_list<'b>(self, list: &'b [u8]) -> AppendMachine<'b>
        ensures { result ≡ record self.entry { bytes = list.entry } }
    {
        AppendMachine {
            file: self.file,
            at: self.at,
            bytes: list,
            end: self.end,
            page: self.page,
            pages: self.pages,
            sized: self.sized,
            length: self.length,
            number: self.number,
            place: self.place,
            control: self.control,
        }
    }

    fn next_kind(self) -> Kind
        ensures { result ≡ kind_of (append_op self.entry false) }
    {
        match self.control {
            AppendControl::SeizeEntry { .. } => Kind::Seize,
            AppendControl::CommitGroup | AppendControl::PledgePage { .. } => Kind::Pledge,
            AppendControl::ReadyEntry { .. } => Kind::Ready,
            AppendControl::GrowLength => Kind::Grow,
            AppendControl::BreakEntry { .. } => Kind::Break,
            _ => Kind::Place,
        }
    }

    fn placed(self) -> Option<u64>
        ensures { result ≡ append_place_at self.entry self.entry.control }
    {
        match self.control {
            AppendControl::GrowLength | AppendControl::Appended => Some(self.place),
            _ => None,
        }
    }

    fn refused(self) -> Option<Refusal>
        ensures { result ≡ append_refusal_at self.entry.control }
    {
        match self.control {
            AppendControl::BreakEntry { .. } => Some(Refusal::RegionFault),
            AppendControl::Refused(refusal) => Some(refusal),
            _ => None,
        }
    }
}

impl RunningWrite<'_> {
    /// The same write, with this list where its own bytes were.
    pub fn with_list<'b>(self, list: &'b [u8]) -> RunningWrite<'b>
        ensures { result ≡ with_list list.entry self.entry }
    {
        match self {
            RunningWrite::Pageless(m) => RunningWrite::Pageless(m.with_list(list)),
            RunningWrite::Front(m) => RunningWrite::Front(m.with_list(list)),
            RunningWrite::Draw(m) => RunningWrite::Draw(m.with_list(list)),
            RunningWrite::Append(m) => RunningWrite::Append(m.with_list(list)),
            RunningWrite::Release(m) => RunningWrite::Release(m.with_list(list)),
            RunningWrite::Over(result) => RunningWrite::Over(result),
        }
    }

    /// The kind of the next step, if each device call before it ends well.
    pub fn next_kind(self) -> Kind
        ensures { result ≡ write_kind self.entry }
    {
        match self {
            RunningWrite::Pageless(m) => m.next_kind(),
            RunningWrite::Front(m) => m.next_kind(),
            RunningWrite::Draw(m) => m.next_kind(),
            RunningWrite::Append(m) => m.next_kind(),
            RunningWrite::Release(m) => m.next_kind(),
            RunningWrite::Over(_) => Kind::Place,
        }
    }

    /// Its place, from the step on by which it takes it.
    pub fn placed(self) -> Option<u64>
        ensures { result ≡ write_place self.entry }
    {
        match self {
            RunningWrite::Pageless(m) => m.placed(),
            RunningWrite::Front(_) | RunningWrite::Draw(_) => None,
            RunningWrite::Append(m) => m.placed(),
            RunningWrite::Release(m) => Some(m.place),
            RunningWrite::Over(result) => result.ok(),
        }
    }

    /// Whether a device call has failed that came before one of its steps: then it is refused for that, or is to be.
    pub fn faulted(self) -> bool
        ensures { result ≡ is_some (write_fault self.entry) }
    {
        let refused = match self {
            RunningWrite::Pageless(m) => m.refused(),
            RunningWrite::Front(m) => m.refused(),
            RunningWrite::Draw(m) => m.refused(),
            RunningWrite::Append(m) => m.refused(),
            RunningWrite::Release(_) => None,
            RunningWrite::Over(result) => result.err(),
        };
        matches!(refused, Some(Refusal::RegionFault))
    }
}
