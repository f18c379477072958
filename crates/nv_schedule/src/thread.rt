//! A thread of a schedule: its calls, one after another.
ghost use Rattle.std.specs.Prelude.{◌≡◌, ◌≢◌, ◌∷◌, ◌==◌, ℕ, nat_lt, not, false, List, [], Option, None, Some, IfOk, OnErr, OnOk, is_some, length, take};
ghost use Rattle.std.specs.List.{list_any};
ghost use Rattle.nv_core.specs.state.Words.{Sizes};
ghost use Rattle.nv_cache.specs.ReadSteps.{first_kind as kind_of_first};
ghost use Rattle.nv_mount.specs.declared.fds.Fd.{Fd};
ghost use Rattle.nv_table.specs.invariant.Drawn.{drawn_by};
ghost use Rattle.nv_table.specs.invariant.Idle.{IsIdle};
ghost use Rattle.nv_table.specs.state.States.{IsOf, PassState};
ghost use Rattle.nv_table.specs.state.Workspaces.{IsWorkspace};
ghost use Rattle.nv_runner.specs.Owners.{IsAtOwn};
ghost use Rattle.nv_runner.specs.Shifts.{calls_of_thread};
ghost use Rattle.nv_trace.specs.declared.trace_call.TracedCall.{TracedCall as AnyTraced};
ghost use Rattle.nv_schedule.specs.Barred.{IsAnsweredEarly, IsFirstAnsweredEarly};
ghost use Rattle.nv_schedule.specs.Callers.{CallEnds, CallGoes, IsAtCall, ThreadHasCome, next_of_calls};
ghost use Rattle.nv_schedule.specs.Faulted.{fault_at_hand, hand_faulted};
ghost use Rattle.nv_schedule.specs.Hands.{IsOneOrNoStep, kind_at_first, list_at_hand};
ghost use Rattle.nv_schedule.specs.Listed.{reply_at_hand};
ghost use Rattle.nv_schedule.specs.Tries.{answer_of, begins_anew, refused_answer, reply_to};
ghost use Rattle.nv_schedule.specs.Turns.{CallCame};

use crate::hand::Hand;
use crate::turned::Turned;
use nv_calls::{Done, Kind, Progress, Refusal, refused_writes_leave_words};
use nv_mount::Mount;
use nv_plain::{Bytes, NoMemory};
use nv_pmem::Lines;
use nv_runner::{Answer, AnsweredCall};
use nv_store::Backing;
use nv_table::{Pass, Workspace};
use nv_trace::{TraceCall, TracedCall};
use std::alloc::Global;
use std::marker::Model;

/// Its number; the calls of the trace from its present one on; whether that has begun, and what it has of it at hand; and what the ones before were answered.
#[derive(Drop)]
pub(crate) struct Thread<'a> {
    pub(crate) number: u64,
    pub(crate) left: &'a [TracedCall],
    pub(crate) begun: bool,
    pub(crate) hand: Option<Hand>,
    pub(crate) answered: Vec<AnsweredCall<'a>>,
}

impl<'a> Model for Thread<'a> {
    ghost use Rattle.nv_runner.specs.Lists.{made_calls};
    ghost use Rattle.nv_runner.specs.Owners.{IsAtOwn};
    ghost use Rattle.nv_runner.specs.Shifts.{calls_of_thread};
    ghost use Rattle.nv_schedule.specs.Callers.{ThreadState};

    ghost Value = { ThreadState };

    ghost view = { λ t. record { left = calls_of_thread t.number t.left.now; begun = t.begun; hand = t.hand; made = made_calls t.answered.items } };

    ghost invariant = { λ t. IsAtOwn t.number t.left.now };
}

// Some calls from the first one of a thread's on.
fn from_own(calls: &[TracedCall], number: u64) -> &[TracedCall]
    ensures same { calls_of_thread number result.now ≡ calls_of_thread number calls.now }
    ensures own { IsAtOwn number result.now }
{
    let mut rest = calls;
    while let Some(call) = rest.first() {
        if call.thread == number {
            break;
        }
        rest = &rest[1..];
    }
    rest
}

// The kind of a call's first step, unless it is refused before.
fn first_kind(call: &TraceCall) -> Kind
    ensures { result ≡ kind_at_first call.now }
{
    match call {
        TraceCall::Pread { len: 0, .. } => Kind::Load,
        TraceCall::Pread { .. } => Kind::Take,
        TraceCall::Pwrite { bytes, .. } if bytes.is_empty() => Kind::Load,
        TraceCall::Pwrite { .. } => Kind::Take,
        TraceCall::Preadv { lens, .. } => moved_kind(has_some(lens.as_slice())),
        TraceCall::Pwritev { parts, .. } => moved_kind(has_bytes(parts.as_slice())),
        TraceCall::Fsync { .. } => Kind::Load,
    }
}

// Whether some parts of a read ask for any byte.
fn has_some(lens: &[u64]) -> bool
    ensures { result ≡ list_any (λ len. nat_lt 0 len) lens.now }
{
    lens.iter().any(|len| *len > 0)
}

// Whether some parts of a write have any byte.
fn has_bytes(parts: &[Bytes]) -> bool
    ensures { result ≡ list_any (λ part. not (length part == 0)) parts.now }
{
    parts.iter().any(|part| !part.is_empty())
}

// The kind of the first step of a read or a write, by whether it moves any byte.
fn moved_kind(some: bool) -> Kind
    ensures { (len : ℕ) → some ≡ nat_lt 0 len → result ≡ kind_of_first len }
{
    if some { Kind::Take } else { Kind::Load }
}

// Whether a call begins anew that came to this.
fn anew(call: &TraceCall, ended: Result<Done, Refusal>) -> bool
    ensures { result ≡ begins_anew call.now ended }
{
    match (call, ended) {
        (TraceCall::Pread { .. } | TraceCall::Preadv { .. }, Err(Refusal::Busy { .. })) => true,
        (
            TraceCall::Pwrite { .. } | TraceCall::Pwritev { .. },
            Err(Refusal::Busy { .. } | Refusal::Raced { .. }),
        ) => true,
        _ => false,
    }
}

// What a call without a place is answered: a write that a device fault ended is open, from the first number on that its pass has drawn.
fn without_place(call: &TraceCall, refusal: Refusal, drawn: Option<u64>) -> Answer
    ensures { result ≡ refused_answer call.now refusal drawn }
{
    match (call, refusal, drawn) {
        (
            TraceCall::Pwrite { .. } | TraceCall::Pwritev { .. },
            Refusal::RegionFault | Refusal::StoreFault,
            Some(number),
        ) => Answer::Open { number },
        _ => Answer::Refused(refusal),
    }
}

// What a call is answered by its last try, which left this at hand.
fn answer(call: &TraceCall, tried: Hand, ended: Result<Done, Refusal>, drawn: Option<u64>) -> Answer
    requires { (len : ℕ) → reply_at_hand tried len ≡ reply_to call.now (list_at_hand tried) len }
    ensures { result ≡ answer_of call.now (list_at_hand tried) ended drawn }
{
    match ended {
        Ok(done) => Answer::Placed {
            place: done.place,
            reply: tried.into_reply(done.len),
        },
        Err(refusal) => without_place(call, refusal, drawn),
    }
}

impl<'a> Thread<'a> {
    /// A thread that has made none of its calls among these.
    pub(crate) fn new(alloc: Global, number: u64, calls: &'a [TracedCall]) -> Thread<'a>
        ensures { result ≡ record { left = calls_of_thread number calls.now; begun = false; hand = None; made = [] } }
    {
        Thread {
            number,
            left: from_own(calls, number),
            begun: false,
            hand: None,
            answered: Vec::new(alloc),
        }
    }

    /// The kind of its next step, if each device call before it ends well and its call isn't refused before; none where it has no call left.
    pub(crate) fn next_kind(&self) -> Option<Kind>
        ensures { (sizes : Sizes) → result ≡ next_of_calls sizes self.now.left self.now.hand }
    {
        let call = self.left.first()?;
        Some(match &self.hand {
            None => first_kind(&call.call),
            Some(hand) => hand.next_kind(),
        })
    }

    /// Makes the next step of its present call, which begins by it where it hasn't begun, or none where that is refused by what it asks for. It tells whether the call was answered by it: a read that has found a
    /// lock held begins anew, and so does a write that has, or whose numbers another one drew. Where memory is wanting, for a read's bytes or for the answer, nothing was done.
    pub(crate) fn turn<L: Lines + Drop, B: Backing + Drop>(
        &mut self,
        alloc: Global,
        mount: &Mount<L, B>,
        pass: &mut Pass<L, B>,
        workspace: &mut Workspace<L, B>,
    ) -> Result<Turned, NoMemory>
        requires some { self.old.left ≢ [] }
        requires board { IsOf mount.now.board pass.old }
        requires come { (start : PassState) × ThreadHasCome mount.now.fds self.old start pass.old }
        requires workspace { IsWorkspace mount.now.board.opened.sizes workspace.old }
        requires bare { workspace.old.parts.items ≡ [] }
        ensures board { IsOf mount.now.board pass.new }
        ensures moved { IfOk result (λ turned. IsOneOrNoStep (IsFirstAnsweredEarly pass.old.view.opened.sizes mount.now.fds self.old.left turned.answered) (hand_faulted self.old.hand) turned.faulted pass.old pass.new) }
        ensures none { IfOk result (λ turned. turned.faulted ≡ false → hand_faulted self.new.hand ≡ false) }
        ensures ends { IfOk result (λ turned. CallEnds turned.answered self.old self.new) }
        ensures call { IfOk result (λ turned. (last : PassState) → IsAtCall mount.now.fds self.old.left self.old.hand last pass.old → CallCame mount.now.fds turned.answered self.old self.new last pass.new) }
        ensures come { OnOk result ((start : PassState) → ThreadHasCome mount.now.fds self.old start pass.old → ThreadHasCome mount.now.fds self.new start pass.new) }
        ensures workspace { IsWorkspace mount.now.board.opened.sizes workspace.new }
        ensures bare { workspace.new.parts.items ≡ [] }
        ensures memory { OnErr result ((self.new ≡ self.old) × (pass.new ≡ pass.old)) }
    {
        let [call, later @ ..] = self.left else {
            unreachable!()
        };
        self.answered.reserve(1)?;
        let (answer, faulted) = advance_call(alloc, mount, pass, workspace, call, &mut self.hand)?;
        let answered = match answer {
            None => {
                self.begun = true;
                false
            }
            Some(answer) => {
                self.answered.push_reserved(AnsweredCall { call, answer });
                self.left = from_own(later, self.number);
                self.begun = false;
                true
            }
        };
        Ok(Turned { answered, faulted })
    }
}

// Makes the next step of a call, of which this is at hand: what it is answered, where that was its last one, and it doesn't begin anew; and whether a device call has failed in this try. Where memory is wanting nothing was done.
fn advance_call<L: Lines + Drop, B: Backing + Drop>(
    alloc: Global,
    mount: &Mount<L, B>,
    pass: &mut Pass<L, B>,
    workspace: &mut Workspace<L, B>,
    call: &TracedCall,
    hand: &mut Option<Hand>,
) -> Result<(Option<Answer>, bool), NoMemory>
    requires board { IsOf mount.now.board pass.old }
    requires at { (later : List AnyTraced) × (last : PassState) × IsAtCall mount.now.fds (call.now ∷ later) hand.old last pass.old }
    requires workspace { IsWorkspace mount.now.board.opened.sizes workspace.old }
    requires bare { workspace.old.parts.items ≡ [] }
    ensures board { IsOf mount.now.board pass.new }
    ensures moved { IfOk result (λ told. IsOneOrNoStep (IsAnsweredEarly pass.old.view.opened.sizes mount.now.fds call.now.call (is_some told.0)) (hand_faulted hand.old) told.1 pass.old pass.new) }
    ensures none { IfOk result (λ told. told.1 ≡ false → hand_faulted hand.new ≡ false) }
    ensures goes { IfOk result (λ told. (later : List AnyTraced) (last : PassState) → IsAtCall mount.now.fds (call.now ∷ later) hand.old last pass.old
        → CallGoes mount.now.fds call.now later hand.new last pass.new told.0) }
    ensures workspace { IsWorkspace mount.now.board.opened.sizes workspace.new }
    ensures bare { workspace.new.parts.items ≡ [] }
    ensures memory { OnErr result ((hand.new ≡ hand.old) × (pass.new ≡ pass.old)) }
{
    refused_writes_leave_words();
    pass.sees_a_run();
    let mut tried = take_up(alloc, hand, call)?;
    let progress = tried.advance(mount, pass, workspace, &call.call);
    let faulted = tried.faulted();
    match progress {
        Progress::More => {
            *hand = Some(tried);
            Ok((None, faulted))
        }
        Progress::Ended(ended) => {
            if anew(&call.call, ended) {
                return Ok((None, faulted));
            }
            let answer = answer(&call.call, tried, ended, pass.drawn());
            Ok((Some(answer), faulted))
        }
    }
}

// What is at hand of a call, or its machine, where it hasn't begun.
fn take_up(alloc: Global, hand: &mut Option<Hand>, call: &TracedCall) -> Result<Hand, NoMemory>
    ensures taken { IfOk result (λ taken. (fds : List Fd) (later : List AnyTraced) (last now : PassState) → IsAtCall fds (call.now ∷ later) hand.old last now → IsAtCall fds (call.now ∷ later) (Some taken) last now) }
    ensures none { OnOk result (hand.new ≡ None) }
    ensures faulted { IfOk result (λ taken. is_some (fault_at_hand taken) ≡ hand_faulted hand.old) }
    ensures memory { OnErr result (hand.new ≡ hand.old) }
{
    match hand.take() {
        Some(hand) => Ok(hand),
        None => Hand::new(alloc, &call.call),
    }
}
