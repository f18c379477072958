//! Traces, as data.
ghost use Rattle.std.specs.Prelude.{◌≡◌, ℕ, ◌==◌, ◌+◌, ◌^◌, ◌<◌, ◌≤◌, [], All, OnErr, OnOk, drop, filter, length, slice_index_or, true};
ghost use Rattle.std.specs.List.Sorted.{IsStrictlyIncreasing};
ghost use Rattle.nv_trace.specs.Forms.{has_rounds, has_steps};
ghost use Rattle.nv_trace.specs.Grammar.{last_thread};
ghost use Rattle.nv_trace.specs.Lives.{behind_begun};
ghost use Rattle.nv_trace.specs.Shape.{IsLineTokenWithin, IsTokenWithin, IsWellFormed, MayFollow};
ghost use Rattle.nv_trace.specs.Traced.{empty_trace, has_begun, has_tokens, lines_in, thread_count};
ghost use Rattle.nv_trace.specs.ReadRounds.{without_calls};
ghost use Rattle.nv_trace.specs.Reading.{with_statement, with_tokens};

use crate::lives::{EndedLife, Lives};
use crate::statement::Statement;
use crate::token::{LineToken, Token};
use crate::trace_call::TracedCall;
use nv_plain::{Bytes, Mode, NoMemory};
use std::alloc::Global;
use std::marker::Model;
use std::mem;

/// What a trace is read for: some lines are in one of the forms alone.
#[derive(Clone, Copy, Debug, PartialEq, Eq)]
pub enum Form {
    /// To make its calls, round by round, each thread its own.
    Run,
    /// To make their steps in a given order.
    Sched,
}

impl Form {
    /// Whether `round` is a line.
    pub(crate) fn has_rounds(self) -> bool
        ensures { result ≡ has_rounds self }
    {
        self == Form::Run
    }

    /// Whether `steps` is the first field of a line.
    pub(crate) fn has_steps(self) -> bool
        ensures { result ≡ has_steps self }
    {
        self == Form::Sched
    }
}

/// A descriptor: its file, by its place among the names of the trace, and the mode in which it is open.
#[derive(Clone, Copy, Debug, PartialEq, Eq)]
pub struct Descriptor {
    pub file: u64,
    pub mode: Mode,
}

/// What the lines of a trace say: the files' names, the descriptors, the calls in their order, how many rounds end before the last, and
/// the tokens in theirs, life by life.
#[derive(Drop)]
pub struct Trace {
    alloc: Global,
    form: Form,
    names: Vec<Bytes>,
    descriptors: Vec<Descriptor>,
    calls: Vec<TracedCall>,
    /// How many `round` lines there were, standing still at 2^64 - 1.
    rounds: u64,
    lives: Lives,
}

impl Model for Trace {
    ghost use Rattle.nv_trace.specs.Traced.{Traced};

    ghost Value = { Traced };

    ghost view = { λ t. record { form = t.form; names = t.names.items; descriptors = t.descriptors.items; calls = t.calls.items; rounds = t.rounds; lives = t.lives.ended; tokens = t.lives.tokens } };

    ghost use Rattle.nv_trace.specs.Shape.{IsWellFormed};

    ghost invariant = { λ t. IsWellFormed (record { form = t.form; names = t.names.items; descriptors = t.descriptors.items; calls = t.calls.items; rounds = t.rounds; lives = t.lives.ended; tokens = t.lives.tokens }) };
}

impl Trace {
    /// A trace of no lines. Takes no memory.
    pub fn new(alloc: Global, form: Form) -> Self
        ensures { result ≡ empty_trace form }
    {
        Trace {
            alloc,
            form,
            names: Vec::new(alloc),
            descriptors: Vec::new(alloc),
            calls: Vec::new(alloc),
            rounds: 0,
            lives: Lives::new(alloc),
        }
    }

    /// The names of its files, in the order of their lines.
    pub fn names(&self) -> &[Bytes]
        ensures { result.now ≡ self.now.names }
    {
        &self.names
    }

    /// Its descriptors, in the order of their lines.
    pub fn descriptors(&self) -> &[Descriptor]
        ensures { result.now ≡ self.now.descriptors }
    {
        &self.descriptors
    }

    /// Its calls, in the order of their lines.
    pub fn calls(&self) -> &[TracedCall]
        ensures calls { result.now ≡ self.now.calls }
        ensures well_formed { IsWellFormed self.now }
    {
        &self.calls
    }

    /// How many `round` lines there were.
    pub fn rounds(&self) -> u64
        ensures { result ≡ self.now.rounds }
    {
        self.rounds
    }

    /// The tokens of its last life, those behind the last crash of its `steps` lines, in their order: fewer than 2^63.
    pub fn tokens(&self) -> &[Token]
        ensures tokens { result.now ≡ self.now.tokens }
        ensures few { length result.now < 2 ^ 63 }
        ensures well_formed { IsWellFormed self.now }
    {
        &self.lives.tokens
    }

    /// How many threads make its calls: one more than the largest of their numbers, and at least one.
    pub fn thread_count(&self) -> u64
        ensures count { result ≡ thread_count self.now }
        ensures few { result ≤ last_thread + 1 }
    {
        let mut count: u64 = 1;
        for traced in &self.calls {
            count = count.max(traced.thread + 1);
        }
        count
    }

    /// What it is read for.
    pub(crate) fn form(&self) -> Form
        ensures { result ≡ self.now.form }
    {
        self.form
    }

    /// Whether a `steps` line has come.
    pub(crate) fn has_tokens(&self) -> bool
        ensures { result ≡ has_tokens self.now }
    {
        !self.lives.ended.is_empty() || !self.lives.tokens.is_empty()
    }

    /// Whether a line has come that declares nothing: a call, a `round` or a `steps` line.
    pub(crate) fn has_begun(&self) -> bool
        ensures { result ≡ has_begun self.now }
    {
        !self.calls.is_empty() || self.rounds > 0 || self.has_tokens()
    }

    /// What it takes memory from.
    pub(crate) fn alloc(&self) -> Global {
        self.alloc
    }

    /// Takes one more statement, which the line of this number says. Without memory nothing changes.
    pub fn push(&mut self, number: u64, statement: Statement) -> Result<(), NoMemory>
        requires { MayFollow self.old statement }
        ensures pushed { OnOk result (self.new ≡ with_statement self.old number statement) }
        ensures unchanged { OnErr result (self.new ≡ self.old) }
    {
        match statement {
            Statement::File(name) => self.names.push(name)?,
            Statement::Opened(descriptor) => self.descriptors.push(descriptor)?,
            Statement::Call { thread, call } => self.calls.push(TracedCall {
                line: number,
                round: self.rounds,
                thread,
                call,
            })?,
            Statement::Round => self.rounds = self.rounds.saturating_add(1),
        }
        Ok(())
    }

    /// Drops its calls, and gives back the memory that they took. Takes none.
    pub fn drop_calls(&mut self)
        ensures { self.new ≡ without_calls self.old }
    {
        self.calls = Vec::new(self.alloc);
    }

    /// Takes the lives out that a crash ends, in their order. Takes no memory.
    pub fn take_lives(&mut self) -> Vec<EndedLife>
        ensures lives { result.items ≡ self.old.lives }
        ensures within { All (λ life. All IsTokenWithin life.tokens) result.items }
        ensures taken { self.new ≡ record self.old { lives = [] } }
    {
        mem::replace(&mut self.lives.ended, Vec::new(self.alloc))
    }

    /// Puts a life's tokens in the place of those of its last life, and those in the life's. Takes no memory.
    pub fn swap_tokens(&mut self, life: &mut EndedLife)
        requires form { has_steps self.old.form ≡ true }
        requires within { All IsTokenWithin life.old.tokens }
        ensures trace { self.new ≡ record self.old { tokens = life.old.tokens } }
        ensures life { life.new ≡ record life.old { tokens = self.old.tokens } }
        ensures well_formed { IsWellFormed self.new }
    {
        mem::swap(&mut self.lives.tokens, &mut life.tokens);
    }

    /// Drops the first calls of each thread, so many of each as the number at the thread's place says, and keeps the others in
    /// their order. Takes no memory.
    pub fn drop_begun(&mut self, begun: [u64; 8])
        ensures behind { self.new ≡ record self.old { calls = behind_begun begun self.old.calls } }
        ensures each { (thread : ℕ) → filter (λ traced. traced.thread == thread) self.new.calls
            ≡ drop (slice_index_or begun thread 0) (filter (λ traced. traced.thread == thread) self.old.calls) }
        ensures fewer { length self.new.calls ≤ length self.old.calls }
        ensures lines { IsStrictlyIncreasing (lines_in self.old) → IsStrictlyIncreasing (lines_in self.new) }
        ensures well_formed { IsWellFormed self.new }
    {
        drop_first(&mut self.calls, begun);
    }

    /// Takes more tokens. Without memory nothing changes.
    pub(crate) fn push_tokens(&mut self, tokens: &[LineToken]) -> Result<(), NoMemory>
        requires form { has_steps self.old.form ≡ true }
        requires within { All IsLineTokenWithin tokens.now }
        ensures pushed { OnOk result (self.new ≡ with_tokens self.old tokens.now) }
        ensures unchanged { OnErr result (self.new ≡ self.old) }
    {
        let more = Lives::of(self.alloc, tokens)?;
        self.lives.append(self.alloc, more)?;
        Ok(())
    }
}

// Drops the first calls of each thread, so many of each as the number at the thread's place says.
fn drop_first(calls: &mut Vec<TracedCall>, begun: [u64; 8])
    requires { All (λ traced. traced.thread ≤ last_thread) calls.old.items }
    ensures { calls.new.items ≡ behind_begun begun calls.old.items }
{
    let mut left = begun;
    let mut kept = 0;
    for i in 0..calls.len() {
        let thread = calls[i].thread as usize;
        if left[thread] > 0 {
            left[thread] -= 1;
        } else {
            calls.swap(kept, i);
            kept += 1;
        }
    }
    calls.truncate(kept);
}
