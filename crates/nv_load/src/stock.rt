//! The calls of a load that a thread has still to make.
ghost use Rattle.std.specs.Prelude.{◌≡◌, ◌≢◌, ℕ, ◌+◌, ◌-◌, ◌<◌, ◌≤◌, [], ◌∷◌, None, IfOk, OnErr, OnOk};
ghost use Rattle.nv_pmem.specs.Draws.{after_draw};
ghost use Rattle.nv_load.specs.Generated.{call_of_words, drawn_call, fill};
ghost use Rattle.nv_load.specs.Stocks.{IsStock, stock_list};

use nv_plain::{Bytes, NoMemory};
use nv_pmem::Picker;
use nv_trace::{TraceCall, TracedCall};
use std::alloc::Global;

/// The file has so many blocks.
const BLOCKS: u64 = 64;

/// The bytes of a block.
const BLOCK: u64 = 96;

/// So many calls of a thread, by draws of words; or where there are none, fills with zeros of the last so many blocks.
#[derive(Drop)]
pub(crate) struct Stock {
    pub(crate) threads: u64,
    pub(crate) thread: u64,
    pub(crate) words: Option<Picker>,
    pub(crate) left: u64,
    /// The line of the next one.
    pub(crate) line: u64,
    ghost within: { IsStock threads thread words left line },
}

impl Stock {
    ghost use Rattle.nv_load.specs.Generators.{IsTakenOf, stock_calls};

    /// Takes the next one out, where there is one.
    pub(crate) fn take(&mut self, alloc: Global) -> Result<Option<TracedCall>, NoMemory>
        ensures taken { IfOk result (λ call. IsTakenOf call self.old self.new) }
        ensures memory { OnErr result (stock_calls self.old ≢ []) }
    {
        if self.left == 0 {
            return Ok(None);
        }
        let (round, call) = next_call(
            alloc,
            &mut self.words,
            self.threads,
            self.thread,
            self.left,
        )?;
        let line = self.line;
        self.left -= 1;
        self.line += 1;
        Ok(Some(TracedCall {
            line,
            round,
            thread: self.thread,
            call,
        }))
    }
}

// The next of so many calls, with its round: it is drawn, or where there are no words a fill.
fn next_call(
    alloc: Global,
    words: &mut Option<Picker>,
    threads: u64,
    thread: u64,
    left: u64,
) -> Result<(u64, TraceCall), NoMemory>
    requires some { 1 ≤ threads }
    requires few { threads ≤ 8 }
    requires thread { thread < threads }
    requires left { 0 < left }
    requires fills { words.old ≡ None → left ≤ 64 }
    ensures next { IfOk result (λ next. (line : ℕ) → stock_list threads thread words.old left line
        ≡ record { line = line; round = next.0; thread = thread; call = next.1 } ∷ stock_list threads thread words.new (left - 1) (line + 1)) }
    ensures words { words.new ≡ None → words.old ≡ None }
{
    match words {
        None => {
            let call = filled(alloc, BLOCKS - left, 0)?;
            Ok((0, call))
        }
        Some(words) => {
            let call = draw_call(alloc, words, threads, thread)?;
            Ok((1, call))
        }
    }
}

// The call that is drawn next.
fn draw_call(
    alloc: Global,
    words: &mut Picker,
    threads: u64,
    thread: u64,
) -> Result<TraceCall, NoMemory>
    requires some { 1 ≤ threads }
    requires few { threads ≤ 8 }
    requires thread { thread < threads }
    ensures drawn { IfOk result (λ call. call ≡ drawn_call threads thread words.old) }
    ensures after { OnOk result (words.new ≡ after_draw (after_draw (after_draw words.old))) }
{
    let a = words.draw();
    let b = words.draw();
    let c = words.draw();
    call_of(alloc, threads, thread, a, b, c)
}

// The call of a thread that three words tell.
fn call_of(
    alloc: Global,
    threads: u64,
    thread: u64,
    a: u64,
    b: u64,
    c: u64,
) -> Result<TraceCall, NoMemory>
    requires some { 1 ≤ threads }
    requires few { threads ≤ 8 }
    requires thread { thread < threads }
    ensures { IfOk result (λ call. call ≡ call_of_words threads thread a b c) }
{
    if a % 4 == 0 {
        return Ok(TraceCall::Pread {
            fd: 0,
            at: b % (BLOCK * (BLOCKS - 1)),
            len: 1 + c % BLOCK,
        });
    }
    let own = b % (BLOCKS / threads);
    filled(alloc, thread + threads * own, (c % 256) as u8)
}

// A block is filled with a byte.
fn filled(alloc: Global, block: u64, byte: u8) -> Result<TraceCall, NoMemory>
    requires { block < 64 }
    ensures { IfOk result (λ call. call ≡ fill block byte) }
{
    let bytes = vec![in alloc; byte; BLOCK as usize]?;
    Ok(TraceCall::Pwrite {
        fd: 0,
        at: BLOCK * block,
        bytes: Bytes::from_vec(bytes),
    })
}
