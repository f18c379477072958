//! The line of an input that no line feed has ended yet.
ghost use Rattle.std.specs.Prelude.{◌≡◌, ◌≢◌, ℕ, ◌+◌, ◌^◌, ◌<◌, ◌≤◌, Bool, List, [], ◌∷◌, ◌++◌, length, slice_index, true, IfOk, IfErr, IfSome, IfNone, OnOk, OnErr};
ghost use Rattle.nv_trace.specs.Shape.{IsNumberedBelow};
ghost use Rattle.nv_trace.specs.Traced.{Traced};
ghost use Rattle.nv_trace.specs.Rounds.{ends_round};
ghost use Rattle.nv_trace.specs.Pending.{lines_end, room_for, EndsAt, HasTaken, HasTakenLines, IsStuckIn};

use crate::Trace;
use crate::line::{LONGEST_LINE, read_line};
use crate::read_error::LineError;
use crate::spelling::says;
use nv_plain::NoMemory;
use std::alloc::Global;

/// A line that is still open, between what came before and what is to come.
#[derive(Drop)]
pub(crate) struct PendingLine {
    /// Its number, counted from 1.
    pub(crate) number: u64,
    /// Its bytes. Of one that begins with `#` only that is kept, and of one that is too long one byte too many.
    line: Vec<u8>,
}

impl PendingLine {
    /// The first line of an input.
    pub(crate) fn new(alloc: Global) -> Self
        ensures number { result.number ≡ 1 }
        ensures none { result.line.items ≡ [] }
    {
        PendingLine {
            number: 1,
            line: Vec::new(alloc),
        }
    }

    /// Takes the lines that these bytes end, up to one that ends a round, and keeps the rest. How many bytes
    /// were taken, where such a line came; else all of them were.
    pub(crate) fn take_lines(
        &mut self,
        trace: &mut Trace,
        bytes: &[u8],
    ) -> Result<Option<usize>, LineError>
        requires { self.old.number + length self.old.line.items + length bytes.now < 2 ^ 64 }
        ensures taken { IfOk result (HasTakenLines trace.old self.old bytes.now trace.new self.new) }
        ensures few { OnOk result (self.new.number + length self.new.line.items ≤ self.old.number + length self.old.line.items + length bytes.now) }
        ensures fewer { IfOk result (λ ended. IfSome ended (λ count. self.new.number ≤ self.old.number + length self.old.line.items + count)) }
        ensures onward { OnOk result (self.old.number ≤ self.new.number) }
        ensures numbered { OnOk result (IsNumberedBelow self.old.number trace.old → IsNumberedBelow self.new.number trace.new) }
        ensures form { trace.new.form ≡ trace.old.form }
        ensures bad { IfErr result (IsStuckIn trace.old self.old bytes.now trace.new) }
    {
        let mut used = 0;
        while let Some(end) = first_feed(&bytes[used..]) {
            let rest = &bytes[used..];
            self.keep(&rest[..end])?;
            let last = says(&self.line, "round");
            self.end_line(trace)?;
            used += end + 1;
            if last {
                return Ok(Some(used));
            }
        }
        self.keep(&bytes[used..])?;
        Ok(None)
    }

    /// Keeps of more bytes of the line what is needed.
    fn keep(&mut self, part: &[u8]) -> Result<(), NoMemory>
        requires { (k : ℕ) → k < length part.now → slice_index part.now k ≢ 10 }
        ensures taken { OnOk result ((trace : Traced) → HasTaken trace self.old part.now trace self.new) }
        ensures same { self.new.number ≡ self.old.number }
        ensures few { length self.new.line.items ≤ length self.old.line.items + length part.now }
    {
        let count = part.len().min(room(&self.line, part));
        self.line.extend_from_slice(&part[..count])?;
        Ok(())
    }

    /// Takes the line, which a line feed ends.
    fn end_line(&mut self, trace: &mut Trace) -> Result<(), LineError>
        requires { self.old.number + 1 < 2 ^ 64 }
        ensures lines { OnOk result ((whole : Bool) (rest : List ℕ) → lines_end whole trace.new self.new rest ≡ lines_end whole trace.old self.old (10 ∷ rest)) }
        ensures number { OnOk result (self.new.number ≡ self.old.number + 1) }
        ensures cleared { OnOk result (self.new.line.items ≡ []) }
        ensures numbered { OnOk result (IsNumberedBelow self.old.number trace.old → IsNumberedBelow self.new.number trace.new) }
        ensures form { trace.new.form ≡ trace.old.form }
        ensures unchanged { OnErr result (trace.new ≡ trace.old) }
        ensures bad { IfErr result (λ error. (whole : Bool) (rest : List ℕ) → EndsAt error (lines_end whole trace.old self.old (10 ∷ rest))) }
    {
        read_line(trace, self.number, &self.line)?;
        self.number += 1;
        self.line.clear();
        Ok(())
    }

    /// Takes the line at the end of the input, where it isn't empty.
    pub(crate) fn finish(&mut self, trace: &mut Trace) -> Result<(), LineError>
        requires { self.old.number + 1 < 2 ^ 64 }
        ensures whole { OnOk result (lines_end true trace.old self.old [] ≡ lines_end true trace.new self.new []) }
        ensures few { OnOk result (self.new.number ≤ self.old.number + length self.old.line.items) }
        ensures none { OnOk result (self.new.line.items ≡ []) }
        ensures onward { OnOk result (self.old.number ≤ self.new.number) }
        ensures numbered { OnOk result (IsNumberedBelow self.old.number trace.old → IsNumberedBelow self.new.number trace.new) }
        ensures form { trace.new.form ≡ trace.old.form }
        ensures unchanged { OnErr result (trace.new ≡ trace.old) }
        ensures some { IfErr result (λ error. 0 < length self.old.line.items) }
        ensures bad { IfErr result (λ error. (whole : Bool) (rest : List ℕ) → EndsAt error (lines_end whole trace.old self.old (10 ∷ rest))) }
    {
        if !self.line.is_empty() {
            self.end_line(trace)?;
        }
        Ok(())
    }
}

/// How many more bytes are kept of an open line, of which some are kept and more have come.
fn room(line: &[u8], part: &[u8]) -> usize
    ensures { result ≡ room_for line.now part.now }
{
    let first = line.first().or(part.first());
    let most = if first == Some(&b'#') {
        1
    } else {
        LONGEST_LINE + 1
    };
    most.saturating_sub(line.len())
}

/// Where the first line feed stands.
fn first_feed(bytes: &[u8]) -> Option<usize>
    ensures none { IfNone result ((k : ℕ) → k < length bytes.now → slice_index bytes.now k ≢ 10) }
    ensures within { IfSome result (λ end. end < length bytes.now) }
    ensures feed { IfSome result (λ end. slice_index bytes.now end ≡ 10) }
    ensures before { IfSome result (λ end. (k : ℕ) → k < end → slice_index bytes.now k ≢ 10) }
{
    bytes.iter().position(|byte| *byte == b'\n')
}
