//! The reading of a trace, as a whole or round by round.
ghost use Rattle.std.specs.List.Sorted.{IsStrictlyIncreasing};
ghost use Rattle.std.specs.Prelude.{◌≡◌, ◌≢◌, ℕ, ◌+◌, ◌<◌, ◌≤◌, List, [], ◌++◌, length, true, false, Some, Ok, Err, IfOk, IfErr, IfSome, OnOk, vec_len};
ghost use Rattle.nv_plain.specs.Faults.{HasCause, Rose};
ghost use Rattle.nv_trace.specs.Reading.{ending_of, largest_input, Whole};
ghost use Rattle.nv_trace.specs.Shape.{IsNumberedBelow};
ghost use Rattle.nv_trace.specs.Traced.{lines_in, token_count};
ghost use Rattle.nv_trace.specs.Refused.{IsRefusedAs};
ghost use Rattle.nv_trace.specs.RoundCalls.{AddsCalls};
ghost use Rattle.nv_trace.specs.Rounds.{has_round};
ghost use Rattle.nv_trace.specs.Streams.{counted};
ghost use Rattle.nv_trace.specs.NextRound.{AddsFewTokens, IsAtLine, IsLastRound, IsNextRound, IsRoundRefused, ahead, input_ends};
ghost use Rattle.nv_trace.specs.Ahead.{HasFilled, HasTakenAhead, IsAheadRefused, IsWithinLines};
ghost use Rattle.nv_trace.specs.declared.read_error.ReadError.TheVariants as read_errors;

use crate::pending_line::PendingLine;
use crate::read_error::ReadError;
use crate::trace::Form;
use crate::{Failed, Source, Trace};
use nv_plain::NoMemory;
use std::alloc::{AllocError, Global};

/// The most bytes of an input.
const LARGEST_INPUT: u64 = 67_108_864;

/// How many bytes one read asks for.
const CHUNK: usize = 65_536;

/// Reads a source to its end, in whatever pieces it comes, and takes its lines into a trace; the last of them may lack
/// its line feed. Lines that are skipped aren't kept, however long they are. At most 67,108,864 bytes are taken: so a
/// trace has no more calls than that, and no more tokens, those that end lives among them.
///
/// The first bad line ends the reading. `InputLong` comes past the limit, unless a bad line ended before it, and `Failed`
/// only from the source.
pub fn read_trace<I: Source>(alloc: Global, form: Form, src: &mut I) -> Result<Trace, ReadError>
    ensures whole { IfOk result (λ trace. IfSome (I.left src.old) (λ input. ending_of form input ≡ Whole trace)) }
    ensures form { IfOk result (λ trace. trace.form ≡ form) }
    ensures line_order { IfOk result (λ trace. IsStrictlyIncreasing (lines_in trace)) }
    ensures few { IfOk result (λ trace. length trace.calls ≤ largest_input) }
    ensures tokens { IfOk result (λ trace. token_count trace + length trace.lives ≤ largest_input) }
    ensures at_end { OnOk result (IfSome (I.left src.old) (λ _. I.left src.new ≡ Some [])) }
    ensures refused { IfErr result (λ error. IfSome (I.left src.old) (IsRefusedAs form error)) }
    ensures failed { result ≡ Err read_errors.Failed → Rose (I.fault_count src.old) (I.fault_count src.new) }
    ensures kept { result ≢ Err read_errors.Failed → I.fault_count src.new ≡ I.fault_count src.old }
{
    let mut trace = Trace::new(alloc, form);
    let mut reader = LineReader::new(alloc)?;
    while reader.next_round(src, &mut trace)? {}
    Ok(trace)
}

/// A reader of an input's lines: the bytes that were read of its source and that no line has taken yet, and
/// the number of the line that they begin with.
#[derive(Drop)]
pub struct LineReader {
    /// What the last read gave, from `start` on up to `end`, as far as no line has taken it.
    buffer: Vec<u8>,
    start: usize,
    end: usize,
    pending: PendingLine,
    /// How many bytes of the input were taken.
    taken: u64,
}

impl LineReader {
    /// A reader of a whole input, before its first line. Takes room for the bytes of one read, 65,536.
    pub fn new(alloc: Global) -> Result<Self, NoMemory>
        ensures within { IfOk result IsAtLine }
        ensures number { IfOk result (λ reader. reader.pending.number ≡ 1) }
        ensures taken { IfOk result (λ reader. reader.taken ≡ 0) }
        ensures none { IfOk result (λ reader. ahead reader ≡ []) }
    {
        Ok(LineReader {
            buffer: zeros(alloc, CHUNK)?,
            start: 0,
            end: 0,
            pending: PendingLine::new(alloc),
            taken: 0,
        })
    }

    /// Takes the lines of the source's next round into the trace, behind what that holds: those up to a `round`
    /// line, or, where none comes, up to the end of the input, whose last line may lack its line feed. Whether a
    /// `round` line came. The source is asked for more only where the bytes at hand end no round, and no line
    /// behind a round is looked at.
    ///
    /// The refusals are those of `read_trace`: the first bad line is one of this round, and `InputLong` comes
    /// where no line within the limit ends it. The trace then has the lines before; nothing more is to be read.
    pub fn next_round<I: Source>(
        &mut self,
        src: &mut I,
        trace: &mut Trace,
    ) -> Result<bool, ReadError>
        requires { IsAtLine self.old }
        ensures within { OnOk result (IsAtLine self.new) }
        ensures round { result ≡ Ok true → IfSome (I.left src.old) (λ left. (rest : List ℕ) × (I.left src.new ≡ Some rest)
            × IsNextRound trace.old self.old (ahead self.old ++ left) trace.new self.new (ahead self.new ++ rest)) }
        ensures further { result ≡ Ok true → self.old.taken < self.new.taken }
        ensures last { result ≡ Ok false → IfSome (I.left src.old) (λ left. (I.left src.new ≡ Some []) × IsLastRound trace.old self.old (ahead self.old ++ left) trace.new) }
        ensures none { result ≡ Ok false → ahead self.new ≡ [] }
        ensures enough { has_round (ahead self.old) ≡ true → src.new ≡ src.old }
        ensures onward { OnOk result (self.old.pending.number ≤ self.new.pending.number) }
        ensures numbered { OnOk result (IsNumberedBelow self.old.pending.number trace.old → IsNumberedBelow self.new.pending.number trace.new) }
        ensures adds { OnOk result (AddsCalls self.old.pending.number trace.old trace.new) }
        ensures tokens { OnOk result (AddsFewTokens trace.old self.old trace.new self.new) }
        ensures counts { result ≡ Ok true → trace.new.rounds ≡ counted trace.old.rounds }
        ensures form { trace.new.form ≡ trace.old.form }
        ensures refused { IfErr result (λ error. IfSome (I.left src.old) (λ left. IsRoundRefused trace.old self.old (ahead self.old ++ left) trace.new error)) }
        ensures failed { result ≡ Err read_errors.Failed → Rose (I.fault_count src.old) (I.fault_count src.new) }
        ensures kept { result ≢ Err read_errors.Failed → I.fault_count src.new ≡ I.fault_count src.old }
    {
        loop {
            if !self.fill(src)? {
                self.pending.finish(trace)?;
                return Ok(false);
            }
            if self.take_ahead(trace)? {
                return Ok(true);
            }
        }
    }

    // Reads once more, where no byte is ahead. Whether one is then.
    fn fill<I: Source>(&mut self, src: &mut I) -> Result<bool, Failed>
        requires start { self.old.start ≤ self.old.end }
        requires end { self.old.end ≤ 65536 }
        requires room { vec_len self.old.buffer ≡ 65536 }
        ensures enough { self.old.start < self.old.end → (src.new ≡ src.old) × (self.new ≡ self.old) }
        ensures same { (self.new.pending ≡ self.old.pending) × (self.new.taken ≡ self.old.taken) }
        ensures room { vec_len self.new.buffer ≡ 65536 }
        ensures filled { IfOk result (HasFilled (I.left src.old) (I.left src.new) self.old self.new) }
        ensures cause { HasCause (I.fault_count src.old) (I.fault_count src.new) result }
    {
        if self.start < self.end {
            return Ok(true);
        }
        let count = src.read(&mut self.buffer)?;
        self.start = 0;
        self.end = count as usize;
        Ok(count > 0)
    }

    // Takes the lines that the bytes ahead end, up to one that ends a round, and of an input no byte past the
    // limit. Whether a round ended; else no byte is ahead.
    fn take_ahead(&mut self, trace: &mut Trace) -> Result<bool, ReadError>
        requires { IsWithinLines self.old }
        ensures taken { IfOk result (HasTakenAhead trace.old self.old trace.new self.new) }
        ensures within { OnOk result (IsWithinLines self.new) }
        ensures onward { OnOk result (self.old.pending.number ≤ self.new.pending.number) }
        ensures numbered { OnOk result (IsNumberedBelow self.old.pending.number trace.old → IsNumberedBelow self.new.pending.number trace.new) }
        ensures form { trace.new.form ≡ trace.old.form }
        ensures refused { IfErr result (IsAheadRefused trace.old self.old trace.new) }
        ensures no_fault { result ≢ Err read_errors.Failed }
    {
        let ahead = &self.buffer[..self.end];
        let ahead = &ahead[self.start..];
        let within = ahead.len().min((LARGEST_INPUT - self.taken) as usize);
        match self.pending.take_lines(trace, &ahead[..within])? {
            Some(count) => {
                self.start += count;
                self.taken += count as u64;
                Ok(true)
            }
            None if within < ahead.len() => Err(ReadError::InputLong),
            None => {
                self.start = self.end;
                self.taken += within as u64;
                Ok(false)
            }
        }
    }
}

/// So many bytes to read into.
fn zeros(alloc: Global, len: usize) -> Result<Vec<u8>, AllocError>
    ensures { IfOk result (λ buffer. vec_len buffer ≡ len) }
{
    vec![in alloc; 0; len]
}
