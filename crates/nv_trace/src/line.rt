//! The reading of a line.
ghost use Rattle.std.specs.List.{list_all};
ghost use Rattle.std.specs.Prelude.{◌≡◌, ◌≢◌, ◌+◌, ◌++◌, List, codes, ℕ, Ok, Err, IfErr, OnOk, OnErr};
ghost use Rattle.nv_trace.specs.Reading as reading;
ghost use Rattle.nv_trace.specs.Reading.{after_line, fields_said};
ghost use Rattle.nv_trace.specs.Grammar.{is_printable};
ghost use Rattle.nv_trace.specs.Lines.{fields_of};
ghost use Rattle.nv_trace.specs.Said.{IsUnsaid};
ghost use Rattle.nv_trace.specs.Shape.{IsNumberedBelow};
ghost use Rattle.nv_trace.specs.Refused.{IsBadLine};

use crate::Trace;
use crate::bad_line::{Unsaid, Why};
use crate::read_error::{LineError, line_error};
use crate::statement::statement_of;
use crate::steps::{behind_steps, schedule};

/// The most bytes of a line that isn't skipped.
pub(crate) const LONGEST_LINE: usize = 262_400;

/// Takes a line, without its line feed, into the trace. A line that is empty or begins with `#` says nothing; any other
/// has at most 262,400 bytes. A `steps` line is given to `schedule`. After a refusal the trace is as before.
pub fn read_line(trace: &mut Trace, number: u64, line: &[u8]) -> Result<(), LineError>
    ensures read { OnOk result (after_line trace.old number line.now ≡ Ok trace.new) }
    ensures bad { IfErr result (IsBadLine trace.old number line.now) }
    ensures unchanged { OnErr result (trace.new ≡ trace.old) }
    ensures form { trace.new.form ≡ trace.old.form }
    ensures numbered { OnOk result (IsNumberedBelow number trace.old → IsNumberedBelow (number + 1) trace.new) }
{
    if behind_steps(line).is_some() {
        return schedule(trace, number, line);
    }
    match take_line(trace, number, line) {
        Ok(()) => Ok(()),
        Err(unsaid) => Err(line_error(number, unsaid)),
    }
}

/// Takes a line that is no `steps` line into the trace, or says why it is bad.
#[tactic(auto, unfolding(crate::specs::Reading::after_line))]
fn take_line(trace: &mut Trace, number: u64, line: &[u8]) -> Result<(), Unsaid>
    requires { (rest : List ℕ) → line.now ≢ codes "steps " ++ rest }
    ensures read { OnOk result (after_line trace.old number line.now ≡ Ok trace.new) }
    ensures bad { IfErr result (IsUnsaid (after_line trace.old number line.now)) }
    ensures unchanged { OnErr result (trace.new ≡ trace.old) }
    ensures form { trace.new.form ≡ trace.old.form }
    ensures numbered { OnOk result (IsNumberedBelow number trace.old → IsNumberedBelow (number + 1) trace.new) }
{
    if is_skipped(line) {
        return Ok(());
    }
    check_line(line)?;
    let statement = statement_of(trace.alloc(), trace, line)?;
    trace.push(number, statement)?;
    Ok(())
}

/// Whether a line that isn't skipped has as many bytes as it may have, which print.
#[tactic(auto, unfolding(crate::specs::Reading::fields_said))]
pub(crate) fn check_line(line: &[u8]) -> Result<(), Why>
    ensures clear { OnOk result (fields_said line.now ≡ Ok (fields_of line.now)) }
    ensures bad { IfErr result (λ why. fields_said line.now ≡ Err why) }
{
    if line.len() > LONGEST_LINE {
        return Err(Why::Long);
    }
    if !are_printable(line) {
        return Err(Why::Bytes);
    }
    Ok(())
}

fn are_printable(line: &[u8]) -> bool
    ensures { result ≡ list_all is_printable line.now }
{
    line.iter().all(|byte| is_printable(*byte))
}

fn is_printable(byte: u8) -> bool
    ensures { result ≡ is_printable byte }
{
    matches!(byte, b' '..=b'~')
}

/// An empty line says nothing, and neither does one that begins with `#`.
fn is_skipped(line: &[u8]) -> bool
    ensures { result ≡ reading.is_skipped line.now }
{
    line.is_empty() || line[0] == b'#'
}
