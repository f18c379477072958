//! The lines of a schedule.
ghost use Rattle.std.specs.Option.{ok_or};
ghost use Rattle.std.specs.Prelude.{◌≡◌, ◌≢◌, ℕ, ◌+◌, ◌++◌, All, List, codes, IfErr, IfOk, MatchOption, Ok, OnErr, OnOk, Some};
ghost use Rattle.nv_trace.specs.Lines.{fields_of};
ghost use Rattle.nv_trace.specs.Reading.{after_schedule};
ghost use Rattle.nv_trace.specs.Refused.{IsBadSchedule};
ghost use Rattle.nv_trace.specs.Said.{IsUnsaid};
ghost use Rattle.nv_trace.specs.Shape.{IsLineTokenWithin, IsNumberedBelow};
ghost use Rattle.nv_trace.specs.Tokens.{tokens_of};
ghost use Rattle.nv_trace.specs.declared.bad_line.Why.TheVariants as why;

use crate::bad_line::{Unsaid, Why};
use crate::line::check_line;
use crate::read_error::{LineError, line_error};
use crate::token::{LineToken, token_of};
use crate::trace::Trace;
use std::alloc::Global;

/// Takes a `steps` line, without its line feed, into the trace: its tokens go behind those of the trace, and a crash among
/// them ends the life. Any other line is in no form here. After a refusal the trace is as before.
pub fn schedule(trace: &mut Trace, number: u64, line: &[u8]) -> Result<(), LineError>
    ensures read { OnOk result (after_schedule trace.old line.now ≡ Ok trace.new) }
    ensures bad { IfErr result (IsBadSchedule trace.old number line.now) }
    ensures unchanged { OnErr result (trace.new ≡ trace.old) }
    ensures form { trace.new.form ≡ trace.old.form }
    ensures numbered { OnOk result (IsNumberedBelow number trace.old → IsNumberedBelow (number + 1) trace.new) }
{
    match take_steps(trace, line) {
        Ok(()) => Ok(()),
        Err(unsaid) => Err(line_error(number, unsaid)),
    }
}

/// Takes a `steps` line into the trace, or says why it is none.
#[tactic(auto, unfolding(crate::specs::Reading::after_schedule))]
fn take_steps(trace: &mut Trace, line: &[u8]) -> Result<(), Unsaid>
    ensures read { OnOk result (after_schedule trace.old line.now ≡ Ok trace.new) }
    ensures bad { IfErr result (IsUnsaid (after_schedule trace.old line.now)) }
    ensures unchanged { OnErr result (trace.new ≡ trace.old) }
    ensures calls { (trace.new.form ≡ trace.old.form) × (trace.new.calls ≡ trace.old.calls) }
{
    check_line(line)?;
    let Some(fields) = behind_steps(line) else {
        return Err(Unsaid::Bad(Why::Form));
    };
    if !trace.form().has_steps() {
        return Err(Unsaid::Bad(Why::Form));
    }
    let tokens = tokens(trace.alloc(), fields)?;
    trace.push_tokens(&tokens)?;
    Ok(())
}

/// What stands behind the first field of a `steps` line. There is none where that is its only field.
pub(crate) fn behind_steps(line: &[u8]) -> Option<&[u8]>
    ensures { MatchOption result ((rest : List ℕ) → line.now ≢ codes "steps " ++ rest) (λ rest. line.now ≡ codes "steps " ++ rest.now) }
{
    line.strip_prefix(b"steps ")
}

/// The tokens that the fields of a line are.
fn tokens(alloc: Global, line: &[u8]) -> Result<Vec<LineToken>, Unsaid>
    ensures read { IfOk result (λ tokens. tokens_of (fields_of line.now) ≡ Some tokens.items) }
    ensures bad { IfErr result (IsUnsaid (ok_or (tokens_of (fields_of line.now)) why.Form)) }
    ensures within { IfOk result (λ tokens. All IsLineTokenWithin tokens.items) }
{
    let mut tokens = Vec::new(alloc);
    for field in line.split(|byte| *byte == b' ') {
        let Some(token) = token_of(field) else {
            return Err(Unsaid::Bad(Why::Form));
        };
        tokens.push(token)?;
    }
    Ok(tokens)
}
