//! The input of a run, round by round.
ghost use Rattle.std.specs.Prelude.{◌≡◌, ◌≢◌, Err, IfErr, IfOk, IfSome, false};
ghost use Rattle.nv_plain.specs.Faults.{Rose};
ghost use Rattle.nv_trace.specs.FirstRounds.{TellsOfInput};
ghost use Rattle.nv_trace.specs.Refused.{IsRefusedAs};
ghost use Rattle.nv_trace.specs.Shape.{IsWellFormed};
ghost use Rattle.nv_trace.specs.declared.read_error.ReadError.TheVariants as read_errors;
ghost use Rattle.nv_trace.specs.declared.trace.Form.TheVariants as forms;
ghost use Rattle.nv_top.specs.Ran.{IsBegunOf, IsRunInput};
ghost use Rattle.nv_top.specs.Rounds.{HasNoRounds};
ghost use Rattle.nv_top.specs.Stops.{stop_of_read};
ghost use Rattle.nv_top.specs.declared.show.Show.TheVariants as shows;

use nv_plain::NoMemory;
use nv_trace::{Form, LineReader, ReadError, Source, Trace};
use std::alloc::Global;

/// A round of an input that is at hand, and the reader of those behind it.
#[derive(Drop)]
pub(crate) struct Input {
    pub(crate) reader: LineReader,
    pub(crate) trace: Trace,
    /// Whether a `round` line has ended it, so that more may follow.
    pub(crate) more: bool,
}

/// Reads the first round of a source's input, and no byte behind it but those of the same read.
pub(crate) fn first_round<I: Source>(alloc: Global, src: &mut I) -> Result<Input, ReadError>
    ensures at_hand { IfOk result (IsRunInput shows.Report) }
    ensures well_formed { IfOk result (λ input. IsWellFormed input.trace) }
    ensures form { IfOk result (λ input. input.trace.form ≡ forms.Run) }
    ensures begun { IfOk result (λ input. IfSome (I.left src.old) (λ given. IsBegunOf input.more given input (I.left src.new))) }
    ensures refused { IfErr result (λ error. IfSome (I.left src.old) (IsRefusedAs forms.Run error)) }
    ensures unrun { IfErr result (λ error. TellsOfInput error → HasNoRounds (stop_of_read error) (I.left src.old)) }
    ensures failed { result ≡ Err read_errors.Failed → Rose (I.fault_count src.old) (I.fault_count src.new) }
    ensures kept { result ≢ Err read_errors.Failed → I.fault_count src.new ≡ I.fault_count src.old }
{
    let mut trace = Trace::new(alloc, Form::Run);
    let mut reader = LineReader::new(alloc)?;
    let more = reader.next_round(src, &mut trace)?;
    Ok(Input {
        reader,
        trace,
        more,
    })
}

/// What declares the files of calls that are not read.
pub(crate) fn read_already(alloc: Global, trace: Trace) -> Result<Input, NoMemory>
    ensures { IfOk result (λ input. (input.trace ≡ trace) × (input.more ≡ false)) }
{
    let reader = LineReader::new(alloc)?;
    Ok(Input {
        reader,
        trace,
        more: false,
    })
}
