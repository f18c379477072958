//! Laws of the definitions, each the contract of a function that does nothing.
ghost use Rattle.std.specs.Prelude.{◌≡◌, ℕ, List, [], ◌++◌, ◌+◌, ◌≤◌, length};
ghost use Rattle.nv_trace.specs.FirstRounds.{FirstRoundsNameAll, RefusedRoundsAreTheLast, RoundsReadAreFirst};
ghost use Rattle.nv_trace.specs.NextRound.{IsAtLine, IsLastRound, IsNextRound, IsRoundRefused, input_ends};
ghost use Rattle.nv_trace.specs.ReadRounds.{AreReadFrom, ReadRound, behind_calls, calls_read};
ghost use Rattle.nv_trace.specs.Reading.{Ending, Whole, ending_of, largest_input};
ghost use Rattle.nv_trace.specs.Refused.{IsRefusedAs};
ghost use Rattle.nv_trace.specs.RoundCalls.{AddsCalls};
ghost use Rattle.nv_trace.specs.Streams.{counted};
ghost use Rattle.nv_trace.specs.Traced.{Traced, empty_trace, token_count};
ghost use Rattle.nv_trace.specs.declared.read_error.ReadError.{ReadError as AnyReadError};
ghost use Rattle.nv_trace.specs.declared.reader.LineReader.{LineReader as AnyReader};
ghost use Rattle.nv_trace.specs.declared.trace.Form.{Form as AnyForm};

/// Where an input is read round by round, and the calls of each round are dropped before the next is read, the
/// calls of the rounds, one behind the other, are those of the trace that the whole input is; and where a round
/// is refused, the whole input is refused so, at the same line. The rounds that were read so far are a front of
/// the input, and their calls those of the trace that this is.
pub fn rounds_make_the_trace()
    ensures whole { (form : AnyForm) (reader : AnyReader) (input : List ℕ) (rounds : List ReadRound) (last : Traced)
        → IsAtLine reader → reader.pending.number ≡ 1 → reader.taken ≡ 0
        → AreReadFrom (empty_trace form) reader input rounds (λ trace reader input. IsLastRound trace reader input last)
        → ending_of form input ≡ Whole (behind_calls (calls_read rounds) last) }
    ensures refused { (form : AnyForm) (reader : AnyReader) (input : List ℕ) (rounds : List ReadRound) (last : Traced) (error : AnyReadError)
        → IsAtLine reader → reader.pending.number ≡ 1 → reader.taken ≡ 0
        → AreReadFrom (empty_trace form) reader input rounds (λ trace reader input. IsRoundRefused trace reader input last error)
        → IsRefusedAs form error input }
    ensures front { (form : AnyForm) (reader : AnyReader) (input : List ℕ) (rounds : List ReadRound) (last : Traced)
        → IsAtLine reader → reader.pending.number ≡ 1 → reader.taken ≡ 0
        → AreReadFrom (empty_trace form) reader input rounds (λ trace reader input. IsAtLine reader × (trace ≡ last))
        → (front : List ℕ) × (rest : List ℕ) × (input ≡ front ++ rest) × (ending_of form front ≡ Whole (behind_calls (calls_read rounds) last)) }
{}

/// A round adds to a trace calls of its own number, from the reader's line on, and is counted; so does the last
/// one, which no line has to end. Behind a round no line declares a file or a descriptor.
pub fn rounds_hold_their_calls()
    ensures round { (trace next : Traced) (old new : AnyReader) (input behind : List ℕ) → IsNextRound trace old input next new behind
        → AddsCalls old.pending.number trace next × (next.rounds ≡ counted trace.rounds) }
    ensures last { (trace next : Traced) (old : AnyReader) (input : List ℕ) → IsAtLine old → IsLastRound trace old input next → AddsCalls old.pending.number trace next }
{}

/// Behind the first round of an input no line declares a file: so the trace that some first rounds of it are
/// names all files that the whole one does.
pub fn first_rounds_name_all_files()
    ensures { FirstRoundsNameAll }
{}

/// Rounds of an input that were read from its start, one at least, are some first rounds of it: its lines up to
/// one of its `round` lines. These lines are a trace, of the calls of the rounds, one behind the other.
pub fn rounds_read_are_first()
    ensures { RoundsReadAreFirst }
{}

/// Where rounds of an input were read from its start, and the next one is refused, for a bad line or since the
/// input is too long, those rounds are the longest first rounds of the input that are a trace; and where none was
/// read, no first rounds of it are one.
pub fn refused_rounds_are_the_last()
    ensures { RefusedRoundsAreTheLast }
{}

/// A trace that an input is has no more tokens, those that end lives among them, than the largest input has bytes.
pub fn traces_have_few_tokens()
    ensures { (form : AnyForm) (input : List ℕ) (trace : Traced) → ending_of form input ≡ Whole trace → token_count trace + length trace.lives ≤ largest_input }
{}
