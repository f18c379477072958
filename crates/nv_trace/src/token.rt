//! The tokens of a schedule.
ghost use Rattle.std.specs.Prelude.{◌≡◌, ◌≤◌, IfSome, map};
ghost use Rattle.nv_trace.specs.Grammar.{last_thread};
ghost use Rattle.nv_trace.specs.Shape.{IsLineTokenWithin, IsTokenWithin};
ghost use Rattle.nv_trace.specs.Tokens as tokens;
ghost use Rattle.nv_trace.specs.declared.token.Reach.TheVariants as reaches;
ghost use Rattle.nv_trace.specs.declared.token.Token.TheVariants.{Advance};

use crate::call_lines::LAST_THREAD;
use crate::spelling::{number, parts, says};
use nv_pmem::Pick;

/// The largest number of a device call at which one is cut.
const LAST_CUT: u64 = u32::MAX as u64;

/// The largest seed of what a power failure leaves.
const LAST_SEED: u64 = u32::MAX as u64;

/// Who makes the steps.
#[derive(Clone, Copy, Debug, PartialEq, Eq)]
pub enum Turn {
    /// The thread with this number.
    Thread(u64),
    Cleaner,
}

/// A kind of step, by its name in a token.
#[derive(Clone, Copy, Debug, PartialEq, Eq)]
pub enum StepName {
    Load,
    Take,
    Give,
    Place,
    Stop,
    Draw,
    Seize,
    Pledge,
    Ready,
    Grow,
    Break,
    Hold,
    Return,
    Subtract,
    Free,
    Tail,
    Hand,
    Hint,
}

/// How far a token goes.
#[derive(Clone, Copy, Debug, PartialEq, Eq)]
pub enum Reach {
    /// One advance.
    One,
    /// Until the present call is answered.
    Done,
    /// Until the next step is of this kind.
    Kind(StepName),
}

/// One part of a schedule, within a life.
#[derive(Clone, Copy, Debug, PartialEq, Eq)]
pub enum Token {
    /// Advances of the one whose turn it is.
    Advance { turn: Turn, reach: Reach },
    /// The device call with this number, counted from 1 from here on, is refused, and so is each later one.
    Cut(u64),
}

/// A token as a line has it: one of a life, or the crash that ends it.
#[derive(Clone, Copy, Debug, PartialEq, Eq)]
pub(crate) enum LineToken {
    Inside(Token),
    /// Power fails, and leaves what the pick names.
    Crash(Pick),
}

/// The token that a field is.
#[tactic(auto, unfolding(crate::specs::Tokens::token_of, crate::specs::Tokens::crash_by, crate::specs::Tokens::token_by))]
pub(crate) fn token_of(field: &[u8]) -> Option<LineToken>
    ensures read { result ≡ tokens.token_of field.now }
    ensures within { IfSome result IsLineTokenWithin }
{
    let parts = parts(field, b':')?;
    if let Some(pick) = crash_by(parts.as_slice()) {
        return Some(LineToken::Crash(pick));
    }
    Some(LineToken::Inside(token_by(parts.as_slice())?))
}

/// What the parts of a field say that a crash leaves, where it is one.
#[tactic(auto, unfolding(crate::specs::Tokens::crash_by))]
fn crash_by(parts: &[&[u8]]) -> Option<Pick>
    ensures { result ≡ tokens.crash_by (map (λ part. part.now) parts.now) }
{
    match parts {
        [word, last] if says(word, "crash") => pick_of(last),
        _ => None,
    }
}

/// What a field says that a power failure leaves.
#[tactic(auto, unfolding(crate::specs::Tokens::pick_of))]
fn pick_of(field: &[u8]) -> Option<Pick>
    ensures { result ≡ tokens.pick_of field.now }
{
    Some(match field {
        _ if says(field, "old") => Pick::Old,
        _ if says(field, "new") => Pick::New,
        _ if says(field, "torn") => Pick::Torn,
        _ if says(field, "mixed") => Pick::Mixed,
        _ => Pick::Seed(number(field, LAST_SEED).ok()?),
    })
}

/// The token of a life that the parts of a field say.
#[tactic(auto, unfolding(crate::specs::Tokens::token_by))]
fn token_by(parts: &[&[u8]]) -> Option<Token>
    ensures read { result ≡ tokens.token_by (map (λ part. part.now) parts.now) }
    ensures within { IfSome result IsTokenWithin }
{
    match parts {
        [turn] => advances(turn_by(turn), Some(Reach::One)),
        [word, last] if says(word, "cut") => cut_of(last),
        [turn, reach] => advances(turn_by(turn), reach_of(reach)),
        _ => None,
    }
}

/// Advances, where both their turn and how far they go are known.
fn advances(turn: Option<Turn>, reach: Option<Reach>) -> Option<Token>
    requires { IfSome turn (λ turn. IsTokenWithin (Advance turn reaches.One)) }
    ensures read { result ≡ tokens.advances turn reach }
    ensures within { IfSome result IsTokenWithin }
{
    Some(Token::Advance {
        turn: turn?,
        reach: reach?,
    })
}

/// Whose turn a field names.
#[tactic(auto, unfolding(crate::specs::Tokens::turn_by))]
fn turn_by(field: &[u8]) -> Option<Turn>
    ensures read { result ≡ tokens.turn_by field.now }
    ensures within { IfSome result (λ turn. IsTokenWithin (Advance turn reaches.One)) }
{
    if says(field, "w") {
        Some(Turn::Cleaner)
    } else {
        Some(Turn::Thread(number(field, LAST_THREAD).ok()?))
    }
}

/// How far a field says that a token goes.
#[tactic(auto, unfolding(crate::specs::Tokens::reach_of))]
fn reach_of(field: &[u8]) -> Option<Reach>
    ensures { result ≡ tokens.reach_of field.now }
{
    if says(field, "done") {
        Some(Reach::Done)
    } else {
        Some(Reach::Kind(step_of(field)?))
    }
}

/// A cut at the device call that a field names.
#[tactic(auto, unfolding(crate::specs::Tokens::cut_of))]
fn cut_of(field: &[u8]) -> Option<Token>
    ensures read { result ≡ tokens.cut_of field.now }
    ensures within { IfSome result IsTokenWithin }
{
    match number(field, LAST_CUT) {
        Ok(number) if number > 0 => Some(Token::Cut(number)),
        _ => None,
    }
}

/// The kind of step that a field names.
#[tactic(auto, unfolding(crate::specs::Tokens::step_of))]
fn step_of(field: &[u8]) -> Option<StepName>
    ensures { result ≡ tokens.step_of field.now }
{
    Some(match field {
        _ if says(field, "load") => StepName::Load,
        _ if says(field, "take") => StepName::Take,
        _ if says(field, "give") => StepName::Give,
        _ if says(field, "place") => StepName::Place,
        _ if says(field, "stop") => StepName::Stop,
        _ if says(field, "draw") => StepName::Draw,
        _ if says(field, "seize") => StepName::Seize,
        _ if says(field, "pledge") => StepName::Pledge,
        _ if says(field, "ready") => StepName::Ready,
        _ if says(field, "grow") => StepName::Grow,
        _ if says(field, "break") => StepName::Break,
        _ if says(field, "hold") => StepName::Hold,
        _ if says(field, "return") => StepName::Return,
        _ if says(field, "subtract") => StepName::Subtract,
        _ if says(field, "free") => StepName::Free,
        _ if says(field, "tail") => StepName::Tail,
        _ if says(field, "hand") => StepName::Hand,
        _ if says(field, "hint") => StepName::Hint,
        _ => return None,
    })
}
