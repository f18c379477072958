//! When a token has come to its point.
ghost use Rattle.std.specs.Prelude.{◌≡◌};
ghost use Rattle.nv_schedule.specs.Reaches.{has_come, is_named, is_there, place_of};

use nv_calls::Kind;
use nv_trace::{Reach, StepName, Turn};

// Whether a step is of the kind that a token names.
fn is_named(name: StepName, kind: Kind) -> bool
    ensures { result ≡ is_named name kind }
{
    match (name, kind) {
        (StepName::Load, Kind::Load) => true,
        (StepName::Take, Kind::Take) => true,
        (StepName::Give, Kind::Give) => true,
        (StepName::Place, Kind::Place) => true,
        (StepName::Stop, Kind::Stop) => true,
        (StepName::Draw, Kind::Draw) => true,
        (StepName::Seize, Kind::Seize) => true,
        (StepName::Pledge, Kind::Pledge) => true,
        (StepName::Ready, Kind::Ready) => true,
        (StepName::Grow, Kind::Grow) => true,
        (StepName::Break, Kind::Break) => true,
        (StepName::Hold, Kind::Hold) => true,
        (StepName::Return, Kind::Return) => true,
        (StepName::Subtract, Kind::Subtract) => true,
        (StepName::Free, Kind::Free) => true,
        (StepName::Tail, Kind::Tail) => true,
        (StepName::Hand, Kind::Hand) => true,
        (StepName::Hint, Kind::Hint) => true,
        _ => false,
    }
}

/// Whether a token is at its point before any advance.
pub(crate) fn at_point(reach: Reach, next: Option<Kind>) -> bool
    ensures { result ≡ is_there reach next }
{
    match (reach, next) {
        (_, None) => true,
        (Reach::Kind(name), Some(kind)) => is_named(name, kind),
        _ => false,
    }
}

/// Whether it is behind an advance, which has answered the present call or not.
pub(crate) fn come_to_point(reach: Reach, answered: bool, next: Option<Kind>) -> bool
    ensures { result ≡ has_come reach answered next }
{
    match (reach, next) {
        (_, None) => true,
        (Reach::One, _) => true,
        (Reach::Done, _) => answered,
        (Reach::Kind(name), Some(kind)) => is_named(name, kind),
    }
}

/// The place of a caller.
pub(crate) fn place(turn: Turn) -> usize
    ensures { result ≡ place_of turn }
{
    match turn {
        Turn::Thread(number) if number < 8 => number as usize,
        Turn::Thread(_) => 9,
        Turn::Cleaner => 8,
    }
}
