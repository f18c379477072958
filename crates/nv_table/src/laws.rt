//! What of the core's laws the table rests on, and laws of passes that calls rest on.
ghost use Rattle.nv_table.specs.passes.Alone.{CallsLeaveAlone, HeadStaysKnown, JoinsLeaveAlone, LoadsTellHead, NoDrawIsLost, NoLockIsHeld, NothingComesBetween, StaysAlone};
ghost use Rattle.nv_table.specs.passes.BetweenCalls.{NewPassIsIdle, SplitsLeaveIdle, JoinsLeaveIdle};
ghost use Rattle.nv_table.specs.passes.Known.{StepsFindWhatIsKnown, StepsForgetNothing};
ghost use Rattle.nv_table.specs.invariant.CoreLaws.{CoreLaws};

use nv_core::{passes_are_left_alone, runs_are_sound, words_have_places_of_their_own};

/// Its laws of runs, of what a pass's events leave alone, and of the places of words.
pub(crate) fn laws_of_the_core()
    ensures { CoreLaws }
{
    runs_are_sound();
    passes_are_left_alone();
    words_have_places_of_their_own();
}

/// A pass is between two calls when it is made; pass 0 stays so when it makes another pass, and when it takes one in that is between two
/// calls too, but not where that holds a cell.
pub fn passes_stay_between_calls()
    ensures new { NewPassIsIdle }
    ensures split { SplitsLeaveIdle }
    ensures join { JoinsLeaveIdle }
{}

/// Where pass 0 has taken in all passes that it made, and none of these holds a cell, nothing comes between two of its steps, which leave it so. So
/// none of its calls finds a lock held, and a draw finds HEAD as the call has loaded it.
pub fn a_pass_alone_is_not_refused()
    ensures next { NothingComesBetween }
    ensures alone { StaysAlone }
    ensures locks { NoLockIsHeld }
    ensures load { LoadsTellHead }
    ensures head { HeadStaysKnown }
    ensures draw { NoDrawIsLost }
{
    runs_are_sound();
    passes_are_left_alone();
}

/// Pass 0 stays alone through calls of its own, and is alone again when it has taken in the one pass that it made.
pub fn a_pass_is_alone_again()
    ensures calls { CallsLeaveAlone }
    ensures join { JoinsLeaveAlone }
{}

/// No step of a pass finds less than it knows: what it has seen, and what those that it took in had. Behind one that met a fault pass 0 finds STOP set; HEAD and
/// TAIL are no lower than any of them saw, and its place comes behind all calls that they had seen. And no step forgets any of it.
pub fn steps_find_what_is_known()
    ensures finds { StepsFindWhatIsKnown }
    ensures keeps { StepsForgetNothing }
{
    runs_are_sound();
    passes_are_left_alone();
}
