//! Laws of what an event of a pass leaves alone.
ghost use Rattle.nv_core.specs.steps.Frames.{EventsLeaveOthers, NewcomersCover, PassesDependOnOwned, StepsAreOnWords, OwnEventsTell};

use crate::invariant_laws::runs_are_sound;

/// An event of a pass changes no other pass, and of what the cells keep only what is among its owned cells. So what a pass may do next
/// follows from itself and its owned cells, its own events tell what it is, whatever others do meanwhile, and each of its steps is
/// on a word that the mount has.
pub fn passes_are_left_alone()
    ensures others { EventsLeaveOthers }
    ensures owned { PassesDependOnOwned }
    ensures words { StepsAreOnWords }
    ensures own { OwnEventsTell }
    ensures newcomers { NewcomersCover }
{
    runs_are_sound();
}
