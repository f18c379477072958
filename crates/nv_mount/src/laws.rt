//! Laws of a mount on which one pass works.
ghost use Rattle.nv_mount.specs.LoneWords.{OtherWordsStay, StepsTellTheirWord};

use nv_core::{passes_are_left_alone, runs_are_sound};

/// After a step its word is what the step makes of it, and while no other pass is out a step of pass 0 leaves all other words. So where pass 0 has
/// found STOP 0 and TAIL at HEAD, that still is so when the mount is closed, until a step of its own on one of these.
pub fn words_stay_while_alone()
    ensures own { StepsTellTheirWord }
    ensures others { OtherWordsStay }
{
    runs_are_sound();
    passes_are_left_alone();
}
