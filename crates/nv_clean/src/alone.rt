//! What a batch is answered while no other pass is out.
ghost use Rattle.nv_clean.specs.Alone.{BatchesAloneAreAnswered};

use nv_core::{passes_are_left_alone, runs_are_sound};

/// Where pass 0 has taken in all passes that it made, and none of these holds a cell, a batch of it finds no lock held; it is answered that there is nothing to clean exactly where STOP was 0 and
/// the log empty, and it leaves the log so. So where STOP is 0, no device fails and memory is ample, each batch retires something or leaves the log empty.
pub fn batches_alone_are_answered_by_the_log()
    ensures { BatchesAloneAreAnswered }
{
    runs_are_sound();
    passes_are_left_alone();
}
