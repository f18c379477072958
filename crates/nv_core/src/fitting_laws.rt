//! Laws of pieces: each lies in one page.
ghost use Rattle.nv_core.specs.log.FittingPieces.{HeldPiecesFit, ReadyPiecesFit};

use crate::invariant_laws::runs_are_sound;
use nv_pmem::loads_follow_calls;

/// The part of each entry that was made ready says a piece that lies in one page, if it tells anything: all device calls of its
/// group's commit came well, and they stored where the piece begins and how long it is. That is so whatever other devices tell,
/// and whatever the parts said at opening.
pub fn ready_pieces_fit()
    ensures { ReadyPiecesFit }
{
    runs_are_sound();
    loads_follow_calls();
}

/// So does the part of an entry whose piece a read is about to read.
pub fn held_pieces_fit()
    ensures { HeldPiecesFit }
{
    runs_are_sound();
    ready_pieces_fit();
}
