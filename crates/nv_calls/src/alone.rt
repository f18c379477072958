//! What calls are answered while no other pass is out.
ghost use Rattle.nv_calls.specs.reads.ReadsAlone.{NoReadIsBusy, NoReadIsBusyAs};
ghost use Rattle.nv_calls.specs.writes.Refusals.{WritesAloneMeetNobody, WritesAloneMeetNobodyAs};

use nv_core::{passes_are_left_alone, runs_are_sound};
use nv_table::a_pass_alone_is_not_refused;

/// Where pass 0 has taken in all passes that it made, and none of these holds a cell, no read of it is answered `Busy`.
pub fn a_read_alone_is_not_busy()
    ensures made { NoReadIsBusyAs }
    ensures reads { NoReadIsBusy }
{
    a_pass_alone_is_not_refused();
}

/// Nor is a write of it, and none is answered `Raced`.
pub fn a_write_alone_meets_nobody()
    ensures made { WritesAloneMeetNobodyAs }
    ensures writes { WritesAloneMeetNobody }
{
    runs_are_sound();
    passes_are_left_alone();
}
