//! Laws of batches.
ghost use Rattle.nv_clean.specs.BatchLaws.{BatchesByHand, FirstGroupsAreRetired, RefusedBatchesCleanNothing, StoppedPassesAreHeld, StoredStaysStored};

/// What whole batches leave. Behind one that tells of STOP, its pass cleans nothing any more. One that retires something retires at least the group at the tail, as
/// a whole, and TAIL is past that. One that is refused while no device fails gives back all that it took or held, cleans no entry and lowers no DIRTY. What is
/// retired is recovered from no image, and each byte of a store that no later piece has is there as reads give it. And two batches by hand.
pub fn batches_leave_whole_groups()
    ensures stop { StoppedPassesAreHeld }
    ensures first { FirstGroupsAreRetired }
    ensures refused { RefusedBatchesCleanNothing }
    ensures stored { StoredStaysStored }
    ensures by_hand { BatchesByHand }
{}
