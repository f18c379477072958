//! Laws of stores.
ghost use Rattle.nv_store.specs.Laws.{SeenIsAnImage, QuietStoreHasOneImage, SyncedHasOneImage, StepsKeepWhole, TornWritesKeepWhole, WritesAreTorn, WritesAreCovered};

/// What a power failure may leave of a store: what reads give, always, and after a sync nothing else.
pub fn store_images()
    ensures seen { SeenIsAnImage }
    ensures quiet { QuietStoreHasOneImage }
    ensures synced { SyncedHasOneImage }
{}

/// Steps and torn writes keep a store whole, and a write that is made again makes good all that an earlier try of it
/// may have left.
pub fn store_writes()
    ensures steps { StepsKeepWhole }
    ensures torn { TornWritesKeepWhole }
    ensures made { WritesAreTorn }
    ensures covered { WritesAreCovered }
{}
