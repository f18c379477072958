//! Laws of parts.
ghost use Rattle.nv_pmem.specs.Laws.{StoredIsLoaded, OthersAreKept, StepsKeepLines, BlankIsZeros};
ghost use Rattle.nv_pmem.specs.Laws.{LoadsAreAnImage, StepsAddTheirStores, NoStoreAddsNothing, QuietPartHasOneImage, FlushAndFenceSettle, QuietStays, BlankIsQuiet};
ghost use Rattle.nv_pmem.specs.RoomSteps.{LineIsItsStores};
ghost use Rattle.nv_pmem.specs.LineWise.{WholeImagesAreLeft, LaterStoreIsLeft};
ghost use Rattle.nv_pmem.specs.RowStates.{TellingRowsHaveStates, RowsHaveOneState, EachPartHasOne};

/// What loads of a part give, as the calls of [`Lines`](crate::Lines) go on.
pub fn loads_follow_calls()
    ensures stored { StoredIsLoaded }
    ensures kept { OthersAreKept }
    ensures lines { StepsKeepLines }
    ensures blank { BlankIsZeros }
{}

/// What a power failure may leave of a part, as the calls go on. With [`loads_follow_calls`] it is all that is known above
/// this crate of what a line holds: no proof there looks into its contents.
pub fn images_follow_calls()
    ensures now { LoadsAreAnImage }
    ensures stores { StepsAddTheirStores }
    ensures nothing { NoStoreAddsNothing }
    ensures quiet { QuietPartHasOneImage }
    ensures settled { FlushAndFenceSettle }
    ensures stays { QuietStays }
    ensures blank { BlankIsQuiet }
{}

/// What the calls of [`Lines`](crate::Lines) say of a part's room is said step by step too.
pub fn rooms_follow_calls()
    ensures { LineIsItsStores }
{}

/// The present states of a row of parts that all tell: there are some, for each part one, and no others. What a row tells
/// is what they have: `row_tells_at` and `row_tells_from`, beside their definition.
pub fn rows_have_states()
    ensures some { TellingRowsHaveStates }
    ensures one { RowsHaveOneState }
    ensures each { EachPartHasOne }
{}

/// What a power failure may leave where a line is left whole, as one of the contents that it had, it may leave too where each
/// word is left by itself; and more.
pub fn words_leave_more_than_lines()
    ensures whole { WholeImagesAreLeft }
    ensures more { LaterStoreIsLeft }
{}
