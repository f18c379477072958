//! Laws of recovery.
ghost use Rattle.nv_recover.specs.Groups.{FittingHasNoBad};
ghost use Rattle.nv_recover.specs.Interrupted.{EndsAreStops, LastHoldsFiles, PromisesAreRuns, PromisesKeepTelling, StopsKeepFiles, StopsKeepFit, StopsKeepHeader, StopsKeepLog};
ghost use Rattle.nv_recover.specs.Standing.{ReadableStandsForRecovered};
ghost use Rattle.nv_recover.specs.Telling.{StoresHaveOneState, TellingStoresHaveStates};

use nv_entry::a_group_has_one_answer;

/// Power may fail at any moment of a recovery, and again in the recovery after it, any number of times. The last header
/// reads like the first one, and its log has the same groups, or none, and goes on with the same number. Where the
/// committed groups of the first image are whole, so are those of the last one; it and its stores stand for the same files
/// as the first ones, and the recovery that is not stopped leaves these files in the stores. A moment is any that `recover`
/// promises of (`runs`): before its first change of a device, between two of them, and after the last (`ends`); and
/// devices that told then still tell.
pub fn recoveries_give_the_same_files()
    ensures runs { PromisesAreRuns }
    ensures ends { EndsAreStops }
    ensures tell { PromisesKeepTelling }
    ensures header { StopsKeepHeader }
    ensures log { StopsKeepLog }
    ensures fits { StopsKeepFit }
    ensures same { StopsKeepFiles }
    ensures last { LastHoldsFiles }
{}

/// An image whose header can be read stands for the files that it recovers to; and no entry of one that fits is bad.
pub fn images_stand_for_files()
    ensures files { ReadableStandsForRecovered }
    ensures good { FittingHasNoBad }
{
    a_group_has_one_answer();
}

/// A row of stores has present states where all of them tell, and then these alone. For a region's parts nv_header says so.
pub fn rows_of_stores_have_states()
    ensures some { TellingStoresHaveStates }
    ensures one { StoresHaveOneState }
{}
