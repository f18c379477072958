//! Laws of power failures.
ghost use Rattle.nv_core.specs.crash.RegionsAtRest.{RegionsAtRestOpen};
ghost use Rattle.nv_core.specs.crash.CrashImages.{AddedInAnyOrder, EventsKeepRegion, FaultsAreFated, FaultsAreLost, OpeningHasRegion, RunsKeepRegion, RunsSurviveCrashes, StatesSurviveCrashes};
ghost use Rattle.nv_core.specs.walks.CrashByHand.{ImagesByHand};
ghost use Rattle.nv_core.specs.crash.EmptyLog.{EmptyLogsAreStored, EmptyLogsRest};

use crate::laws_below::{files_follow_calls, parts_follow_calls};
use nv_pmem::{images_follow_calls, loads_follow_calls};

/// A power failure at any moment leaves whole writes: each image of the region and of the stores fits, and recovers to the files
/// after the history and then some of the writes in flight, each whole: all those whose leader was made ready, and of the others
/// those that read as committed in that image. So it is in every sound state in which the content of the log is right, the
/// region reads as the mount's, and what of the stores isn't durable lies in live pieces. Each event keeps that, and so it is
/// after every run from the opening of a region. A write that a fault ended is among the recovered groups exactly where the image
/// adds it, and in none where its commit failed before its commit word. The writes that an image adds may be made in any order.
pub fn crashes_leave_whole_writes()
    ensures opening { OpeningHasRegion }
    ensures events { EventsKeepRegion }
    ensures states { StatesSurviveCrashes }
    ensures runs { RunsSurviveCrashes }
    ensures region { RunsKeepRegion }
    ensures faults { FaultsAreFated }
    ensures lost { FaultsAreLost }
    ensures order { AddedInAnyOrder }
{
    files_follow_calls();
    parts_follow_calls();
}

/// Where the log is empty the stores read as the files after the history and the writes that are placed next, whatever passes do
/// and STOP says. Where STOP is 0 too and no pass holds a cell, they are durable, the header and the part of each entry are quiet,
/// and no image has a committed number.
pub fn empty_logs_rest()
    ensures stored { EmptyLogsAreStored }
    ensures rest { EmptyLogsRest }
{}

/// What the crash law asks of a mount's region is met by every region at rest, as recovery and formatting leave it.
pub fn regions_at_rest_open()
    ensures { RegionsAtRestOpen }
{
    images_follow_calls();
}

/// A power failure by hand, on the walks' mount: the first write is written back to its store, which isn't synced, and its entry
/// cleaned; the second one is ready, and has no place yet; the third one is between the store of its commit word and the flush.
/// Each image recovers to the first two writes, or to all three. So do three images by hand: the store has nothing of what was
/// written back, all of it, or some of it, and the third write's commit word is lost, lost, and there.
pub fn images_by_hand()
    ensures { ImagesByHand }
{
    crashes_leave_whole_writes();
    loads_follow_calls();
    images_follow_calls();
}
