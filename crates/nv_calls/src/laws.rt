//! Laws of calls that are over.
ghost use Rattle.nv_calls.specs.histories.Complete.{CallsAreComplete, ReadsAreComplete, SyncsAreComplete};
ghost use Rattle.nv_calls.specs.histories.Faults.{ReadsOpenNothing, ReadsOpenNothingAs, SyncsOpenNothing, WritesOpen, WritesOpenAs};
ghost use Rattle.nv_calls.specs.histories.GoingOn.{CallsGoOn, ReadsGoOn, SyncsGoOn, WritesGoOn};
ghost use Rattle.nv_calls.specs.histories.Heeds.{CallsHeedStop, ReadsHeedStop, SyncsHeedStop};
ghost use Rattle.nv_calls.specs.histories.LeftWords.{LockingStepsLeaveTheRest, PassingStepsLeaveWhatStays};
ghost use Rattle.nv_calls.specs.writes.Refusals.{WritesTellWhatIsKnown, WritesTellWhatIsKnownAs};
ghost use Rattle.nv_calls.specs.writes.WriteLaws.{RefusedWritesLeaveWords, RefusedWritesLeaveWordsAs, WritesAreComplete, WritesHeedStop};

use nv_core::{passes_are_left_alone, runs_are_sound};

/// What the last advance of a call tells says too that the call heeds STOP: a pass that has seen it as set, or was answered that it is, or with a
/// device fault, is answered that the mount is stopped by each later call that comes to its load of STOP.
pub fn ended_calls_heed_stop()
    ensures calls { CallsHeedStop }
    ensures reads { ReadsHeedStop }
    ensures writes { WritesHeedStop }
    ensures syncs { SyncsHeedStop }
{
    runs_are_sound();
    passes_are_left_alone();
}

/// A write that a device fault ended is kept by its pass, as its last open one: nothing that it asked for bars it, and it has drawn numbers. No other call adds any, nor one that is to be made
/// again.
pub fn faults_open_writes()
    ensures made_writes { WritesOpenAs }
    ensures made_reads { ReadsOpenNothingAs }
    ensures writes { WritesOpen }
    ensures reads { ReadsOpenNothing }
    ensures syncs { SyncsOpenNothing }
{
    runs_are_sound();
    passes_are_left_alone();
}

/// A write that is refused, and for no device fault, has changed no word of the mount but locks, and gave back each lock that it took.
pub fn refused_writes_leave_words()
    ensures made { RefusedWritesLeaveWordsAs }
    ensures writes { RefusedWritesLeaveWords }
{
    runs_are_sound();
    passes_are_left_alone();
}

/// A call that isn't refused by what it asks for is done, where each lock that it takes is free, STOP is 0, no number is used up, the log has room for a write's
/// entries, no other write draws between, and no device fails; and one that is done has found all that, where no device has failed.
pub fn calls_are_complete()
    ensures calls { CallsAreComplete }
    ensures reads { ReadsAreComplete }
    ensures writes { WritesAreComplete }
    ensures syncs { SyncsAreComplete }
{}

/// A call goes on from all that its pass knows, by itself and by those that it took in. So pass 0 is answered that the mount is stopped behind a pass that met a
/// fault, and its call takes its place behind all calls that another had seen. Where a write is refused by HEAD or TAIL these were no lower than is known; where
/// another one drew its numbers HEAD has risen; and it is never answered that a store has failed.
pub fn calls_go_on_from_what_is_known()
    ensures calls { CallsGoOn }
    ensures reads { ReadsGoOn }
    ensures writes { WritesGoOn }
    ensures syncs { SyncsGoOn }
    ensures refusals { WritesTellWhatIsKnown }
    ensures made_refusals { WritesTellWhatIsKnownAs }
{
    runs_are_sound();
    passes_are_left_alone();
}

/// What the steps of a refused call leave as it was: those of a read, for no device fault, add no call to the history and change no word but locks, HAND, hints,
/// and the ENTRY of an entry that was made ready; those of a write no word but locks.
pub fn own_steps_leave_words()
    ensures passing { PassingStepsLeaveWhatStays }
    ensures locking { LockingStepsLeaveTheRest }
{}
