//! Laws of the calls that passes made in their order.
ghost use Rattle.nv_runner.specs.DrawnNumbers.{OneThreadDrawsByLine};
ghost use Rattle.nv_runner.specs.FailedDevices.{FaultsAreOfTheirDevices};
ghost use Rattle.nv_runner.specs.FaithfulRuns.{EmptiedLogsGoOn, FilesAreOfTheHistory, RunsAreFaithful, RunsAreNumbered, UnstoppedRunsLeaveNothingOpen};
ghost use Rattle.nv_runner.specs.Histories.{SortedAreHistory, ThreadsAreLegal};
ghost use Rattle.nv_runner.specs.KeptCalls.{OpenCallsAreKeptWhole};
ghost use Rattle.nv_runner.specs.Lists.{PlacedAreMine, PlacedStand};
ghost use Rattle.nv_runner.specs.OpenRuns.{LeftOpenAreKept, OpenInRun};
ghost use Rattle.nv_runner.specs.Lives.{RunsLeaveLives};
ghost use Rattle.nv_runner.specs.ShownLives.{RunsLeaveShownLives};
ghost use Rattle.nv_runner.specs.Newcomers.{JoinsGoOn, NewcomersAreUnborn, NewcomersBeginBehind, SplitsGoOn};
ghost use Rattle.nv_runner.specs.OpenWrites.{KeptAreOpen, OpenAreFaults};
ghost use Rattle.nv_runner.specs.Refusals.{RefusalsHaveCauses};
ghost use Rattle.nv_runner.specs.RunNumbers.{RunsDrawInARow};
ghost use Rattle.nv_runner.specs.RunRefusals.{DrawsHaveRoom, HeadsCountCalls, RefusalsInRunsHaveCauses};
ghost use Rattle.nv_runner.specs.Sorted.{LinesTellRounds, OpenInLines, RefusedInLines};
ghost use Rattle.nv_runner.specs.Told.{DescriptorsSayFiles, RunsAreTold, ShiftsStand};
ghost use Rattle.nv_runner.specs.TryLaws.{BatchesFollow, BatchesGoOn, NoBatchIsRun, OneBatchIsRun, ReadsGoOn, SyncsGoOn, WritesGoOn};

use nv_calls::ended_calls_heed_stop;
use nv_core::{heads_count_draws, histories_go_on, passes_are_left_alone, runs_are_sound};

/// A pass's own calls grew by those of its asks that have their place, each once, in their order, and by nothing else; and in each history that begins with what the pass has
/// seen behind them, each stands at the place that its answer tells, behind all that the pass had seen before it was made.
pub fn made_calls_stand_in_order()
    ensures mine { PlacedAreMine }
    ensures stand { PlacedStand }
{}

/// The writes of a pass that device faults ended are those of its asks that were answered to be open, each once, the last of them first, with the number that its answer tells, in front of those
/// that it had before, and no other. What a power failure keeps of them goes by that number alone.
pub fn open_answers_are_faults()
    ensures faults { OpenAreFaults }
    ensures kept { KeptAreOpen }
{}

/// Sorted by their places, the placed calls of a run are the one history of the mount that it was made on, call for call.
pub fn sorted_calls_are_the_history()
    ensures { SortedAreHistory }
{}

/// The history of a mount is legal whoever made its calls: also as that of the threads of a run, which leaves the same files. The descriptors of a trace may say which files its calls are on.
pub fn history_of_threads_is_legal()
    ensures legal { ThreadsAreLegal }
    ensures files { DescriptorsSayFiles }
{}

/// What the lines of calls tell, where they rise in a trace: of the rounds of these calls, in whatever order they are listed, and of the order of the refused ones and of those left open.
pub fn lines_keep_order()
    ensures rounds { LinesTellRounds }
    ensures refused { RefusedInLines }
    ensures open_calls { OpenInLines }
{}

/// A call is refused by what bars it before its first step, where something does. Else its pass has seen STOP set, or has found the places or the numbers used up, or the log
/// without room for its entries while no cleaner's batch may be run. So many numbers had been drawn by then, and so few entries retired.
pub fn refusals_have_causes()
    ensures { RefusalsHaveCauses }
{
    runs_are_sound();
    passes_are_left_alone();
    histories_go_on();
    ended_calls_heed_stop();
}

/// The run that a pass has seen goes on with each call, with all its tries. A write draws a number for each of its pages, where it has its place or its commit has failed, and no
/// other call draws any, nor does a batch of a cleaner; and no step of a call is one of a cleaner.
pub fn tries_go_on()
    ensures reads { ReadsGoOn }
    ensures writes { WritesGoOn }
    ensures syncs { SyncsGoOn }
    ensures batches { BatchesGoOn }
{
    runs_are_sound();
    passes_are_left_alone();
    histories_go_on();
}

/// What batches a pass ran: none where it is as it was, one by a whole batch, and those of both parts of its way.
pub(crate) fn batches_come_one_by_one()
    ensures none { NoBatchIsRun }
    ensures one { OneBatchIsRun }
    ensures follow { BatchesFollow }
{}

/// The sorted calls of a run of a trace that was brought to its end are told: those that have a place are the one history of the mount, entry for entry, in an order that keeps each thread's lines and the
/// rounds; each call is one of these or of the refused ones, once; and these stand in the order of their lines.
pub fn runs_are_told()
    ensures { RunsAreTold }
{}

/// The writes that faults ended in a run, in whatever pass, are the calls that were left open, each once: those of which it is decided by a power failure whether they are kept. In whatever order they are
/// listed, those that are kept come one after another behind the history.
pub fn open_calls_are_the_faults()
    ensures faults { OpenInRun }
    ensures kept { LeftOpenAreKept }
{}

/// A call of a whole run is refused by such a cause; and its pass had seen HEAD no higher than the number that came next at opening and the entries of the calls that drew some and don't come later than it.
/// At the end of the run HEAD is just what the calls drew. Where no batch may be run TAIL was that number, and the calls of the run have drawn no more than the log has entries.
pub fn refusals_in_runs_have_causes()
    ensures causes { RefusalsInRunsHaveCauses }
    ensures heads { HeadsCountCalls }
    ensures room { DrawsHaveRoom }
{
    refusals_have_causes();
    runs_are_sound();
    histories_go_on();
    heads_count_draws();
}

/// The calls of a whole run that drew their entries did so one after another, from the number that came next at opening, in an order that keeps each thread's lines and the rounds; and each call that was
/// left open was answered with the number that it drew so. Of one thread that order is the one of its lines.
pub fn runs_draw_in_a_row()
    ensures draws { RunsDrawInARow }
    ensures alone { OneThreadDrawsByLine }
{
    runs_are_sound();
    histories_go_on();
    heads_count_draws();
}

/// A pass that pass 0 makes has no event before, and begins in a run behind all of those that pass 0 had taken in. Pass 0 draws nothing by making a pass, nor by taking one in.
pub fn newcomers_begin_behind()
    ensures unborn { NewcomersAreUnborn }
    ensures behind { NewcomersBeginBehind }
    ensures splits { SplitsGoOn }
    ensures joins { JoinsGoOn }
{}

/// A report that shows the sorted calls of a run of a trace that was brought to its end, over a new mount that was closed then, is faithful to the trace: its history is
/// legal, each call stands in it once, in the order of lines and rounds, each refusal has its cause, and it shows the files that the stores have then, with those of the calls left open that are kept.
/// The calls that drew numbers did so in a row, and a log that was left empty goes on with the number behind the last of them. A call that was left open is among the groups that a power failure leaves
/// only as itself, with its file, its offset and its bytes.
pub fn runs_are_faithful()
    ensures faithful { RunsAreFaithful }
    ensures numbers { RunsAreNumbered }
    ensures tails { EmptiedLogsGoOn }
    ensures files { FilesAreOfTheHistory }
    ensures kept { OpenCallsAreKeptWhole }
{}

/// A call of a run is answered a fault of the region only where a part of the region has failed since the mount was opened, and one of a store only where a store has: by that device's own count.
pub fn faults_are_of_their_devices()
    ensures { FaultsAreOfTheirDevices }
{
    runs_are_sound();
}

/// Where a run isn't to be stopped no pass has seen STOP set by its end, and none of its calls was left open.
pub fn unstopped_runs_leave_nothing_open()
    ensures { UnstoppedRunsLeaveNothingOpen }
{
    runs_are_sound();
    passes_are_left_alone();
}

/// Whatever a run came to, parts and stores that come out of its mount are left so: the calls that have their place are a legal history of calls of the trace, and each image recovers to the files after it and
/// then some other calls, each whole.
pub fn runs_leave_lives()
    ensures { RunsLeaveLives }
{}

/// So they are left also behind the first calls that have a place, by their places, as those whose lines were written before the run ended: the history begins with these, and they are at the places from 0 on. Where the rounds
/// before the last are over, what is behind them in the history is of the last round, and unless devices failed each call of the others is among them, or was refused with a cause.
pub fn runs_leave_shown_lives()
    ensures { RunsLeaveShownLives }
{}

/// The calls that a pass made in a run stand in the mount's one history one behind the other, each behind all that its pass had seen before it was made, whatever the run came to.
pub fn calls_stand_behind_what_was_seen()
    ensures { ShiftsStand }
{}
