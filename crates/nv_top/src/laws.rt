//! Laws of reports, and of commands one behind the other.
ghost use Rattle.std.specs.Prelude.{[]};
ghost use Rattle.nv_trace.specs.declared.trace.Form.TheVariants as forms;
ghost use Rattle.nv_top.specs.Accepted.{NextIsAccepted, WhatIsMadeIsGood};
ghost use Rattle.nv_top.specs.Endings.{IsTrace};
ghost use Rattle.nv_top.specs.Headline.{PlainIsUnhindered, RefusedIsNotGood, ShownIsNotRefused};
ghost use Rattle.nv_top.specs.InTurn.{EachHasALife, LivesGoOnInTurn};
ghost use Rattle.nv_top.specs.Loads.{NewBenchesAreFresh};
ghost use Rattle.nv_top.specs.NextCommands.{NextBeginsBehind, NextBeginsBehindRecovery, NextBeginsBehindSchedule, NextBeginsBehindStop, NextFindsLooked, NextFindsRecovered, NextFindsRun, NextFindsScheduled, NextFindsShown, NextFindsStopped, NextIsReady, RunsHaveOneHistory};
ghost use Rattle.nv_top.specs.Readings.{OneLivesReading, OneNumber, OneReading, OneRecoveryReading};
ghost use Rattle.nv_top.specs.Said.{StatusesTellWhatCame};
ghost use Rattle.nv_top.specs.Tied.{FatesAreTied};

use nv_bench::power_leaves_an_image;
use nv_header::a_header_has_one_answer;
use nv_pmem::images_follow_calls;
use nv_recover::images_stand_for_files;

/// The text of a report has one reading: reports of one text list the same lines, field by field, those of runs, of lives in turn and of
/// recoveries. A field that is a number below 2^64 stands for that number alone.
pub fn report_has_one_reading()
    ensures lines { OneReading }
    ensures lives { OneLivesReading }
    ensures recoveries { OneRecoveryReading }
    ensures numbers { OneNumber }
{}

/// A second command may follow on the same bench, whatever the first one was: where that ended with status 0, and the bench tells,
/// all that [`nv_main`](crate::nv_main) asks of a bench follows from `back`, `counts` and `report` of its outcome, but that it was armed
/// less than 2^63 times so far. A run behind a run begins with the region that the first one left, at the number behind the last
/// that its calls drew; one behind a run that was stopped, or a schedule, with the sizes of that, at the number behind the log that power left; and one
/// behind a recovery with the region's sizes, at the next number that the recovery shows.
///
/// A command behind a run, stopped or not, a schedule or a recovery finds the files that this one showed, under their names: a recovery and
/// a look show them, and a run begins with them. So two runs, one behind the other, have one history; and so have a run and a schedule, or
/// two schedules.
pub fn a_next_command_may_follow()
    ensures ready { NextIsReady }
    ensures begins { NextBeginsBehind }
    ensures begins_behind_stop { NextBeginsBehindStop }
    ensures begins_behind_schedule { NextBeginsBehindSchedule }
    ensures begins_behind_recovery { NextBeginsBehindRecovery }
    ensures finds_run { NextFindsRun }
    ensures finds_stopped { NextFindsStopped }
    ensures finds_scheduled { NextFindsScheduled }
    ensures finds_shown { NextFindsShown }
    ensures finds_recovered { NextFindsRecovered }
    ensures finds_looked { NextFindsLooked }
    ensures one_history { RunsHaveOneHistory }
{}

/// Any commands that follow one another on one bench, each with status 0, make one way of its files: each begins with those that the one before it
/// left, and behind them the files of new names, and leaves those after its own history and the kept ones of the writes that it left open, which are
/// legal from there. So a write that was lost in one of them is in no later one. A recovery and a look do nothing to files.
pub fn lives_go_on_in_turn()
    ensures each { EachHasALife }
    ensures all { LivesGoOnInTurn }
{}

/// A command that shows what it does wasn't refused by the region of its bench: one that is refused for its bytes, or for too many
/// files, shows nothing. One that is refused for its bytes isn't good, so whatever a command comes to, it is as it was (`untouched` of
/// the outcome's `life`).
pub fn a_refused_region_shows_nothing()
    ensures shown { ShownIsNotRefused }
    ensures bad { RefusedIsNotGood }
{
    images_stand_for_files();
    a_header_has_one_answer();
}

/// Each status that a command ends with is of one kind of outcome, but for those of want of memory, which may have been wanting for a line,
/// and of the sink's fault: so a status has the cause that [`nv_main`](crate::nv_main) says of that outcome.
pub fn statuses_tell_what_came()
    ensures { StatusesTellWhatCame }
{}

/// A plain command is one that [`nv_main`](crate::nv_main) follows to its end, by `complete` of its outcome, unless memory is wanting: a
/// run of any trace of a few files over a blank region, by which no count of faults rose. The empty input is such a trace. And a load of
/// generated calls over a blank region with no store yet is told by its summary alone, since such a bench is fresh.
pub fn a_plain_command_is_unhindered()
    ensures plain { PlainIsUnhindered }
    ensures empty { IsTrace forms.Run [] }
    ensures fresh { NewBenchesAreFresh }
{}

/// The fates that a report shows can't be guessed, nor the order in which its writes drew their numbers: a run that was stopped, and a schedule, is a
/// run of the core with the report's history and with its writes in flight (`ran` of what [`nv_main`](crate::nv_main) says of them), and what power
/// left behind it (`left`) has each write of the history by the number that it drew there: below the first number that recovery found, or as a group
/// of the write's own file, offset and bytes. A write that was left open leads a group only as itself, and each group is one of these writes.
pub fn fates_are_tied()
    ensures { FatesAreTied }
{}

/// What a command leaves of a region that was blank or good is so again, whatever the command came to, and whatever a power failure makes of it: it is
/// good, or blank still as it was (`next`). A good one isn't refused by its bytes, nor for lines that are wanting, which is a law of its own
/// ([`a_refused_region_shows_nothing`]): a next recovery or look is refused only where it is blank still, and a run only for too many files.
///
/// A region that a run, a schedule, a recovery or a load has shown, or that a schedule has left whose turns are used up, is good, and has its lines
/// (`made`): it is refused for nothing but too many files.
pub fn a_region_stays_accepted()
    ensures next { NextIsAccepted }
    ensures made { WhatIsMadeIsGood }
{
    images_follow_calls();
    power_leaves_an_image();
}
