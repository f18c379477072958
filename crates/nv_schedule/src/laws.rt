//! Laws of schedules that were followed.
ghost use Rattle.nv_schedule.specs.ActsByHand.{ActsByHand};
ghost use Rattle.nv_schedule.specs.Begun.{SchedulesBegin};
ghost use Rattle.nv_schedule.specs.CoreRuns.{SchedulesRunInCore};
ghost use Rattle.nv_schedule.specs.Counted.{FaultsAreCounted};
ghost use Rattle.nv_schedule.specs.FaithfulSchedules.{SchedulesAreFaithful};
ghost use Rattle.nv_schedule.specs.Growing.{SchedulesGrow, TrailsAreDeeds};
ghost use Rattle.nv_schedule.specs.Lives.{SchedulesLeaveLives};
ghost use Rattle.nv_schedule.specs.NextKinds.{NextStepsAreTheCores};
ghost use Rattle.nv_schedule.specs.RefusedCalls.{PlacedAreUnbarred, RefusalsHaveCauses};
ghost use Rattle.nv_schedule.specs.Shares.{SharesAreHistory};
ghost use Rattle.nv_schedule.specs.SortedOut.{SchedulesAreLegal, SchedulesAreTold};
ghost use Rattle.nv_schedule.specs.Uncut.{FaultsAreMet, UncutSchedulesAreWhole};

use nv_calls::{ended_calls_heed_stop, faults_open_writes, refused_writes_leave_words};
use nv_core::{heads_count_draws, histories_go_on, passes_are_left_alone, runs_are_sound};
use nv_runner::{refusals_have_causes, tries_go_on};

/// What each caller's pass has in the run grows by its own events of a schedule that the callers follow, in their order, and by nothing else; and events that stand in a run in their order, and are all
/// deeds that each pass has in it, are its deeds, one after another, with no event between.
pub fn schedules_are_the_deeds()
    ensures grow { SchedulesGrow }
    ensures deeds { TrailsAreDeeds }
{}

/// What a caller makes next, by which a token is told to be at its point, is what the core has next of its pass, where each device call before it ends well: it follows from where the pass stands in the core, and from
/// which calls are left. What the caller has at hand of its call says nothing else of it.
pub fn next_steps_are_the_cores()
    ensures { NextStepsAreTheCores }
{}

/// A schedule over a mount is said by a run of the core alone: its deeds are those of the threads and of the cleaner, group after group as the tokens say, one step an advance, and each token ends where the core comes to its
/// point. What its calls were answered, and which were left open and from which numbers on, is read off the core's history and passes.
pub fn schedules_run_in_the_core()
    ensures { SchedulesRunInCore }
{
    ended_calls_heed_stop();
    refused_writes_leave_words();
    faults_open_writes();
    tries_go_on();
    runs_are_sound();
    passes_are_left_alone();
}

/// By hand: a write that finds its page taken begins anew, and isn't answered; a sync waits for its place, and is answered by it and by nothing else; a call that is barred is refused by no event, and any other one makes a
/// step; a batch is of the bound that is asked for.
pub fn acts_by_hand()
    ensures { ActsByHand }
{}

/// Of the events of a schedule that was followed, and has no cut, none is a device call that failed; and one is of a schedule that met a fault.
pub fn uncut_schedules_meet_no_fault()
    ensures whole { UncutSchedulesAreWhole }
    ensures met { FaultsAreMet }
{}

/// Where a schedule over a new mount met a fault, and the mount was closed then, the count of its devices' faults rose above what it was at opening: the pass whose device call has failed set STOP by its next step.
pub fn faults_of_schedules_are_counted()
    ensures { FaultsAreCounted }
{
    ended_calls_heed_stop();
    refused_writes_leave_words();
    faults_open_writes();
    tries_go_on();
    runs_are_sound();
    passes_are_left_alone();
}

/// Of each thread of a trace the calls that a schedule lists are the first ones, each once, and behind them the one that it lists without an answer, if there is one. No two of all these are of one line.
pub fn schedules_begin_in_order()
    ensures { SchedulesBegin }
{}

/// Sorted by their places, the placed calls of a schedule are the one history of its mount, entry for entry, in an order that keeps each thread's lines; each call that it lists is one of these, of the refused ones or
/// of the open ones, once; and these stand in the order of their lines. As a history of the threads it is legal. The first holds of any run in which each thread's calls are made by one pass.
pub fn schedules_are_told()
    ensures shares { SharesAreHistory }
    ensures told { SchedulesAreTold }
    ensures legal { SchedulesAreLegal }
{}

/// A call that a schedule lists as refused is refused by what bars it, or by such a cause, which its pass has seen: STOP set only where the run has; HEAD no higher than the number that came
/// next at opening and the entries of the calls that drew some and don't come later than it; ORDER and TAIL no higher than they are at the end.
/// Nothing bars one that it lists as placed, whether or not that is over.
pub fn schedules_refuse_with_cause()
    ensures refused { RefusalsHaveCauses }
    ensures placed { PlacedAreUnbarred }
{
    ended_calls_heed_stop();
    refused_writes_leave_words();
    faults_open_writes();
    tries_go_on();
    refusals_have_causes();
    runs_are_sound();
    histories_go_on();
    passes_are_left_alone();
    heads_count_draws();
}

/// A report that shows the sorted calls of a schedule of a trace without rounds, over a new mount that was closed then, is faithful to the trace: its history is legal, each thread's calls stand in it from the
/// first one on, each once, in the order of lines, each refusal has its cause, and it shows the files after the history, with the open calls that are kept.
pub fn schedules_are_faithful()
    ensures { SchedulesAreFaithful }
{
    ended_calls_heed_stop();
    refused_writes_leave_words();
    faults_open_writes();
    tries_go_on();
    refusals_have_causes();
    runs_are_sound();
    histories_go_on();
    passes_are_left_alone();
    heads_count_draws();
}

/// Whatever a schedule of a trace without rounds came to, parts and stores that come out of its mount are left so: the calls that have their place are a legal history of calls of the trace, and each image recovers
/// to the files after it and then some other calls, each whole.
pub fn schedules_leave_lives()
    ensures { SchedulesLeaveLives }
{}
