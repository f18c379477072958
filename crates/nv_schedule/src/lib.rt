//! The calls of a trace, made one step at a time as a schedule says.
#![tactic(auto)]

mod batches;
mod caller;
mod ending;
mod hand;
mod hiring;
mod laws;
mod reaches;
mod running;
mod schedule_error;
mod scheduled;
mod thread;
mod tokens;
mod turned;

pub use laws::{
    acts_by_hand, faults_of_schedules_are_counted, next_steps_are_the_cores,
    schedules_are_faithful, schedules_are_the_deeds, schedules_are_told, schedules_begin_in_order,
    schedules_leave_lives, schedules_refuse_with_cause, schedules_run_in_the_core,
    uncut_schedules_meet_no_fault,
};
pub use running::run_schedule;
pub use schedule_error::ScheduleError;
pub use scheduled::{Scheduled, ScheduledCalls};
