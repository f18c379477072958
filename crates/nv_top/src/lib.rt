//! The top call of NVCache: words and a trace in, a report and a status out.
#![tactic(auto)]

mod command;
mod ending;
mod fates;
mod files;
mod input;
mod laws;
mod life;
mod loading;
mod looking;
mod mounting;
mod names;
mod outcome;
mod program;
mod ran;
mod recovery;
mod region_text;
mod run;
mod scheduling;
mod show;
mod stopping;
mod summary;
mod text;

pub use command::nv_main;
pub use ending::{
    BAD_INPUT, BAD_REGION, DEVICE_FAULT, DONE, NO_MEMORY, READ_FAULT, TURNS_USED, USAGE,
    WRITE_FAULT, say,
};
pub use laws::{
    a_next_command_may_follow, a_plain_command_is_unhindered, a_refused_region_shows_nothing,
    a_region_stays_accepted, fates_are_tied, lives_go_on_in_turn, report_has_one_reading,
    statuses_tell_what_came,
};
pub use nv_runner::{Gate, OpenGate, Point};
pub use nv_words::{Command, RunOptions};
pub use program::program_words;
