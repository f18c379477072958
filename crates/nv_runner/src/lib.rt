//! The calls of a trace's threads, made over a mount that they share.
#![tactic(auto)]

mod answer;
mod call_list;
mod cleaner;
mod cleaning;
mod closing;
mod crew;
mod gate;
mod hiring;
mod kept;
mod laws;
mod lines;
mod list;
mod make;
mod owner;
mod parts;
mod plan;
mod round;
mod rounds;
mod run_error;
mod running;
mod shown;
mod sorted;
mod stream;
mod worker;
mod written;
mod zero;

pub use answer::{Answer, AnsweredCall};
pub use closing::close_alone;
pub use gate::{Gate, OpenGate, Point};
pub use kept::{KeptCalls, KeptOpen};
pub use laws::{
    calls_stand_behind_what_was_seen, faults_are_of_their_devices, history_of_threads_is_legal,
    lines_keep_order, made_calls_stand_in_order, newcomers_begin_behind, open_answers_are_faults,
    open_calls_are_the_faults, refusals_have_causes, refusals_in_runs_have_causes,
    runs_are_faithful, runs_are_told, runs_draw_in_a_row, runs_leave_lives, runs_leave_shown_lives,
    sorted_calls_are_the_history, tries_go_on, unstopped_runs_leave_nothing_open,
};
pub use lines::{push_history, push_refused};
pub use list::make_all;
pub use make::make_call;
pub use owner::Calls;
pub use parts::{fill_rooms, gathered, reply_rooms, scattered};
pub use plan::Plan;
pub use round::run_round;
pub use rounds::run_rounds;
pub use run_error::RunError;
pub use running::{Ended, MOST_CALLS, end_rounds, run_calls, worker_batch};
pub use shown::{Shown, show_refusal, show_refusals};
pub use sorted::{Open, Placed, Refused, SortedCalls, sort_out};
pub use stream::{StreamEnded, StreamError, run_stream};
