//! What a schedule came to.
use crate::ScheduleError;
use nv_runner::AnsweredCall;
use nv_table::Closed;
use nv_trace::TracedCall;

/// The calls that a schedule has begun.
#[derive(Debug, Drop)]
pub struct ScheduledCalls<'a> {
    /// Those that were answered, with their answers: each thread's in their order, and the last thread's first. Behind a thread's stands the
    /// one that it has in mid-call, where that has its place already, or is a write that has drawn its numbers and has none: it is told as
    /// placed, or as open.
    pub answered: Vec<AnsweredCall<'a>>,
    /// All others: they stand in mid-call, or between two tries, with neither an answer nor a place nor numbers. At most one of each thread,
    /// and the last thread's first.
    pub unanswered: Vec<&'a TracedCall>,
}

/// What is left of a mount over which a schedule was followed.
#[derive(Drop)]
pub struct Scheduled<'a, L, B> {
    /// What comes out of the mount.
    pub closed: Closed<L, B>,
    /// The calls that were begun; or why there is nothing to tell of them.
    pub outcome: Result<ScheduledCalls<'a>, ScheduleError>,
    /// Whether a cut was reached.
    pub cut: bool,
}
