//! What a thread's call is answered.
use nv_calls::Refusal;
use nv_plain::Reply;
use nv_trace::TracedCall;

/// What a call is answered: it has its place in the history, or none.
#[derive(Debug, Drop)]
pub enum Answer {
    /// As many calls as `place` tells stand before it, and this is its reply behind these.
    Placed { place: u64, reply: Reply },
    /// It was refused, and has no place.
    Refused(Refusal),
    /// A device fault ended it: a write that had drawn numbers of the log, this one first. It has no place, and after a power failure it may be found, as a whole, or not.
    Open { number: u64 },
}

/// A call of a trace, and what it was answered.
#[derive(Debug, Drop)]
pub struct AnsweredCall<'a> {
    pub call: &'a TracedCall,
    pub answer: Answer,
}
