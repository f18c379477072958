//! A call that was made.
use nv_runner::Answer;
use nv_trace::TracedCall;

/// A call that was made, and what it was answered.
#[derive(Drop)]
pub struct Made {
    pub call: TracedCall,
    pub answer: Answer,
}
