//! What became of the calls that were left open.
use nv_trace::{Fate, TracedCall};

/// A call of the trace that was left open, and what the recovery after it made of it.
#[derive(Drop)]
pub(crate) struct Fated<'a> {
    pub(crate) call: &'a TracedCall,
    pub(crate) fate: Fate,
}
