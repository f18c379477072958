//! What an advance came to.

/// What an advance of a caller came to.
#[derive(Clone, Copy, Debug, PartialEq, Eq)]
pub(crate) struct Turned {
    /// Whether its present call, or batch, was answered by it.
    pub(crate) answered: bool,
    /// Whether a device call has failed in that call, or batch, so far.
    pub(crate) faulted: bool,
}
