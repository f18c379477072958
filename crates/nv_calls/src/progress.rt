//! What an advance of a call came to that is made one step at a time.

use nv_mirror::{Done, Refusal};

/// What an advance came to.
#[derive(Clone, Copy, Debug, PartialEq, Eq)]
pub enum Progress {
    /// There is more to do.
    More,
    /// The call is over.
    Ended(Result<Done, Refusal>),
}
