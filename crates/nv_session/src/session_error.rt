//! Why no thread began its work.
use thiserror::Error;

/// Why no thread began its work.
#[derive(Clone, Copy, Debug, PartialEq, Eq, Error)]
pub enum SessionError {
    /// There was not enough memory.
    #[error("no memory")]
    NoMemory,
    /// A mount has fewer than 2^32 passes beside the first one in all its life.
    #[error("too many sessions")]
    TooMany,
}
