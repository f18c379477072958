//! What a call is answered.

use thiserror::Error;

/// A call has its place in the history, and has been answered.
#[derive(Clone, Copy, Debug, PartialEq, Eq)]
pub struct Done {
    /// How many calls stand before it.
    pub place: u64,
    /// How many bytes it read or wrote.
    pub len: u64,
}

/// Why a call has no place in the history.
#[derive(Clone, Copy, Debug, PartialEq, Eq, Error)]
pub enum Refusal {
    /// No descriptor has this number, or it was not opened for such a call (POSIX.1-2017, read: `EBADF`).
    #[error("no such descriptor")]
    BadFd,
    /// It ends past the last page that a file may have.
    #[error("too far")]
    TooFar,
    /// It touches more pages than a group of the log has entries: 64, or as many as the log has, if those are fewer.
    #[error("too long")]
    TooLong,
    /// A lock of the call was found held; `cell` is the place of its word.
    #[error("cell {cell} is busy")]
    Busy { cell: u64 },
    /// The mount was stopped by a device fault.
    #[error("the mount is stopped")]
    Stopped,
    /// As many calls have their place as there may be, or more; or a write found HEAD so, and the log has too few numbers left for its entries.
    #[error("no numbers are left above {found}")]
    Spent { found: u64 },
    /// A write found HEAD and then TAIL so, and the log has no room for its entries until some are cleaned.
    #[error("the log is full from {tail} to {head}")]
    Again { head: u64, tail: u64 },
    /// A write saw HEAD so, and another one had moved it by the time at which it was to draw its numbers.
    #[error("another write moved the log's head from {seen} to {found}")]
    Raced { seen: u64, found: u64 },
    /// A read of the part of an entry failed, or a write's commit on one, whose count of faults rose. STOP is set.
    #[error("the region failed")]
    RegionFault,
    /// A read of the store failed, whose count of faults rose. STOP is set.
    #[error("a store failed")]
    StoreFault,
}
