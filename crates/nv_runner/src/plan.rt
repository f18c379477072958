//! How a trace is run.
use nv_pmem::Pick;

/// How the calls of a trace are run.
#[derive(Clone, Copy, Debug, PartialEq, Eq)]
pub struct Plan {
    /// Entries of a batch, at most: 1 to 1,024.
    pub batch: u64,
    /// A cleaner runs batches beside the threads, and a thread for whose write the log has no room runs one itself.
    pub worker: bool,
    /// The device call from the opening of the mount on that is refused, and each later one; the run ends with a power failure then.
    pub stop: Option<u64>,
    /// The image that this leaves.
    pub image: Pick,
}
