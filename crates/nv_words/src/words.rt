//! The types of commands.
ghost use Rattle.std.specs.Prelude.{◌≡◌};
ghost use Rattle.nv_words.specs.declared.words.WordsError.TheVariants.{NoMemory as NoRoom};

use nv_load::Load;
use nv_pmem::Pick;
use std::alloc::AllocError;

/// What the words behind a program's name ask for.
#[derive(Clone, Copy, Debug, PartialEq, Eq)]
pub enum Command {
    /// A run of a trace.
    Run(RunOptions),
    /// A schedule of a trace. Its words say neither `worker` nor `stop`.
    Sched(RunOptions),
    /// A recovery.
    Recover,
    /// A look at the region, and at the files that a recovery would leave.
    Look { files: bool },
    /// A run of generated calls.
    Gen(Load),
}

/// How a trace is run.
#[derive(Clone, Copy, Debug, PartialEq, Eq)]
pub struct RunOptions {
    /// Bytes of a page of a region that is formatted: whole lines of 64, up to 4,096.
    pub page: u64,
    /// Entries of the log of a region that is formatted: 2 to 1,024.
    pub entries: u64,
    /// Pages of the cache: 1 to 16,384.
    pub cache: u64,
    /// Entries of a batch: 1 to 1,024.
    pub batch: u64,
    /// Pages of a file: 1 to 1,024.
    pub pages: u64,
    /// A worker cleans the log while the calls are made.
    pub worker: bool,
    /// The device call to stop at, counted from the opening of the mount: 1 to 4,294,967,295.
    pub stop: Option<u64>,
    /// The image that power leaves where the run is stopped.
    pub image: Pick,
}

/// Why words are no command.
#[derive(Clone, Copy, Debug, PartialEq, Eq)]
pub enum WordsError {
    Usage,
    NoMemory,
}

impl From<AllocError> for WordsError {
    ghost from_gives = { λ _ error. error ≡ NoRoom };

    fn from(_: AllocError) -> Self {
        WordsError::NoMemory
    }
}
