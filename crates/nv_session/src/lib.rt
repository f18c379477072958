//! Sessions: what a thread calls a mount by, and how threads come to theirs; and with it all of the library that a program names.
//! A session's type carries what each of its calls asks, so that its caller owes nothing, and no loop over it needs an invariant.
#![tactic(auto)]

mod closing;
mod descriptors;
mod first;
mod hiring;
mod opening;
mod seat;
mod session;
mod session_error;
mod work;

pub use descriptors::{FdError, open_fd};
pub use first::FirstSession;
pub use nv_bench::{Bench, BenchError, FolderBench, MemBench};
pub use nv_calls::{
    AddError, Done, Gather, Refusal, Scatter, pread, preadv, pwrite, pwritev, try_fsync, try_pread,
    try_preadv, try_pwrite, try_pwritev,
};
pub use nv_clean::{CleanRefusal, Cleaned, try_clean};
pub use nv_header::{Names, Region};
pub use nv_mount::{Fds, Mount};
pub use nv_open::{Opened, open};
pub use nv_plain::{Bytes, Mode, NoMemory, Reply};
pub use nv_pmem::{FaultCounter, FilePart, Geometry, Lines, MemPart, Pick};
pub use nv_runner::{Ended, OpenGate, Placed, Plan, run_calls};
pub use nv_store::{Backing, FileStore, MemStore};
pub use nv_table::{Pass, Workspace, join_pass, split_pass};
pub use nv_trace::{Form, MemSource, Trace, read_trace};
pub use session::{Mounted, Session};
pub use session_error::SessionError;
pub use work::Work;
