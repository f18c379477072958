//! The calls of a mount that threads share: reads, writes and fsync, as a whole and one step at a time.
#![tactic(auto)]

mod admit;
mod alone;
mod gather;
mod laws;
mod progress;
mod read;
mod reading;
mod readv;
mod scatter;
mod sync;
mod syncing;
mod write;
mod writev;
mod writing;

pub use admit::early_read_refusal;
pub use alone::{a_read_alone_is_not_busy, a_write_alone_meets_nobody};
pub use gather::{AddError, Gather, MOST_PARTS};
pub use laws::{
    calls_are_complete, calls_go_on_from_what_is_known, ended_calls_heed_stop, faults_open_writes,
    own_steps_leave_words, refused_writes_leave_words,
};
pub use nv_cache::MOST_PAGE;
pub use nv_mirror::{Done, Refusal};
pub use nv_op::Kind;
pub use progress::Progress;
pub use read::{pread, try_pread};
pub use reading::{ReadControl, ReadMachine};
pub use readv::{preadv, try_preadv};
pub use scatter::Scatter;
pub use sync::try_fsync;
pub use syncing::{SyncControl, SyncMachine};
pub use write::{pwrite, try_pwrite};
pub use writev::{pwritev, try_pwritev};
pub use writing::{WriteControl, WriteMachine};
