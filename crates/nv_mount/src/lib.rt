//! A mount: its board, on which the log and the files are, and the descriptors of its files.
#![tactic(auto)]

mod fds;
mod laws;
mod mount;
mod refusals;

pub use fds::{Fd, FdError, Fds, MAX_FDS};
pub use laws::words_stay_while_alone;
pub use mount::Mount;
pub use refusals::{OpenError, PassesOut, Unopened};
