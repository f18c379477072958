//! Looking at a region: what its log holds, and the files that a recovery would leave. No device is written to, so whoever finds a
//! region after a crash can see before he acts.
#![tactic(auto)]

mod dry;
mod error;
mod listing;
mod looking;
mod showing;
mod text;

pub use dry::dry_files;
pub use error::LookError;
pub use listing::{Listing, Row, list_log};
pub use looking::{look, look_files};
pub use nv_recover::RecoverError;
pub use showing::show;
pub use text::Text;
