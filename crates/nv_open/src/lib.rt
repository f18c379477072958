//! Opening the region of a bench: a blank one is formatted, and any other one is recovered, and carried over to the version that
//! a mount opens over; then the stores of its files are open, in the order of its names. And recovering one as it stands, whatever
//! version it is of, and looking at one, which changes nothing of it.
#![tactic(auto)]

mod adding;
mod error;
mod formatting;
mod header;
mod log;
mod looking;
mod migrating;
mod opened;
mod opening;
mod recovering;
mod stores;

pub use error::{OpenError, Refusal};
pub use looking::{look_at_files, look_at_region};
pub use nv_look::Text;
pub use opened::{Opened, Restored};
pub use opening::open;
pub use recovering::recover_region;
