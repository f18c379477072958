//! The cache of pages: a read that misses a page searches a buffer for it, by the hand of the cache; and a read of a file as a whole, which goes through it.
#![tactic(auto)]

mod read;
mod read_parts;
mod read_run;
mod read_told;
mod search;
mod ways;

pub use read::RunningRead;
pub use read_run::MOST_PAGE;
pub use search::{SearchControl, SearchMachine};
