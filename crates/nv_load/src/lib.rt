//! The product's own load test: the calls that it generates, made as they are wanted, their run over a mount, and the summary of it.
#![tactic(auto)]

mod counts;
mod declaring;
mod generator;
mod laws;
mod load;
mod made;
mod running;
mod stock;
mod summary;
mod tally;

pub use counts::Counts;
pub use declaring::declare;
pub use laws::{fresh_summaries_are_of_the_load, generated_traces_are_sound};
pub use load::Load;
pub use made::Made;
pub use running::{LoadEnded, run_generated};
pub use summary::{Summary, summarize};
