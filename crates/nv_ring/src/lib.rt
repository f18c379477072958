//! A write of a file as a whole, and the part of it that is about the log: its numbers, its entries, its place and its new length.
#![tactic(auto)]

mod append;
mod commit;
mod lent;
mod numbers;
mod ways;
mod write;
mod write_run;

pub use append::{AppendControl, AppendMachine};
pub use numbers::{DrawControl, DrawMachine};
pub use write::RunningWrite;
