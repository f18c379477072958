//! Benches: the devices that a program runs over, which can be opened, given back, and lose power.
#![tactic(auto)]

mod bench;
mod bench_stores;
mod file_ids;
mod folder_bench;
mod folder_parts;
mod laws;
mod mem_bench;
mod parts;

pub use bench::{Bench, BenchError};
pub use folder_bench::FolderBench;
pub use laws::power_leaves_an_image;
pub use mem_bench::MemBench;
