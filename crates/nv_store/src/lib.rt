//! Disk files as stores: the trait that the files behind a log keep, one in memory and one over a file.
#![tactic(auto)]

mod backing;
mod disk;
mod file_store;
mod laws;
mod mem_store;
mod reading;
mod told;

pub use backing::{Backing, StoreError, StoreFault};
pub use file_store::FileStore;
pub use laws::{store_images, store_writes};
pub use mem_store::MemStore;
pub use reading::{read_all, read_each};
