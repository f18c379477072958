//! The files of a mount that nobody shares: they are plain files.
#![tactic(auto)]

mod own;
#[cfg(test)]
mod tests;

pub use own::OwnFiles;
