//! How much is generated.

/// Which calls are generated: those of so many threads, each of which makes so many, behind the first fills of the file.
#[derive(Clone, Copy, Debug, PartialEq, Eq)]
pub struct Load {
    /// The number by which the calls are drawn, up to 4,294,967,295.
    pub seed: u64,
    /// The calls of each thread, at most 100,000.
    pub calls: u64,
    /// The threads, from 1 to 8.
    pub threads: u64,
}
