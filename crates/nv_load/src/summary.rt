//! What is counted of a run.
ghost use Rattle.std.specs.Prelude.{◌≡◌};
ghost use Rattle.nv_plain.specs.Faults.{saturated};
ghost use Rattle.nv_load.specs.Counts.{summary_counted};
ghost use Rattle.nv_load.specs.Summaries.{weighted_sum};

use crate::counts::Counts;

/// What is counted of a run of generated calls.
#[derive(Clone, Copy, Debug, PartialEq, Eq)]
pub struct Summary {
    /// Calls that have their place in the history.
    pub placed: u64,
    /// Bytes that these wrote.
    pub written: u64,
    /// Bytes that they read.
    pub read: u64,
    /// The sum of the file's bytes, each times its place, which counts from 1.
    pub sum: u64,
}

/// The summary of calls of which this was counted, and of the bytes of the file. A sum stands still at 2^64 - 1.
pub fn summarize(counts: Counts, file: &[u8]) -> Summary
    ensures { result ≡ summary_counted counts file.now }
{
    let Counts {
        placed,
        written,
        read,
    } = counts;
    Summary {
        placed,
        written,
        read,
        sum: sum_of(file),
    }
}

// The sum of bytes, each times its place.
fn sum_of(file: &[u8]) -> u64
    ensures { result ≡ saturated (weighted_sum 1 file.now) }
{
    let mut sum: u64 = 0;
    for (place, byte) in file.iter().enumerate() {
        sum = sum.saturating_add((place as u64 + 1).saturating_mul(u64::from(*byte)));
    }
    sum
}
