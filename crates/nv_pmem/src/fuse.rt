//! Fuses: which device calls in memory fail.
ghost use Rattle.std.specs.Prelude.{◌≤◌};

use nv_plain::NoMemory;
use std::alloc::Global;
use std::sync::Arc;
use std::sync::atomic::{AtomicU64, Ordering};

/// Decides which calls of the devices that share it fail: those of a list, and, while it is armed, all from one on.
/// The calls of a list are counted from 1, over all copies of the fuse, and those of an arming from it on.
#[derive(Drop)]
pub struct Fuse {
    shared: Arc<Shared, Global>,
}

#[derive(Drop)]
struct Shared {
    calls: AtomicU64,
    // The last call that arming lets through; 2^64 - 1 where the fuse isn't armed.
    last: AtomicU64,
    fails: Vec<u64>,
}

impl Fuse {
    /// The fuse at which the calls of these numbers fail.
    pub fn new(alloc: Global, fails: &[u64]) -> Result<Self, NoMemory> {
        let fails = Vec::from_slice(alloc, fails)?;
        let shared = Arc::new(
            alloc,
            Shared {
                calls: AtomicU64::new(0),
                last: AtomicU64::new(u64::MAX),
                fails,
            },
        )?;
        Ok(Fuse { shared })
    }

    /// A fuse with the same count, the same numbers and the same arming.
    pub fn copy(&self) -> Result<Self, NoMemory> {
        Ok(Fuse {
            shared: Arc::try_clone(&self.shared)?,
        })
    }

    /// Arms the fuse: call `k` from now and each later one fails, until it is disarmed. Where it is armed already,
    /// the earlier of the two limits stays. Takes no memory.
    pub fn arm(&self, k: u64)
        requires { 1 ≤ k }
    {
        let calls = self.shared.calls.load(Ordering::SeqCst);
        self.shared
            .last
            .fetch_min(calls.saturating_add(k - 1), Ordering::SeqCst);
    }

    /// Disarms the fuse: the calls of the list alone fail from now on. Takes no memory.
    pub fn disarm(&self) {
        self.shared.last.store(u64::MAX, Ordering::SeqCst);
    }

    /// Counts one call, and says whether it fails. Calls that can't fail aren't counted: so devices that several threads
    /// use share no word that each of their calls changes.
    pub(crate) fn blows(&self) -> bool {
        if self.shared.fails.is_empty() && self.shared.last.load(Ordering::SeqCst) == u64::MAX {
            return false;
        }
        let call = self
            .shared
            .calls
            .fetch_add(1, Ordering::SeqCst)
            .wrapping_add(1);
        call > self.shared.last.load(Ordering::SeqCst) || self.shared.fails.contains(&call)
    }
}
