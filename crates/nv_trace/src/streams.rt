//! Where traces come from and reports go.
ghost use Rattle.std.specs.Prelude.{◌≡◌, ◌≢◌, ℕ, ◌<◌, ◌≤◌, List, [], length, take, Option, Some, IfOk, IfSome, OnOk, OnErr};
ghost use Rattle.nv_plain.specs.Faults.{HasCause};
ghost use Rattle.nv_trace.specs.Streams.{HasRead, Appends};

use thiserror::Error;

/// A read or a write failed.
#[derive(Clone, Copy, Debug, PartialEq, Eq, Error)]
#[error("the stream failed")]
pub struct Failed;

/// Where a trace comes from. No call takes memory.
pub trait Source {
    /// The bytes that are left, where it tells.
    ghost left: { Self → Option (List ℕ) };

    /// How often it has failed. The count stands still at 2^64 - 1.
    ghost fault_count: { Self → ℕ };

    /// Puts the next bytes to the front of `buf` and says how many; 0, for a `buf` that isn't empty, is the end of
    /// the input.
    fn read(&mut self, buf: &mut [u8]) -> Result<u64, Failed>
        ensures count { IfOk result (λ count. count ≤ length buf.old) }
        ensures told { IfOk result (λ count. HasRead (left self.old) (left self.new) count buf.old buf.new) }
        ensures cause { HasCause (fault_count self.old) (fault_count self.new) result };

    /// How often it has failed; at most 2^64 - 1.
    fn faults(&self) -> u64
        ensures { result ≡ fault_count self.now };
}

/// Where a report goes. No call takes memory.
pub trait Sink {
    /// The bytes that were written, where it tells.
    ghost written: { Self → Option (List ℕ) };

    /// How often it has failed. The count stands still at 2^64 - 1.
    ghost fault_count: { Self → ℕ };

    /// Writes the first of the bytes and says how many: at least one of bytes that aren't empty. After `Failed`
    /// nothing more is written.
    fn write(&mut self, bytes: &[u8]) -> Result<u64, Failed>
        ensures count { IfOk result (λ count. count ≤ length bytes.now) }
        ensures some { IfOk result (λ count. 0 < length bytes.now → 0 < count) }
        ensures told { IfOk result (λ count. Appends (written self.old) (written self.new) (take count bytes.now)) }
        ensures unchanged { OnErr result (IfSome (written self.old) (λ before. written self.new ≡ Some before)) }
        ensures cause { HasCause (fault_count self.old) (fault_count self.new) result };

    /// How often it has failed; at most 2^64 - 1.
    fn faults(&self) -> u64
        ensures { result ≡ fault_count self.now };
}

/// Writes all of the bytes. After `Failed` a front of them is written. No bytes are written without a call of the sink.
pub fn write_all<O: Sink>(out: &mut O, bytes: &[u8]) -> Result<(), Failed>
    ensures all { OnOk result (Appends (O.written out.old) (O.written out.new) bytes.now) }
    ensures front { OnErr result ((count : ℕ) × Appends (O.written out.old) (O.written out.new) (take count bytes.now)) }
    ensures wanted { OnErr result (bytes.now ≢ []) }
    ensures cause { HasCause (O.fault_count out.old) (O.fault_count out.new) result }
{
    let mut rest = bytes;
    while !rest.is_empty() {
        let count = out.write(rest)?;
        rest = &rest[count as usize..];
    }
    Ok(())
}
