//! Parts: lines of words that are stored, flushed and fenced.
ghost use Rattle.std.specs.Prelude.{◌≡◌, ℕ, ◌<◌, ◌≤◌, [], ◌∷◌, length, IfOk, OnOk};
ghost use Rattle.nv_plain.specs.Faults.{HasCause};
ghost use Rattle.nv_pmem.specs.Part.{Part, part_word};
ghost use Rattle.nv_pmem.specs.Moments.{Tells};
ghost use Rattle.nv_pmem.specs.Steps.{StoreWord, Flush, Fence, PartHistory, DidLineStep, DidSome, line_stores};
ghost use Rattle.nv_pmem.specs.Room.{Room, Keeps, Takes, Frees};

use crate::Refused;
use thiserror::Error;

/// A call of a part failed. The part is as it was, or as if the call had gone well; after `store_line` some of
/// the line's words may be stored.
#[derive(Clone, Copy, Debug, PartialEq, Eq, Error)]
#[error("a line of persistent memory failed")]
pub struct LineFault;

/// A call of one of a region's parts failed, and so that part's count of faults rose.
#[derive(Clone, Copy, Debug, PartialEq, Eq, Error)]
#[error("a part of the region failed")]
pub struct RegionFault;

impl From<LineFault> for RegionFault {
    fn from(_: LineFault) -> Self {
        RegionFault
    }
}

impl From<Refused> for LineFault {
    fn from(_: Refused) -> Self {
        LineFault
    }
}

/// A part of persistent memory: lines of 64 bytes, eight words of 8 bytes each, little-endian. Line `l` has the part's
/// bytes from 64 `l` on, and word `w` of it, 0 to 7, those from 64 `l` + 8 `w` on, the least byte first. After a power
/// failure each word of a line, by itself, holds one of the values that it had since the one last made durable, that one
/// included.
/// No call is handed an allocator, and none answers for want of memory. After a fault the caller may go on: the part is
/// as it was or as if the call had gone well, and of `store_line` the first so many words may be stored.
///
/// Over persistent memory of a processor of Intel's (Software Developer's Manual, volume 2) `store` is a store of 8
/// aligned bytes, which isn't torn, while two of them may become durable in either order; `flush` is `CLWB` or
/// `CLFLUSHOPT` of the line, which writes it back; and `fence` is `SFENCE`, behind which all lines are durable that were
/// written back before it.
pub trait Lines {
    /// Which device this is. No call changes it.
    ghost device: { Self → ℕ };

    /// The states that it has had, the present one first; empty where it doesn't tell. Loads leave no trace in it.
    ghost history: { Self → PartHistory };

    /// How many lines it has, and how many more stores each can take, now and after the next fence.
    ghost room: { Self → Room };

    /// How often it has failed, up to 2^64 - 1, where the count stands still.
    ghost fault_count: { Self → ℕ };

    /// The number of lines, of 64 bytes each.
    fn lines(&self) -> u64
        ensures { result ≡ (room self.now).lines };

    /// The value of a word: of the line with this number, from 0 on, the word 0 to 7.
    fn load(&mut self, line: u64, word: u64) -> Result<u64, LineFault>
        requires line { line < (room self.old).lines }
        requires word { word < 8 }
        ensures value { IfOk result (λ value. Tells (history self.old) (λ part. value ≡ part_word part line word)) }
        ensures history { history self.new ≡ history self.old }
        ensures room { Keeps (room self.old) (room self.new) }
        ensures same_room { room self.new ≡ room self.old }
        ensures cause { HasCause (fault_count self.old) (fault_count self.new) result }
        ensures device { device self.new ≡ device self.old };

    /// Stores a word, 0 to 7, of a line. The line can take one store less. Nothing of it is durable before a flush of
    /// the line and then a fence; before that a power failure may leave the word as it was or as it is stored, whatever it
    /// leaves of the line's other words.
    fn store(&mut self, line: u64, word: u64, value: u64) -> Result<(), LineFault>
        requires line { line < (room self.old).lines }
        requires word { word < 8 }
        requires spare { 1 ≤ (room self.old).spare line }
        ensures begun { DidSome (StoreWord line word value ∷ []) (history self.old) (history self.new) }
        ensures done { OnOk result (DidLineStep (StoreWord line word value ∷ []) (history self.old) (history self.new)) }
        ensures room { Takes 1 line (room self.old) (room self.new) }
        ensures cause { HasCause (fault_count self.old) (fault_count self.new) result }
        ensures device { device self.new ≡ device self.old };

    /// Stores the eight words of a line, rising: word `w` is the bytes from 8 `w` on, the least first. The line can take
    /// one store less, as each of its words has one value more that a power failure may leave.
    fn store_line(&mut self, line: u64, bytes: &[u8; 64]) -> Result<(), LineFault>
        requires line { line < (room self.old).lines }
        requires spare { 1 ≤ (room self.old).spare line }
        ensures begun { DidSome (line_stores line bytes.now) (history self.old) (history self.new) }
        ensures done { OnOk result (DidLineStep (line_stores line bytes.now) (history self.old) (history self.new)) }
        ensures room { Takes 1 line (room self.old) (room self.new) }
        ensures cause { HasCause (fault_count self.old) (fault_count self.new) result }
        ensures device { device self.new ≡ device self.old };

    /// Flushes a line: the next fence makes the value of now of each of its words the oldest that the word may have. It is
    /// not durable before that, and what is stored in the line behind this may come back or not.
    fn flush(&mut self, line: u64) -> Result<(), LineFault>
        requires line { line < (room self.old).lines }
        ensures begun { DidSome (Flush line ∷ []) (history self.old) (history self.new) }
        ensures done { OnOk result (DidLineStep (Flush line ∷ []) (history self.old) (history self.new)) }
        ensures room { Keeps (room self.old) (room self.new) }
        ensures flushed { OnOk result (15 ≤ (room self.new).after_fence line) }
        ensures cause { HasCause (fault_count self.old) (fault_count self.new) result }
        ensures device { device self.new ≡ device self.old };

    /// Makes the flushed lines durable: of each of their words what the last flush noted, or something since. A line that
    /// wasn't flushed since the last fence stays as it is. After a fault that may be done or not, so nothing counts as
    /// durable by it.
    fn fence(&mut self) -> Result<(), LineFault>
        ensures begun { DidSome (Fence ∷ []) (history self.old) (history self.new) }
        ensures done { OnOk result (DidLineStep (Fence ∷ []) (history self.old) (history self.new)) }
        ensures room { Keeps (room self.old) (room self.new) }
        ensures freed { OnOk result (Frees (room self.old) (room self.new)) }
        ensures cause { HasCause (fault_count self.old) (fault_count self.new) result }
        ensures device { device self.new ≡ device self.old };

    /// How often it has failed, up to 2^64 - 1.
    fn faults(&self) -> u64
        ensures { result ≡ fault_count self.now };

    /// The present state has the part's lines.
    ghost told_lines: { (p : Self) (now : Part) (past : PartHistory) → history p ≡ now ∷ past → length now ≡ (room p).lines };
}
