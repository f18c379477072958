//! The piece of an entry, read from its part.
ghost use Rattle.std.specs.Prelude.{◌≡◌, ◌+◌, ◌<◌, ◌≤◌, length, IfOk, OnOk};
ghost use Rattle.nv_plain.specs.Faults.{HasCause};
ghost use Rattle.nv_plain.specs.Images.{entry_of, data_of, line_bytes, lines_for};
ghost use Rattle.nv_pmem.specs.Part.{part_word};
ghost use Rattle.nv_pmem.specs.Room.{Keeps};
ghost use Rattle.nv_pmem.specs.Moments.{Tells};
ghost use Rattle.nv_entry.specs.Reading.{head_of, IsFilled};

use crate::group::load;
use nv_pmem::{Lines, RegionFault};

/// What an entry says of its piece.
#[derive(Clone, Copy, Debug, PartialEq, Eq)]
pub struct PieceHead {
    /// The file's number.
    pub file: u64,
    /// Where the piece goes in the file, in bytes.
    pub at: u64,
    /// How many bytes it has.
    pub size: u64,
    /// How many entries its group has; 0 in a follower.
    pub count: u64,
    /// The number of its group's leader.
    pub leader: u64,
}

/// Reads the entry that a part holds: its bytes go to the front of `into`, whose other bytes stay. A size above
/// the room of `into`, which no part that tells may hold, is taken as that room. After a fault `into` may hold some
/// of the bytes. Takes no memory.
pub fn read_piece<L: Lines>(part: &mut L, into: &mut [u8]) -> Result<PieceHead, RegionFault>
    requires lines { 1 + lines_for (length into.old) ≤ (L.room part.old).lines }
    requires fits { Tells (L.history part.old) (λ now. (entry_of (part_word now)).size ≤ length into.old) }
    ensures head { IfOk result (λ head. Tells (L.history part.old) (λ now. head ≡ head_of now)) }
    ensures bytes { IfOk result (λ head. Tells (L.history part.old) (λ now. IsFilled now head.size into.old into.new)) }
    ensures size { IfOk result (λ head. head.size ≤ length into.old) }
    ensures history { L.history part.new ≡ L.history part.old }
    ensures room { Keeps (L.room part.old) (L.room part.new) }
    ensures same_room { L.room part.new ≡ L.room part.old }
    ensures cause { HasCause (L.fault_count part.old) (L.fault_count part.new) result }
    ensures device { L.device part.new ≡ L.device part.old }
{
    let head = read_head(part)?;
    let size = head.size.min(into.len() as u64);
    read_data(part, &mut into[..size as usize])?;
    Ok(PieceHead { size, ..head })
}

// The fields behind the commit word, as they read.
pub(crate) fn read_head<L: Lines>(part: &mut L) -> Result<PieceHead, RegionFault>
    requires lines { 1 ≤ (L.room part.old).lines }
    ensures head { IfOk result (λ head. Tells (L.history part.old) (λ now. head ≡ head_of now)) }
    ensures history { L.history part.new ≡ L.history part.old }
    ensures room { Keeps (L.room part.old) (L.room part.new) }
    ensures same_room { L.room part.new ≡ L.room part.old }
    ensures cause { HasCause (L.fault_count part.old) (L.fault_count part.new) result }
    ensures device { L.device part.new ≡ L.device part.old }
{
    Ok(PieceHead {
        file: load(part, 0, 1)?,
        at: load(part, 0, 2)?,
        size: load(part, 0, 3)?,
        count: load(part, 0, 4)?,
        leader: load(part, 0, 5)?,
    })
}

// The first bytes of the data.
fn read_data<L: Lines>(part: &mut L, into: &mut [u8]) -> Result<(), RegionFault>
    requires lines { 1 + lines_for (length into.old) ≤ (L.room part.old).lines }
    ensures bytes { OnOk result (Tells (L.history part.old) (λ now. into.new ≡ data_of (part_word now) (length into.old))) }
    ensures history { L.history part.new ≡ L.history part.old }
    ensures room { Keeps (L.room part.old) (L.room part.new) }
    ensures same_room { L.room part.new ≡ L.room part.old }
    ensures cause { HasCause (L.fault_count part.old) (L.fault_count part.new) result }
    ensures device { L.device part.new ≡ L.device part.old }
{
    let size = into.len();
    for k in 0..size.div_ceil(64) {
        let line = load_line(part, 1 + k as u64)?;
        let end = size.min(64 * k + 64);
        into[64 * k..end].copy_from_slice(&line[..end - 64 * k]);
    }
    Ok(())
}

// The bytes of a line.
fn load_line<L: Lines>(part: &mut L, line: u64) -> Result<[u8; 64], RegionFault>
    requires { line < (L.room part.old).lines }
    ensures bytes { IfOk result (λ bytes. Tells (L.history part.old) (λ now. bytes ≡ line_bytes (part_word now line))) }
    ensures history { L.history part.new ≡ L.history part.old }
    ensures room { Keeps (L.room part.old) (L.room part.new) }
    ensures same_room { L.room part.new ≡ L.room part.old }
    ensures cause { HasCause (L.fault_count part.old) (L.fault_count part.new) result }
    ensures device { L.device part.new ≡ L.device part.old }
{
    let mut bytes = [0; 64];
    for word in 0..8 {
        let value = load(part, line, word as u64)?;
        bytes[8 * word..8 * word + 8].copy_from_slice(&value.to_le_bytes());
    }
    Ok(bytes)
}
