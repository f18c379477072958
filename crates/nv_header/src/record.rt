//! A name's record in the header.
ghost use Rattle.std.specs.Prelude.{◌≡◌, ◌≤◌, ◌<◌, ◌==◌, take, true, false, IfOk, IfNone, IfSome};
ghost use Rattle.std.specs.List.{list_all};
ghost use Rattle.nv_plain.specs.Faults.{HasCause};
ghost use Rattle.nv_plain.specs.Layouts.{layout_of};
ghost use Rattle.nv_pmem.specs.Moments.{Tells};
ghost use Rattle.nv_pmem.specs.Room.{Keeps};
ghost use Rattle.nv_header.specs.Heads.{record_line as line_of_record, header_image, length_of, room_of_name, is_record};

use nv_plain::is_file_name;
use nv_plain::limits::{LONGEST_NAME, Version};
use nv_pmem::{Lines, RegionFault};

/// The line of name i's record.
pub(crate) fn record_line(version: Version, i: u64) -> u64
    requires { i < (layout_of version).file_limit }
    ensures { result ≡ line_of_record (layout_of version) i }
{
    version.name_line() + i * version.lines_per_name()
}

/// A name's record: its length, and the bytes that have room for it.
#[derive(Clone, Copy)]
pub(crate) struct Record {
    length: u64,
    room: [u8; LONGEST_NAME as usize],
}

impl Record {
    /// The record of name i.
    pub(crate) fn load<L: Lines>(
        part: &mut L,
        version: Version,
        i: u64,
    ) -> Result<Self, RegionFault>
        requires lines { (layout_of version).header_lines ≤ (L.room part.old).lines }
        requires index { i < (layout_of version).file_limit }
        ensures length { IfOk result (λ loaded. Tells (L.history part.old) (λ now.
            loaded.length ≡ length_of (layout_of version) (header_image now) i)) }
        ensures bytes { IfOk result (λ loaded. Tells (L.history part.old) (λ now.
            take (layout_of version).name_limit loaded.room ≡ room_of_name (layout_of version) (header_image now) i)) }
        ensures history { L.history part.new ≡ L.history part.old }
        ensures room { Keeps (L.room part.old) (L.room part.new) }
        ensures cause { HasCause (L.fault_count part.old) (L.fault_count part.new) result }
        ensures device { L.device part.new ≡ L.device part.old }
    {
        let first = record_line(version, i);
        let length = part.load(first, 0)?;
        let mut room = [0; LONGEST_NAME as usize];
        for k in 0..version.name_limit() as usize / 8 {
            let at = 1 + k as u64;
            let value = part.load(first + at / 8, at % 8)?;
            room[8 * k..8 * k + 8].copy_from_slice(&value.to_le_bytes());
        }
        Ok(Record { length, room })
    }

    /// The name, or none where the record breaks a rule: the length is out of its limits, a byte isn't allowed, or the
    /// padding isn't zeros.
    pub(crate) fn name(&self, version: Version) -> Option<&[u8]>
        ensures good { IfSome result (λ name. is_record (layout_of version).name_limit self.now.length
            (take (layout_of version).name_limit self.now.room) ≡ true) }
        ensures name { IfSome result (λ name. name.now ≡ take self.now.length (take (layout_of version).name_limit self.now.room)) }
        ensures bad { IfNone result (is_record (layout_of version).name_limit self.now.length
            (take (layout_of version).name_limit self.now.room) ≡ false) }
    {
        let limit = version.name_limit();
        if self.length > limit {
            return None;
        }
        let (name, padding) = self.room[..limit as usize].split_at(self.length as usize);
        if is_file_name(name, limit) && is_zeros(padding) {
            Some(name)
        } else {
            None
        }
    }
}

fn is_zeros(bytes: &[u8]) -> bool
    ensures { result ≡ list_all (λ byte. byte == 0) bytes.now }
{
    bytes.iter().all(|byte| *byte == 0)
}
