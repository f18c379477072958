//! The writing of a name's record.
ghost use Rattle.std.specs.Prelude.{◌≡◌, ℕ, ◌+◌, ◌*◌, ◌<◌, ◌≤◌, [], ◌∷◌, ◌++◌, length, take, drop, OnOk};
ghost use Rattle.nv_plain.specs.Faults.{HasCause};
ghost use Rattle.nv_plain.specs.Layouts.{layout_of, version_2};
ghost use Rattle.nv_pmem.specs.Room.{Takes};
ghost use Rattle.nv_pmem.specs.Steps.{Flush, DidLineStep, DidSome, line_stores};
ghost use Rattle.nv_header.specs.Heads.{record_line as line_of_record};
ghost use Rattle.nv_header.specs.HeaderSteps.{name_record, record_lines_steps};
ghost use Rattle.nv_header.specs.Noted.{NotesLines};

use crate::record::record_line;
use nv_plain::limits::{LONGEST_NAME, Version};
use nv_pmem::{Lines, RegionFault};

/// Bytes of the longest record: a length, and the longest name.
const LONGEST_RECORD: usize = 8 + LONGEST_NAME as usize;

/// Writes a name's record: each of its lines is stored and flushed. No fence is made, so nothing is durable yet.
pub(crate) fn write_record<L: Lines>(
    header: &mut L,
    version: Version,
    index: u64,
    name: &[u8],
) -> Result<(), RegionFault>
    requires lines { (layout_of version).header_lines ≤ (L.room header.old).lines }
    requires spare { (line : ℕ) → line_of_record (layout_of version) index ≤ line → line < (layout_of version).header_lines
        → 15 ≤ (L.room header.old).spare line }
    requires index { index < (layout_of version).file_limit }
    requires size { length name.now ≤ (layout_of version).name_limit }
    ensures begun { DidSome (record_lines_steps (layout_of version) index name.now) (L.history header.old) (L.history header.new) }
    ensures done { OnOk result (DidLineStep (record_lines_steps (layout_of version) index name.now) (L.history header.old) (L.history header.new)) }
    ensures room { OnOk result (NotesLines (line_of_record (layout_of version) (index + 1)) (L.room header.old) (L.room header.new)) }
    ensures lines { (L.room header.new).lines ≡ (L.room header.old).lines }
    ensures cause { HasCause (L.fault_count header.old) (L.fault_count header.new) result }
    ensures device { L.device header.new ≡ L.device header.old }
{
    let first = record_line(version, index);
    let record = record_of(name);
    for k in 0..version.lines_per_name() {
        let part = record_part(&record, k as usize);
        write_line(header, first + k, &part)?;
    }
    Ok(())
}

// A line, stored and flushed.
fn write_line<L: Lines>(header: &mut L, line: u64, bytes: &[u8; 64]) -> Result<(), RegionFault>
    requires line { line < (L.room header.old).lines }
    requires spare { 1 ≤ (L.room header.old).spare line }
    ensures begun { DidSome (line_stores line bytes.now ++ Flush line ∷ []) (L.history header.old) (L.history header.new) }
    ensures done { OnOk result (DidLineStep (line_stores line bytes.now ++ Flush line ∷ []) (L.history header.old) (L.history header.new)) }
    ensures room { Takes 1 line (L.room header.old) (L.room header.new) }
    ensures flushed { OnOk result (15 ≤ (L.room header.new).after_fence line) }
    ensures cause { HasCause (L.fault_count header.old) (L.fault_count header.new) result }
    ensures device { L.device header.new ≡ L.device header.old }
{
    header.store_line(line, bytes)?;
    header.flush(line)?;
    Ok(())
}

// A name's record as the longest one is: its length, its bytes, and zeros.
fn record_of(name: &[u8]) -> [u8; LONGEST_RECORD]
    requires { length name.now ≤ version_2.name_limit }
    ensures { result ≡ name_record version_2 name.now }
{
    let mut record = [0; LONGEST_RECORD];
    record[..8].copy_from_slice(&(name.len() as u64).to_le_bytes());
    record[8..8 + name.len()].copy_from_slice(name);
    record
}

// Line k of a record.
fn record_part(bytes: &[u8; LONGEST_RECORD], k: usize) -> [u8; 64]
    requires { k < version_2.lines_per_name }
    ensures { result ≡ take 64 (drop (64 * k) bytes.now) }
{
    let mut part = [0; 64];
    part.copy_from_slice(&bytes[64 * k..64 * k + 64]);
    part
}
