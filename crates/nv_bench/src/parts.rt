//! The parts of a region in memory.
ghost use Rattle.std.specs.Prelude.{◌≡◌, ◌+◌, ◌%◌, [], length, map, max, slice_index_or, sum_by, All, IfOk, OnOk, OnErr};
ghost use Rattle.nv_plain.specs.Faults.{saturated};
ghost use Rattle.nv_plain.specs.Layouts.{mount_layout};
ghost use Rattle.nv_pmem.specs.Made.{part_in, resized};
ghost use Rattle.nv_pmem.specs.MemPart.{IsNewPart, part_now, part_faults};
ghost use Rattle.nv_bench.specs.Opening.{is_blank, is_of_version_1, lengthened, opened, sized};
ghost use Rattle.nv_bench.specs.Powered.{powered_parts};

use nv_plain::NoMemory;
use nv_plain::limits::{HEADER_LINES, Version};
use nv_pmem::{Fuse, Geometry, Lines, MemPart, Picker};
use std::alloc::Global;

/// What the header of a region begins with: `NVCACHE1`, as a little-endian word.
pub(crate) const MAGIC: u64 = 0x3145_4843_4143_564e;

/// Whether the parts of a region are blank.
pub(crate) fn are_blank(parts: &[MemPart]) -> bool
    ensures { result ≡ is_blank (map part_now parts.now) }
{
    match parts.first() {
        None => true,
        Some(header) if header.lines() == 0 => true,
        Some(header) => header.peek(0, 0) == 0,
    }
}

/// Whether the parts are those of a region of version 1, as far as its magic, its version and the header's lines tell.
pub(crate) fn are_of_version_1(parts: &[MemPart]) -> bool
    ensures { result ≡ is_of_version_1 (map part_now parts.now) }
{
    match parts.first() {
        Some(header) if header.lines() >= Version::One.header_lines() => {
            header.peek(0, 0) == MAGIC && header.peek(0, 1) == Version::One.number()
        }
        _ => false,
    }
}

/// Parts that hold these bytes.
pub(crate) fn parts_of(
    alloc: Global,
    fuse: &Fuse,
    parts: &[&[u8]],
) -> Result<Vec<MemPart>, NoMemory>
    requires { All (λ bytes. length bytes.now % 64 ≡ 0) parts.now }
    ensures made { IfOk result (λ made. map part_now made.items ≡ map (λ bytes. part_in bytes.now) parts.now) }
    ensures faults { IfOk result (λ made. sum_by part_faults made.items ≡ 0) }
{
    let mut made = Vec::new(alloc);
    for bytes in parts {
        made.push(MemPart::of(alloc, bytes, Some(fuse.copy()?))?)?;
    }
    Ok(made)
}

/// Makes the parts of a region those of the geometry that is wanted, where they are blank, and the header of version 1 as long
/// as a mount's. What the former ones failed is counted as gone.
pub(crate) fn make_wanted(
    alloc: Global,
    fuse: &Fuse,
    want: Option<Geometry>,
    parts: &mut Vec<MemPart>,
    gone: &mut u64,
) -> Result<(), NoMemory>
    ensures parts { OnOk result (map part_now parts.new.items ≡ opened want (map part_now parts.old.items)) }
    ensures faults { OnOk result (saturated (gone.new + sum_by part_faults parts.new.items)
        ≡ saturated (gone.old + sum_by part_faults parts.old.items)) }
    ensures kept { OnErr result (parts.new ≡ parts.old) }
    ensures kept_count { OnErr result (gone.new ≡ gone.old) }
{
    let Some(geometry) = want else {
        return Ok(());
    };
    if are_blank(parts) {
        let made = sized_parts(alloc, fuse, geometry, parts)?;
        *gone = gone.saturating_add(faults_of_parts(parts));
        *parts = made;
    } else if are_of_version_1(parts) {
        let header = longer(alloc, fuse, &parts[0])?;
        *gone = gone.saturating_add(parts[0].faults());
        parts[0] = header;
    }
    Ok(())
}

// A copy of a header, with lines of zeros behind its own where it has fewer than that of a mount.
fn longer(alloc: Global, fuse: &Fuse, header: &MemPart) -> Result<MemPart, NoMemory>
    ensures { IfOk result (IsNewPart (resized (max mount_layout.header_lines (length (part_now header.now))) (part_now header.now))) }
{
    header.resized(alloc, header.lines().max(HEADER_LINES), Some(fuse.copy()?))
}

/// Copies of the parts, with the sizes of a geometry: lines and parts that are missing are zeros.
pub(crate) fn sized_parts(
    alloc: Global,
    fuse: &Fuse,
    geometry: Geometry,
    parts: &[MemPart],
) -> Result<Vec<MemPart>, NoMemory>
    ensures made { IfOk result (λ made. map part_now made.items ≡ sized mount_layout geometry (map part_now parts.now)) }
    ensures faults { IfOk result (λ made. sum_by part_faults made.items ≡ 0) }
{
    let mut made = Vec::new(alloc);
    made.push(sized_part(alloc, fuse, parts, 0, HEADER_LINES)?)?;
    for i in 0..geometry.entries {
        let entry = sized_part(alloc, fuse, parts, 1 + i, 1 + geometry.page / 64)?;
        made.push(entry)?;
    }
    Ok(made)
}

// A copy of one of the parts, of so many lines.
fn sized_part(
    alloc: Global,
    fuse: &Fuse,
    parts: &[MemPart],
    i: u64,
    lines: u64,
) -> Result<MemPart, NoMemory>
    ensures { IfOk result (IsNewPart (resized lines (slice_index_or (map part_now parts.now) i []))) }
{
    let fuse = fuse.copy()?;
    match parts.get(i as usize) {
        Some(part) => part.resized(alloc, lines, Some(fuse)),
        None => MemPart::fused(alloc, lines, fuse),
    }
}

/// The parts lose power, one after another.
pub(crate) fn power_parts(parts: &mut [MemPart], picker: &mut Picker)
    ensures parts { map part_now parts.new ≡ (powered_parts picker.old (map part_now parts.old)).0 }
    ensures draws { picker.new ≡ (powered_parts picker.old (map part_now parts.old)).1 }
    ensures faults { map part_faults parts.new ≡ map part_faults parts.old }
{
    for part in parts {
        part.image(picker);
    }
}

/// How often the parts have failed.
pub(crate) fn faults_of_parts(parts: &[MemPart]) -> u64
    ensures { result ≡ saturated (sum_by part_faults parts.now) }
{
    let mut faults: u64 = 0;
    for part in parts {
        faults = faults.saturating_add(part.faults());
    }
    faults
}
