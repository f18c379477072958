//! What tests of regions and logs begin with: the parts of a blank region.
ghost use Rattle.std.specs.Prelude.{map, IfOk};
ghost use Rattle.nv_plain.specs.Layouts.{layout_of};
ghost use Rattle.nv_pmem.specs.MemPart.{part_history, part_room};
ghost use Rattle.nv_pmem.specs.Rows.{RowTells};
ghost use Rattle.nv_header.specs.Regions.{HasParts, IsBlankRow};

use nv_plain::NoMemory;
use nv_plain::limits::Version;
use nv_pmem::{Fuse, Geometry, MemPart};
use std::alloc::Global;

// The parts of a blank region of this version, and behind them parts of so many lines. Their calls fail as the fuse says.
pub(crate) fn blank_parts(
    alloc: Global,
    version: Version,
    geometry: Geometry,
    fuse: &Fuse,
    more: &[u64],
) -> Result<Vec<MemPart>, NoMemory>
    ensures parts { IfOk result (λ parts. HasParts (layout_of version) geometry.page geometry.entries (map part_room parts.items)) }
    ensures blank { IfOk result (λ parts. RowTells (map part_history parts.items) IsBlankRow) }
{
    let mut parts = Vec::new(alloc);
    parts.push(MemPart::fused(alloc, version.header_lines(), fuse.copy()?)?)?;
    for _entry in 0..geometry.entries {
        parts.push(MemPart::fused(alloc, 1 + geometry.page / 64, fuse.copy()?)?)?;
    }
    for lines in more {
        parts.push(MemPart::fused(alloc, *lines, fuse.copy()?)?)?;
    }
    Ok(parts)
}
