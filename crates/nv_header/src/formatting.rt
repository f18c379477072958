//! The formatting of a blank region.
ghost use Rattle.std.specs.Prelude.{◌≡◌, ◌<◌, ◌≤◌, [], map, sum_by, IfOk, OnOk};
ghost use Rattle.nv_plain.specs.Faults.{HasCause};
ghost use Rattle.nv_plain.specs.Layouts.{layout_of};
ghost use Rattle.nv_pmem.specs.Rows.{DidRow, DidSomeRow, RowTells};
ghost use Rattle.nv_pmem.specs.Steps.{DidLineStep, DidSome};
ghost use Rattle.nv_header.specs.HeaderSteps.{clear_steps, field_steps, blank_header_steps, format_steps};
ghost use Rattle.nv_header.specs.Changes.{AreChangedBy, parts_after_format};
ghost use Rattle.nv_header.specs.Regions.{HasParts, IsRoomy, IsBlankRow, IsBlankOrFormatted, StaysRoomy};

use crate::head::MAGIC;
use crate::{Names, Region};
use nv_plain::limits::Version;
use nv_pmem::{Geometry, Lines, RegionFault, store_durably};

/// Formats a blank region that has the parts of this version and geometry: with no file, tail 0 and an empty log. There may be
/// further parts, which belong to no slot and stay as they are. At each moment every image is blank, or is formatted so.
/// After a fault the parts come back, in their order. Takes no memory.
pub fn format<L: Lines + Drop>(
    parts: Vec<L>,
    version: Version,
    geometry: Geometry,
) -> Result<Region<L>, (Vec<L>, RegionFault)>
    requires parts { HasParts (layout_of version) geometry.page geometry.entries (map L.room parts.items) }
    requires blank { RowTells (map L.history parts.items) IsBlankRow }

    // Whichever answer came: the stores, flushes and fences are the first so many of these, and all of them at `Ok`. A load
    // is in no history: a test counts all calls.
    ensures changed { AreChangedBy L.history L.room L.device (format_steps (layout_of version) geometry.page geometry.entries)
        (IsBlankOrFormatted (layout_of version) geometry.page geometry.entries) parts.items (parts_after_format result) }
    ensures done { IfOk result (λ region. DidRow (format_steps (layout_of version) geometry.page geometry.entries)
        (map L.history parts.items) (map L.history region.parts.items)) }
    ensures cause { HasCause (sum_by L.fault_count parts.items) (sum_by L.fault_count (parts_after_format result)) result }

    ensures version { IfOk result (λ region. region.version ≡ version) }
    ensures geometry { IfOk result (λ region. region.geometry ≡ geometry) }
    ensures names { IfOk result (λ region. region.names ≡ []) }
    ensures next { IfOk result (λ region. region.next ≡ 0) }
{
    let mut parts = parts;
    match write_region(&mut parts, version, geometry) {
        Ok(()) => {
            let names = Names::new(*parts.allocator());
            Ok(Region {
                parts,
                version,
                geometry,
                names,
                next: 0,
            })
        }
        Err(fault) => Err((parts, fault)),
    }
}

// The entries are cleared, and then the header is written. A slice can't grow, so this takes no memory.
fn write_region<L: Lines>(
    parts: &mut [L],
    version: Version,
    geometry: Geometry,
) -> Result<(), RegionFault>
    requires parts { HasParts (layout_of version) geometry.page geometry.entries (map L.room parts.old) }
    ensures begun { DidSomeRow (format_steps (layout_of version) geometry.page geometry.entries) (map L.history parts.old) (map L.history parts.new) }
    ensures done { OnOk result (DidRow (format_steps (layout_of version) geometry.page geometry.entries) (map L.history parts.old) (map L.history parts.new)) }
    ensures parts { OnOk result (HasParts (layout_of version) geometry.page geometry.entries (map L.room parts.new)) }
    ensures lines { map (λ part. (L.room part).lines) parts.new ≡ map (λ part. (L.room part).lines) parts.old }
    ensures cause { HasCause (sum_by L.fault_count parts.old) (sum_by L.fault_count parts.new) result }
    ensures devices { map L.device parts.new ≡ map L.device parts.old }
{
    clear_commit_words(parts, version, geometry)?;
    write_header(&mut parts[0], version, geometry)
}

// The commit word of each entry, cleared and durable.
fn clear_commit_words<L: Lines>(
    parts: &mut [L],
    version: Version,
    geometry: Geometry,
) -> Result<(), RegionFault>
    requires parts { HasParts (layout_of version) geometry.page geometry.entries (map L.room parts.old) }
    ensures begun { DidSomeRow (clear_steps geometry.entries) (map L.history parts.old) (map L.history parts.new) }
    ensures done { OnOk result (DidRow (clear_steps geometry.entries) (map L.history parts.old) (map L.history parts.new)) }
    ensures parts { OnOk result (HasParts (layout_of version) geometry.page geometry.entries (map L.room parts.new)) }
    ensures lines { map (λ part. (L.room part).lines) parts.new ≡ map (λ part. (L.room part).lines) parts.old }
    ensures cause { HasCause (sum_by L.fault_count parts.old) (sum_by L.fault_count parts.new) result }
    ensures devices { map L.device parts.new ≡ map L.device parts.old }
{
    for entry in 0..geometry.entries as usize {
        store_durably(&mut parts[1 + entry], 0, 0, 0)?;
    }
    Ok(())
}

// The header of a region with no file and tail 0: its fields, and then its magic.
fn write_header<L: Lines>(
    header: &mut L,
    version: Version,
    geometry: Geometry,
) -> Result<(), RegionFault>
    requires room { IsRoomy (layout_of version).header_lines (L.room header.old) }
    ensures begun { DidSome (blank_header_steps (layout_of version) geometry.page geometry.entries) (L.history header.old) (L.history header.new) }
    ensures done { OnOk result (DidLineStep (blank_header_steps (layout_of version) geometry.page geometry.entries) (L.history header.old) (L.history header.new)) }
    ensures room { OnOk result (StaysRoomy (L.room header.old) (L.room header.new)) }
    ensures lines { (L.room header.new).lines ≡ (L.room header.old).lines }
    ensures cause { HasCause (L.fault_count header.old) (L.fault_count header.new) result }
    ensures device { L.device header.new ≡ L.device header.old }
{
    write_fields(header, version, geometry)?;
    store_durably(header, 0, 0, MAGIC)?;
    Ok(())
}

// The fields of such a header but for the magic, durable at `Ok`.
fn write_fields<L: Lines>(
    header: &mut L,
    version: Version,
    geometry: Geometry,
) -> Result<(), RegionFault>
    requires room { IsRoomy (layout_of version).header_lines (L.room header.old) }
    ensures begun { DidSome (field_steps (layout_of version) geometry.page geometry.entries) (L.history header.old) (L.history header.new) }
    ensures done { OnOk result (DidLineStep (field_steps (layout_of version) geometry.page geometry.entries) (L.history header.old) (L.history header.new)) }
    ensures room { OnOk result (StaysRoomy (L.room header.old) (L.room header.new)) }
    ensures lines { (L.room header.new).lines ≡ (L.room header.old).lines }
    ensures cause { HasCause (L.fault_count header.old) (L.fault_count header.new) result }
    ensures device { L.device header.new ≡ L.device header.old }
{
    header.store(0, 1, version.number())?;
    header.store(0, 2, geometry.page)?;
    header.store(0, 3, geometry.entries)?;
    header.store(0, 4, 0)?;
    header.store(1, 0, 0)?;
    header.flush(0)?;
    header.flush(1)?;
    header.fence()?;
    Ok(())
}
