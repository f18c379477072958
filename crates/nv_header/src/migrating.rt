//! A region of version 1 becomes one of version 2.
ghost use Rattle.std.specs.Prelude.{◌≡◌, ℕ, ◌<◌, length, slice_index_or, map, sum_by, Ok, IfOk, OnOk};
ghost use Rattle.nv_plain.specs.Faults.{HasCause};
ghost use Rattle.nv_plain.specs.Layouts.{layout_of, version_2};
ghost use Rattle.nv_plain.specs.declared.limits.Version.TheVariants.{Two};
ghost use Rattle.nv_pmem.specs.Rows.{on_part, DidRow, DidSomeRow};
ghost use Rattle.nv_pmem.specs.Room.{Room};
ghost use Rattle.nv_pmem.specs.Steps.{DidLineStep, DidSome};
ghost use Rattle.nv_header.specs.Changes.{AreChangedBy, parts_after_format};
ghost use Rattle.nv_header.specs.FileNames.{AreFileNames};
ghost use Rattle.nv_header.specs.HeaderSteps.{records_lines_steps, records_steps, version_2_steps, migrate_steps};
ghost use Rattle.nv_header.specs.Heads.{record_line};
ghost use Rattle.nv_header.specs.Migrations.{HasEmptyLogInEither};
ghost use Rattle.nv_header.specs.Noted.{NotesLines};
ghost use Rattle.nv_header.specs.Regions.{HasParts, IsRoomy, StaysRoomy};

use crate::writing::write_record;
use crate::{Names, Region};
use nv_plain::limits::Version;
use nv_pmem::{Lines, RegionFault, store_durably};

/// Makes a region one of version 2, where its part 0 has the lines for that: with its names, its sizes, its next number and
/// an empty log, as before. At each moment every image is one of that region in version 1 or in version 2, and at `Ok` in
/// version 2. A region of version 2 comes back at once. After a fault the parts come back, in their order. Takes no memory.
pub fn migrate<L: Lines + Drop>(region: Region<L>) -> Result<Region<L>, (Vec<L>, RegionFault)>
    requires header { (none : Room) → IsRoomy version_2.header_lines (slice_index_or (map L.room region.parts.items) 0 none) }

    // Whichever answer came: the stores, flushes and fences are the first so many of these, and all of them at `Ok`. A load
    // is in no history: a test counts all calls.
    ensures changed { AreChangedBy L.history L.room L.device (on_part 0 (migrate_steps region.version region.names))
        (HasEmptyLogInEither region.geometry.page region.geometry.entries region.names region.next)
        region.parts.items (parts_after_format result) }
    ensures done { IfOk result (λ migrated. DidRow (on_part 0 (migrate_steps region.version region.names))
        (map L.history region.parts.items) (map L.history migrated.parts.items)) }
    ensures cause { HasCause (sum_by L.fault_count region.parts.items) (sum_by L.fault_count (parts_after_format result)) result }
    ensures at_once { region.version ≡ Two → result ≡ Ok region }

    // And so every image is that of version 2, as it is of each region that is.
    ensures version { IfOk result (λ migrated. migrated.version ≡ Two) }
    ensures geometry { IfOk result (λ migrated. migrated.geometry ≡ region.geometry) }
    ensures names { IfOk result (λ migrated. migrated.names ≡ region.names) }
    ensures next { IfOk result (λ migrated. migrated.next ≡ region.next) }
{
    match region.version {
        Version::Two => Ok(region),
        Version::One => {
            let Region {
                mut parts,
                version: _,
                geometry,
                names,
                next,
            } = region;
            match write_version_2(&mut parts, &names) {
                Ok(()) => Ok(Region {
                    parts,
                    version: Version::Two,
                    geometry,
                    names,
                    next,
                }),
                Err(fault) => Err((parts, fault)),
            }
        }
    }
}

// The names' records of version 2, and then the version, in the header of a region.
fn write_version_2<L: Lines>(parts: &mut [L], names: &Names) -> Result<(), RegionFault>
    requires header { 0 < length parts.old }
    requires room { (none : Room) → IsRoomy version_2.header_lines (slice_index_or (map L.room parts.old) 0 none) }
    requires names { AreFileNames version_2 names.now }
    ensures begun { DidSomeRow (on_part 0 (version_2_steps names.now)) (map L.history parts.old) (map L.history parts.new) }
    ensures done { OnOk result (DidRow (on_part 0 (version_2_steps names.now)) (map L.history parts.old) (map L.history parts.new)) }
    ensures parts { OnOk result ((page entries : ℕ) → HasParts version_2 page entries (map L.room parts.old)
        → HasParts version_2 page entries (map L.room parts.new)) }
    ensures lines { map (λ part. (L.room part).lines) parts.new ≡ map (λ part. (L.room part).lines) parts.old }
    ensures cause { HasCause (sum_by L.fault_count parts.old) (sum_by L.fault_count parts.new) result }
    ensures devices { map L.device parts.new ≡ map L.device parts.old }
{
    store_version_2(&mut parts[0], names)
}

fn store_version_2<L: Lines>(header: &mut L, names: &Names) -> Result<(), RegionFault>
    requires room { IsRoomy version_2.header_lines (L.room header.old) }
    requires names { AreFileNames version_2 names.now }
    ensures begun { DidSome (version_2_steps names.now) (L.history header.old) (L.history header.new) }
    ensures done { OnOk result (DidLineStep (version_2_steps names.now) (L.history header.old) (L.history header.new)) }
    ensures room { OnOk result (StaysRoomy (L.room header.old) (L.room header.new)) }
    ensures lines { (L.room header.new).lines ≡ (L.room header.old).lines }
    ensures cause { HasCause (L.fault_count header.old) (L.fault_count header.new) result }
    ensures device { L.device header.new ≡ L.device header.old }
{
    store_records(header, names)?;
    store_durably(header, 0, 1, Version::Two.number())?;
    Ok(())
}

// The names' records of version 2, durable at `Ok`.
fn store_records<L: Lines>(header: &mut L, names: &Names) -> Result<(), RegionFault>
    requires room { IsRoomy version_2.header_lines (L.room header.old) }
    requires names { AreFileNames version_2 names.now }
    ensures begun { DidSome (records_steps version_2 names.now) (L.history header.old) (L.history header.new) }
    ensures done { OnOk result (DidLineStep (records_steps version_2 names.now) (L.history header.old) (L.history header.new)) }
    ensures room { OnOk result (StaysRoomy (L.room header.old) (L.room header.new)) }
    ensures lines { (L.room header.new).lines ≡ (L.room header.old).lines }
    ensures cause { HasCause (L.fault_count header.old) (L.fault_count header.new) result }
    ensures device { L.device header.new ≡ L.device header.old }
{
    write_records(header, names)?;
    header.fence()?;
    Ok(())
}

// Writes the names' records of version 2. No fence is made, so nothing is durable yet.
fn write_records<L: Lines>(header: &mut L, names: &Names) -> Result<(), RegionFault>
    requires room { IsRoomy version_2.header_lines (L.room header.old) }
    requires names { AreFileNames version_2 names.now }
    ensures begun { DidSome (records_lines_steps version_2 names.now) (L.history header.old) (L.history header.new) }
    ensures done { OnOk result (DidLineStep (records_lines_steps version_2 names.now) (L.history header.old) (L.history header.new)) }
    ensures room { OnOk result (NotesLines (record_line version_2 (length names.now)) (L.room header.old) (L.room header.new)) }
    ensures lines { (L.room header.new).lines ≡ (L.room header.old).lines }
    ensures cause { HasCause (L.fault_count header.old) (L.fault_count header.new) result }
    ensures device { L.device header.new ≡ L.device header.old }
{
    let names = names.as_slice();
    for index in 0..names.len() {
        write_record(header, Version::Two, index as u64, names[index].as_slice())?;
    }
    Ok(())
}
