//! Names are added to a region's header.
ghost use Rattle.std.specs.Prelude.{◌≡◌, ℕ, ◌<◌, ◌≤◌, [], ◌∷◌, ◌++◌, length, slice_index_or, map, sum_by, IfOk, IfErr, OnOk};
ghost use Rattle.nv_plain.specs.Faults.{HasCause};
ghost use Rattle.nv_plain.specs.Layouts.{layout_of};
ghost use Rattle.nv_pmem.specs.Rows.{on_part, DidRow, DidSomeRow};
ghost use Rattle.nv_pmem.specs.Steps.{DidLineStep, DidSome};
ghost use Rattle.nv_pmem.specs.Room.{Room};
ghost use Rattle.nv_header.specs.Additions.{CanAdd, IsNotAdded, IsUnwritten, AddHasCause, HasNamesOrOneMore};
ghost use Rattle.nv_header.specs.Changes.{AreChangedBy, parts_after_adding};
ghost use Rattle.nv_header.specs.HeaderSteps.{record_steps, add_file_steps};
ghost use Rattle.nv_header.specs.Regions.{HasParts, IsRoomy, StaysRoomy};

use crate::writing::write_record;
use crate::{Names, Region};
use nv_plain::limits::Version;
use nv_plain::{Bytes, NoMemory, is_file_name};
use nv_pmem::{Lines, RegionFault, store_durably};
use std::alloc::Global;
use thiserror::Error;

/// Why a name isn't added to a region, in the order of the tests.
#[derive(Clone, Copy, Debug, PartialEq, Eq, Error)]
pub enum AddError {
    /// The region has as many names as its version allows.
    #[error("too many files")]
    TooManyFiles,
    /// The name that would have this index isn't allowed, or the region has it already.
    #[error("bad name {index}")]
    BadName { index: u64 },
    /// There was not enough memory for the name.
    #[error("no memory")]
    NoMemory,
    /// The header's part failed, and its count of faults rose.
    #[error("a part of the region failed")]
    RegionFault,
}

/// Adds a name behind those of the region, and says its index. At each moment every image has the names, or this one
/// more. Where the name isn't added the parts come back, in their order: nothing is written unless the header's part
/// failed, and then the name is there or not.
pub fn add_file<L: Lines + Drop>(
    alloc: Global,
    region: Region<L>,
    name: &[u8],
) -> Result<(Region<L>, u64), (Vec<L>, AddError)>
    ensures added { IfOk result (λ added. CanAdd (layout_of region.version) region.names name.now) }
    ensures refused { IfErr result (λ failed. IsNotAdded (layout_of region.version) region.names name.now failed.1) }
    ensures unwritten { IfErr result (λ failed. IsUnwritten failed.1 → failed.0 ≡ region.parts) }

    // Whichever answer came: the stores, flushes and fences are the first so many of these, and all of them at `Ok`. A load
    // is in no history: a test counts all calls.
    ensures changed { AreChangedBy L.history L.room L.device
        (on_part 0 (add_file_steps (layout_of region.version) (length region.names) name.now))
        (HasNamesOrOneMore (layout_of region.version) region.geometry.page region.geometry.entries region.names name.now region.next)
        region.parts.items (parts_after_adding result) }
    ensures done { IfOk result (λ added. DidRow (on_part 0 (add_file_steps (layout_of region.version) (length region.names) name.now))
        (map L.history region.parts.items) (map L.history added.0.parts.items)) }
    ensures cause { AddHasCause (sum_by L.fault_count region.parts.items) (sum_by L.fault_count (parts_after_adding result)) result }

    ensures index { IfOk result (λ added. added.1 ≡ length region.names) }
    ensures names { IfOk result (λ added. added.0.names ≡ region.names ++ name.now ∷ []) }
    ensures version { IfOk result (λ added. added.0.version ≡ region.version) }
    ensures geometry { IfOk result (λ added. added.0.geometry ≡ region.geometry) }
    ensures next { IfOk result (λ added. added.0.next ≡ region.next) }
{
    let Region {
        mut parts,
        version,
        geometry,
        names,
        next,
    } = region;
    let index = names.len() as u64;
    let names = match with_name(alloc, version, names, name) {
        Ok(names) => names,
        Err(error) => return Err((parts, error)),
    };
    match write_name(&mut parts, version, index, name) {
        Ok(()) => {
            let region = Region {
                parts,
                version,
                geometry,
                names,
                next,
            };
            Ok((region, index))
        }
        Err(RegionFault) => Err((parts, AddError::RegionFault)),
    }
}

// The names and this one behind them, where it may stand there.
fn with_name(alloc: Global, version: Version, names: Names, name: &[u8]) -> Result<Names, AddError>
    ensures added { IfOk result (λ all. CanAdd (layout_of version) names name.now) }
    ensures names { IfOk result (λ all. all ≡ names ++ name.now ∷ []) }
    ensures refused { IfErr result (IsNotAdded (layout_of version) names name.now) }
    ensures unwritten { IfErr result IsUnwritten }
{
    let mut names = names;
    if names.len() as u64 >= version.file_limit() {
        return Err(AddError::TooManyFiles);
    }
    if !is_file_name(name, version.name_limit()) || names.contains(name) {
        return Err(AddError::BadName {
            index: names.len() as u64,
        });
    }
    match push_name(alloc, &mut names, name) {
        Ok(()) => Ok(names),
        Err(NoMemory) => Err(AddError::NoMemory),
    }
}

fn push_name(alloc: Global, names: &mut Names, name: &[u8]) -> Result<(), NoMemory>
    ensures { OnOk result (names.new ≡ names.old ++ name.now ∷ []) }
{
    let bytes = Vec::from_slice(alloc, name)?;
    names.push(Bytes::from_vec(bytes))
}

// The record of a name, and then the count of the names, in the header of a region.
fn write_name<L: Lines>(
    parts: &mut [L],
    version: Version,
    index: u64,
    name: &[u8],
) -> Result<(), RegionFault>
    requires header { 0 < length parts.old }
    requires room { (none : Room) → IsRoomy (layout_of version).header_lines (slice_index_or (map L.room parts.old) 0 none) }
    requires index { index < (layout_of version).file_limit }
    requires size { length name.now ≤ (layout_of version).name_limit }
    ensures begun { DidSomeRow (on_part 0 (add_file_steps (layout_of version) index name.now)) (map L.history parts.old) (map L.history parts.new) }
    ensures done { OnOk result (DidRow (on_part 0 (add_file_steps (layout_of version) index name.now)) (map L.history parts.old) (map L.history parts.new)) }
    ensures parts { OnOk result ((page entries : ℕ) → HasParts (layout_of version) page entries (map L.room parts.old)
        → HasParts (layout_of version) page entries (map L.room parts.new)) }
    ensures lines { map (λ part. (L.room part).lines) parts.new ≡ map (λ part. (L.room part).lines) parts.old }
    ensures cause { HasCause (sum_by L.fault_count parts.old) (sum_by L.fault_count parts.new) result }
    ensures devices { map L.device parts.new ≡ map L.device parts.old }
{
    store_name(&mut parts[0], version, index, name)
}

fn store_name<L: Lines>(
    header: &mut L,
    version: Version,
    index: u64,
    name: &[u8],
) -> Result<(), RegionFault>
    requires room { IsRoomy (layout_of version).header_lines (L.room header.old) }
    requires index { index < (layout_of version).file_limit }
    requires size { length name.now ≤ (layout_of version).name_limit }
    ensures begun { DidSome (add_file_steps (layout_of version) index name.now) (L.history header.old) (L.history header.new) }
    ensures done { OnOk result (DidLineStep (add_file_steps (layout_of version) index name.now) (L.history header.old) (L.history header.new)) }
    ensures room { OnOk result (StaysRoomy (L.room header.old) (L.room header.new)) }
    ensures lines { (L.room header.new).lines ≡ (L.room header.old).lines }
    ensures cause { HasCause (L.fault_count header.old) (L.fault_count header.new) result }
    ensures device { L.device header.new ≡ L.device header.old }
{
    store_record(header, version, index, name)?;
    store_durably(header, 0, 4, index + 1)?;
    Ok(())
}

// A name's record, durable at `Ok`.
fn store_record<L: Lines>(
    header: &mut L,
    version: Version,
    index: u64,
    name: &[u8],
) -> Result<(), RegionFault>
    requires room { IsRoomy (layout_of version).header_lines (L.room header.old) }
    requires index { index < (layout_of version).file_limit }
    requires size { length name.now ≤ (layout_of version).name_limit }
    ensures begun { DidSome (record_steps (layout_of version) index name.now) (L.history header.old) (L.history header.new) }
    ensures done { OnOk result (DidLineStep (record_steps (layout_of version) index name.now) (L.history header.old) (L.history header.new)) }
    ensures room { OnOk result (StaysRoomy (L.room header.old) (L.room header.new)) }
    ensures lines { (L.room header.new).lines ≡ (L.room header.old).lines }
    ensures cause { HasCause (L.fault_count header.old) (L.fault_count header.new) result }
    ensures device { L.device header.new ≡ L.device header.old }
{
    write_record(header, version, index, name)?;
    header.fence()?;
    Ok(())
}
