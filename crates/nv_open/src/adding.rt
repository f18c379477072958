//! The names that are wanted and not there are added.
ghost use Rattle.std.specs.Prelude.{◌≡◌, ◌+◌, ◌++◌, map, sum_by, Err, IfOk, IfErr};
ghost use Rattle.nv_plain.specs.Layouts.{mount_version, mount_layout};
ghost use Rattle.nv_pmem.specs.Rows.{InEachRowImage};
ghost use Rattle.nv_header.specs.FileNames.{AreFileNames};
ghost use Rattle.nv_header.specs.Changes.{parts_after_format};
ghost use Rattle.nv_recover.specs.Telling.{AllTell};
ghost use Rattle.nv_open.specs.Adding.{new_names};
ghost use Rattle.nv_open.specs.Causes.{RegionHasCause};
ghost use Rattle.nv_open.specs.Unopened.{HasFirstNames, HaveSameLines, TellRow};
ghost use Rattle.nv_open.specs.declared.error.OpenError.TheVariants as error;

use crate::OpenError;
use nv_header::{Names, Region, add_file};
use nv_plain::{Bytes, NoMemory};
use nv_pmem::{Lines, rows_have_states};
use std::alloc::Global;

/// Of the names that are wanted those that aren't known, in their order.
pub(crate) fn missing_names(alloc: Global, known: &Names, wanted: &Names) -> Result<Names, NoMemory>
    ensures { IfOk result (λ names. names ≡ new_names known.now wanted.now) }
{
    let mut missing = Names::new(alloc);
    for name in wanted.as_slice() {
        if !known.contains(name.as_slice()) {
            let bytes = Vec::from_slice(alloc, name.as_slice())?;
            missing.push(Bytes::from_vec(bytes))?;
        }
    }
    Ok(missing)
}

/// Adds names behind those of the region. Those that are there by then stay after an error.
pub(crate) fn add_names<L: Lines + Drop>(
    alloc: Global,
    region: Region<L>,
    names: &Names,
) -> Result<Region<L>, (Vec<L>, OpenError)>
    requires version { region.version ≡ mount_version }
    requires names { AreFileNames mount_layout (region.names ++ names.now) }
    ensures version { IfOk result (λ added. added.version ≡ mount_version) }
    ensures names { IfOk result (λ added. added.names ≡ region.names ++ names.now) }
    ensures geometry { IfOk result (λ added. added.geometry ≡ region.geometry) }
    ensures next { IfOk result (λ added. added.next ≡ region.next) }
    ensures lines { HaveSameLines (map L.history region.parts.items) (map L.history (parts_after_format result)) }
    ensures tell { AllTell (map L.history region.parts.items) → IfOk result (λ added. AllTell (map L.history added.parts.items)) }
    ensures never { (why : _) → IfErr result (λ failed. ¬ (failed.1 ≡ error.Refused why)) }
    ensures left { AllTell (map L.history region.parts.items) → IfErr result (λ failed.
        TellRow (InEachRowImage (HasFirstNames mount_version region.geometry.page region.geometry.entries region.names names.now region.next)) (map L.history failed.0.items)) }
    ensures cause { RegionHasCause (sum_by L.fault_count region.parts.items) (sum_by L.fault_count (parts_after_format result)) result }
{
    rows_have_states();
    let mut region = region;
    for name in names.as_slice() {
        match add_file(alloc, region, name.as_slice()) {
            Ok((added, _index)) => region = added,
            Err((parts, error)) => return Err((parts, error.into())),
        }
    }
    Ok(region)
}
