//! A region is carried over to the version that a mount opens over.
ghost use Rattle.std.specs.Prelude.{◌≡◌, [], map, slice_index_or, sum_by, IfOk, IfErr};
ghost use Rattle.nv_plain.specs.Layouts.{mount_layout, mount_version};
ghost use Rattle.nv_pmem.specs.Room.{Room};
ghost use Rattle.nv_pmem.specs.Rows.{InEachRowImage};
ghost use Rattle.nv_header.specs.Changes.{parts_after_format};
ghost use Rattle.nv_header.specs.Regions.{IsRoomy};
ghost use Rattle.nv_recover.specs.Telling.{AllTell};
ghost use Rattle.nv_open.specs.Causes.{RegionHasCause};
ghost use Rattle.nv_open.specs.Unopened.{HasFirstNames, HaveSameLines, TellRow};
ghost use Rattle.nv_open.specs.declared.error.OpenError.TheVariants as error;

use crate::OpenError;
use nv_header::{Region, migrate};
use nv_pmem::{Lines, rows_have_states};

/// Makes a region one of the version that a mount opens over, with its names, its sizes and its next number. One of that version
/// comes back at once. Whatever is left at any moment is the region in one of the two versions.
pub(crate) fn carry_over<L: Lines + Drop>(
    region: Region<L>,
) -> Result<Region<L>, (Vec<L>, OpenError)>
    requires room { (none : Room) → IsRoomy mount_layout.header_lines (slice_index_or (map L.room region.parts.items) 0 none) }
    ensures version { IfOk result (λ carried. carried.version ≡ mount_version) }
    ensures names { IfOk result (λ carried. carried.names ≡ region.names) }
    ensures geometry { IfOk result (λ carried. carried.geometry ≡ region.geometry) }
    ensures next { IfOk result (λ carried. carried.next ≡ region.next) }
    ensures lines { HaveSameLines (map L.history region.parts.items) (map L.history (parts_after_format result)) }
    ensures tell { AllTell (map L.history region.parts.items) → IfOk result (λ carried. AllTell (map L.history carried.parts.items)) }
    ensures never { (why : _) → IfErr result (λ failed. ¬ (failed.1 ≡ error.Refused why)) }
    ensures left { AllTell (map L.history region.parts.items) → IfErr result (λ failed.
        TellRow (InEachRowImage (HasFirstNames region.version region.geometry.page region.geometry.entries region.names [] region.next)) (map L.history failed.0.items)) }
    ensures cause { RegionHasCause (sum_by L.fault_count region.parts.items) (sum_by L.fault_count (parts_after_format result)) result }
{
    rows_have_states();
    match migrate(region) {
        Ok(region) => Ok(region),
        Err((parts, fault)) => Err((parts, fault.into())),
    }
}
