//! A blank region of a bench is formatted.
ghost use Rattle.std.specs.Prelude.{◌≡◌, All, true, map, sum_by, IfOk, IfErr};
ghost use Rattle.nv_plain.specs.Layouts.{mount_version, mount_layout};
ghost use Rattle.nv_plain.specs.Faults.{HasCause};
ghost use Rattle.nv_pmem.specs.Rows.{RowTells, AreOnlyRead, InEachRowImage};
ghost use Rattle.nv_bench.specs.Opening.{is_blank};
ghost use Rattle.nv_header.specs.Changes.{parts_after_format};
ghost use Rattle.nv_header.specs.Laws.{HasSpare};
ghost use Rattle.nv_header.specs.Needs.{HasLines};
ghost use Rattle.nv_header.specs.Regions.{IsBlankOrFormatted, IsBlankRow};
ghost use Rattle.nv_recover.specs.Telling.{AllTell};
ghost use Rattle.nv_open.specs.Begun.{IsFormatted};
ghost use Rattle.nv_open.specs.Causes.{RegionHasCause};
ghost use Rattle.nv_open.specs.Refusals.{rooms_of, IsBadHeader};
ghost use Rattle.nv_open.specs.Unopened.{HaveSameLines, TellRow};
ghost use Rattle.nv_open.specs.declared.error.OpenError.TheVariants as error;

use crate::OpenError;
use nv_header::{Head, Names, Region, check_lines, format, needed_lines_make_parts};
use nv_plain::limits::MOUNT_VERSION;
use nv_pmem::{Geometry, Lines, RegionFault, loads_follow_calls, rows_have_states};
use std::alloc::Global;

/// Formats a blank region. A bench that tells nothing may have given parts that lack lines; they are refused.
pub(crate) fn format_parts<L: Lines + Drop>(
    alloc: Global,
    geometry: Geometry,
    parts: Vec<L>,
) -> Result<Region<L>, (Vec<L>, OpenError)>
    requires blank { RowTells (map L.history parts.items) IsBlankRow }
    requires spare { All HasSpare (map L.room parts.items) }
    ensures version { IfOk result (λ region. region.version ≡ mount_version) }
    ensures formatted { IfOk result (λ region. IsFormatted geometry region.geometry.page region.geometry.entries region.names region.next) }
    ensures lines { HaveSameLines (map L.history parts.items) (map L.history (parts_after_format result)) }
    ensures tell { AllTell (map L.history parts.items) → IfOk result (λ region. AllTell (map L.history region.parts.items)) }
    ensures short { (why : _) → IfErr result (λ failed. failed.1 ≡ error.Refused why
        → RowTells (map L.history parts.items) (λ told. ¬ HasLines mount_layout geometry.page geometry.entries (rooms_of told))) }
    ensures header { (why : _) → IfErr result (λ failed. failed.1 ≡ error.Refused why → IsBadHeader why) }
    ensures kept { (why : _) → IfErr result (λ failed. failed.1 ≡ error.Refused why → map L.history failed.0.items ≡ map L.history parts.items) }
    ensures left { AllTell (map L.history parts.items) → IfErr result (λ failed.
        TellRow (InEachRowImage (IsBlankOrFormatted mount_layout geometry.page geometry.entries)) (map L.history failed.0.items)) }
    ensures cause { RegionHasCause (sum_by L.fault_count parts.items) (sum_by L.fault_count (parts_after_format result)) result }
{
    rows_have_states();
    let head = Head {
        version: MOUNT_VERSION,
        geometry,
        names: Names::new(alloc),
        tail: 0,
    };
    if let Err(lack) = check_lines(&parts, &head) {
        return Err((parts, lack.into()));
    }
    needed_lines_make_parts();
    match format(parts, MOUNT_VERSION, geometry) {
        Ok(region) => Ok(region),
        Err((parts, fault)) => Err((parts, fault.into())),
    }
}

/// Whether the parts are blank.
pub(crate) fn are_blank<L: Lines>(parts: &mut [L]) -> Result<bool, RegionFault>
    ensures told { IfOk result (λ blank. RowTells (map L.history parts.old) (λ told. blank ≡ is_blank told)) }
    ensures read { AreOnlyRead L.history L.room L.device parts.old parts.new }
    ensures cause { HasCause (sum_by L.fault_count parts.old) (sum_by L.fault_count parts.new) result }
{
    loads_follow_calls();
    nv_header::is_blank(parts)
}
