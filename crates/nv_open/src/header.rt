//! The header of a region that is lent.
ghost use Rattle.std.specs.Prelude.{◌≡◌, ◌≤◌, map, sum_by, Err, IfOk, OnOk};
ghost use Rattle.nv_plain.specs.Images.{version_in};
ghost use Rattle.nv_plain.specs.Layouts.{layout_of, mount_layout};
ghost use Rattle.nv_pmem.specs.Moments.{Tells};
ghost use Rattle.nv_pmem.specs.Rows.{RowTells, AreOnlyRead};
ghost use Rattle.nv_header.specs.Heads.{IsHeadOf, HeadIsWithinLimits, header_image};
ghost use Rattle.nv_header.specs.Needs.{header_history, header_lines_in, HasLines};
ghost use Rattle.nv_open.specs.Causes.{OpenHasCause};
ghost use Rattle.nv_open.specs.Held.{header_names};
ghost use Rattle.nv_open.specs.Layers.{HasMountHeader};
ghost use Rattle.nv_open.specs.Refusals.{IsRefusedFor, IsBadHeader, head_image};
ghost use Rattle.nv_open.specs.declared.error.OpenError.TheVariants as error;

use crate::{OpenError, Refusal};
use nv_header::{Head, check_lines, read_head};
use nv_plain::limits::MOUNT_VERSION;
use nv_pmem::Lines;
use std::alloc::Global;

/// What the header of a region says, of whatever version, whose parts have the lines that it needs.
pub(crate) fn read_header<L: Lines>(alloc: Global, parts: &mut [L]) -> Result<Head, OpenError>
    ensures version { IfOk result (λ head. RowTells (map L.history parts.old) (λ told. head.version ≡ version_in (head_image told))) }
    ensures head { IfOk result (λ head. Tells (header_history (map L.history parts.old)) (λ now.
        IsHeadOf (layout_of head.version) (header_lines_in (map L.room parts.old)) (header_image now) head)) }
    ensures names { IfOk result (λ head. RowTells (map L.history parts.old) (λ told. header_names told ≡ head.names)) }
    ensures limits { IfOk result (λ head. HeadIsWithinLimits (layout_of head.version) head) }
    ensures lines { IfOk result (λ head. HasLines (layout_of head.version) head.geometry.page head.geometry.entries (map L.room parts.new)) }
    ensures refused { (why : _) → result ≡ Err (error.Refused why) → RowTells (map L.history parts.old) (λ told. IsRefusedFor told why × IsBadHeader why) }
    ensures read { AreOnlyRead L.history L.room L.device parts.old parts.new }
    ensures cause { OpenHasCause (sum_by L.fault_count parts.old) (sum_by L.fault_count parts.new) result }
{
    let head = read_head(alloc, parts)?;
    check_lines(parts, &head)?;
    Ok(head)
}

/// Tests, before anything is written, that the header's part of a region has the lines of the header that a mount opens over. Where
/// it hasn't the region is refused, and first for its own header, where that can't be read. A bench that tells what it gave has given
/// these lines to a header of version 1.
pub(crate) fn check_mount_header<L: Lines>(alloc: Global, parts: &mut [L]) -> Result<(), OpenError>
    ensures long { OnOk result (mount_layout.header_lines ≤ header_lines_in (map L.room parts.new)) }
    ensures refused { (why : _) → result ≡ Err (error.Refused why)
        → RowTells (map L.history parts.old) (λ told. IsBadHeader why × (HasMountHeader told → IsRefusedFor told why)) }
    ensures read { AreOnlyRead L.history L.room L.device parts.old parts.new }
    ensures cause { OpenHasCause (sum_by L.fault_count parts.old) (sum_by L.fault_count parts.new) result }
{
    let found = header_lines(parts);
    let wanted = MOUNT_VERSION.header_lines();
    if found >= wanted {
        return Ok(());
    }
    read_header(alloc, parts)?;
    Err(OpenError::Refused(Refusal::Truncated { found, wanted }))
}

// The lines of the header's part; none, where there is no part.
fn header_lines<L: Lines>(parts: &[L]) -> u64
    ensures { result ≡ header_lines_in (map L.room parts.now) }
{
    match parts {
        [] => 0,
        [header, ..] => header.lines(),
    }
}
