//! The committed groups of a log are found.
ghost use Rattle.std.specs.Prelude.{◌≡◌, ◌≢◌, ℕ, ◌+◌, ◌<◌, ◌≤◌, length, map, take, drop, sum_by, All, Err, IfOk, OnOk};
ghost use Rattle.nv_plain.specs.Images.{entry_at, layout_in};
ghost use Rattle.nv_plain.specs.Recovered.{IsGroup};
ghost use Rattle.nv_pmem.specs.Rows.{RowTells, AreOnlyRead, row_words};
ghost use Rattle.nv_entry.specs.Checks.{IsFirstBad, SaysBounds};
ghost use Rattle.nv_recover.specs.Causes.{HasRegionCause};
ghost use Rattle.nv_recover.specs.Finding.{HasFound};
ghost use Rattle.nv_recover.specs.Groups.{AreGroups, IsLeastBad};
ghost use Rattle.nv_recover.specs.declared.error.RecoverError.TheVariants as error;

use crate::RecoverError;
use crate::group::Group;
use nv_entry::{Bounds, GroupCheck, check_group, read_entry};
use nv_pmem::Lines;
use std::alloc::Global;

/// The committed groups of the log, rising. All their entries are checked, and the least that breaks a rule is named.
pub(crate) fn find_groups<L: Lines>(
    alloc: Global,
    parts: &mut [L],
    bounds: &Bounds,
) -> Result<Vec<Group>, RecoverError>
    requires parts { 1 + bounds.now.entries ≤ length parts.old }
    requires lines { All (λ part. 1 ≤ (L.room part).lines) (take bounds.now.entries (drop 1 parts.old)) }
    requires header { RowTells (map L.history parts.old) (λ told. SaysBounds bounds.now (row_words told)) }
    ensures found { IfOk result (λ groups. RowTells (map L.history parts.old) (λ told. AreGroups (row_words told) groups.items)) }
    ensures bad { (number : ℕ) → result ≡ Err (error.BadEntry number)
        → RowTells (map L.history parts.old) (λ told. IsLeastBad (layout_in (row_words told)) (row_words told) number) }
    ensures read { AreOnlyRead L.history L.room L.device parts.old parts.new }
    ensures cause { HasRegionCause (sum_by L.fault_count parts.old) (sum_by L.fault_count parts.new) result }
    ensures no_store { result ≢ Err error.StoreFault }
{
    let mut groups = Vec::new(alloc);
    for number in bounds.tail..bounds.tail + bounds.entries {
        look_at(parts, bounds, number, &mut groups)?;
    }
    Ok(groups)
}

// Looks at the next number: where it is committed, its group is one more.
fn look_at<L: Lines>(
    parts: &mut [L],
    bounds: &Bounds,
    number: u64,
    groups: &mut Vec<Group>,
) -> Result<(), RecoverError>
    requires parts { 1 + bounds.now.entries ≤ length parts.old }
    requires lines { All (λ part. 1 ≤ (L.room part).lines) (take bounds.now.entries (drop 1 parts.old)) }
    requires header { RowTells (map L.history parts.old) (λ told. SaysBounds bounds.now (row_words told)) }
    requires from { bounds.now.tail ≤ number }
    requires below { number < bounds.now.tail + bounds.now.entries }
    ensures found { OnOk result (RowTells (map L.history parts.old) (λ told.
        HasFound (row_words told) bounds.now.tail number groups.old.items
        → HasFound (row_words told) bounds.now.tail (number + 1) groups.new.items)) }
    ensures bad { (bad : ℕ) → result ≡ Err (error.BadEntry bad) → RowTells (map L.history parts.old) (λ told.
        HasFound (row_words told) bounds.now.tail number groups.old.items → IsLeastBad (layout_in (row_words told)) (row_words told) bad) }
    ensures read { AreOnlyRead L.history L.room L.device parts.old parts.new }
    ensures cause { HasRegionCause (sum_by L.fault_count parts.old) (sum_by L.fault_count parts.new) result }
    ensures no_store { result ≢ Err error.StoreFault }
{
    let entry = read_entry(parts, bounds, number)?;
    if entry.commit != number + 1 {
        return Ok(());
    }
    let group = checked(parts, bounds, number)?;
    groups.push(group)?;
    Ok(())
}

// The committed group of a leader, if it is whole.
fn checked<L: Lines>(parts: &mut [L], bounds: &Bounds, leader: u64) -> Result<Group, RecoverError>
    requires parts { 1 + bounds.now.entries ≤ length parts.old }
    requires lines { All (λ part. 1 ≤ (L.room part).lines) (take bounds.now.entries (drop 1 parts.old)) }
    requires header { RowTells (map L.history parts.old) (λ told. SaysBounds bounds.now (row_words told)) }
    requires number { leader < bounds.now.tail + bounds.now.entries }
    ensures leader { IfOk result (λ group. group.leader ≡ leader) }
    ensures whole { IfOk result (λ group. RowTells (map L.history parts.old) (λ told.
        IsGroup (layout_in (row_words told)) (row_words told) leader × (group.count ≡ (entry_at (row_words told) leader).count))) }
    ensures bad { (number : ℕ) → result ≡ Err (error.BadEntry number)
        → RowTells (map L.history parts.old) (λ told. IsFirstBad (layout_in (row_words told)) (row_words told) leader number) }
    ensures read { AreOnlyRead L.history L.room L.device parts.old parts.new }
    ensures cause { HasRegionCause (sum_by L.fault_count parts.old) (sum_by L.fault_count parts.new) result }
    ensures no_store { result ≢ Err error.StoreFault }
    ensures no_memory { result ≢ Err error.NoMemory }
{
    match check_group(parts, bounds, leader)? {
        GroupCheck::Whole { count } => Ok(Group { leader, count }),
        GroupCheck::Bad { number } => Err(RecoverError::BadEntry { number }),
    }
}
