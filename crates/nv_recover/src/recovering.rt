//! Recovery, whole.
ghost use Rattle.std.specs.Prelude.{◌≡◌, ◌≢◌, ℕ, ◌+◌, ◌^◌, ◌≤◌, length, map, take, drop, sum_by, All, Err, IfOk, IfErr, OnOk};
ghost use Rattle.nv_plain.specs.Images.{layout_in};
ghost use Rattle.nv_plain.specs.Layouts.{layout_of};
ghost use Rattle.nv_pmem.specs.Limits.{entry_lines};
ghost use Rattle.nv_pmem.specs.Moments.{Tells};
ghost use Rattle.nv_pmem.specs.Rows.{RowTells, AreOnlyRead, row_words, AreQuiet};
ghost use Rattle.nv_store.specs.Store.{IsQuietStore};
ghost use Rattle.nv_entry.specs.Checks.{SaysBounds};
ghost use Rattle.nv_header.specs.Heads.{IsHeadOf, HeadIsWithinLimits, header_image};
ghost use Rattle.nv_header.specs.Needs.{header_history};
ghost use Rattle.nv_header.specs.Regions.{HasParts, IsAtRest};
ghost use Rattle.nv_recover.specs.Changes.{StayParts};
ghost use Rattle.nv_recover.specs.Answers.{answer_of, parts_after};
ghost use Rattle.nv_recover.specs.Applying.{AcrossTells, AcrossThroughout};
ghost use Rattle.nv_recover.specs.Bounding.{HasBounds};
ghost use Rattle.nv_recover.specs.Causes.{HasRegionCause, HasStoreCause};
ghost use Rattle.nv_recover.specs.Emptying.{CommitsNoneFrom, SaysBoundsAndNames};
ghost use Rattle.nv_recover.specs.Groups.{AreGroups, IsLeastBad, leaders_of};
ghost use Rattle.nv_recover.specs.Recovering.{AreKept, HasFoundAll, HoldRecovered, end_of};
ghost use Rattle.nv_recover.specs.Standing.{AreQuietStores, RecoverAlike};
ghost use Rattle.nv_recover.specs.Telling.{AllTell};
ghost use Rattle.nv_recover.specs.declared.error.RecoverError.TheVariants as error;

use crate::apply::{sync_all, write_groups};
use crate::empty::empty_log;
use crate::group::Group;
use crate::groups::find_groups;
use crate::{Leaders, RecoverError};
use nv_entry::Bounds;
use nv_header::{Head, Names, Region};
use nv_pmem::Lines;
use nv_store::Backing;
use std::alloc::Global;

/// The greatest tail.
const TAIL_LIMIT: u64 = 1 << 60;

/// What recovery found of a log.
#[derive(Debug, Drop)]
pub struct Recovered {
    /// The tail found.
    pub first: u64,
    /// The number behind the last committed group; the tail found, where there was none.
    pub next: u64,
    /// The numbers of the leaders of the committed groups, rising.
    pub groups: Leaders,
}

/// Recovers a region and its stores. `head` is what `read_head` gave of the parts, which have the lines that it needs, and
/// there is one store for each of its names. The pieces of the committed groups are written to the stores, which are
/// synced; then the log is emptied, and goes on with `next`.
///
/// At each moment, whatever a power failure leaves of the parts and the stores has a header that reads as before, but for
/// the tail, has the log as it was or an empty one that goes on with `next`, and stands for the same files: recovery may be
/// run again on it, however often it is stopped. Of an image that doesn't fit, as after BadEntry, nothing is written, and
/// after any error but a fault of the region the parts were only read. The parts come back, in their order, and those
/// behind the entries' are left alone.
pub fn recover<L: Lines + Drop, B: Backing>(
    alloc: Global,
    head: Head,
    parts: Vec<L>,
    stores: &mut Vec<B>,
) -> Result<(Region<L>, Recovered), (Vec<L>, RecoverError)>
    requires limits { HeadIsWithinLimits (layout_of head.version) head }
    requires head { Tells (header_history (map L.history parts.items)) (λ now.
        IsHeadOf (layout_of head.version) (layout_of head.version).header_lines (header_image now) head) }
    requires parts { HasParts (layout_of head.version) head.geometry.page head.geometry.entries (map L.room parts.items) }
    requires quiet { RowTells (map L.history parts.items) AreQuiet }
    requires stores { length stores.old.items ≡ length head.names }
    requires synced { RowTells (map B.history stores.old.items) AreQuietStores }

    // At `Ok`.
    ensures found { IfOk result (λ done. RowTells (map L.history parts.items) (λ told. HasFoundAll (row_words told) done.1)) }
    ensures files { IfOk result (λ done. AcrossTells (map L.history parts.items) (map B.history stores.old.items)
        (map B.history stores.new.items) HoldRecovered) }
    ensures quiet { OnOk result (All (λ store. Tells (B.history store) IsQuietStore) stores.new.items) }
    ensures version { IfOk result (λ done. done.0.version ≡ head.version) }
    ensures geometry { IfOk result (λ done. done.0.geometry ≡ head.geometry) }
    ensures names { IfOk result (λ done. done.0.names ≡ head.names) }
    ensures next { IfOk result (λ done. done.0.next ≡ done.1.next) }
    ensures rooms { IfOk result (λ done. StayParts (map L.room parts.items) (map L.room done.0.parts.items)) }

    // At an error.
    ensures bad { (number : ℕ) → answer_of result ≡ Err (error.BadEntry number)
        → RowTells (map L.history parts.items) (λ told. IsLeastBad (layout_in (row_words told)) (row_words told) number) }
    ensures only_read { IfErr result (λ failed. failed.1 ≢ error.RegionFault
        → AreOnlyRead L.history L.room L.device parts.items failed.0.items) }

    // Whichever answer came.
    ensures kept { AreKept L.history L.room L.device B.history B.device (1 + head.geometry.entries)
        parts.items stores.old.items (parts_after result) stores.new.items }
    ensures region_cause { HasRegionCause (sum_by L.fault_count parts.items) (sum_by L.fault_count (parts_after result)) (answer_of result) }
    ensures store_cause { HasStoreCause (sum_by B.fault_count stores.old.items) (sum_by B.fault_count stores.new.items) (answer_of result) }
{
    let mut parts = parts;
    let bounds = bounds_of(&head);
    match recover_parts(alloc, &head.names, &bounds, &mut parts, stores) {
        Ok(found) => {
            let region = Region::from_parts(
                parts,
                head.version,
                head.geometry,
                head.names,
                found.next,
            );
            Ok((region, found))
        }
        Err(error) => Err((parts, error)),
    }
}

/// What a head says of the log.
pub fn bounds_of(head: &Head) -> Bounds
    requires { HeadIsWithinLimits (layout_of head.now.version) head.now }
    ensures { HasBounds head.now result }
{
    Bounds {
        version: head.version,
        page: head.geometry.page,
        entries: head.geometry.entries,
        files: head.names.len() as u64,
        tail: head.tail,
    }
}

/// As [`recover`], of parts whose header says these names and bounds, where they all tell: a region that was opened has no
/// need to read its header again. They stay where they are.
pub fn recover_parts<L: Lines, B: Backing>(
    alloc: Global,
    names: &Names,
    bounds: &Bounds,
    parts: &mut [L],
    stores: &mut [B],
) -> Result<Recovered, RecoverError>
    requires header { RowTells (map L.history parts.old) (λ told. SaysBounds bounds.now (row_words told)) }
    requires names { RowTells (map L.history parts.old) (λ told. SaysBoundsAndNames bounds.now names.now (row_words told)) }
    requires parts { HasParts (layout_of bounds.now.version) bounds.now.page bounds.now.entries (map L.room parts.old) }
    requires quiet { RowTells (map L.history parts.old) AreQuiet }
    requires stores { length stores.old ≡ bounds.now.files }
    requires synced { RowTells (map B.history stores.old) AreQuietStores }
    ensures found { IfOk result (λ found. RowTells (map L.history parts.old) (λ told. HasFoundAll (row_words told) found)) }
    ensures files { OnOk result (AcrossTells (map L.history parts.old) (map B.history stores.old) (map B.history stores.new) HoldRecovered) }
    ensures quiet { OnOk result (All (λ store. Tells (B.history store) IsQuietStore) stores.new) }
    ensures rest { IfOk result (λ found. RowTells (map L.history parts.new)
        (IsAtRest (layout_of bounds.now.version) bounds.now.page bounds.now.entries names.now found.next)) }
    ensures parts { OnOk result (HasParts (layout_of bounds.now.version) bounds.now.page bounds.now.entries (map L.room parts.new)) }
    ensures rooms { OnOk result (StayParts (map L.room parts.old) (map L.room parts.new)) }
    ensures limit { IfOk result (λ found. found.next ≤ 2 ^ 60) }
    ensures bad { (number : ℕ) → result ≡ Err (error.BadEntry number)
        → RowTells (map L.history parts.old) (λ told. IsLeastBad (layout_in (row_words told)) (row_words told) number) }
    ensures only_read { IfErr result (λ why. why ≢ error.RegionFault → AreOnlyRead L.history L.room L.device parts.old parts.new) }
    ensures kept { AreKept L.history L.room L.device B.history B.device (1 + bounds.now.entries) parts.old stores.old parts.new stores.new }
    ensures region_cause { HasRegionCause (sum_by L.fault_count parts.old) (sum_by L.fault_count parts.new) result }
    ensures store_cause { HasStoreCause (sum_by B.fault_count stores.old) (sum_by B.fault_count stores.new) result }
{
    let (groups, found) = read_log(alloc, parts, bounds)?;
    replay(alloc, parts, stores, bounds, &groups)?;
    empty_log(parts, bounds, found.next)?;
    Ok(found)
}

/// What a recovery makes of the stores, and no more: the pieces of the committed groups are written to them, and they are synced. The
/// parts are only read, so over copies of its stores this shows the files that a region stands for.
pub fn replay_log<L: Lines, B: Backing>(
    alloc: Global,
    bounds: &Bounds,
    parts: &mut [L],
    stores: &mut [B],
) -> Result<Recovered, RecoverError>
    requires header { RowTells (map L.history parts.old) (λ told. SaysBounds bounds.now (row_words told)) }
    requires parts { HasParts (layout_of bounds.now.version) bounds.now.page bounds.now.entries (map L.room parts.old) }
    requires stores { length stores.old ≡ bounds.now.files }
    requires synced { RowTells (map B.history stores.old) AreQuietStores }
    ensures found { IfOk result (λ found. RowTells (map L.history parts.old) (λ told. HasFoundAll (row_words told) found)) }
    ensures files { OnOk result (AcrossTells (map L.history parts.old) (map B.history stores.old) (map B.history stores.new) HoldRecovered) }
    ensures bad { (number : ℕ) → result ≡ Err (error.BadEntry number)
        → RowTells (map L.history parts.old) (λ told. IsLeastBad (layout_in (row_words told)) (row_words told) number) }
    ensures read { AreOnlyRead L.history L.room L.device parts.old parts.new }
    ensures tells { AllTell (map B.history stores.old) → AllTell (map B.history stores.new) }
    ensures region_cause { HasRegionCause (sum_by L.fault_count parts.old) (sum_by L.fault_count parts.new) result }
    ensures store_cause { HasStoreCause (sum_by B.fault_count stores.old) (sum_by B.fault_count stores.new) result }
    ensures devices { map B.device stores.new ≡ map B.device stores.old }
{
    let (log, found) = read_log(alloc, parts, bounds)?;
    replay(alloc, parts, stores, bounds, &log)?;
    Ok(found)
}

// The committed groups of the log, and what they say that recovery found.
fn read_log<L: Lines>(
    alloc: Global,
    parts: &mut [L],
    bounds: &Bounds,
) -> Result<(Vec<Group>, Recovered), RecoverError>
    requires parts { 1 + bounds.now.entries ≤ length parts.old }
    requires lines { All (λ part. 1 ≤ (L.room part).lines) (take bounds.now.entries (drop 1 parts.old)) }
    requires header { RowTells (map L.history parts.old) (λ told. SaysBounds bounds.now (row_words told)) }
    ensures groups { IfOk result (λ log. RowTells (map L.history parts.old) (λ told. AreGroups (row_words told) log.0.items)) }
    ensures found { IfOk result (λ log. RowTells (map L.history parts.old) (λ told. HasFoundAll (row_words told) log.1)) }
    ensures none { IfOk result (λ log. RowTells (map L.history parts.old) (λ told. CommitsNoneFrom log.1.next (row_words told))) }
    ensures from_tail { IfOk result (λ log. bounds.now.tail ≤ log.1.next) }
    ensures limit { IfOk result (λ log. log.1.next ≤ 2 ^ 60) }
    ensures bad { (number : ℕ) → result ≡ Err (error.BadEntry number)
        → RowTells (map L.history parts.old) (λ told. IsLeastBad (layout_in (row_words told)) (row_words told) number) }
    ensures read { AreOnlyRead L.history L.room L.device parts.old parts.new }
    ensures cause { HasRegionCause (sum_by L.fault_count parts.old) (sum_by L.fault_count parts.new) result }
    ensures no_store { result ≢ Err error.StoreFault }
{
    let groups = find_groups(alloc, parts, bounds)?;
    let found = recovered_from(alloc, bounds.tail, &groups)?;
    Ok((groups, found))
}

// What the groups of a log say that recovery found.
fn recovered_from(alloc: Global, tail: u64, groups: &[Group]) -> Result<Recovered, RecoverError>
    requires { tail ≤ 2 ^ 60 }
    ensures first { IfOk result (λ found. found.first ≡ tail) }
    ensures groups { IfOk result (λ found. found.groups ≡ leaders_of groups.now) }
    ensures next { IfOk result (λ found. tail ≤ end_of tail groups.now → end_of tail groups.now ≤ 2 ^ 60
        → found.next ≡ end_of tail groups.now) }
    ensures from_tail { IfOk result (λ found. tail ≤ found.next) }
    ensures limit { IfOk result (λ found. found.next ≤ 2 ^ 60) }
    ensures no_memory { IfErr result (λ e. e ≡ error.NoMemory) }
{
    let mut leaders = Vec::with_capacity(alloc, groups.len())?;
    let mut end = tail;
    for group in groups {
        leaders.push(group.leader)?;
        end = group.leader.saturating_add(group.count);
    }
    Ok(Recovered {
        first: tail,
        // The groups that parts tell of end within the limits of the tail.
        next: end.clamp(tail, TAIL_LIMIT),
        groups: Leaders::from_vec(leaders),
    })
}

// Writes the pieces of the groups to the stores, and syncs these.
fn replay<L: Lines, B: Backing>(
    alloc: Global,
    parts: &mut [L],
    stores: &mut [B],
    bounds: &Bounds,
    groups: &[Group],
) -> Result<(), RecoverError>
    requires parts { 1 + bounds.now.entries ≤ length parts.old }
    requires lines { All (λ part. entry_lines bounds.now.page ≤ (L.room part).lines) (take bounds.now.entries (drop 1 parts.old)) }
    requires header { RowTells (map L.history parts.old) (λ told. SaysBounds bounds.now (row_words told)) }
    requires groups { RowTells (map L.history parts.old) (λ told. AreGroups (row_words told) groups.now) }
    requires stores { length stores.old ≡ bounds.now.files }
    requires quiet { RowTells (map B.history stores.old) AreQuietStores }
    ensures read { AreOnlyRead L.history L.room L.device parts.old parts.new }
    ensures moments { AcrossThroughout (map L.history parts.old) (map B.history stores.old) (map B.history stores.new) RecoverAlike }
    ensures done { OnOk result (AcrossTells (map L.history parts.old) (map B.history stores.old) (map B.history stores.new) HoldRecovered) }
    ensures quiet { OnOk result (All (λ store. Tells (B.history store) IsQuietStore) stores.new) }
    ensures bad { (number : ℕ) → result ≡ Err (error.BadEntry number) → RowTells (map L.history parts.old) (λ told. ⊥) }
    ensures tells { AllTell (map B.history stores.old) → AllTell (map B.history stores.new) }
    ensures region_cause { HasRegionCause (sum_by L.fault_count parts.old) (sum_by L.fault_count parts.new) result }
    ensures store_cause { HasStoreCause (sum_by B.fault_count stores.old) (sum_by B.fault_count stores.new) result }
    ensures devices { map B.device stores.new ≡ map B.device stores.old }
{
    let mut page = vec![in alloc; 0; bounds.page as usize]?;
    write_groups(parts, stores, bounds, groups, &mut page)?;
    sync_all(stores)?;
    Ok(())
}
