//! The pieces of the groups are written to the stores.
ghost use Rattle.std.specs.Prelude.{◌≡◌, ◌≢◌, ℕ, ◌+◌, ◌<◌, ◌≤◌, length, map, take, drop, fold, sum_by, All, Err, IfOk, OnOk, MatchOption};
ghost use Rattle.std.specs.List.{range_with_len};
ghost use Rattle.nv_plain.specs.Faults.{HasCause};
ghost use Rattle.nv_plain.specs.Images.{entry_at, entry_of, lines_for};
ghost use Rattle.nv_plain.specs.Recovered.{with_entry, recovered};
ghost use Rattle.nv_pmem.specs.Limits.{entry_lines};
ghost use Rattle.nv_pmem.specs.Moments.{Tells};
ghost use Rattle.nv_pmem.specs.Room.{Keeps};
ghost use Rattle.nv_pmem.specs.Rows.{RowTells, AreOnlyRead, row_words};
ghost use Rattle.nv_pmem.specs.Part.{part_word};
ghost use Rattle.nv_store.specs.Causes.{HasWriteCause};
ghost use Rattle.nv_store.specs.Steps.{Sync, after_store_step};
ghost use Rattle.nv_store.specs.Store.{IsQuietStore};
ghost use Rattle.nv_entry.specs.Checks.{SaysBounds};
ghost use Rattle.nv_entry.specs.Reading.{head_of, IsFilled};
ghost use Rattle.nv_recover.specs.Applying.{AcrossTells, AcrossThroughout, ChangesAtMostOne, IsGroupOf, IsNumberOf, HasPiece, StaysAlike, OneWritten, LeftOrOneTorn};
ghost use Rattle.nv_recover.specs.Causes.{HasRegionCause, HasStoreCause};
ghost use Rattle.nv_recover.specs.Changes.{ThroughoutRow};
ghost use Rattle.nv_recover.specs.Groups.{AreGroups};
ghost use Rattle.nv_recover.specs.Standing.{AreQuietStores, LeaveNoMore, RecoverAlike, files_of};
ghost use Rattle.nv_recover.specs.Telling.{AllTell};
ghost use Rattle.nv_recover.specs.declared.error.RecoverError.TheVariants as error;

use crate::RecoverError;
use crate::group::Group;
use nv_entry::{Bounds, PieceHead, entry_words, read_piece};
use nv_pmem::{Lines, RegionFault};
use nv_store::{Backing, StoreError, StoreFault};

/// Writes the pieces of the groups to the stores, in rising number. `parts` are those of the region, the header's first,
/// `bounds` what the header says, and `page` takes one piece at a time.
///
/// The stores were quiet. At each moment, whatever a power failure then leaves of them recovers, by the same log, to the
/// files that it would have recovered to without this call.
pub(crate) fn write_groups<L: Lines, B: Backing>(
    parts: &mut [L],
    stores: &mut [B],
    bounds: &Bounds,
    groups: &[Group],
    page: &mut [u8],
) -> Result<(), RecoverError>
    requires parts { 1 + bounds.now.entries ≤ length parts.old }
    requires lines { All (λ part. entry_lines bounds.now.page ≤ (L.room part).lines) (take bounds.now.entries (drop 1 parts.old)) }
    requires page { length page.old ≡ bounds.now.page }
    requires header { RowTells (map L.history parts.old) (λ told. SaysBounds bounds.now (row_words told)) }
    requires groups { RowTells (map L.history parts.old) (λ told. AreGroups (row_words told) groups.now) }
    requires stores { length stores.old ≡ bounds.now.files }
    requires quiet { RowTells (map B.history stores.old) AreQuietStores }
    ensures read { AreOnlyRead L.history L.room L.device parts.old parts.new }
    ensures moments { AcrossThroughout (map L.history parts.old) (map B.history stores.old) (map B.history stores.new) RecoverAlike }
    ensures written { OnOk result (RowTells (map L.history parts.old) (λ told. RowTells (map B.history stores.old) (λ was.
        RowTells (map B.history stores.new) (λ now. files_of now ≡ (recovered (row_words told) (files_of was)).files)))) }
    ensures bad { (number : ℕ) → result ≡ Err (error.BadEntry number) → RowTells (map L.history parts.old) (λ told. ⊥) }
    ensures tells { AllTell (map B.history stores.old) → AllTell (map B.history stores.new) }
    ensures region_cause { HasRegionCause (sum_by L.fault_count parts.old) (sum_by L.fault_count parts.new) result }
    ensures store_cause { HasStoreCause (sum_by B.fault_count stores.old) (sum_by B.fault_count stores.new) result }
    ensures devices { map B.device stores.new ≡ map B.device stores.old }
{
    for group in groups {
        write_group(parts, stores, bounds, *group, page)?;
    }
    Ok(())
}

// Writes the pieces of a group.
fn write_group<L: Lines, B: Backing>(
    parts: &mut [L],
    stores: &mut [B],
    bounds: &Bounds,
    group: Group,
    page: &mut [u8],
) -> Result<(), RecoverError>
    requires parts { 1 + bounds.now.entries ≤ length parts.old }
    requires lines { All (λ part. entry_lines bounds.now.page ≤ (L.room part).lines) (take bounds.now.entries (drop 1 parts.old)) }
    requires page { length page.old ≡ bounds.now.page }
    requires header { RowTells (map L.history parts.old) (λ told. SaysBounds bounds.now (row_words told)) }
    requires group { RowTells (map L.history parts.old) (λ told. IsGroupOf (row_words told) group) }
    requires stores { length stores.old ≡ bounds.now.files }
    ensures read { AreOnlyRead L.history L.room L.device parts.old parts.new }
    ensures moments { AcrossThroughout (map L.history parts.old) (map B.history stores.old) (map B.history stores.new) StaysAlike }
    ensures written { OnOk result (AcrossTells (map L.history parts.old) (map B.history stores.old) (map B.history stores.new)
        (λ image was now. files_of now ≡ fold (with_entry image) (files_of was) (range_with_len group.leader group.count))) }
    ensures bad { (number : ℕ) → result ≡ Err (error.BadEntry number) → RowTells (map L.history parts.old) (λ told. ⊥) }
    ensures tells { AllTell (map B.history stores.old) → AllTell (map B.history stores.new) }
    ensures region_cause { HasRegionCause (sum_by L.fault_count parts.old) (sum_by L.fault_count parts.new) result }
    ensures store_cause { HasStoreCause (sum_by B.fault_count stores.old) (sum_by B.fault_count stores.new) result }
    ensures devices { map B.device stores.new ≡ map B.device stores.old }
{
    // No number of a group that a part tells of comes near the type's end.
    for number in group.leader..group.leader.saturating_add(group.count) {
        write_entry(parts, stores, bounds, number, page)?;
    }
    Ok(())
}

// Writes the piece of an entry.
fn write_entry<L: Lines, B: Backing>(
    parts: &mut [L],
    stores: &mut [B],
    bounds: &Bounds,
    number: u64,
    page: &mut [u8],
) -> Result<(), RecoverError>
    requires parts { 1 + bounds.now.entries ≤ length parts.old }
    requires lines { All (λ part. entry_lines bounds.now.page ≤ (L.room part).lines) (take bounds.now.entries (drop 1 parts.old)) }
    requires page { length page.old ≡ bounds.now.page }
    requires header { RowTells (map L.history parts.old) (λ told. SaysBounds bounds.now (row_words told)) }
    requires number { RowTells (map L.history parts.old) (λ told. IsNumberOf (row_words told) number) }
    requires stores { length stores.old ≡ bounds.now.files }
    ensures read { AreOnlyRead L.history L.room L.device parts.old parts.new }
    ensures one { ChangesAtMostOne (map B.history stores.old) (map B.history stores.new) }
    ensures alike { AcrossTells (map L.history parts.old) (map B.history stores.old) (map B.history stores.new) StaysAlike }
    ensures written { OnOk result (AcrossTells (map L.history parts.old) (map B.history stores.old) (map B.history stores.new)
        (λ image was now. files_of now ≡ with_entry image (files_of was) number)) }
    ensures bad { (other : ℕ) → result ≡ Err (error.BadEntry other) → RowTells (map L.history parts.old) (λ told. ⊥) }
    ensures tells { AllTell (map B.history stores.old) → AllTell (map B.history stores.new) }
    ensures region_cause { HasRegionCause (sum_by L.fault_count parts.old) (sum_by L.fault_count parts.new) result }
    ensures store_cause { HasStoreCause (sum_by B.fault_count stores.old) (sum_by B.fault_count stores.new) result }
    ensures devices { map B.device stores.new ≡ map B.device stores.old }
{
    let head = load_piece(parts, bounds, number, page)?;
    let file = head.file as usize;
    // No entry of a whole group names such a file, so only parts that tell nothing come here.
    if file >= stores.len() {
        return Err(RecoverError::BadEntry { number });
    }
    match write_piece(stores, file, head.at, &page[..head.size as usize]) {
        Ok(()) => Ok(()),
        Err(StoreError::Fault) => Err(RecoverError::StoreFault),
        Err(StoreError::NoMemory) => Err(RecoverError::NoMemory),
    }
}

// Reads the piece of a number, in the slot that it stands in, to the front of the page.
fn load_piece<L: Lines>(
    parts: &mut [L],
    bounds: &Bounds,
    number: u64,
    page: &mut [u8],
) -> Result<PieceHead, RecoverError>
    requires parts { 1 + bounds.now.entries ≤ length parts.old }
    requires lines { All (λ part. entry_lines bounds.now.page ≤ (L.room part).lines) (take bounds.now.entries (drop 1 parts.old)) }
    requires page { length page.old ≡ bounds.now.page }
    requires header { RowTells (map L.history parts.old) (λ told. SaysBounds bounds.now (row_words told)) }
    requires size { RowTells (map L.history parts.old) (λ told. (entry_at (row_words told) number).size ≤ bounds.now.page) }
    ensures piece { IfOk result (λ head. RowTells (map L.history parts.old) (λ told.
        HasPiece (row_words told) number head.file head.at (take head.size page.new))) }
    ensures size { IfOk result (λ head. head.size ≤ length page.new) }
    ensures bad { (other : ℕ) → result ≡ Err (error.BadEntry other) → RowTells (map L.history parts.old) (λ told. ⊥) }
    ensures no_store { result ≢ Err error.StoreFault }
    ensures read { AreOnlyRead L.history L.room L.device parts.old parts.new }
    ensures cause { HasRegionCause (sum_by L.fault_count parts.old) (sum_by L.fault_count parts.new) result }
{
    let slot = 1 + (number % bounds.entries) as usize;
    match load_fitting(&mut parts[slot], page)? {
        Some(head) => Ok(head),
        // Nor is its piece longer than a page.
        None => Err(RecoverError::BadEntry { number }),
    }
}

// Reads the piece that a part holds, if it is no longer than the page.
fn load_fitting<L: Lines>(part: &mut L, page: &mut [u8]) -> Result<Option<PieceHead>, RegionFault>
    requires lines { 1 + lines_for (length page.old) ≤ (L.room part.old).lines }
    ensures piece { IfOk result (λ found. Tells (L.history part.old) (λ now. MatchOption found
        (length page.old < (entry_of (part_word now)).size)
        (λ head. (head ≡ head_of now) × IsFilled now head.size page.old page.new))) }
    ensures size { IfOk result (λ found. MatchOption found (Unit {0}) (λ head. head.size ≤ length page.old)) }
    ensures history { L.history part.new ≡ L.history part.old }
    ensures room { Keeps (L.room part.old) (L.room part.new) }
    ensures cause { HasCause (L.fault_count part.old) (L.fault_count part.new) result }
    ensures device { L.device part.new ≡ L.device part.old }
{
    let size = entry_words(part)?.head.size;
    if size > page.len() as u64 {
        return Ok(None);
    }
    Ok(Some(read_piece(part, page)?))
}

// Writes to one of the stores.
fn write_piece<B: Backing>(
    stores: &mut [B],
    file: usize,
    at: u64,
    bytes: &[u8],
) -> Result<(), StoreError>
    requires { file < length stores.old }
    ensures one { ChangesAtMostOne (map B.history stores.old) (map B.history stores.new) }
    ensures torn { RowTells (map B.history stores.old) (λ was. RowTells (map B.history stores.new)
        (LeftOrOneTorn file at (length bytes.now) was)) }
    ensures done { OnOk result (RowTells (map B.history stores.old) (λ was. RowTells (map B.history stores.new)
        (OneWritten file at bytes.now was))) }
    ensures tells { AllTell (map B.history stores.old) → AllTell (map B.history stores.new) }
    ensures cause { HasWriteCause (sum_by B.fault_count stores.old) (sum_by B.fault_count stores.new) result }
    ensures devices { map B.device stores.new ≡ map B.device stores.old }
{
    stores[file].pwrite(at, bytes)
}

/// Syncs each store, in rising number, up to the first that fails. At each moment a power failure leaves nothing of the
/// stores that it might not have left before.
pub(crate) fn sync_all<B: Backing>(stores: &mut [B]) -> Result<(), StoreFault>
    ensures moments { RowTells (map B.history stores.old) (λ was. ThroughoutRow (LeaveNoMore was) (map B.history stores.old) (map B.history stores.new)) }
    ensures synced { OnOk result (RowTells (map B.history stores.old) (λ was. RowTells (map B.history stores.new) (λ now.
        now ≡ map (after_store_step Sync) was))) }
    ensures quiet { OnOk result (All (λ store. Tells (B.history store) IsQuietStore) stores.new) }
    ensures seen { RowTells (map B.history stores.old) (λ was. RowTells (map B.history stores.new) (λ now. files_of now ≡ files_of was)) }
    ensures tells { AllTell (map B.history stores.old) → AllTell (map B.history stores.new) }
    ensures cause { HasCause (sum_by B.fault_count stores.old) (sum_by B.fault_count stores.new) result }
    ensures devices { map B.device stores.new ≡ map B.device stores.old }
{
    for store in stores.iter_mut() {
        store.sync()?;
    }
    Ok(())
}
