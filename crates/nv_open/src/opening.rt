//! The opening of a region of a bench.
ghost use Rattle.std.specs.Prelude.{◌≡◌, ℕ, List, ◌+◌, ◌<◌, ◌++◌, [], false, true, length, map, option_map, sum_by, All, None, Some, Err, IfOk, IfErr, IfSome};
ghost use Rattle.nv_plain.specs.Faults.{saturated};
ghost use Rattle.nv_plain.specs.Layouts.{mount_layout, mount_version};
ghost use Rattle.nv_pmem.specs.Moments.{Tells};
ghost use Rattle.nv_pmem.specs.Rows.{RowTells};
ghost use Rattle.nv_bench.specs.Benches.{with_faults};
ghost use Rattle.nv_bench.specs.Holding.{IsQuietHolding};
ghost use Rattle.nv_bench.specs.Opening.{is_blank, opened as opened_parts};
ghost use Rattle.nv_store.specs.Store.{IsQuietStore};
ghost use Rattle.nv_header.specs.Changes.{parts_after_format};
ghost use Rattle.nv_recover.specs.Telling.{AllTell};
ghost use Rattle.nv_open.specs.Adding.{AreWanted, all_names};
ghost use Rattle.nv_open.specs.Begun.{IsRegionOpened, IsNotOpened};
ghost use Rattle.nv_open.specs.Causes.{ErrorHasCause, RegionHasCause};
ghost use Rattle.nv_open.specs.Held.{told_after};
ghost use Rattle.nv_open.specs.Layers.{AreLentParts, HasAdded, HasMountHeader, HasMountLines, HasNotAdded, IsBegunOpen, IsNotBegun, IsOpenedOpen, IsUnopened};
ghost use Rattle.nv_open.specs.Lending.{HasLent, HasLentMore, all_lent};
ghost use Rattle.nv_open.specs.Unopened.{IsGood, RestsUnopened, StandForFiles, StandsUnopened, StaysUntouched, TellsOf, as_opened, line_counts};
ghost use Rattle.nv_open.specs.declared.error.OpenError.TheVariants as error;
ghost use Rattle.nv_open.specs.declared.error.Refusal.TheVariants as refusal;

use crate::adding::{add_names, missing_names};
use crate::formatting::{are_blank, format_parts};
use crate::header::check_mount_header;
use crate::migrating::carry_over;
use crate::recovering::recover_parts;
use crate::stores::open_stores;
use crate::{OpenError, Opened, Refusal};
use nv_bench::Bench;
use nv_header::{Names, Region};
use nv_plain::limits;
use nv_pmem::{Geometry, images_follow_calls, rows_have_states};
use std::alloc::Global;

/// The most files of a region.
const FILE_LIMIT: usize = limits::FILE_LIMIT as usize;

/// Opens the region of a bench, with the stores of its files. A blank one is formatted with this geometry, and any other one is
/// recovered, and keeps its own. One of an earlier version than mounts have is then carried over to that: at each moment, whatever a
/// power failure leaves of it is a header of one of the two versions, with the same names and sizes, and stands for the same files.
/// Then each name that is wanted and isn't there is added.
pub fn open<T: Bench>(
    alloc: Global,
    bench: &mut T,
    geometry: Geometry,
    wanted: &Names,
) -> Result<Opened<T::Part, T::Store>, OpenError>
    requires closed { (T.state bench.old).is_open ≡ false }
    requires home { (T.state bench.old).lent ≡ [] }
    requires quiet { IfSome (T.state bench.old).told IsQuietHolding }
    requires wanted { AreWanted mount_layout wanted.now }

    // At `Ok`.
    ensures lent { IfOk result (λ opened. T.state bench.new
        ≡ with_faults (T.state bench.new).faults (all_lent opened.region.names (T.state bench.old))) }
    ensures one_each { IfOk result (λ opened. length opened.stores.items ≡ length opened.region.names) }
    ensures known { IfOk result (λ opened. (known : List (List ℕ)) × (opened.region.names ≡ all_names known wanted.now)) }
    ensures opened { IfOk result (λ opened. IfSome (T.state bench.old).told (λ holding. IsRegionOpened holding geometry wanted.now
        opened.region.geometry.page opened.region.geometry.entries opened.region.names opened.region.next (map T.Store.history opened.stores.items))) }
    ensures quiet { IfOk result (λ opened. All (λ store. Tells (T.Store.history store) IsQuietStore) opened.stores.items) }
    ensures tell { IfOk result (λ opened. IfSome (T.state bench.old).told (λ holding. AllTell (map T.Part.history opened.region.parts.items))) }
    ensures lines { IfOk result (λ opened. IfSome (T.state bench.old).told (λ holding. RowTells (map T.Part.history opened.region.parts.items) (λ now.
        line_counts now ≡ line_counts (opened_parts (Some geometry) holding.parts)))) }
    ensures counts { IfOk result (λ opened. (T.state bench.old).faults ≡ saturated ((T.state bench.new).faults
        + sum_by T.Part.fault_count opened.region.parts.items + sum_by T.Store.fault_count opened.stores.items)) }

    // At an error all is given back.
    ensures back { IfErr result (λ why. T.state bench.new ≡ record (T.state bench.old) { told = (T.state bench.new).told; faults = (T.state bench.new).faults }) }
    ensures refused { (why : _) → result ≡ Err (error.Refused why)
        → IfSome (T.state bench.old).told (λ holding. IsNotOpened holding.parts geometry wanted.now why) }
    ensures unwritten { (why : _) → result ≡ Err (error.Refused why) → ¬ (why ≡ refusal.TooManyFiles)
        → (T.state bench.new).told ≡ told_after why (option_map (as_opened geometry) (T.state bench.old).told) }
    ensures rests { result ≡ Err (error.Refused refusal.TooManyFiles)
        → IfSome (T.state bench.old).told (λ was. TellsOf (RestsUnopened was geometry wanted.now) (T.state bench.new).told) }
    ensures standing { IfErr result (λ why. IfSome (T.state bench.old).told (λ was. StandForFiles was.parts
        → TellsOf (StandsUnopened was geometry wanted.now) (T.state bench.new).told)) }
    ensures untouched { IfErr result (λ why. IfSome (T.state bench.old).told (λ was. is_blank was.parts ≡ false → ¬ (IsGood was.parts)
        → TellsOf (StaysUntouched geometry was) (T.state bench.new).told)) }
    ensures untold { (T.state bench.old).told ≡ None → (T.state bench.new).told ≡ None }
    ensures cause { IfErr result (ErrorHasCause (T.state bench.old).faults (T.state bench.new).faults) }
{
    images_follow_calls();
    let parts = bench.open_region(Some(geometry))?;
    let mut stores = Vec::new(alloc);
    match open_parts(alloc, bench, geometry, wanted, parts, &mut stores) {
        Ok(region) => Ok(Opened { region, stores }),
        Err((parts, error)) => {
            bench.give_back(parts, stores);
            Err(error)
        }
    }
}

// Opens a region that is lent, with the stores of its files and of those that are wanted.
fn open_parts<T: Bench>(
    alloc: Global,
    bench: &mut T,
    geometry: Geometry,
    wanted: &Names,
    parts: Vec<T::Part>,
    stores: &mut Vec<T::Store>,
) -> Result<Region<T::Part>, (Vec<T::Part>, OpenError)>
    requires given { AreLentParts T.Part.history T.Part.room (T.state bench.old) parts.items }
    requires none { stores.old.items ≡ [] }
    requires long { IfSome (T.state bench.old).told (λ holding. RowTells (map T.Part.history parts.items) (HasMountLines geometry)) }
    requires wanted { AreWanted mount_layout wanted.now }
    ensures lent { HasLent (length stores.new.items) (T.state bench.old) (T.state bench.new) }
    ensures cause { RegionHasCause (saturated ((T.state bench.old).faults + sum_by T.Part.fault_count parts.items))
        (saturated ((T.state bench.new).faults + (sum_by T.Part.fault_count (parts_after_format result) + sum_by T.Store.fault_count stores.new.items)))
        result }
    ensures version { IfOk result (λ region. region.version ≡ mount_version) }
    ensures opened { IfOk result (λ region. IsOpenedOpen T.Part.history T.Store.history (T.state bench.old) (T.state bench.new) parts.items stores.new.items
        geometry wanted.now region.geometry.page region.geometry.entries region.names region.next region.parts.items) }
    ensures given_up { IfErr result (λ failed. IsUnopened T.Part.history T.Store.history (T.state bench.old) (T.state bench.new) parts.items failed.0.items stores.new.items
        geometry wanted.now failed.1) }
{
    rows_have_states();
    match begin(alloc, bench, geometry, parts, stores) {
        Ok(region) => add_wanted(alloc, bench, wanted, region, stores),
        Err(failed) => Err(failed),
    }
}

// Formats a region that is lent where it is blank, and where it isn't recovers it, with the stores of its files, and carries it over.
fn begin<T: Bench>(
    alloc: Global,
    bench: &mut T,
    geometry: Geometry,
    parts: Vec<T::Part>,
    stores: &mut Vec<T::Store>,
) -> Result<Region<T::Part>, (Vec<T::Part>, OpenError)>
    requires given { AreLentParts T.Part.history T.Part.room (T.state bench.old) parts.items }
    requires none { stores.old.items ≡ [] }
    requires long { IfSome (T.state bench.old).told (λ holding. RowTells (map T.Part.history parts.items) (HasMountLines geometry)) }
    ensures lent { HasLent (length stores.new.items) (T.state bench.old) (T.state bench.new) }
    ensures cause { RegionHasCause (saturated ((T.state bench.old).faults + sum_by T.Part.fault_count parts.items))
        (saturated ((T.state bench.new).faults + (sum_by T.Part.fault_count (parts_after_format result) + sum_by T.Store.fault_count stores.new.items)))
        result }
    ensures version { IfOk result (λ region. region.version ≡ mount_version) }
    ensures begun { IfOk result (λ region. IsBegunOpen T.Part.history T.Store.history (T.state bench.old) (T.state bench.new) parts.items stores.new.items
        geometry region.geometry.page region.geometry.entries region.names region.next region.parts.items) }
    ensures given_up { IfErr result (λ failed. IsNotBegun T.Part.history T.Store.history (T.state bench.old) (T.state bench.new) parts.items failed.0.items stores.new.items geometry failed.1) }
{
    let mut parts = parts;
    images_follow_calls();
    match are_blank(&mut parts) {
        Ok(true) => format_parts(alloc, geometry, parts),
        Ok(false) => begin_kept(alloc, bench, parts, stores),
        Err(fault) => Err((parts, fault.into())),
    }
}

// Recovers a region that is lent, with the stores of its files, and makes it one of the version that a mount opens over. Whether its
// header has the lines for that is tested first, so that nothing is written of one that can't be carried over.
fn begin_kept<T: Bench>(
    alloc: Global,
    bench: &mut T,
    parts: Vec<T::Part>,
    stores: &mut Vec<T::Store>,
) -> Result<Region<T::Part>, (Vec<T::Part>, OpenError)>
    requires given { AreLentParts T.Part.history T.Part.room (T.state bench.old) parts.items }
    requires none { stores.old.items ≡ [] }
    requires kept { RowTells (map T.Part.history parts.items) (λ told. is_blank told ≡ false) }
    requires long { IfSome (T.state bench.old).told (λ holding. RowTells (map T.Part.history parts.items) HasMountHeader) }
    ensures lent { HasLent (length stores.new.items) (T.state bench.old) (T.state bench.new) }
    ensures cause { RegionHasCause (saturated ((T.state bench.old).faults + sum_by T.Part.fault_count parts.items))
        (saturated ((T.state bench.new).faults + (sum_by T.Part.fault_count (parts_after_format result) + sum_by T.Store.fault_count stores.new.items)))
        result }
    ensures version { IfOk result (λ region. region.version ≡ mount_version) }
    ensures begun { IfOk result (λ region. (geometry : _) → IsBegunOpen T.Part.history T.Store.history (T.state bench.old) (T.state bench.new) parts.items stores.new.items
        geometry region.geometry.page region.geometry.entries region.names region.next region.parts.items) }
    ensures given_up { IfErr result (λ failed. (geometry : _) → IsNotBegun T.Part.history T.Store.history (T.state bench.old) (T.state bench.new) parts.items failed.0.items
        stores.new.items geometry failed.1) }
{
    rows_have_states();
    let mut parts = parts;
    if let Err(error) = check_mount_header(alloc, &mut parts) {
        return Err((parts, error));
    }
    match recover_parts(alloc, bench, parts, stores) {
        Ok((region, _found)) => carry_over(region),
        Err(failed) => Err(failed),
    }
}

// Adds the wanted names that a region lacks, and opens their stores.
fn add_wanted<T: Bench>(
    alloc: Global,
    bench: &mut T,
    wanted: &Names,
    region: Region<T::Part>,
    stores: &mut Vec<T::Store>,
) -> Result<Region<T::Part>, (Vec<T::Part>, OpenError)>
    requires version { region.version ≡ mount_version }
    requires open { (T.state bench.old).is_open ≡ true }
    requires names { (T.state bench.old).lent ≡ region.names }
    requires one_each { length stores.old.items ≡ length region.names }
    requires wanted { AreWanted mount_layout wanted.now }
    requires synced { IfSome (T.state bench.old).told (λ holding. All (λ named. IsQuietStore named.store) holding.stores) }
    ensures lent { HasLentMore (length stores.old.items) (length stores.new.items) (T.state bench.old) (T.state bench.new) }
    ensures cause { RegionHasCause (saturated ((T.state bench.old).faults + (sum_by T.Part.fault_count region.parts.items + sum_by T.Store.fault_count stores.old.items)))
        (saturated ((T.state bench.new).faults + (sum_by T.Part.fault_count (parts_after_format result) + sum_by T.Store.fault_count stores.new.items)))
        result }
    ensures version { IfOk result (λ added. added.version ≡ mount_version) }
    ensures added { IfOk result (λ added. HasAdded T.Part.history T.Store.history (T.state bench.old) (T.state bench.new) region.geometry added.geometry
        region.names wanted.now added.names region.next added.next region.parts.items added.parts.items stores.old.items stores.new.items) }
    ensures given_up { IfErr result (λ failed. HasNotAdded T.Part.history T.Store.history (T.state bench.old) (T.state bench.new) region.geometry.page region.geometry.entries
        region.names wanted.now region.next region.parts.items failed.0.items stores.old.items stores.new.items failed.1) }
{
    rows_have_states();
    let Ok(missing) = missing_names(alloc, region.names(), wanted) else {
        return Err((region.into_parts(), OpenError::NoMemory));
    };
    if region.names().len() + missing.len() > FILE_LIMIT {
        return Err((
            region.into_parts(),
            OpenError::Refused(Refusal::TooManyFiles),
        ));
    }
    if let Err(error) = open_stores(bench, &missing, stores) {
        return Err((region.into_parts(), error.into()));
    }
    add_names(alloc, region, &missing)
}
