//! The look at a region of a bench.
ghost use Rattle.std.specs.Prelude.{◌≡◌, ◌+◌, ℕ, List, [], false, true, length, map, sum_by, All, Err, IfOk, IfSome, OnOk};
ghost use Rattle.nv_plain.specs.Faults.{saturated};
ghost use Rattle.nv_plain.specs.Layouts.{layout_of};
ghost use Rattle.nv_plain.specs.Recovered.{region_files};
ghost use Rattle.nv_pmem.specs.Moments.{Tells};
ghost use Rattle.nv_pmem.specs.RowStates.{AreNow};
ghost use Rattle.nv_pmem.specs.Rows.{RowTells, AreOnlyRead, row_words};
ghost use Rattle.nv_bench.specs.Benches.{with_faults};
ghost use Rattle.nv_bench.specs.Holding.{IsQuietHolding};
ghost use Rattle.nv_store.specs.Store.{Store};
ghost use Rattle.nv_header.specs.Heads.{IsHeadOf, HeadIsWithinLimits, header_image};
ghost use Rattle.nv_header.specs.Laws.{HasSpare};
ghost use Rattle.nv_header.specs.Needs.{header_history, header_lines_in, HasLines};
ghost use Rattle.nv_recover.specs.Standing.{files_of};
ghost use Rattle.nv_open.specs.Causes.{OpenHasCause};
ghost use Rattle.nv_open.specs.Held.{files_named, header_names, names_opened, told_after};
ghost use Rattle.nv_open.specs.Looking.{HasLentBy, ShowsFiles, ShowsRegion, names_until, told_by};
ghost use Rattle.nv_open.specs.Refusals.{IsRefusedFor, IsBadHeader, IsBadLog};
ghost use Rattle.nv_open.specs.declared.error.OpenError.TheVariants as error;

use crate::OpenError;
use crate::header::read_header;
use crate::stores::open_stores;
use nv_bench::Bench;
use nv_header::{Head, needed_lines_make_parts};
use nv_look::{Text, look, look_files};
use nv_pmem::{Lines, images_follow_calls};
use nv_recover::images_stand_for_files;
use nv_store::Backing;
use std::alloc::Global;

/// Shows the region of a bench as it stands, of whatever version: what its header says, and what its log holds. A region with no part, or a blank one, is
/// refused; one of whose log an entry is bad isn't. Nothing of the bench is changed, whichever answer came.
pub fn look_at_region<T: Bench>(alloc: Global, bench: &mut T) -> Result<Text, OpenError>
    requires closed { (T.state bench.old).is_open ≡ false }
    requires home { (T.state bench.old).lent ≡ [] }
    requires quiet { IfSome (T.state bench.old).told IsQuietHolding }
    ensures kept { T.state bench.new ≡ with_faults (T.state bench.new).faults (T.state bench.old) }
    ensures text { IfOk result (λ text. IfSome (T.state bench.old).told (λ holding. ShowsRegion holding.parts [] text)) }
    ensures refused { (why : _) → result ≡ Err (error.Refused why)
        → IfSome (T.state bench.old).told (λ holding. IsRefusedFor holding.parts why × IsBadHeader why) }
    ensures cause { OpenHasCause (T.state bench.old).faults (T.state bench.new).faults result }
{
    images_follow_calls();
    let mut parts = bench.open_region(None)?;
    let text = look_at_parts(alloc, &mut parts);
    bench.give_back(parts, Vec::new(alloc));
    text
}

/// As [`look_at_region`], with the files that `recover_region` would leave, for which their stores are opened. Where that would refuse
/// a bad entry, so does this. All devices are left as they were, but that the stores stand behind the others.
pub fn look_at_files<T: Bench>(alloc: Global, bench: &mut T) -> Result<Text, OpenError>
    requires closed { (T.state bench.old).is_open ≡ false }
    requires home { (T.state bench.old).lent ≡ [] }
    requires quiet { IfSome (T.state bench.old).told IsQuietHolding }
    ensures back { T.state bench.new ≡ record (T.state bench.old) { told = (T.state bench.new).told; faults = (T.state bench.new).faults } }
    ensures kept { (count : ℕ) × ((T.state bench.new).told ≡ told_by (names_until count) (T.state bench.old).told) }
    ensures all { OnOk result ((T.state bench.new).told ≡ told_by header_names (T.state bench.old).told) }
    ensures text { IfOk result (λ text. IfSome (T.state bench.old).told (λ holding.
        ShowsFiles holding.parts (files_named holding.parts (header_names holding.parts) holding.stores) text)) }
    ensures refused { (why : _) → result ≡ Err (error.Refused why) → IfSome (T.state bench.old).told (λ holding. IsRefusedFor holding.parts why) }
    ensures unwritten { (why : _) → result ≡ Err (error.Refused why) → (T.state bench.new).told ≡ told_after why (T.state bench.old).told }
    ensures cause { OpenHasCause (T.state bench.old).faults (T.state bench.new).faults result }
{
    images_follow_calls();
    let mut parts = bench.open_region(None)?;
    let mut stores = Vec::new(alloc);
    let text = look_at_lent(alloc, bench, &mut parts, &mut stores);
    bench.give_back(parts, stores);
    text
}

// Shows a region.
fn look_at_parts<L: Lines>(alloc: Global, parts: &mut [L]) -> Result<Text, OpenError>
    requires spare { All HasSpare (map L.room parts.old) }
    ensures text { IfOk result (λ text. RowTells (map L.history parts.old) (λ told. ShowsRegion told [] text)) }
    ensures refused { (why : _) → result ≡ Err (error.Refused why) → RowTells (map L.history parts.old) (λ told. IsRefusedFor told why × IsBadHeader why) }
    ensures read { AreOnlyRead L.history L.room L.device parts.old parts.new }
    ensures cause { OpenHasCause (sum_by L.fault_count parts.old) (sum_by L.fault_count parts.new) result }
{
    needed_lines_make_parts();
    let head = read_header(alloc, parts)?;
    Ok(look(alloc, &head, parts)?)
}

// Shows a region that is lent, with its files, whose stores are opened first. Whichever answer came, these are those that stand there
// then.
fn look_at_lent<T: Bench>(
    alloc: Global,
    bench: &mut T,
    parts: &mut [T::Part],
    stores: &mut Vec<T::Store>,
) -> Result<Text, OpenError>
    requires open { (T.state bench.old).is_open ≡ true }
    requires home { (T.state bench.old).lent ≡ [] }
    requires none { stores.old.items ≡ [] }
    requires spare { All HasSpare (map T.Part.room parts.old) }
    ensures lent { (count : ℕ) × HasLentBy T.Part.history T.Store.history (names_until count) (T.state bench.old) (T.state bench.new)
        parts.old stores.new.items }
    ensures all { OnOk result (HasLentBy T.Part.history T.Store.history header_names (T.state bench.old) (T.state bench.new)
        parts.old stores.new.items) }
    ensures opened { (why : _) → result ≡ Err (error.Refused why)
        → HasLentBy T.Part.history T.Store.history (names_opened why) (T.state bench.old) (T.state bench.new) parts.old stores.new.items }
    ensures text { IfOk result (λ text. IfSome (T.state bench.old).told (λ holding. RowTells (map T.Part.history parts.old) (λ told.
        ShowsFiles told (files_named told (header_names told) holding.stores) text))) }
    ensures refused { (why : _) → result ≡ Err (error.Refused why)
        → RowTells (map T.Part.history parts.old) (λ told. IsRefusedFor told why) }
    ensures read { AreOnlyRead T.Part.history T.Part.room T.Part.device parts.old parts.new }
    ensures cause { OpenHasCause (saturated ((T.state bench.old).faults + sum_by T.Part.fault_count parts.old))
        (saturated ((T.state bench.new).faults + (sum_by T.Part.fault_count parts.new + sum_by T.Store.fault_count stores.new.items))) result }
{
    let head = read_header(alloc, parts)?;
    open_stores(bench, &head.names, stores)?;
    look_at_log(alloc, &head, parts, stores)
}

// Shows a region whose header says this, with the files that a recovery would leave in these stores.
fn look_at_log<L: Lines, B: Backing>(
    alloc: Global,
    head: &Head,
    parts: &mut [L],
    stores: &mut [B],
) -> Result<Text, OpenError>
    requires limits { HeadIsWithinLimits (layout_of head.now.version) head.now }
    requires head { Tells (header_history (map L.history parts.old)) (λ now.
        IsHeadOf (layout_of head.now.version) (header_lines_in (map L.room parts.old)) (header_image now) head.now) }
    requires lines { HasLines (layout_of head.now.version) head.now.geometry.page head.now.geometry.entries (map L.room parts.old) }
    requires spare { All HasSpare (map L.room parts.old) }
    requires stores { length stores.old ≡ length head.now.names }
    ensures text { (was : List Store) → AreNow (map B.history stores.old) was → IfOk result (λ text. RowTells (map L.history parts.old) (λ told.
        ShowsFiles told (region_files (row_words told) (files_of was)) text)) }
    ensures refused { (why : _) → result ≡ Err (error.Refused why) → RowTells (map L.history parts.old) (λ told. IsRefusedFor told why × IsBadLog why) }
    ensures read { AreOnlyRead L.history L.room L.device parts.old parts.new }
    ensures stores_read { map B.history stores.new ≡ map B.history stores.old }
    ensures cause { OpenHasCause (sum_by L.fault_count parts.old + sum_by B.fault_count stores.old)
        (sum_by L.fault_count parts.new + sum_by B.fault_count stores.new) result }
{
    needed_lines_make_parts();
    images_stand_for_files();
    Ok(look_files(alloc, head, parts, stores)?)
}
