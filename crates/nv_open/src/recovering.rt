//! The recovery of a region of a bench.
ghost use Rattle.std.specs.Prelude.{◌≡◌, ◌+◌, ◌++◌, [], false, true, length, map, sum_by, All, None, Err, IfOk, IfErr, IfSome};
ghost use Rattle.nv_plain.specs.Faults.{saturated};
ghost use Rattle.nv_plain.specs.Images.{version_in};
ghost use Rattle.nv_pmem.specs.Moments.{Tells};
ghost use Rattle.nv_pmem.specs.Rows.{RowTells};
ghost use Rattle.nv_bench.specs.Benches.{with_faults};
ghost use Rattle.nv_bench.specs.Holding.{IsQuietHolding};
ghost use Rattle.nv_store.specs.Store.{IsQuietStore};
ghost use Rattle.nv_recover.specs.Answers.{answer_of, parts_after};
ghost use Rattle.nv_recover.specs.Changes.{StayParts};
ghost use Rattle.nv_recover.specs.Telling.{AllTell};
ghost use Rattle.nv_open.specs.Causes.{ErrorHasCause, OpenHasCause};
ghost use Rattle.nv_open.specs.Held.{HoldFiles, IsRecovered, files_named, told_after};
ghost use Rattle.nv_open.specs.Layers.{AreLentParts, IsNotRecovered, IsRecoveredOpen};
ghost use Rattle.nv_open.specs.Lending.{HasLent, all_lent};
ghost use Rattle.nv_open.specs.Refusals.{IsRefusedFor, head_image};
ghost use Rattle.nv_open.specs.Unopened.{HasHeader, IsGood, IsUntouched, StandsAsBefore, TellsOf, line_counts};
ghost use Rattle.nv_open.specs.declared.error.OpenError.TheVariants as error;

use crate::header::read_header;
use crate::log::recover_log;
use crate::stores::open_stores;
use crate::{OpenError, Restored};
use nv_bench::Bench;
use nv_header::Region;
use nv_pmem::images_follow_calls;
use nv_recover::Recovered;
use std::alloc::Global;

/// Opens the region of a bench as it stands, with the stores of its files, and recovers it. A region with no part, or a
/// blank one, is refused. It keeps the version that it has: of a header no version is rewritten.
pub fn recover_region<T: Bench>(
    alloc: Global,
    bench: &mut T,
) -> Result<Restored<T::Part, T::Store>, OpenError>
    requires closed { (T.state bench.old).is_open ≡ false }
    requires home { (T.state bench.old).lent ≡ [] }
    requires quiet { IfSome (T.state bench.old).told IsQuietHolding }

    // At `Ok`.
    ensures lent { IfOk result (λ done. T.state bench.new
        ≡ with_faults (T.state bench.new).faults (all_lent done.region.names (T.state bench.old))) }
    ensures one_each { IfOk result (λ done. length done.stores.items ≡ length done.region.names) }
    ensures version { IfOk result (λ done. IfSome (T.state bench.old).told (λ holding. done.region.version ≡ version_in (head_image holding.parts))) }
    ensures recovered { IfOk result (λ done. IfSome (T.state bench.old).told (λ holding. IsRecovered holding.parts
        done.region.geometry.page done.region.geometry.entries done.region.names done.region.next done.found)) }
    ensures files { IfOk result (λ done. IfSome (T.state bench.old).told (λ holding. HoldFiles (map T.Store.history done.stores.items)
        (files_named holding.parts done.region.names holding.stores))) }
    ensures quiet { IfOk result (λ done. All (λ store. Tells (T.Store.history store) IsQuietStore) done.stores.items) }
    ensures tell { IfOk result (λ done. IfSome (T.state bench.old).told (λ holding. AllTell (map T.Part.history done.region.parts.items))) }
    ensures lines { IfOk result (λ done. IfSome (T.state bench.old).told (λ holding. RowTells (map T.Part.history done.region.parts.items) (λ now.
        line_counts now ≡ line_counts holding.parts))) }
    ensures counts { IfOk result (λ done. (T.state bench.old).faults ≡ saturated ((T.state bench.new).faults
        + sum_by T.Part.fault_count done.region.parts.items + sum_by T.Store.fault_count done.stores.items)) }

    // At an error all is given back.
    ensures back { IfErr result (λ why. T.state bench.new ≡ record (T.state bench.old) { told = (T.state bench.new).told; faults = (T.state bench.new).faults }) }
    ensures refused { (why : _) → result ≡ Err (error.Refused why)
        → IfSome (T.state bench.old).told (λ holding. IsRefusedFor holding.parts why) }
    ensures unwritten { (why : _) → result ≡ Err (error.Refused why)
        → (T.state bench.new).told ≡ told_after why (T.state bench.old).told }
    ensures standing { IfErr result (λ why. IfSome (T.state bench.old).told (λ was. HasHeader was.parts → TellsOf (StandsAsBefore was) (T.state bench.new).told)) }
    ensures untouched { IfErr result (λ why. IfSome (T.state bench.old).told (λ was. ¬ (IsGood was.parts) → TellsOf (IsUntouched was) (T.state bench.new).told)) }
    ensures untold { (T.state bench.old).told ≡ None → (T.state bench.new).told ≡ None }
    ensures cause { IfErr result (ErrorHasCause (T.state bench.old).faults (T.state bench.new).faults) }
{
    images_follow_calls();
    let parts = bench.open_region(None)?;
    let mut stores = Vec::new(alloc);
    match recover_parts(alloc, bench, parts, &mut stores) {
        Ok((region, found)) => Ok(Restored {
            region,
            stores,
            found,
        }),
        Err((parts, error)) => {
            bench.give_back(parts, stores);
            Err(error)
        }
    }
}

/// Recovers a region that is lent, with the stores of its files, which are opened first. Whichever answer came, these are
/// those that stand there then. Parts that have the room of a region of a later version have it still, so that one can be
/// made of it.
pub(crate) fn recover_parts<T: Bench>(
    alloc: Global,
    bench: &mut T,
    parts: Vec<T::Part>,
    stores: &mut Vec<T::Store>,
) -> Result<(Region<T::Part>, Recovered), (Vec<T::Part>, OpenError)>
    requires given { AreLentParts T.Part.history T.Part.room (T.state bench.old) parts.items }
    requires none { stores.old.items ≡ [] }
    ensures lent { HasLent (length stores.new.items) (T.state bench.old) (T.state bench.new) }
    ensures cause { OpenHasCause (saturated ((T.state bench.old).faults + sum_by T.Part.fault_count parts.items))
        (saturated ((T.state bench.new).faults + (sum_by T.Part.fault_count (parts_after result) + sum_by T.Store.fault_count stores.new.items)))
        (answer_of result) }
    ensures version { IfOk result (λ done. RowTells (map T.Part.history parts.items) (λ told. done.0.version ≡ version_in (head_image told))) }
    ensures recovered { IfOk result (λ done. IsRecoveredOpen T.Part.history T.Store.history (T.state bench.old) (T.state bench.new) parts.items stores.new.items
        done.0.geometry.page done.0.geometry.entries done.0.names done.0.next done.0.parts.items done.1) }
    ensures rooms { IfOk result (λ done. StayParts (map T.Part.room parts.items) (map T.Part.room done.0.parts.items)) }
    ensures given_up { IfErr result (λ failed. IsNotRecovered T.Part.history T.Store.history (T.state bench.old) (T.state bench.new) parts.items failed.0.items stores.new.items failed.1) }
{
    let mut parts = parts;
    let head = match read_header(alloc, &mut parts) {
        Ok(head) => head,
        Err(error) => return Err((parts, error)),
    };
    if let Err(error) = open_stores(bench, &head.names, stores) {
        return Err((parts, error.into()));
    }
    recover_log(alloc, head, parts, stores)
}
