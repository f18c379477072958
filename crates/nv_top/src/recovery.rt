//! The recovery of a region, and its report.
ghost use Rattle.std.specs.Prelude.{◌≡◌, ℕ, List, length, map, sum_by, Err, IfOk, IfSome};
ghost use Rattle.nv_plain.specs.Layouts.{Layout};
ghost use Rattle.nv_pmem.specs.Part.{Part};
ghost use Rattle.nv_pmem.specs.RowStates.{AreNow};
ghost use Rattle.nv_store.specs.Store.{Store};
ghost use Rattle.nv_header.specs.Needs.{HasLines};
ghost use Rattle.nv_header.specs.Regions.{HasParts};
ghost use Rattle.nv_recover.specs.Standing.{files_of};
ghost use Rattle.nv_open.specs.Held.{told_after};
ghost use Rattle.nv_open.specs.Refusals.{IsRefusedFor, rooms_of};
ghost use Rattle.nv_open.specs.Unopened.{HasHeader, IsGood, IsUntouched, StandsAsBefore, TellsOf};
ghost use Rattle.nv_top.specs.Commands.{HasRecovered, IsGivenBack};
ghost use Rattle.nv_top.specs.Ready.{IsAtHome};
ghost use Rattle.nv_runner.specs.Faithful.{named};
ghost use Rattle.nv_top.specs.Reports.{recovery_text};
ghost use Rattle.nv_top.specs.Stops.{CountHasCause};
ghost use Rattle.nv_top.specs.declared.ending.Stop.TheVariants as stops;

use crate::ending::Stop;
use crate::files::read_files;
use crate::text::recovery_text_of;
use nv_bench::Bench;
use nv_header::Names;
use nv_open::{Restored, recover_region};
use nv_pmem::Lines;
use nv_recover::{Recovered, images_stand_for_files};
use nv_store::Backing;
use std::alloc::Global;

/// Recovers the region of a bench, and gives all back. The text of the report.
pub(crate) fn recover<T: Bench>(alloc: Global, bench: &mut T) -> Result<Vec<u8>, Stop>
    requires at_home { IsAtHome (T.state bench.old) }
    ensures back { IsGivenBack (T.state bench.old) (T.state bench.new) }
    ensures recovered { IfOk result (λ text. IfSome (T.state bench.old).told (λ holding.
        HasRecovered holding (T.state bench.new).told text.items)) }
    ensures refused { (why : _) → result ≡ Err (stops.Region why) → IfSome (T.state bench.old).told (λ holding. IsRefusedFor holding.parts why) }
    ensures unwritten { (why : _) → result ≡ Err (stops.Region why) → (T.state bench.new).told ≡ told_after why (T.state bench.old).told }
    ensures standing { IfSome (T.state bench.old).told (λ was. HasHeader was.parts → TellsOf (StandsAsBefore was) (T.state bench.new).told) }
    ensures untouched { IfSome (T.state bench.old).told (λ was. ¬ (IsGood was.parts) → TellsOf (IsUntouched was) (T.state bench.new).told) }
    ensures cause { CountHasCause (T.state bench.old).faults (T.state bench.new).faults result }
{
    images_stand_for_files();
    let restored = recover_region(alloc, bench)?;
    let Restored {
        region,
        mut stores,
        found,
    } = restored;
    let report = show(alloc, &found, region.names(), &mut stores);
    let parts = region.into_parts();
    parts_have_lines(&parts);
    bench.give_back(parts, stores);
    report
}

/// The parts of a region that tell have the lines of its layout, as their rooms have.
pub(crate) fn parts_have_lines<L: Lines>(parts: &Vec<L>)
    ensures { (layout : Layout) (page entries : ℕ) (now : List Part) → HasParts layout page entries (map L.room parts.now.items)
        → AreNow (map L.history parts.now.items) now → HasLines layout page entries (rooms_of now) }
{
    let _parts = parts;
}

// The report of a recovery whose files the stores hold.
fn show<B: Backing>(
    alloc: Global,
    found: &Recovered,
    names: &Names,
    stores: &mut Vec<B>,
) -> Result<Vec<u8>, Stop>
    requires { length stores.old.items ≡ length names.now }
    ensures text { IfOk result (λ text. (now : List Store) → AreNow (map B.history stores.old.items) now
        → text.items ≡ recovery_text (record {
          first = found.now.first;
          next = found.now.next;
          groups = length found.now.groups;
          files = named names.now (files_of now);
        })) }
    ensures histories { map B.history stores.new.items ≡ map B.history stores.old.items }
    ensures never { (why : _) → ¬ (result ≡ Err (stops.Region why)) }
    ensures cause { CountHasCause (sum_by B.fault_count stores.old.items) (sum_by B.fault_count stores.new.items) result }
{
    let files = read_files(alloc, stores)?;
    let text = recovery_text_of(alloc, found, names.as_slice(), &files)?;
    Ok(text)
}
