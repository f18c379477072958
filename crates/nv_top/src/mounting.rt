//! The mount of a run.
ghost use Rattle.std.specs.Prelude.{◌≡◌, ◌+◌, ◌<◌, List, [], length, map, sum_by, All, IfErr, IfOk};
ghost use Rattle.nv_plain.specs.Layouts.{mount_version};
ghost use Rattle.nv_pmem.specs.Moments.{Tells};
ghost use Rattle.nv_pmem.specs.Part.{Part};
ghost use Rattle.nv_pmem.specs.RowStates.{AreNow};
ghost use Rattle.nv_pmem.specs.Rows.{RowTells};
ghost use Rattle.nv_store.specs.Store.{IsQuietStore, Store};
ghost use Rattle.nv_recover.specs.Standing.{files_of};
ghost use Rattle.nv_open.specs.Unopened.{line_counts};
ghost use Rattle.nv_table.specs.state.Opened.{mount_of};
ghost use Rattle.nv_table.specs.state.States.{IsOf};
ghost use Rattle.nv_table.specs.state.Views.{first_view};
ghost use Rattle.nv_mount.specs.RisenCounts.{failed_before};
ghost use Rattle.nv_mount.specs.Telling.{mounted_lines};
ghost use Rattle.nv_trace.specs.Said.{said_place};
ghost use Rattle.nv_trace.specs.Shape.{IsWellFormed};
ghost use Rattle.nv_top.specs.Runs.{BeginsMount, HasCache, IsQuietSpare, basis_over};
ghost use Rattle.nv_top.specs.Stops.{StopHasCause};
ghost use Rattle.nv_words.specs.Words.{AreInLimits};
ghost use Rattle.nv_top.specs.declared.ending.Stop.TheVariants as stops;

use crate::ending::Stop;
use crate::names::open_fds;
use nv_header::Region;
use nv_mount::{Mount, Unopened};
use nv_pmem::Lines;
use nv_store::Backing;
use nv_table::Pass;
use nv_trace::Trace;
use nv_words::RunOptions;
use std::alloc::Global;

/// The devices of a region that was not mounted, and why not.
#[derive(Drop)]
pub(crate) struct Unmounted<L, B> {
    pub(crate) parts: Vec<L>,
    pub(crate) stores: Vec<B>,
    pub(crate) stop: Stop,
}

/// Mounts a region whose log is empty, with a store for each of its names, and opens the descriptors of a trace.
pub(crate) fn mount_over<L: Lines + Drop, B: Backing + Drop>(
    alloc: Global,
    region: Region<L>,
    stores: Vec<B>,
    options: RunOptions,
    trace: &Trace,
) -> Result<(Mount<L, B>, Pass<L, B>), Unmounted<L, B>>
    requires version { region.version ≡ mount_version }
    requires limits { AreInLimits options }
    requires stores { length stores.items ≡ length region.names }
    requires quiet { All (λ store. Tells (B.history store) IsQuietStore) stores.items }
    requires well_formed { IsWellFormed trace.now }
    requires known { All (λ name. said_place name region.names < length region.names) trace.now.names }
    ensures board { IfOk result (λ made. IsOf made.0.board made.1) }
    ensures new { IfOk result (λ made. made.1.view ≡ first_view made.0.board.opened) }
    ensures bare { IfOk result (λ made. made.1.now ≡ []) }
    ensures files { IfOk result (λ made. made.0.board.opened.sizes.files ≡ length region.names) }
    ensures cache { IfOk result (λ made. HasCache options.cache made.0) }
    ensures counts { IfOk result (λ made. failed_before made.1 ≡ sum_by L.fault_count region.parts.items + sum_by B.fault_count stores.items) }
    ensures begins { IfOk result (λ made. (parts : List Part) (now : List Store)
        → AreNow (map L.history region.parts.items) parts → AreNow (map B.history stores.items) now
        → BeginsMount (basis_over region options.pages (files_of now)) trace.now made.0 made.1) }
    ensures parts { IfOk result (λ made. 1 + made.0.board.opened.sizes.entries + length made.1.spare ≡ length region.parts.items) }
    ensures lines { IfOk result (λ made. RowTells (map L.history region.parts.items) (λ told.
        mounted_lines (mount_of made.0.board.opened) made.1.spare ≡ line_counts told)) }
    ensures spare { IfOk result (λ made. (parts : List Part) → AreNow (map L.history region.parts.items) parts → All IsQuietSpare made.1.spare) }
    ensures many { IfErr result (λ failed. length failed.parts.items ≡ length region.parts.items) }
    ensures count { IfErr result (λ failed. length failed.stores.items ≡ length stores.items) }
    ensures same_parts { IfErr result (λ failed. map L.history failed.parts.items ≡ map L.history region.parts.items) }
    ensures same_stores { IfErr result (λ failed. map B.history failed.stores.items ≡ map B.history stores.items) }
    ensures never { IfErr result (λ failed. (why : _) → ¬ (failed.stop ≡ stops.Region why)) }
    ensures cause { IfErr result (λ failed. StopHasCause (sum_by L.fault_count region.parts.items + sum_by B.fault_count stores.items)
        (sum_by L.fault_count failed.parts.items + sum_by B.fault_count failed.stores.items) failed.stop) }
{
    let Ok(fds) = open_fds(alloc, region.names().as_slice(), trace) else {
        return Err(Unmounted {
            parts: region.into_parts(),
            stores,
            stop: Stop::NoMemory,
        });
    };
    match Mount::open(alloc, region, stores, fds, options.pages, options.cache) {
        Ok(made) => Ok(made),
        Err(
            Unopened {
                region,
                stores,
                error,
            },
        ) => Err(Unmounted {
            parts: region.into_parts(),
            stores,
            stop: error.into(),
        }),
    }
}
