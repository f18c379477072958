//! The mount: the board of a region and its stores, and the descriptors of its files.
ghost use Rattle.std.specs.Prelude.{◌≡◌, ◌+◌, ◌<◌, ◌≤◌, length, map, sum_by, All, IfOk, IfErr, OnOk};
ghost use Rattle.nv_plain.specs.Faults.{Rose};
ghost use Rattle.nv_plain.specs.Layouts.{mount_version};
ghost use Rattle.nv_plain.specs.Files.{Files};
ghost use Rattle.nv_pmem.specs.Moments.{Tells};
ghost use Rattle.nv_pmem.specs.Rows.{RowTells};
ghost use Rattle.nv_store.specs.Store.{IsQuietStore};
ghost use Rattle.nv_core.specs.content.Content.{Opens};
ghost use Rattle.nv_core.specs.crash.CrashImages.{OpensRegion};
ghost use Rattle.nv_core.specs.log.LogContent.{OpensLog};
ghost use Rattle.nv_table.specs.ends.Begun.{begun_sizes};
ghost use Rattle.nv_table.specs.passes.PassesMade.{IsShownStill};
ghost use Rattle.nv_table.specs.ends.Closing.{IsClosed};
ghost use Rattle.nv_table.specs.state.SlotValues.{part_value, store_value, slot_value};
ghost use Rattle.nv_table.specs.state.Opened.{mount_of};
ghost use Rattle.nv_table.specs.state.Views.{made_of};
ghost use Rattle.nv_table.specs.state.States.{IsOf};
ghost use Rattle.nv_mount.specs.Mounts.{AreLengths, HasLengthsCause, HasOpenCause, IsOpened};
ghost use Rattle.nv_mount.specs.ClosedAtRest.{HasEmptiedLog, HaveFilesWhereEmpty, RestsWhereEmpty};
ghost use Rattle.nv_mount.specs.ClosedFiles.{ReadAsFiles};
ghost use Rattle.nv_mount.specs.OneHistories.{HasOneHistory};
ghost use Rattle.nv_mount.specs.RisenCounts.{SawStop, failed_before};
ghost use Rattle.nv_mount.specs.Telling.{AllDevicesTell, DevicesGoOnTelling, HasLongParts, IsTelling, KeepLines, StoresHave, mounted_lines};
ghost use Rattle.nv_mount.specs.WholeRuns.{IsWholeRun};
ghost use Rattle.nv_mount.specs.WholeWrites.{CrashesLeaveWholeWrites};

use crate::{Fds, OpenError, PassesOut, Unopened};
use nv_core::{
    crashes_leave_whole_writes, empty_logs_rest, passes_are_left_alone, regions_at_rest_open,
    runs_are_sound, runs_keep_content, runs_keep_the_log, writes_in_flight_keep_apart,
};
use nv_header::Region;
use nv_plain::calls_are_made_right;
use nv_pmem::{Lines, rows_have_states};
use nv_store::Backing;
use nv_table::{Board, Closed, Pass, Refused};
use std::alloc::Global;
use std::marker::Model;

/// A mount: its board, which threads share, and the descriptors of its files.
pub struct Mount<L: Lines, B: Backing> {
    board: Board<L, B>,
    fds: Fds,
}

impl<L: Lines, B: Backing> Model for Mount<L, B> {
    ghost use Rattle.std.specs.Prelude.{◌<◌, All};
    ghost use Rattle.nv_mount.specs.Mounts.{MountState};

    ghost Value = { MountState };

    ghost view = { λ m. record { board = m.board; fds = m.fds } };

    ghost invariant = { λ m. All (λ fd. fd.file < m.board.opened.sizes.files) m.fds };
}

// Asks each store for its length in bytes.
fn lengths_of<B: Backing>(alloc: Global, stores: &mut [B]) -> Result<Vec<u64>, OpenError>
    ensures count { IfOk result (λ lengths. length lengths.items ≡ length stores.old) }
    ensures told { IfOk result (λ lengths. AreLengths (map B.history stores.old) lengths.items) }
    ensures faults { IfOk result (λ lengths. map B.fault_count stores.new ≡ map B.fault_count stores.old) }
    ensures histories { map B.history stores.new ≡ map B.history stores.old }
    ensures devices { map B.device stores.new ≡ map B.device stores.old }
    ensures cause { HasLengthsCause (sum_by B.fault_count stores.old) (sum_by B.fault_count stores.new) result }
{
    let mut lengths = Vec::new(alloc);
    for store in stores.iter_mut() {
        lengths.push(store.len()?)?;
    }
    Ok(lengths)
}

impl<L: Lines + Drop, B: Backing + Drop> Mount<L, B> {
    /// Mounts a region and its stores, one for each of its names, in their order; and gives pass 0, with which the first thread steps.
    /// Each file has 1 to 1,024 pages. There are as many buffers as pages, but at most `cache`, which is 1 to 16,384. It asks each store
    /// for its length, and takes all memory that the board needs. At an error region and stores come back. Where all stores tell, the mount
    /// opens the files that they have, and where all parts of the region tell, its empty log. So a mount that is closed at once leaves all at rest.
    pub fn open(
        alloc: Global,
        region: Region<L>,
        mut stores: Vec<B>,
        fds: Fds,
        pages: u64,
        cache: u64,
    ) -> Result<(Mount<L, B>, Pass<L, B>), Unopened<L, B>>
        requires version { region.version ≡ mount_version }
        requires stores { length stores.items ≡ length region.names }
        requires quiet { All (λ store. Tells (B.history store) IsQuietStore) stores.items }
        requires fds { All (λ fd. fd.file < length region.names) fds }
        requires some_pages { 1 ≤ pages }
        requires few_pages { pages ≤ 1024 }
        requires some_cache { 1 ≤ cache }
        requires few_cache { cache ≤ 16384 }
        ensures opened { IfOk result (λ made. IsOpened
            (slot_value (part_value L.device L.history L.fault_count L.room) (store_value B.device B.history B.fault_count))
            B.device B.history B.fault_count
            (begun_sizes region.geometry.page region.geometry.entries (length region.names) pages cache)
            region.next region.parts.items stores.items fds made.0 made.1) }
        ensures files { IfOk result (λ made. (files : Files) → StoresHave (map B.history stores.items) files → Opens (mount_of made.0.board.opened) files) }
        ensures log { IfOk result (λ made. AllDevicesTell (map L.history region.parts.items) → OpensLog (mount_of made.0.board.opened) region.next) }
        ensures region { IfOk result (λ made. AllDevicesTell (map L.history region.parts.items) → OpensRegion (mount_of made.0.board.opened) region.names) }
        ensures empty { IfOk result (λ made. HasEmptiedLog made.1.view) }
        ensures long { IfOk result (λ made. AllDevicesTell (map L.history region.parts.items) → HasLongParts (mount_of made.0.board.opened)) }
        ensures lines { IfOk result (λ made. RowTells (map L.history region.parts.items) (λ now.
            mounted_lines (mount_of made.0.board.opened) made.1.spare ≡ map (λ part. length part) now)) }
        ensures spare { IfOk result (λ made. AllDevicesTell (map L.history region.parts.items) → All IsTelling made.1.spare) }
        ensures counts { IfOk result (λ made. failed_before made.1 ≡ sum_by L.fault_count region.parts.items + sum_by B.fault_count stores.items) }
        ensures parts_back { IfErr result (λ failed. failed.region.parts.items ≡ region.parts.items) }
        ensures version_back { IfErr result (λ failed. failed.region.version ≡ region.version) }
        ensures geometry_back { IfErr result (λ failed. failed.region.geometry ≡ region.geometry) }
        ensures names_back { IfErr result (λ failed. failed.region.names ≡ region.names) }
        ensures next_back { IfErr result (λ failed. failed.region.next ≡ region.next) }
        ensures devices_back { IfErr result (λ failed. map B.device failed.stores.items ≡ map B.device stores.items) }
        ensures histories_back { IfErr result (λ failed. map B.history failed.stores.items ≡ map B.history stores.items) }
        ensures cause { IfErr result (λ failed. HasOpenCause (sum_by B.fault_count stores.items) (sum_by B.fault_count failed.stores.items) failed.error) }
    {
        rows_have_states();
        regions_at_rest_open();
        let lengths = match lengths_of(alloc, &mut stores) {
            Ok(lengths) => lengths,
            Err(error) => {
                return Err(Unopened {
                    region,
                    stores,
                    error,
                });
            }
        };
        match Board::new(alloc, region, stores, &lengths, pages, cache) {
            Ok((board, pass)) => Ok((Mount { board, fds }, pass)),
            Err(Refused { region, stores }) => Err(Unopened {
                region,
                stores,
                error: OpenError::NoMemory,
            }),
        }
    }

    /// Its board.
    pub fn board(&self) -> &Board<L, B>
        ensures { result.now ≡ self.now.board }
    {
        &self.board
    }

    /// The descriptors of its files, each of a file that it has.
    pub fn fds(&self) -> &Fds
        ensures same { result.now ≡ self.now.fds }
        ensures files { All (λ fd. fd.file < self.now.board.opened.sizes.files) result.now }
    {
        &self.fds
    }

    /// Ends the mount by pass 0, whatever it is at: what it owns goes home first. Where it has made more passes than it has taken in,
    /// mount and pass come back unchanged. What the pass has seen is the whole run then, and what comes out is told over it: the calls of
    /// all passes have one history, as long as `placed` says. The devices that come out have failed no less often than when the mount was
    /// opened, and more often where one of the passes saw STOP set; and where all devices told then, all that come out tell,
    /// and no part has more or fewer lines than then. Over stores and parts that tell, whatever a power failure leaves of them recovers to the
    /// files after the history and then some of the writes in flight, each whole; where no pass holds a cell, these are writes that faults
    /// ended, and where the log is empty too, the stores have all files; where STOP is 0 besides, they are durable, and the parts are a region at rest.
    /// No device call may have come since the pass's last step. Takes no memory.
    pub fn close(
        self,
        pass: Pass<L, B>,
    ) -> Result<Closed<L, B>, (Mount<L, B>, Pass<L, B>, PassesOut)>
        requires board { IsOf self.board pass }
        requires zero { pass.view.number ≡ 0 }
        requires still { IsShownStill pass }
        ensures all { OnOk result (length pass.view.ended ≡ made_of pass.view) }
        ensures closed { IfOk result (λ closed. IsClosed L.device B.device
            (slot_value (part_value L.device L.history L.fault_count L.room) (store_value B.device B.history B.fault_count))
            self.board pass closed.parts.items closed.stores.items closed.placed closed.tail) }
        ensures whole { IfOk result (λ closed. IsWholeRun pass.view (map (part_value L.device L.history L.fault_count L.room) closed.parts.items)
            (map (store_value B.device B.history B.fault_count) closed.stores.items) closed.placed closed.tail) }
        ensures history { IfOk result (λ closed. HasOneHistory pass.view closed.placed) }
        ensures files { IfOk result (λ closed. ReadAsFiles pass.view (map B.history closed.stores.items) closed.tail) }
        ensures stored { IfOk result (λ closed. HaveFilesWhereEmpty pass.view (map B.history closed.stores.items)) }
        ensures rest { IfOk result (λ closed. RestsWhereEmpty pass.view (map L.history closed.parts.items) (map B.history closed.stores.items) closed.tail) }
        ensures crash { IfOk result (λ closed. CrashesLeaveWholeWrites pass.view (map L.history closed.parts.items) (map B.history closed.stores.items)) }
        ensures telling { IfOk result (λ closed. DevicesGoOnTelling pass (map L.history closed.parts.items) (map B.history closed.stores.items)) }
        ensures lines { IfOk result (λ closed. KeepLines pass (map L.history closed.parts.items)) }
        ensures stopped { IfOk result (λ closed. SawStop pass.view → Rose (failed_before pass) (sum_by L.fault_count closed.parts.items + sum_by B.fault_count closed.stores.items)) }
        ensures grew { IfOk result (λ closed. failed_before pass ≤ sum_by L.fault_count closed.parts.items + sum_by B.fault_count closed.stores.items) }
        ensures out { IfErr result (λ failed. length pass.view.ended < made_of pass.view) }
        ensures mount_back { IfErr result (λ failed. failed.0 ≡ self) }
        ensures pass_back { IfErr result (λ failed. failed.1 ≡ pass) }
        ensures made { IfErr result (λ failed. failed.2.made ≡ made_of pass.view) }
        ensures joined { IfErr result (λ failed. failed.2.joined ≡ length pass.view.ended) }
    {
        let made = pass.made();
        let joined = pass.joined();
        if joined < made {
            return Err((self, pass, PassesOut { made, joined }));
        }
        let Mount { board, fds } = self;
        drop(fds);
        calls_are_made_right();
        runs_are_sound();
        runs_keep_content();
        runs_keep_the_log();
        passes_are_left_alone();
        crashes_leave_whole_writes();
        writes_in_flight_keep_apart();
        empty_logs_rest();
        rows_have_states();
        pass.sees_a_run();
        pass.has_taken_in();
        Ok(board.close(pass))
    }
}
