//! The opening of a mount over a region that is open.
ghost use Rattle.std.specs.Prelude.{◌≡◌, ◌<◌, ◌≤◌, true, length, map, All, IfOk};
ghost use Rattle.nv_plain.specs.Files.{Files};
ghost use Rattle.nv_pmem.specs.Moments.{Tells};
ghost use Rattle.nv_store.specs.Store.{IsQuietStore};
ghost use Rattle.nv_core.specs.content.Content.{Opens};
ghost use Rattle.nv_core.specs.crash.CrashImages.{OpensRegion};
ghost use Rattle.nv_core.specs.log.LogContent.{OpensLog};
ghost use Rattle.nv_table.specs.ends.Begun.{begun_sizes};
ghost use Rattle.nv_table.specs.state.Opened.{mount_of};
ghost use Rattle.nv_table.specs.state.SlotValues.{part_value, store_value, slot_value};
ghost use Rattle.nv_table.specs.state.Views.{made_of};
ghost use Rattle.nv_mount.specs.ClosedAtRest.{HasEmptiedLog};
ghost use Rattle.nv_mount.specs.Mounts.{IsOpened};
ghost use Rattle.nv_mount.specs.Telling.{AllDevicesTell, HasLongParts, IsTelling, StoresHave};

use crate::FirstSession;
use nv_bench::Bench;
use nv_mount::{Fds, Mount, OpenError};
use nv_open::Opened;
use nv_table::{Workspace, passes_stay_between_calls};
use std::alloc::Global;

impl<T: Bench + Drop> FirstSession<T> {
    /// Opens a mount over a region that is open, with the stores of its files, as `open` gives them; and with it the first thread's
    /// session, which keeps the bench that has lent them. No other session is made. Each file has 1 to 1,024 pages. There are as many
    /// buffers as pages, but at most `cache`, which is 1 to 16,384. At an error all of it is dropped.
    pub fn open(
        alloc: Global,
        bench: T,
        opened: Opened<T::Part, T::Store>,
        fds: Fds,
        pages: u64,
        cache: u64,
    ) -> Result<FirstSession<T>, OpenError>
        requires open { (T.state bench).is_open ≡ true }
        requires lent { (T.state bench).lent ≡ opened.region.names }
        requires stores { length opened.stores.items ≡ length opened.region.names }
        requires quiet { All (λ store. Tells (T.Store.history store) IsQuietStore) opened.stores.items }
        requires fds { All (λ fd. fd.file < length opened.region.names) fds }
        requires some_pages { 1 ≤ pages }
        requires few_pages { pages ≤ 1024 }
        requires some_cache { 1 ≤ cache }
        requires few_cache { cache ≤ 16384 }
        ensures bench { IfOk result (λ first. first.bench ≡ T.state bench) }
        ensures opened { IfOk result (λ first. IsOpened
            (slot_value (part_value T.Part.device T.Part.history T.Part.fault_count T.Part.room) (store_value T.Store.device T.Store.history T.Store.fault_count))
            T.Store.device T.Store.history T.Store.fault_count
            (begun_sizes opened.region.geometry.page opened.region.geometry.entries (length opened.region.names) pages cache)
            opened.region.next opened.region.parts.items opened.stores.items fds first.mount first.pass) }
        ensures made { IfOk result (λ first. made_of first.pass.view ≡ 0) }
        ensures files { IfOk result (λ first. (files : Files) → StoresHave (map T.Store.history opened.stores.items) files → Opens (mount_of first.mount.board.opened) files) }
        ensures log { IfOk result (λ first. AllDevicesTell (map T.Part.history opened.region.parts.items) → OpensLog (mount_of first.mount.board.opened) opened.region.next) }
        ensures region { IfOk result (λ first. AllDevicesTell (map T.Part.history opened.region.parts.items) → OpensRegion (mount_of first.mount.board.opened) opened.region.names) }
        ensures empty { IfOk result (λ first. HasEmptiedLog first.pass.view) }
        ensures long { IfOk result (λ first. AllDevicesTell (map T.Part.history opened.region.parts.items) → HasLongParts (mount_of first.mount.board.opened)) }
        ensures spare { IfOk result (λ first. AllDevicesTell (map T.Part.history opened.region.parts.items) → All IsTelling first.pass.spare) }
    {
        passes_stay_between_calls();
        let Opened { region, stores } = opened;
        let (mount, pass) = match Mount::open(alloc, region, stores, fds, pages, cache) {
            Ok(made) => made,
            Err(unopened) => return Err(unopened.error),
        };
        let Ok(workspace) = Workspace::new(alloc, mount.board().layout()) else {
            pass.bare_is_still();
            match mount.close(pass) {
                Ok(closed) => drop(closed),
                Err(_passes_are_out) => unreachable!(),
            }
            return Err(OpenError::NoMemory);
        };
        Ok(FirstSession {
            bench,
            mount,
            pass,
            workspace,
        })
    }
}
