//! Mounts that are opened and closed.
ghost use Rattle.std.specs.Prelude.{◌≡◌, [], ◌∷◌, length, map, All, IfOk};
ghost use Rattle.nv_plain.specs.Layouts.{mount_layout, mount_version};
ghost use Rattle.nv_pmem.specs.MemPart.{part_history, part_room};
ghost use Rattle.nv_pmem.specs.Moments.{Tells};
ghost use Rattle.nv_pmem.specs.Rows.{RowTells};
ghost use Rattle.nv_store.specs.MemStore.{store_history};
ghost use Rattle.nv_store.specs.Store.{IsQuietStore};
ghost use Rattle.nv_header.specs.Regions.{HasParts, IsBlankRow};
ghost use Rattle.nv_plain.specs.Files.{Files};
ghost use Rattle.nv_table.specs.ends.Begun.{begun_sizes};
ghost use Rattle.nv_mount.specs.ClosedAtRest.{AreAtRest};
ghost use Rattle.nv_mount.specs.Telling.{AllDevicesTell, StoresHave};
ghost use Rattle.nv_table.specs.state.Views.{first_view};
ghost use Rattle.nv_table.specs.state.States.{IsOf};

use crate::given::{region_of, stores};
use nv_header::Region;
use nv_mount::{Fds, Mount, PassesOut, Unopened};
use nv_pmem::{Lines, MemPart};
use nv_store::{Backing, MemStore};
use nv_table::{Closed, Pass, join_pass, split_pass};
use std::alloc::Global;
use std::test::Fail;

// A mount over them, where the file may have 64 pages, with 4 buffers; and pass 0.
fn opened(
    alloc: Global,
    region: Region<MemPart>,
    stores: Vec<MemStore>,
) -> Result<(Mount<MemPart, MemStore>, Pass<MemPart, MemStore>), Unopened<MemPart, MemStore>>
    requires version { region.version ≡ mount_version }
    requires names { length region.names ≡ 1 }
    requires one { length stores.items ≡ 1 }
    requires quiet { All (λ store. Tells (store_history store) IsQuietStore) stores.items }
    ensures board { IfOk result (λ made. IsOf made.0.board made.1) }
    ensures view { IfOk result (λ made. made.1.view ≡ first_view made.0.board.opened) }
    ensures nothing { IfOk result (λ made. made.1.now ≡ []) }
{
    Mount::open(alloc, region, stores, Fds::new(alloc), 64, 4)
}

#[test]
fn a_mount_is_closed_once_all_passes_are_in(rt: HostRuntime) -> Result<(), Fail> {
    let (region, stores) = (region_of(rt.alloc(), 16)?, stores(rt.alloc(), &[1, 2, 3])?);
    let (mount, mut pass) = match opened(rt.alloc(), region, stores) {
        Ok((mount, pass)) => (mount, pass),
        Err(unopened) => return Err(unopened.error.into()),
    };
    let other = split_pass(rt.alloc(), mount.board(), &mut pass).expect(&rt, "there is memory");
    pass.bare_is_still();
    let (mount, mut pass) = match mount.close(pass) {
        Ok(_closed) => panic!(rt; "a pass is out"),
        Err((mount, pass, out)) => {
            assert_eq!(rt; out, PassesOut { made: 1, joined: 0 });
            (mount, pass)
        }
    };
    other.bare_is_still();
    join_pass(mount.board(), &mut pass, other);
    pass.bare_is_still();
    match mount.close(pass) {
        Ok(closed) => {
            assert_eq!(rt; closed.parts.len(), 17);
            assert_eq!(rt; closed.stores.len(), 1);
            assert_eq!(rt; closed.placed, 0);
            assert_eq!(rt; closed.tail, 0);
        }
        Err(_failed) => panic!(rt; "no pass is out"),
    }
    Ok(())
}

// Opens a mount and closes it at once, which leaves all at rest: the stores have the files that they had, and the region goes on at its tail.
fn closed_at_once<L: Lines + Drop, B: Backing + Drop>(
    alloc: Global,
    region: Region<L>,
    stores: Vec<B>,
) -> Result<Result<Closed<L, B>, (Mount<L, B>, Pass<L, B>, PassesOut)>, Unopened<L, B>>
    requires version { region.version ≡ mount_version }
    requires stores { length stores.items ≡ length region.names }
    requires quiet { All (λ store. Tells (B.history store) IsQuietStore) stores.items }
    ensures rest { (files : Files) → StoresHave (map B.history stores.items) files → AllDevicesTell (map L.history region.parts.items)
        → IfOk result (λ closing. IfOk closing (λ closed. AreAtRest (begun_sizes region.geometry.page region.geometry.entries (length region.names) 64 4)
        region.names files (map L.history closed.parts.items) (map B.history closed.stores.items) closed.tail)) }
{
    match Mount::open(alloc, region, stores, Fds::new(alloc), 64, 4) {
        Ok((mount, pass)) => {
            pass.bare_is_still();
            Ok(mount.close(pass))
        }
        Err(unopened) => Err(unopened),
    }
}

#[test]
fn a_mount_that_is_closed_at_once_leaves_its_stores(rt: HostRuntime) -> Result<(), Fail> {
    let (region, stores) = (region_of(rt.alloc(), 16)?, stores(rt.alloc(), &[1, 2, 3])?);
    match closed_at_once(rt.alloc(), region, stores) {
        Ok(Ok(closed)) => {
            assert_eq!(rt; closed.tail, 0);
            let mut stores = closed.stores;
            assert_eq!(rt; stores.len(), 1);
            assert_eq!(rt; stores[0].len(), Ok(3));
        }
        Ok(Err(_failed)) => panic!(rt; "no pass is out"),
        Err(unopened) => return Err(unopened.error.into()),
    }
    Ok(())
}
