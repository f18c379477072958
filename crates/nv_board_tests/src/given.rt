//! What the tests of a mount begin with: a region, the store of its file, and a mount over them; and how it ends.
ghost use Rattle.std.specs.Prelude.{◌≡◌, ◌≤◌, [], ◌∷◌, length, map, All, IfOk};
ghost use Rattle.nv_plain.specs.Layouts.{mount_layout, mount_version};
ghost use Rattle.nv_plain.specs.declared.mode.Mode.TheVariants.{Rw, W};
ghost use Rattle.nv_pmem.specs.MemPart.{part_history, part_room};
ghost use Rattle.nv_pmem.specs.Moments.{Tells};
ghost use Rattle.nv_pmem.specs.Rows.{RowTells};
ghost use Rattle.nv_store.specs.MemStore.{store_history};
ghost use Rattle.nv_store.specs.Store.{IsQuietStore};
ghost use Rattle.nv_header.specs.Regions.{HasParts, IsBlankRow};
ghost use Rattle.nv_table.specs.invariant.Idle.{IsIdle};
ghost use Rattle.nv_table.specs.state.Views.{first_view};
ghost use Rattle.nv_table.specs.state.States.{IsOf};
ghost use Rattle.nv_table.specs.state.Workspaces.{IsWorkspace};

use nv_header::{Region, add_file, format};
use nv_mount::{Fds, Mount};
use nv_plain::limits::MOUNT_VERSION;
use nv_plain::{Mode, NoMemory};
use nv_pmem::{Fuse, Geometry, MemPart};
use nv_store::MemStore;
use nv_table::{Closed, Pass, Workspace};
use std::alloc::Global;
use std::process::Abort;
use std::test::Fail;

// The parts of a blank region.
fn blank_parts(alloc: Global, geometry: Geometry) -> Result<Vec<MemPart>, NoMemory>
    ensures parts { IfOk result (λ parts. HasParts mount_layout geometry.page geometry.entries (map part_room parts.items)) }
    ensures blank { IfOk result (λ parts. RowTells (map part_history parts.items) IsBlankRow) }
{
    let mut parts = Vec::new(alloc);
    parts.push(MemPart::new(alloc, MOUNT_VERSION.header_lines())?)?;
    for entry in 0..geometry.entries {
        let fuse = Fuse::new(alloc, &[])?;
        parts.push(MemPart::fused(alloc, 1 + geometry.page / 64, fuse)?)?;
    }
    Ok(parts)
}

// A region of so many entries of a page of 64 bytes, with the file `a`.
pub(crate) fn region_of(alloc: Global, entries: u64) -> Result<Region<MemPart>, Fail>
    ensures version { IfOk result (λ region. region.version ≡ mount_version) }
    ensures page { IfOk result (λ region. region.geometry.page ≡ 64) }
    ensures entries { IfOk result (λ region. region.geometry.entries ≡ entries) }
    ensures names { IfOk result (λ region. length region.names ≡ 1) }
{
    let geometry = Geometry::new(64, entries)?;
    let parts = blank_parts(alloc, geometry)?;
    let region = format(parts, MOUNT_VERSION, geometry).map_err(|failed| failed.1)?;
    let (region, _a) = add_file(alloc, region, b"a").map_err(|failed| failed.1)?;
    Ok(region)
}

// The store of its file, which has these bytes.
pub(crate) fn stores(alloc: Global, bytes: &[u8]) -> Result<Vec<MemStore>, NoMemory>
    ensures one { IfOk result (λ stores. length stores.items ≡ 1) }
    ensures quiet { IfOk result (λ stores. All (λ store. Tells (store_history store) IsQuietStore) stores.items) }
{
    let mut stores = Vec::new(alloc);
    stores.push(MemStore::new(alloc, bytes)?)?;
    Ok(stores)
}

// A descriptor of it, for reading and writing, and one for writing alone.
fn fds(alloc: Global) -> Result<Fds, Fail>
    ensures { IfOk result (λ fds. fds ≡ record { file = 0; mode = Rw } ∷ record { file = 0; mode = W } ∷ []) }
{
    let mut fds = Fds::new(alloc);
    fds.open(0, Mode::Rw)?;
    fds.open(0, Mode::W)?;
    Ok(fds)
}

// A mount over them, where the file may have so many pages, with so many buffers; and pass 0.
pub(crate) fn opened_with(
    alloc: Global,
    region: Region<MemPart>,
    stores: Vec<MemStore>,
    pages: u64,
    cache: u64,
) -> Result<(Mount<MemPart, MemStore>, Pass<MemPart, MemStore>), Fail>
    requires some_pages { 1 ≤ pages }
    requires few_pages { pages ≤ 1024 }
    requires some { 1 ≤ cache }
    requires few { cache ≤ 64 }
    requires version { region.version ≡ mount_version }
    requires page { region.geometry.page ≡ 64 }
    requires names { length region.names ≡ 1 }
    requires one { length stores.items ≡ 1 }
    requires quiet { All (λ store. Tells (store_history store) IsQuietStore) stores.items }
    ensures board { IfOk result (λ made. IsOf made.0.board made.1) }
    ensures idle { IfOk result (λ made. IsIdle made.1) }
    ensures number { IfOk result (λ made. made.1.view.number ≡ 0) }
    ensures view { IfOk result (λ made. made.1.view ≡ first_view made.0.board.opened) }
    ensures bare { IfOk result (λ made. made.1.now ≡ []) }
{
    match Mount::open(alloc, region, stores, fds(alloc)?, pages, cache) {
        Ok(made) => Ok(made),
        Err(unopened) => Err(unopened.error.into()),
    }
}

// Ends the mount, of which no pass is out.
pub(crate) fn close(
    rt: &impl Abort,
    mount: Mount<MemPart, MemStore>,
    pass: Pass<MemPart, MemStore>,
) -> Closed<MemPart, MemStore>
    requires board { IsOf mount.board pass }
    requires idle { IsIdle pass }
    requires number { pass.view.number ≡ 0 }
{
    pass.bare_is_still();
    match mount.close(pass) {
        Ok(closed) => closed,
        Err(_failed) => panic!(rt; "no pass is out"),
    }
}

// What a pass of the mount works on.
pub(crate) fn room(
    rt: &impl Abort,
    alloc: Global,
    mount: &Mount<MemPart, MemStore>,
) -> Workspace<MemPart, MemStore>
    ensures workspace { IsWorkspace mount.now.board.opened.sizes result }
    ensures bare { result.parts.items ≡ [] }
{
    Workspace::new(alloc, mount.board().layout()).expect(rt, "there is memory")
}
