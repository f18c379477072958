//! A board by its own calls: its words and slots, and the room that a pass works in.
ghost use Rattle.std.specs.Prelude.{◌≡◌, [], IfOk};
ghost use Rattle.nv_table.specs.invariant.Idle.{IsIdle};
ghost use Rattle.nv_table.specs.state.Views.{made_of};
ghost use Rattle.nv_table.specs.state.States.{IsOf};

use crate::given::region_of;
use nv_plain::NoMemory;
use nv_pmem::MemPart;
use nv_store::MemStore;
use nv_table::{Board, Layout, Pass, Workspace};
use std::alloc::Global;
use std::test::Fail;

// A board over it, where the file has three bytes and may have 64 pages, with 4 buffers; and pass 0.
fn opened(alloc: Global) -> Result<(Board<MemPart, MemStore>, Pass<MemPart, MemStore>), Fail>
    ensures board { IfOk result (λ made. IsOf made.0 made.1) }
    ensures idle { IfOk result (λ made. IsIdle made.1) }
    ensures number { IfOk result (λ made. made.1.view.number ≡ 0) }
    ensures made { IfOk result (λ made. made_of made.1.view ≡ 0) }
    ensures ended { IfOk result (λ made. made.1.view.ended ≡ []) }
{
    let mut stores = Vec::new(alloc);
    stores.push(MemStore::new(alloc, &[1, 2, 3])?)?;
    match Board::new(alloc, region_of(alloc, 16)?, stores, &[3], 64, 4) {
        Ok(made) => Ok(made),
        Err(_refused) => Err(NoMemory.into()),
    }
}

#[test]
fn a_board_gives_its_devices_back(rt: HostRuntime) -> Result<(), Fail> {
    let (board, pass) = opened(rt.alloc())?;
    let words = board.layout().words();
    let closed = board.close(pass);
    let devices = (closed.parts.len(), closed.stores.len());
    assert_eq!(rt; (words, devices), (222, (17, 1)));
    Ok(())
}

// Of one file of 64 pages of 64 bytes, 16 entries and 4 buffers.
#[test]
fn words_and_slots_have_their_places(rt: HostRuntime) {
    let layout = Layout::new(64, 1, 64, 16, 4);
    let of_file = [layout.size(0), layout.length(0), layout.store(0)];
    let of_pages = [layout.page_lock(0), layout.cleanup(63), layout.dirty(63)];
    let others = [layout.entry(15), layout.hint(3)];
    let counts = (layout.words(), layout.slots());
    assert_eq!(rt;
        (of_file, of_pages, others, counts),
        ([7, 8, 9], [30, 220, 221], [25, 29], (222, 82))
    );
}

#[test]
fn a_workspace_has_room_for_a_page(rt: HostRuntime) -> Result<(), Fail> {
    let layout = Layout::new(64, 1, 64, 16, 4);
    let mut workspace = Workspace::<MemPart, MemStore>::new(rt.alloc(), layout)?;
    assert_eq!(rt; workspace.page().len(), 64);
    assert_eq!(rt; workspace.piece().len(), 64);
    assert!(rt; workspace.parts().is_empty());
    assert!(rt; workspace.stores().is_empty());
    Ok(())
}
