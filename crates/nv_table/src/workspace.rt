//! The memory that the calls of a pass work in. It is reserved once, and is kept beside the pass, so that what lies on it is known from one
//! step to the next.
ghost use Rattle.std.specs.Prelude.{◌≡◌, [], IfOk};
ghost use Rattle.std.specs.Borrow.{sem};
ghost use Rattle.nv_table.specs.state.Workspaces.{IsWorkspace};
ghost use Rattle.nv_table.specs.state.Keys.{sizes_of};

use crate::Layout;
use nv_plain::NoMemory;
use nv_plain::limits::GROUP_LIMIT;
use std::alloc::Global;
use std::marker::Model;

/// What a pass's calls work on: a page, a piece of an entry, and the devices that are out of their slots. The devices that lie on it when
/// it is dropped are dropped with it.
#[derive(Drop)]
pub struct Workspace<L, B> {
    page: Vec<u8>,
    piece: Vec<u8>,
    parts: Vec<L>,
    stores: Vec<B>,
}

impl<L, B> Model for Workspace<L, B> {
    ghost use Rattle.nv_table.specs.state.Workspaces.{WorkspaceState};

    ghost Value = { WorkspaceState L B };

    ghost view = { λ d. record { page = d.page; piece = d.piece; parts = d.parts; stores = d.stores } };
}

impl<L: Drop, B: Drop> Workspace<L, B> {
    /// An empty one with all the room that a mount of these sizes needs: twice the bytes of a page, which are 0, a place for the part of
    /// each entry that a write may have, which are 64 at most, and one for each file's store.
    pub fn new(alloc: Global, layout: Layout) -> Result<Workspace<L, B>, NoMemory>
        ensures sizes { IfOk result (IsWorkspace (sizes_of layout)) }
        ensures parts { IfOk result (λ workspace. workspace.parts.items ≡ []) }
        ensures stores { IfOk result (λ workspace. workspace.stores.items ≡ []) }
    {
        let page = vec![in alloc; 0; layout.page as usize]?;
        let piece = vec![in alloc; 0; layout.page as usize]?;
        let mut parts = Vec::new(alloc);
        parts.reserve(GROUP_LIMIT.min(layout.entries) as usize)?;
        let mut stores = Vec::new(alloc);
        stores.reserve(layout.files as usize)?;
        Ok(Workspace {
            page,
            piece,
            parts,
            stores,
        })
    }
}

impl<L, B> Workspace<L, B> {
    ghost use Rattle.nv_table.specs.state.WorkspaceLends.{LendsPage, LendsPiece, LendsParts, LendsStores};

    /// Room for a page: as many bytes as a page of the mount has.
    pub fn page(&mut self) -> &mut [u8]
        ensures value { result.now ≡ self.old.page.items }
        ensures* writes_back { sem 𝓛 (LendsPage L.row B.row self.entry result) }
    {
        self.page.as_mut_slice()
    }

    /// As many bytes again, for a piece of an entry.
    pub fn piece(&mut self) -> &mut [u8]
        ensures value { result.now ≡ self.old.piece.items }
        ensures* writes_back { sem 𝓛 (LendsPiece L.row B.row self.entry result) }
    {
        self.piece.as_mut_slice()
    }

    /// The parts that lie here: there are places for those of up to 64 entries, or of all where the log has fewer.
    pub fn parts(&mut self) -> &mut Vec<L>
        ensures value { result.now ≡ self.old.parts }
        ensures* writes_back { sem 𝓛 (LendsParts L.row B.row self.entry result) }
    {
        &mut self.parts
    }

    /// The stores that lie here: there are places for those of all files.
    pub fn stores(&mut self) -> &mut Vec<B>
        ensures value { result.now ≡ self.old.stores }
        ensures* writes_back { sem 𝓛 (LendsStores L.row B.row self.entry result) }
    {
        &mut self.stores
    }
}
