//! The load of one page that a read misses: the page as its store has it, with the pieces of its entries laid over it.
ghost use Rattle.std.specs.Prelude.{◌≡◌, ◌<◌, ◌+◌, false};
ghost use Rattle.nv_core.specs.state.Words.{ready, is_entry_of};
ghost use Rattle.nv_table.specs.state.Keys.{sizes_of};
ghost use Rattle.nv_mirror.specs.Loads.{Fits, IsNoTake, behind_store, load_after, load_control_then, load_noted, load_op, scanning_from};

use crate::Refusal;
use nv_op::{EntryWord, Op, Word};
use nv_table::Layout;

/// Where it stands: what its next step is, or what came of it.
#[derive(Clone, Copy, Debug, PartialEq, Eq)]
pub enum LoadControl {
    LoadDirty,
    /// CLEANUP of the page, which has entries.
    TakeCleanup,
    /// The lock of the store. The page has entries where it is dirty.
    TakeStore { dirty: bool },
    /// The store is read, and given back; or STOP is set, where that fails.
    ReadStore { dirty: bool },
    LoadHead,
    LoadTail,
    /// The entry of this number is looked at.
    LoadEntry { number: u64 },
    HoldEntry { number: u64 },
    /// Its piece is read, and it is returned; or STOP is set, where that fails.
    ReadPiece { number: u64 },
    /// All pieces of the page are laid over it.
    GiveCleanup,
    /// The page is loaded, and the read looks next at the one behind it.
    Loaded,
    /// STOP is set, and the entry whose part failed is returned.
    ReturnEntry { number: u64 },
    /// STOP is set, and the store that failed is given back.
    GiveBackStore { dirty: bool },
    /// It isn't loaded, and CLEANUP is given back.
    GiveBackCleanup { refusal: Refusal },
    /// It isn't loaded. What the read holds is given back next, the last taken first.
    Refused(Refusal),
}

/// The load of a page for a read, from its load of DIRTY on.
#[derive(Clone, Copy, Debug, PartialEq, Eq)]
pub struct LoadMachine {
    pub file: u64,
    pub at: u64,
    pub len: u64,
    /// The read's first page among all, and how many it touches.
    pub first: u64,
    pub pages: u64,
    pub sized: bool,
    pub length: u64,
    /// The page that is loaded, among all.
    pub page: u64,
    /// HEAD as it loaded it.
    pub head: u64,
    pub control: LoadControl,
}

// Whether the word of an entry says that it is ready, and of a page.
fn is_ready_of(word: u64, page: u64) -> bool
    ensures { result ≡ is_entry_of ready page word }
{
    let word = EntryWord { word };
    word.is_ready() && word.page() == page
}

// What is next behind the store, where the page isn't loaded.
fn behind_store(dirty: bool, refusal: Refusal) -> LoadControl
    ensures { result ≡ behind_store dirty refusal }
{
    if dirty {
        LoadControl::GiveBackCleanup { refusal }
    } else {
        LoadControl::Refused(refusal)
    }
}

impl LoadMachine {
    // It looks next at this number, or is done where that isn't below HEAD.
    fn scan_from(self, number: u64) -> LoadControl
        ensures { result ≡ scanning_from self number }
    {
        if number < self.head {
            LoadControl::LoadEntry { number }
        } else {
            LoadControl::GiveCleanup
        }
    }

    // It looks next at the number behind this one.
    pub(crate) fn scan_behind(self, number: u64) -> LoadControl
        requires { number < self.head }
        ensures { result ≡ scanning_from self (number + 1) }
    {
        self.scan_from(number + 1)
    }

    // The next step, where no device call has failed.
    pub(crate) fn next(self, layout: Layout) -> Op
        requires { Fits (sizes_of layout) self }
        ensures { result ≡ load_op (sizes_of layout) self false }
    {
        let cleanup = Word::Cleanup { page: self.page };
        let store = Word::Store { file: self.file };
        match self.control {
            LoadControl::LoadDirty => Op::Load {
                word: Word::Dirty { page: self.page },
            },
            LoadControl::TakeCleanup => Op::Take { cell: cleanup },
            LoadControl::TakeStore { .. } => Op::Take { cell: store },
            LoadControl::ReadStore { .. } | LoadControl::GiveBackStore { .. } => {
                Op::Give { cell: store }
            }
            LoadControl::LoadHead => Op::Load { word: Word::Head },
            LoadControl::LoadTail => Op::Load { word: Word::Tail },
            LoadControl::LoadEntry { number } => Op::Load {
                word: Word::Entry {
                    slot: number % layout.entries,
                },
            },
            LoadControl::HoldEntry { number } => Op::Hold { number },
            LoadControl::ReadPiece { number } | LoadControl::ReturnEntry { number } => {
                Op::Return { number }
            }
            LoadControl::GiveCleanup | LoadControl::GiveBackCleanup { .. } => {
                Op::Give { cell: cleanup }
            }
            LoadControl::Loaded | LoadControl::Refused(_) => Op::Place,
        }
    }

    // Where it stands after a step on CLEANUP or the store that found this.
    fn locked(self, layout: Layout, found: u64) -> LoadControl
        requires { Fits (sizes_of layout) self }
        ensures { result ≡ load_control_then (sizes_of layout) self self.control false found }
    {
        match self.control {
            LoadControl::TakeCleanup if found == 0 => LoadControl::TakeStore { dirty: true },
            LoadControl::TakeCleanup => {
                let cell = layout.cleanup(self.page);
                LoadControl::Refused(Refusal::Busy { cell })
            }
            LoadControl::TakeStore { dirty } if found == 0 => LoadControl::ReadStore { dirty },
            LoadControl::TakeStore { dirty } => {
                let cell = layout.store(self.file);
                behind_store(dirty, Refusal::Busy { cell })
            }
            _ => self.looked(layout, found),
        }
    }

    // Where it stands after another step that found this, where no device call has failed.
    fn looked(self, layout: Layout, found: u64) -> LoadControl
        requires fits { Fits (sizes_of layout) self }
        requires other { IsNoTake self.control }
        ensures { result ≡ load_control_then (sizes_of layout) self self.control false found }
    {
        // Only the clause speaks of it.
        let _ = layout;
        match self.control {
            LoadControl::LoadDirty if found == 0 => LoadControl::TakeStore { dirty: false },
            LoadControl::LoadDirty => LoadControl::TakeCleanup,
            LoadControl::ReadStore { dirty: true } => LoadControl::LoadHead,
            LoadControl::ReadStore { dirty: false } => LoadControl::Loaded,
            LoadControl::LoadHead => LoadControl::LoadTail,
            LoadControl::LoadTail => self.scan_from(found),
            LoadControl::LoadEntry { number } if is_ready_of(found, self.page) => {
                LoadControl::HoldEntry { number }
            }
            LoadControl::LoadEntry { number } | LoadControl::ReadPiece { number } => {
                self.scan_behind(number)
            }
            LoadControl::HoldEntry { number } => LoadControl::ReadPiece { number },
            LoadControl::GiveCleanup => LoadControl::Loaded,
            LoadControl::ReturnEntry { .. } => LoadControl::GiveBackCleanup {
                refusal: Refusal::RegionFault,
            },
            LoadControl::GiveBackStore { dirty } => behind_store(dirty, Refusal::StoreFault),
            LoadControl::GiveBackCleanup { refusal } => LoadControl::Refused(refusal),
            _ => self.control,
        }
    }

    // What it notes of what was found.
    fn noted(self, found: u64) -> LoadMachine
        ensures { result ≡ load_noted self self.control found }
    {
        match self.control {
            LoadControl::LoadHead => LoadMachine {
                head: found,
                ..self
            },
            _ => self,
        }
    }

    // What it is after the step.
    pub(crate) fn after(self, layout: Layout, found: u64) -> LoadMachine
        requires { Fits (sizes_of layout) self }
        ensures { result ≡ load_after (sizes_of layout) self false found }
    {
        LoadMachine {
            control: self.locked(layout, found),
            ..self.noted(found)
        }
    }
}
