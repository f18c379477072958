//! How a read goes on with a search where it lacks a buffer for a page, and with the load of the page where the search is over.
ghost use Rattle.std.specs.Prelude.{◌≡◌, ℕ, List};
ghost use Rattle.nv_core.specs.state.Passes.{VisitPage};
ghost use Rattle.nv_table.specs.state.States.{PassState};
ghost use Rattle.nv_mirror.specs.Loads.{Fits as FitsLoad, IsReading, IsUnderWay as IsLoadUnderWay};
ghost use Rattle.nv_cache.specs.Searches.{HasSearched, IsOver, IsUnderWay, KeepsRest};
ghost use Rattle.nv_cache.specs.Ways.{LacksBuffer, load_of, search_for};

use crate::{SearchControl, SearchMachine};
use nv_mirror::{LoadControl, LoadMachine};

impl SearchMachine {
    /// The search for a buffer for the page that `load` is to load, by a read that stands at page `from`. It has made no step yet.
    pub fn new(load: LoadMachine, from: u64) -> Self
        ensures machine { result ≡ search_for load from }
        ensures begins { (now : PassState) → HasSearched result now now × KeepsRest result now now }
        ensures way { (start : PassState) → (now : PassState) → FitsLoad now.view.opened.sizes load → IsReading load (VisitPage from) start now → LacksBuffer load from now → IsUnderWay result start now }
    {
        SearchMachine {
            file: load.file,
            at: load.at,
            len: load.len,
            first: load.first,
            pages: load.pages,
            sized: load.sized,
            length: load.length,
            page: load.page,
            tries: 0,
            control: SearchControl::Begin { from },
        }
    }

    /// The load of the page that the search was for, whatever that has found. It has made no step yet.
    pub fn load(self) -> LoadMachine
        requires over { IsOver self.control }
        ensures machine { result ≡ load_of self }
        ensures way { (room : List ℕ) → (start : PassState) → (now : PassState) → IsUnderWay self start now → IsLoadUnderWay result room start now }
    {
        let load = LoadMachine {
            file: self.file,
            at: self.at,
            len: self.len,
            first: self.first,
            pages: self.pages,
            sized: self.sized,
            length: self.length,
            page: self.page,
            head: 0,
            control: LoadControl::LoadDirty,
        };
        load.begins();
        load
    }
}
