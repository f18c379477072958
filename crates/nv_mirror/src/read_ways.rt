//! How a read goes on between its front, its pages, and the loads of those that it misses.
ghost use Rattle.std.specs.Prelude.{◌≡◌, ℕ, ◌+◌, ◌++◌, ◌≤◌, List, length, take, drop, true};
ghost use Rattle.nv_plain.specs.Files.{bytes_at};
ghost use Rattle.nv_core.specs.state.Passes.{is_read};
ghost use Rattle.nv_table.specs.state.Keys.{sizes_of};
ghost use Rattle.nv_table.specs.state.States.{PassState};
ghost use Rattle.nv_mirror.specs.Fronts.{Fits as FitsFront, IsUnderWay as IsFrontUnderWay, front_call_of, size_in};
ghost use Rattle.nv_mirror.specs.Loads.{IsUnderWay as IsLoadUnderWay};
ghost use Rattle.nv_mirror.specs.Visits.{Carries, Fits, IsLoadOf, IsUnderWay, load_of, page_piece, visit_asked, visit_call_of, visits_next};
ghost use Rattle.nv_mirror.specs.declared.front.FrontControl.TheVariants as fronts;
ghost use Rattle.nv_mirror.specs.declared.load.LoadControl.TheVariants as loads;
ghost use Rattle.nv_mirror.specs.declared.load.LoadMachine.{LoadMachine};
ghost use Rattle.nv_mirror.specs.declared.visit.VisitControl.TheVariants as visits;

use crate::{FrontMachine, LoadControl, LoadMachine, VisitControl, VisitMachine};
use nv_op::Asked;
use nv_table::Layout;

// Puts some bytes into a list, from a place on.
fn put(list: &mut [u8], at: usize, bytes: &[u8])
    requires { at + length bytes.now ≤ length list.old }
    ensures { list.new ≡ take at list.old ++ bytes.now ++ drop (at + length bytes.now) list.old }
{
    let end = at + bytes.len();
    list[at..end].copy_from_slice(bytes);
}

// Puts a part of a room for a page into a list, from a place on.
fn put_part(list: &mut [u8], place: usize, room: &[u8], from: usize, size: usize)
    requires inside { from + size ≤ length room.now }
    requires room { place + size ≤ length list.old }
    ensures { (rest : List ℕ) × (list.new ≡ take place list.old ++ (bytes_at room.now from size ++ rest)) }
{
    put(list, place, &room[from..from + size]);
}

impl FrontMachine<'_> {
    /// A read whose front is over, at its pages. Its list has as many bytes as it asks for.
    #[inline(always)]
    pub fn visit(self, layout: Layout) -> VisitMachine
        requires passed { self.control ≡ fronts.Passed }
        requires fits { FitsFront (sizes_of layout) self }
        requires read { is_read (front_call_of self) ≡ true }
        ensures asked { visit_asked result ≡ self.entry.asked }
        ensures machine { result ≡ record {
          file = result.file;
          at = result.at;
          len = result.len;
          first = self.entry.first;
          pages = self.entry.held;
          sized = self.entry.sized;
          length = self.entry.length;
          from = self.entry.first;
          page = self.entry.first;
          copied = 0;
          control = visits.Look;
        } }
        ensures way { (list : List ℕ) (start now : PassState) → length list ≡ size_in self.entry → IsFrontUnderWay self.entry start now → IsUnderWay result list start now }
    {
        // Only the clause speaks of it.
        let _ = layout;
        let Asked::Read { file, at, len } = self.asked else {
            unreachable!()
        };
        VisitMachine {
            file,
            at,
            len,
            first: self.first,
            pages: self.held,
            sized: self.sized,
            length: self.length,
            from: self.first,
            page: self.first,
            copied: 0,
            control: VisitControl::Look,
        }
    }
}

impl VisitMachine {
    /// The load of the page that it misses.
    pub fn load(self) -> LoadMachine
        ensures machine { result ≡ load_of self }
        ensures way { (list room : List ℕ) (start now : PassState) → self.control ≡ visits.Load → IsUnderWay self list start now → IsLoadUnderWay result room start now }
        ensures carries { (list : List ℕ) (start now : PassState) → self.control ≡ visits.Load → IsUnderWay self list start now → Carries self list now }
    {
        LoadMachine {
            file: self.file,
            at: self.at,
            len: self.len,
            first: self.first,
            pages: self.pages,
            sized: self.sized,
            length: self.length,
            page: self.page,
            head: 0,
            control: LoadControl::LoadDirty,
        }
    }

    /// Goes on at the next page, where its own is loaded: the page's bytes, which lie in a room for one, come to the list, as far as they belong to the reply.
    pub fn pass_page(self, layout: Layout, room: &[u8], list: &mut [u8]) -> VisitMachine
        requires fits { Fits (sizes_of layout) self }
        requires room { length room.now ≡ layout.page }
        requires carries { (now : PassState) × (now.view.opened.sizes ≡ sizes_of layout) × Carries self list.old now }
        ensures machine { result ≡ visits_next self (page_piece (sizes_of layout) (visit_call_of self) self.length self.page).size }
        ensures way { (load : LoadMachine) (start now : PassState) → now.view.opened.sizes ≡ sizes_of layout → IsLoadOf load self → load.control ≡ loads.Loaded → IsLoadUnderWay load room.now start now → Carries self list.old now → IsUnderWay result list.new start now }
    {
        let (from, size) = self.part_of(layout, self.page);
        put_part(list, self.copied as usize, room, from, size);
        VisitMachine {
            from: self.page + 1,
            page: self.page + 1,
            copied: self.copied + size as u64,
            control: VisitControl::Look,
            ..self
        }
    }
}
