//! The steps of an append before which something else comes: the device calls of its commit, and the pieces that are laid over the buffers of its pages.
ghost use Rattle.std.specs.Prelude.{◌≡◌, ◌+◌, ◌<◌, ◌≤◌, [], length, vec_capacity, Some};
ghost use Rattle.nv_core.specs.state.Passes.{IsOneOf};
ghost use Rattle.nv_core.specs.state.Values.{Buffer, ABuffer};
ghost use Rattle.nv_table.specs.state.Views.{slot_times};
ghost use Rattle.nv_table.specs.state.States.{IsOf, PassState};
ghost use Rattle.nv_pages.specs.Altered.{IsAltered};
ghost use Rattle.nv_pages.specs.PageWork.{page_slot};
ghost use Rattle.nv_ring.specs.declared.append.AppendControl.TheVariants as appends;
ghost use Rattle.nv_ring.specs.Appends.{Fits, HasStepped, IsOpen, IsUnderWay, append_call_of, append_measure};
ghost use Rattle.nv_ring.specs.Pledges.{HasPledged, IsBeforePledge, with_piece_on};

use crate::{AppendControl, AppendMachine};
use nv_core::cells_keep_their_shapes;
use nv_entry::cut;
use nv_op::{Op, perform_after};
use nv_pages::{commit_entries, patch_page};
use nv_pmem::Lines;
use nv_store::Backing;
use nv_table::{Board, Pass};
use std::marker::Brand;

impl<'a> AppendMachine<'a> {
    // Lays the piece of one of its pages over the page's buffer, where that counts.
    #[inline(always)]
    fn patch<L: Lines, B: Backing>(self, board: &Board<L, B>, pass: &mut Pass<L, B>, done: u64)
        requires board { IsOf board.now pass.old }
        requires fits { Fits pass.old.view.opened.sizes self }
        requires own { done < self.pages }
        requires owns_slots { slot_times (page_slot pass.old.view.opened.sizes (self.page + done)) pass.old.now ≡ 1 }
        requires room { (buffer : Buffer) → IsOneOf pass.old.now (page_slot pass.old.view.opened.sizes (self.page + done), ABuffer (Some buffer)) → pass.old.view.opened.sizes.page ≤ length buffer.bytes }
        ensures { IsAltered (with_piece_on pass.old.view.opened.sizes (append_call_of self.entry) (self.entry.page + done)) pass.old pass.new }
    {
        let layout = board.layout();
        let piece = cut(self.at, self.bytes.len() as u64, layout.page, done);
        let from = piece.from as usize;
        let bytes = &self.bytes[from..from + piece.size as usize];
        let at = (piece.at % layout.page) as usize;
        patch_page(board, pass, self.page + done, at, bytes);
    }

    // Pledges one of its pages, whose piece is laid over the buffer before. The result is what the word was found at.
    #[inline(always)]
    fn pledge_page<L: Lines, B: Backing>(
        self,
        board: &Board<L, B>,
        pass: &mut Pass<L, B>,
        done: u64,
    ) -> u64
        requires board { IsOf board.now pass.old }
        requires fits { Fits pass.old.view.opened.sizes self }
        requires own { done < self.pages }
        requires before { IsBeforePledge (append_call_of self) (self.page + done) pass.old }
        ensures board { IsOf board.now pass.new }
        ensures pledged { HasPledged (self.entry.page + done) result pass.old pass.new }
    {
        self.patch(board, pass, done);
        let op = Op::Pledge {
            page: self.page + done,
        };
        perform_after::<Brand, L, B>(board, pass, op)
    }

    // Makes the pledge of the page behind so many.
    #[inline(always)]
    pub(crate) fn pledge<L: Lines, B: Backing>(
        &mut self,
        board: &Board<L, B>,
        pass: &mut Pass<L, B>,
        pledged: u64,
    )
        requires board { IsOf board.now pass.old }
        requires at { self.old.control ≡ appends.PledgePage pledged }
        requires way { (start : PassState) × IsUnderWay self.old start pass.old }
        ensures board { IsOf board.now pass.new }
        ensures one { HasStepped self.old self.new pass.old pass.new }
        ensures falls { append_measure self.new < append_measure self.old }
        ensures way { (start : PassState) → IsUnderWay self.old start pass.old → IsUnderWay self.new start pass.new }
    {
        cells_keep_their_shapes();
        board.keeps_stores_and_buffers();
        pass.sees_a_run();
        let layout = board.layout();
        let found = self.pledge_page(board, pass, pledged);
        *self = self.after(layout, found);
    }

    // Makes the device calls of its commit, and pledges its first page; or sets STOP, where one of them has failed. While the calls are made the parts of its
    // entries lie in `parts`.
    #[inline(always)]
    pub(crate) fn commit<L: Lines, B: Backing>(
        &mut self,
        board: &Board<L, B>,
        pass: &mut Pass<L, B>,
        parts: &mut Vec<L>,
    )
        requires board { IsOf board.now pass.old }
        requires at { self.old.control ≡ appends.CommitGroup }
        requires way { (start : PassState) × IsUnderWay self.old start pass.old }
        requires bare { parts.old.items ≡ [] }
        requires places { self.old.pages ≤ vec_capacity parts.old }
        ensures board { IsOf board.now pass.new }
        ensures one { HasStepped self.old self.new pass.old pass.new }
        ensures falls { append_measure self.new < append_measure self.old }
        ensures way { (start : PassState) → IsUnderWay self.old start pass.old → IsUnderWay self.new start pass.new }
        ensures bare { parts.new.items ≡ [] }
        ensures places { vec_capacity parts.new ≡ vec_capacity parts.old }
    {
        cells_keep_their_shapes();
        board.keeps_stores_and_buffers();
        pass.sees_a_run();
        let layout = board.layout();
        let (number, file, at) = (self.number, self.file, self.at);
        let Ok(()) = commit_entries(board, pass, parts, number, file, at, self.bytes) else {
            perform_after::<Brand, L, B>(board, pass, Op::Stop);
            self.control = AppendControl::BreakEntry { broken: 0 };
            return;
        };
        let found = self.pledge_page(board, pass, 0);
        *self = self.after(layout, found);
    }

    /// Makes the next step, with what comes before it. While the device calls of a commit are made the parts of its entries lie in `parts`, which is empty, and has
    /// a place for each.
    pub fn advance<L: Lines, B: Backing>(
        &mut self,
        board: &Board<L, B>,
        pass: &mut Pass<L, B>,
        parts: &mut Vec<L>,
    )
        requires board { IsOf board.now pass.old }
        requires open { IsOpen self.old.control }
        requires way { (start : PassState) × IsUnderWay self.old start pass.old }
        requires bare { parts.old.items ≡ [] }
        requires places { self.old.pages ≤ vec_capacity parts.old }
        ensures board { IsOf board.now pass.new }
        ensures one { HasStepped self.old self.new pass.old pass.new }
        ensures falls { append_measure self.new < append_measure self.old }
        ensures way { (start : PassState) → IsUnderWay self.old start pass.old → IsUnderWay self.new start pass.new }
        ensures bare { parts.new.items ≡ [] }
        ensures places { vec_capacity parts.new ≡ vec_capacity parts.old }
    {
        match self.control {
            AppendControl::CommitGroup => self.commit(board, pass, parts),
            AppendControl::PledgePage { pledged } => self.pledge(board, pass, pledged),
            _ => self.step(board, pass),
        }
    }
}
