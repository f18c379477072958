//! The steps of a page's load: those that come alone, and those before which a device is read or the page's buffer is filled.
ghost use Rattle.std.specs.Prelude.{◌≡◌, ℕ, ◌%◌, ◌+◌, ◌<◌, ◌≤◌, List, length, take, if◌then◌else◌, None, IfOk, OnOk, OnErr};
ghost use Rattle.nv_core.specs.invariant.Rooms.{KeepsReady};
ghost use Rattle.nv_core.specs.invariant.Shapes.{IsStore};
ghost use Rattle.nv_core.specs.state.Words.{STORE, ENTRY, slot_of_entry};
ghost use Rattle.nv_core.specs.steps.Order.{SaysOf, SaysPieceOf, page_start};
ghost use Rattle.nv_op.specs.Ops.{Fits as OpFits, core_op_of};
ghost use Rattle.nv_pages.specs.Altered.{IsAltered};
ghost use Rattle.nv_pages.specs.PageWork.{HasFailedCall, OfKept};
ghost use Rattle.nv_table.specs.state.Keys.{sizes_of};
ghost use Rattle.nv_table.specs.state.States.{IsOf, PassState};
ghost use Rattle.nv_table.specs.state.Views.{pass_of, values_of};
ghost use Rattle.nv_table.specs.steps.CallSteps.{Precondition};
ghost use Rattle.nv_table.specs.steps.StepContracts.{Postcondition};
ghost use Rattle.nv_mirror.specs.LoadAnswers.{HasLoaded, HasRun};
ghost use Rattle.nv_mirror.specs.Loads.{Fits, HasStepped, IsInCall, IsOpen, IsPlain, IsUnderWay, KeepsOthers, load_call_of, load_measure, values_fetched};
ghost use Rattle.nv_mirror.specs.declared.load.LoadControl.TheVariants as loads;

use crate::{LoadControl, LoadMachine};
use nv_core::{cells_keep_their_shapes, held_pieces_fit, runs_are_sound, runs_keep_content};
use nv_entry::RegionFault;
use nv_op::{Op, Word, perform, perform_after};
use nv_pages::{Piece, fill_page, patch, read_entry, read_store};
use nv_pmem::Lines;
use nv_store::{Backing, StoreFault};
use nv_table::{Board, Layout, Pass, Says};
use std::marker::Brand;

// Makes a step behind the read of a store or an entry, by its number, from an offset on, which found these bytes. What is said of the read is so of the calls
// that the step tells.
fn perform_read<W: Says, L: Lines, B: Backing>(
    board: &Board<L, B>,
    pass: &mut Pass<L, B>,
    op: Op,
    _number: u64,
    _at: u64,
    _bytes: &[u8],
) -> u64
    requires board { IsOf board.now pass.old }
    requires fits { OpFits pass.old.view.opened.sizes None (pass_of pass.old.view) op }
    requires due { (due : Precondition pass.old None (core_op_of pass.old.view op)) × W.said due.works }
    ensures board { IsOf board.now pass.new }
    ensures stepped { (stepped : Postcondition pass.old None (core_op_of pass.old.view op) result pass.new) × W.said stepped.works }
{
    perform_after::<W, L, B>(board, pass, op)
}

// What is next behind the store, where its page was read.
fn behind_fetch(dirty: bool) -> LoadControl
    ensures { result ≡ (if dirty then loads.LoadHead else loads.Loaded) }
{
    if dirty {
        LoadControl::LoadHead
    } else {
        LoadControl::Loaded
    }
}

impl LoadMachine {
    // Makes the next step, where neither a device call nor a buffer's change comes before it.
    fn step<L: Lines, B: Backing>(&mut self, board: &Board<L, B>, pass: &mut Pass<L, B>)
        requires board { IsOf board.now pass.old }
        requires plain { IsPlain self.old.control }
        requires way { (room : List ℕ) × (start : PassState) × IsUnderWay self.old room start pass.old }
        ensures board { IsOf board.now pass.new }
        ensures one { HasStepped self.old self.new pass.old pass.new }
        ensures falls { load_measure self.new < load_measure self.old }
        ensures others { KeepsOthers self.old pass.old pass.new }
        ensures way { (room : List ℕ) (start : PassState) → IsUnderWay self.old room start pass.old → IsUnderWay self.new room start pass.new }
    {
        let layout = board.layout();
        let found = perform(board, pass, None, self.next(layout));
        *self = self.after(layout, found);
    }

    // Where its page begins in its file, in bytes.
    fn page_start(self, layout: Layout) -> u64
        requires { Fits (sizes_of layout) self }
        ensures { result ≡ page_start (sizes_of layout) (load_call_of self) self.page }
    {
        (self.page - self.file * layout.pages) * layout.page
    }

    // Reads its page from the store into the room for one, and from there into its buffer, where it has no entries.
    fn fetch<L: Lines, B: Backing>(
        self,
        board: &Board<L, B>,
        pass: &mut Pass<L, B>,
        room: &mut [u8],
        dirty: bool,
    ) -> Result<(), StoreFault>
        requires board { IsOf board.now pass.old }
        requires room { length room.old ≡ pass.old.view.opened.sizes.page }
        requires fits { Fits pass.old.view.opened.sizes self }
        requires way { (laid : List ℕ) × (start : PassState) × IsInCall self (loads.ReadStore dirty) laid start pass.old }
        ensures board { IsOf board.now pass.new }
        ensures altered { OnOk result (IsAltered (values_fetched dirty self.page room.new) pass.old pass.new) }
        ensures says { OnOk result (SaysOf pass.old.view.opened.sizes (page_start pass.old.view.opened.sizes (load_call_of self) self.page) room.new (values_of pass.old.view (STORE self.file))) }
        ensures failed { OnErr result (HasFailedCall (STORE self.file) pass.old pass.new) }
        ensures store { IsStore (values_of pass.old.view (STORE self.file)) }
    {
        cells_keep_their_shapes();
        board.keeps_stores_and_buffers();
        pass.sees_a_run();
        let at = self.page_start(board.layout());
        read_store(board, pass, self.file, at, room)?;
        if !dirty {
            fill_page(board, pass, self.page, room);
        }
        Ok(())
    }

    // Reads its page from the store, and gives that back; or sets STOP, where that fails.
    fn copy<L: Lines, B: Backing>(
        &mut self,
        board: &Board<L, B>,
        pass: &mut Pass<L, B>,
        room: &mut [u8],
        dirty: bool,
    )
        requires board { IsOf board.now pass.old }
        requires at { self.old.control ≡ loads.ReadStore dirty }
        requires room { length room.old ≡ pass.old.view.opened.sizes.page }
        requires way { (laid : List ℕ) × (start : PassState) × IsUnderWay self.old laid start pass.old }
        ensures board { IsOf board.now pass.new }
        ensures one { HasStepped self.old self.new pass.old pass.new }
        ensures falls { load_measure self.new < load_measure self.old }
        ensures others { KeepsOthers self.old pass.old pass.new }
        ensures way { (laid : List ℕ) (start : PassState) → IsUnderWay self.old laid start pass.old → IsUnderWay self.new room.new start pass.new }
    {
        let Ok(()) = self.fetch(board, pass, room, dirty) else {
            perform_after::<Brand, L, B>(board, pass, Op::Stop);
            self.control = LoadControl::GiveBackStore { dirty };
            return;
        };
        let op = Op::Give {
            cell: Word::Store { file: self.file },
        };
        let at = self.page_start(board.layout());
        perform_read::<Brand, L, B>(board, pass, op, self.file, at, room);
        self.control = behind_fetch(dirty);
    }

    // Reads the piece of the entry that it holds to the front of a room for one.
    fn read_piece<L: Lines, B: Backing>(
        self,
        board: &Board<L, B>,
        pass: &mut Pass<L, B>,
        into: &mut [u8],
        number: u64,
    ) -> Result<Piece, RegionFault>
        requires board { IsOf board.now pass.old }
        requires into { length into.old ≡ pass.old.view.opened.sizes.page }
        requires fits { Fits pass.old.view.opened.sizes self }
        requires way { (laid : List ℕ) × (start : PassState) × IsInCall self (loads.ReadPiece number) laid start pass.old }
        ensures board { IsOf board.now pass.new }
        ensures same { OnOk result (IsAltered (λ kept. kept) pass.old pass.new) }
        ensures says { IfOk result (λ piece. OfKept pass.old (λ kept. SaysPieceOf pass.old.view.opened.sizes piece.at (take piece.size into.new) (kept (ENTRY (slot_of_entry pass.old.view.opened.sizes number))))) }
        ensures within { IfOk result (λ piece. piece.at % pass.old.view.opened.sizes.page + piece.size ≤ pass.old.view.opened.sizes.page) }
        ensures failed { OnErr result (HasFailedCall (ENTRY (slot_of_entry pass.old.view.opened.sizes number)) pass.old pass.new) }
        ensures ready { KeepsReady pass.old.view.opened.sizes (values_of pass.old.view (ENTRY (slot_of_entry pass.old.view.opened.sizes number))) }
    {
        runs_are_sound();
        held_pieces_fit();
        pass.sees_a_run();
        // Only its limits are wanted.
        let _layout = board.layout();
        read_entry(board, pass, number, into)
    }

    // Reads the piece of the entry that it holds, lays it over the page, and returns the entry; or sets STOP, where the part fails.
    fn patch<L: Lines, B: Backing>(
        &mut self,
        board: &Board<L, B>,
        pass: &mut Pass<L, B>,
        room: &mut [u8],
        piece: &mut [u8],
        number: u64,
    )
        requires board { IsOf board.now pass.old }
        requires at { self.old.control ≡ loads.ReadPiece number }
        requires room { length room.old ≡ pass.old.view.opened.sizes.page }
        requires piece { length piece.old ≡ pass.old.view.opened.sizes.page }
        requires way { (start : PassState) × IsUnderWay self.old room.old start pass.old }
        ensures board { IsOf board.now pass.new }
        ensures one { HasStepped self.old self.new pass.old pass.new }
        ensures falls { load_measure self.new < load_measure self.old }
        ensures others { KeepsOthers self.old pass.old pass.new }
        ensures way { (start : PassState) → IsUnderWay self.old room.old start pass.old → IsUnderWay self.new room.new start pass.new }
    {
        let layout = board.layout();
        let Ok(read) = self.read_piece(board, pass, piece, number) else {
            perform_after::<Brand, L, B>(board, pass, Op::Stop);
            self.control = LoadControl::ReturnEntry { number };
            return;
        };
        let bytes = &piece[..read.size as usize];
        patch(room, (read.at % layout.page) as usize, bytes);
        let op = Op::Return { number };
        perform_read::<Brand, L, B>(board, pass, op, number, read.at, bytes);
        self.control = self.scan_behind(number);
    }

    // Fills the buffer of its page, over which all its pieces are laid, and gives CLEANUP back.
    fn finish<L: Lines, B: Backing>(
        &mut self,
        board: &Board<L, B>,
        pass: &mut Pass<L, B>,
        room: &[u8],
    )
        requires board { IsOf board.now pass.old }
        requires at { self.old.control ≡ loads.GiveCleanup }
        requires room { length room.now ≡ pass.old.view.opened.sizes.page }
        requires way { (start : PassState) × IsUnderWay self.old room.now start pass.old }
        ensures board { IsOf board.now pass.new }
        ensures one { HasStepped self.old self.new pass.old pass.new }
        ensures falls { load_measure self.new < load_measure self.old }
        ensures others { KeepsOthers self.old pass.old pass.new }
        ensures way { (start : PassState) → IsUnderWay self.old room.now start pass.old → IsUnderWay self.new room.now start pass.new }
    {
        cells_keep_their_shapes();
        board.keeps_stores_and_buffers();
        pass.sees_a_run();
        fill_page(board, pass, self.page, room);
        let op = Op::Give {
            cell: Word::Cleanup { page: self.page },
        };
        perform(board, pass, None, op);
        self.control = LoadControl::Loaded;
    }

    // Makes the next step, behind the device call that lies before it, if one does.
    #[inline(always)]
    fn make_next<L: Lines, B: Backing>(
        &mut self,
        board: &Board<L, B>,
        pass: &mut Pass<L, B>,
        room: &mut [u8],
        piece: &mut [u8],
    )
        requires board { IsOf board.now pass.old }
        requires open { IsOpen self.old.control }
        requires room { length room.old ≡ pass.old.view.opened.sizes.page }
        requires piece { length piece.old ≡ pass.old.view.opened.sizes.page }
        requires way { (start : PassState) × IsUnderWay self.old room.old start pass.old }
        ensures board { IsOf board.now pass.new }
        ensures one { HasStepped self.old self.new pass.old pass.new }
        ensures falls { load_measure self.new < load_measure self.old }
        ensures others { KeepsOthers self.old pass.old pass.new }
        ensures way { (start : PassState) → IsUnderWay self.old room.old start pass.old → IsUnderWay self.new room.new start pass.new }
    {
        match self.control {
            LoadControl::ReadStore { dirty } => self.copy(board, pass, room, dirty),
            LoadControl::ReadPiece { number } => self.patch(board, pass, room, piece, number),
            LoadControl::GiveCleanup => self.finish(board, pass, room),
            _ => self.step(board, pass),
        }
    }

    /// Makes the next step, behind the device call that lies before it, if one does. The bytes of the page lie in `room` from one advance to the next, as far
    /// as the read has them; `piece` is room for the piece of an entry, and what it has then isn't said. Each has as many bytes as a page. Takes no memory, and
    /// waits for nobody.
    ///
    /// Where the page is loaded its bytes, as its store has them with the pieces of its entries laid over them, lie in `room`: what the page is after the history.
    /// It is refused as `Busy` where CLEANUP of the page or the lock of its store was found held, as `StoreFault` where the read of the store failed, and as
    /// `RegionFault` where that of an entry did.
    pub fn advance<L: Lines, B: Backing>(
        &mut self,
        board: &Board<L, B>,
        pass: &mut Pass<L, B>,
        room: &mut [u8],
        piece: &mut [u8],
    )
        requires board { IsOf board.now pass.old }
        requires open { IsOpen self.old.control }
        requires room { length room.old ≡ pass.old.view.opened.sizes.page }
        requires piece { length piece.old ≡ pass.old.view.opened.sizes.page }
        requires way { (start : PassState) × IsUnderWay self.old room.old start pass.old }
        ensures board { IsOf board.now pass.new }
        ensures one { HasStepped self.old self.new pass.old pass.new }
        ensures falls { load_measure self.new < load_measure self.old }
        ensures others { KeepsOthers self.old pass.old pass.new }
        ensures answer { (first : LoadMachine) (began : PassState) → HasRun first self.old began pass.old → HasRun first self.new began pass.new }
        ensures loaded { self.new.control ≡ loads.Loaded → HasLoaded self.new.page room.new pass.new }
        ensures way { (start : PassState) → IsUnderWay self.old room.old start pass.old → IsUnderWay self.new room.new start pass.new }
    {
        self.make_next(board, pass, room, piece);
        runs_keep_content();
        pass.sees_a_run();
    }
}
