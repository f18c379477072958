//! How passes are made and taken in, and how one tells another the run so far.
ghost use Rattle.std.specs.Prelude.{◌≡◌, ◌≢◌, ◌+◌, ◌<◌, ◌≤◌, ◌^◌, List, [], ◌∷◌, ℕ, length, IfOk, OnErr};
ghost use Rattle.nv_core.specs.state.Core.{with_seen};
ghost use Rattle.nv_core.specs.state.Words.{Word};
ghost use Rattle.nv_table.specs.passes.Known.{known_by};
ghost use Rattle.nv_table.specs.passes.Moments.{SharesMoment, longer};
ghost use Rattle.nv_table.specs.passes.PassesMade.{IsShownStill, IsSplit, PutsBack, IsTakenIn, imported_by};
ghost use Rattle.nv_table.specs.state.Views.{pass_of, made_of};
ghost use Rattle.nv_table.specs.state.States.{IsOf};

use crate::pass::or_else;
use crate::passing::{join, leave, split};
use crate::seating::{forget, import_view as import_into_seat, look, part, take_in, tell};
use crate::{Board, Pass, Slot, View};
use atomic_table::Seat;
use nv_core::{passes_are_left_alone, runs_are_sound};
use nv_plain::NoMemory;
use nv_pmem::Lines;
use nv_store::Backing;
use std::alloc::Global;
use std::marker::{Brand, Model};

/// The run of all passes up to some pass's last step, which another pass may import. It has no bytes.
pub struct ExportedView<L: Lines, B: Backing> {
    seat: Seat<Slot<L, B>, View>,
}

impl<L: Lines, B: Backing> Model for ExportedView<L, B> {
    ghost use Rattle.std.specs.Prelude.{◌≡◌, false, []};
    ghost use Rattle.nv_table.specs.passes.PassesMade.{ExportedViewState};

    ghost Value = { ExportedViewState };

    ghost view = { λ n. record { table = n.seat.table_id; run = n.seat.me.0.run } };

    ghost invariant = { λ n. (n.seat.me.0.live ≡ false) × (n.seat.me.1 ≡ []) };
}

impl<L: Lines + Drop, B: Backing + Drop> Pass<L, B> {
    /// Its number: 0 for the pass that the board was made with, and from 1 on, in their order, for those that it made.
    pub fn number(&self) -> u64
        ensures { result ≡ self.now.view.number }
    {
        self.number
    }

    /// How many passes pass 0 has made.
    pub fn made(&self) -> u64
        requires zero { self.now.view.number ≡ 0 }
        ensures { result ≡ made_of self.now.view }
    {
        self.made
    }

    /// How many passes pass 0 has taken in: at most as many as it has made.
    pub fn joined(&self) -> u64
        requires zero { self.now.view.number ≡ 0 }
        ensures count { result ≡ length self.now.view.ended }
        ensures most { result ≤ made_of self.now.view }
    {
        runs_are_sound();
        self.joined
    }
}

/// Makes another pass, with what pass 0 and those that it took in have seen; of fewer than 2^32 in all. Takes the memory that the new
/// pass needs for all its life.
pub fn split_pass<L: Lines + Drop, B: Backing + Drop>(
    alloc: Global,
    board: &Board<L, B>,
    pass: &mut Pass<L, B>,
) -> Result<Pass<L, B>, NoMemory>
    requires board { IsOf board.now pass.old }
    requires zero { pass.old.view.number ≡ 0 }
    requires staying { (pass_of pass.old.view).left ≡ [] }
    requires few { made_of pass.old.view + 1 < 2 ^ 32 }
    ensures made { IfOk result (λ other. IsSplit pass.old pass.new other) }
    ensures refused { OnErr result (pass.new ≡ pass.old) }
{
    runs_are_sound();
    let mut held = Vec::new(alloc);
    held.reserve(board.table.slot_count())?;
    split(&board.table.shared, &mut pass.seat);
    let seat = part(&board.table.shared, &mut pass.seat);
    pass.made += 1;
    Ok(Pass {
        seat,
        number: pass.made,
        made: 0,
        joined: 0,
        held,
        drawn: None,
        lost: None,
        inherited: None,
        parts: Vec::new(alloc),
        stores: Vec::new(alloc),
    })
}

// The slot that stands first goes home, and the lock of its cell stays shut.
fn put_back_first<L: Lines, B: Backing>(board: &Board<L, B>, pass: &mut Pass<L, B>)
    requires board { IsOf board.now pass.old }
    requires still { IsShownStill pass.old }
    requires some { pass.old.now ≢ [] }
    ensures board { IsOf board.now pass.new }
    ensures still { IsShownStill pass.new }
    ensures spare { pass.new.spare ≡ pass.old.spare }
    ensures fewer { length pass.new.now + 1 ≡ length pass.old.now }
    ensures back { (cell : Word × ℕ) × PutsBack (cell ∷ []) pass.old.view pass.new.view }
{
    leave::<Brand, Slot<L, B>>(&board.table.shared, &mut pass.seat);
    pass.held.rotate_left(1);
    pass.held.pop();
}

// All that it owns goes home, and the locks stay shut.
pub(crate) fn put_back<L: Lines, B: Backing>(board: &Board<L, B>, pass: &mut Pass<L, B>)
    requires board { IsOf board.now pass.old }
    requires still { IsShownStill pass.old }
    ensures board { IsOf board.now pass.new }
    ensures back { (cells : List (Word × ℕ)) × PutsBack cells pass.old.view pass.new.view }
    ensures spare { pass.new.spare ≡ pass.old.spare }
    ensures bare { pass.new.now ≡ [] }
{
    while !pass.held.is_empty() {
        put_back_first(board, pass);
    }
}

/// Takes in a pass that pass 0 made, whatever it is at: what it owns goes home first, while the locks of these cells stay shut, and what it
/// has drawn for a write that has no place goes over. Pass 0 knows then what the other had seen, too: the longer history, the greater HEAD and TAIL, and STOP
/// of either, and no step of it finds less. No device call may have come since its last step. Takes no memory.
pub fn join_pass<L: Lines + Drop, B: Backing + Drop>(
    board: &Board<L, B>,
    pass: &mut Pass<L, B>,
    mut other: Pass<L, B>,
)
    requires board { IsOf board.now pass.old }
    requires other_board { IsOf board.now other }
    requires zero { pass.old.view.number ≡ 0 }
    requires other_number { other.view.number ≢ 0 }
    requires staying { (pass_of pass.old.view).left ≡ [] }
    requires still { IsShownStill other }
    ensures taken { IsTakenIn pass.old other pass.new }
    ensures learns { known_by pass.new.view ≡ with_seen (known_by pass.old.view) (pass_of other.view) }
{
    runs_are_sound();
    passes_are_left_alone();
    put_back(board, &mut other);
    let Pass {
        seat,
        number: _,
        made: _,
        joined: _,
        held,
        drawn,
        lost: _,
        inherited: _,
        parts,
        stores,
    } = other;
    drop(held);
    drop(parts);
    drop(stores);
    take_in(&board.table.shared, &mut pass.seat, seat);
    join::<Brand, Slot<L, B>>(&board.table.shared, &mut pass.seat);
    pass.joined += 1;
    pass.inherited = or_else(drawn, pass.inherited);
}

/// Writes down the run of all passes up to a pass's last step.
pub fn export_view<L: Lines, B: Backing>(
    board: &Board<L, B>,
    from: &mut Pass<L, B>,
) -> ExportedView<L, B>
    requires board { IsOf board.now from.old }
    ensures from { from.new ≡ from.old }
    ensures table { result.table ≡ from.old.table }
    ensures run { result.run ≡ from.old.view.run }
{
    ExportedView {
        seat: tell(&board.table.shared, &mut from.seat),
    }
}

/// A pass imports an exported view: each of its later steps comes behind that run, and behind those of the exported views that it has imported before.
pub fn import_view<L: Lines, B: Backing>(
    board: &Board<L, B>,
    to: &mut Pass<L, B>,
    exported: ExportedView<L, B>,
)
    requires board { IsOf board.now to.old }
    requires exported { exported.table ≡ board.now.table }
    ensures to { to.new ≡ imported_by to.old exported.run }
{
    let ExportedView { seat } = exported;
    import_into_seat(&board.table.shared, &mut to.seat, seat);
}

/// A pass looks at an exported view: there is a moment that it shares with it, at which the run so far began with that view's, and in which the pass had seen all of its own. So no step of the pass that
/// comes later lies in that run. The pass stays as it is; the view that comes back tells the longer one of that run and of what the pass has seen.
pub fn look_at<L: Lines, B: Backing>(
    board: &Board<L, B>,
    pass: &mut Pass<L, B>,
    exported: ExportedView<L, B>,
) -> ExportedView<L, B>
    requires board { IsOf board.now pass.old }
    requires exported { exported.table ≡ board.now.table }
    ensures pass { pass.new ≡ pass.old }
    ensures table { result.table ≡ board.now.table }
    ensures longer { result.run ≡ longer pass.old.view.run exported.run }
    ensures shares { SharesMoment pass.old.view exported.run }
{
    let ExportedView { seat } = exported;
    import_into_seat(&board.table.shared, &mut pass.seat, seat);
    look(&board.table.shared, &mut pass.seat);
    ExportedView {
        seat: forget(&board.table.shared, &mut pass.seat),
    }
}
