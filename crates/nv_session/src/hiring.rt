//! How pass 0 makes sessions for works, and takes them in again.
ghost use Rattle.std.specs.Prelude.{◌≡◌, ℕ, ◌+◌, ◌<◌, ◌≤◌, ◌^◌, ◌++◌, ◌∷◌, [], All, length, map, reverse, vec_capacity, IfOk, OnErr, OnOk};
ghost use Rattle.nv_table.specs.passes.Alone.{IsAlone};
ghost use Rattle.nv_table.specs.passes.Seats.{past_of};
ghost use Rattle.nv_table.specs.state.Views.{made_of};
ghost use Rattle.nv_runner.specs.Workers.{IsNewcomer, IsZero, IsZeroStill};
ghost use Rattle.nv_session.specs.Works.{HaveWorked};

use crate::seat::{Seat, serve_all};
use crate::{Mounted, Session, Work};
use nv_core::{passes_are_left_alone, runs_are_sound};
use nv_mount::Mount;
use nv_plain::NoMemory;
use nv_pmem::Lines;
use nv_store::Backing;
use nv_table::{Pass, Workspace, join_pass, passes_stay_between_calls, split_pass};
use std::alloc::Global;
use std::marker::PhantomData;
use std::thread::Threads;

// Makes a session, whose pass has called nothing, and begins with all that pass 0 has taken in.
fn new_session<'m, M: Mounted, L: Lines + Drop, B: Backing + Drop>(
    alloc: Global,
    mount: &'m Mount<L, B>,
    zero: &mut Pass<L, B>,
) -> Result<Session<'m, M, L, B>, NoMemory>
    requires named { mount.now ≡ M.mount }
    requires zero { IsZero mount.now zero.old }
    requires few { made_of zero.old.view + 1 < 2 ^ 32 }
    ensures zero { IsZero mount.now zero.new }
    ensures still { IsZeroStill zero.old zero.new }
    ensures ended { zero.new.view.ended ≡ zero.old.view.ended }
    ensures newcomer { IfOk result (IsNewcomer mount.now.board.opened zero.old.view.ended) }
    ensures made { OnOk result (made_of zero.new.view ≡ made_of zero.old.view + 1) }
    ensures none { OnErr result (made_of zero.new.view ≡ made_of zero.old.view) }
{
    passes_stay_between_calls();
    passes_are_left_alone();
    runs_are_sound();
    zero.sees_a_run();
    zero.has_taken_in();
    let workspace = Workspace::new(alloc, mount.board().layout())?;
    let pass = split_pass(alloc, mount.board(), zero)?;
    Ok(Session {
        mount,
        pass,
        workspace,
        named: PhantomData,
    })
}

// Takes a session in.
fn take_in<'m, M: Mounted, L: Lines + Drop, B: Backing + Drop>(
    mount: &'m Mount<L, B>,
    zero: &mut Pass<L, B>,
    session: Session<'m, M, L, B>,
)
    requires named { mount.now ≡ M.mount }
    requires zero { IsZero mount.now zero.old }
    ensures zero { IsZero mount.now zero.new }
    ensures still { IsZeroStill zero.old zero.new }
    ensures ended { zero.new.view.ended ≡ past_of session.entry.view ∷ zero.old.view.ended }
    ensures made { made_of zero.new.view ≡ made_of zero.old.view }
{
    passes_stay_between_calls();
    passes_are_left_alone();
    let Session {
        mount: _,
        pass,
        workspace,
        named: _,
    } = session;
    drop(workspace);
    pass.sees_a_run();
    pass.bare_is_still();
    join_pass(mount.board(), zero, pass);
}

// Makes a session for each work, from the last one on. Where memory is wanting, for some last ones.
fn hire<'m, R, M: Mounted, L: Lines + Drop, B: Backing + Drop, W: Work<R, L, B>>(
    alloc: Global,
    mount: &'m Mount<L, B>,
    zero: &mut Pass<L, B>,
    works: &mut Vec<W>,
    seats: &mut Vec<Seat<'m, M, L, B, W>>,
) -> Result<(), NoMemory>
    requires named { mount.now ≡ M.mount }
    requires zero { IsZero mount.now zero.old }
    requires few { made_of zero.old.view + length works.old.items < 2 ^ 32 }
    requires none { seats.old.items ≡ [] }
    ensures zero { IsZero mount.now zero.new }
    ensures still { IsZeroStill zero.old zero.new }
    ensures ended { zero.new.view.ended ≡ zero.old.view.ended }
    ensures new { All (λ seat. IsNewcomer mount.now.board.opened zero.old.view.ended seat.session) seats.new.items }
    ensures made { made_of zero.new.view ≡ made_of zero.old.view + length seats.new.items }
    ensures works { works.new.items ++ reverse (map (λ seat. seat.work) seats.new.items) ≡ works.old.items }
    ensures room { length works.new.items + length seats.new.items ≤ vec_capacity works.new }
    ensures all { OnOk result (works.new.items ≡ []) }
{
    seats.reserve(works.len())?;
    while let Some(work) = works.pop() {
        match new_session(alloc, mount, zero) {
            Ok(session) => seats.push_reserved(Seat { session, work }),
            Err(error) => {
                works.push_reserved(work);
                return Err(error);
            }
        }
    }
    Ok(())
}

// Takes in all sessions. Their works come back behind those that are there, in their order.
fn take_in_all<'m, M: Mounted, L: Lines + Drop, B: Backing + Drop, W>(
    mount: &'m Mount<L, B>,
    zero: &mut Pass<L, B>,
    mut seats: Vec<Seat<'m, M, L, B, W>>,
    works: &mut Vec<W>,
)
    requires named { mount.now ≡ M.mount }
    requires zero { IsZero mount.now zero.old }
    requires room { length works.old.items + length seats.items ≤ vec_capacity works.old }
    ensures zero { IsZero mount.now zero.new }
    ensures still { IsZeroStill zero.old zero.new }
    ensures ended { zero.new.view.ended ≡ map (λ seat. past_of seat.session.view) seats.entry.items ++ zero.old.view.ended }
    ensures made { made_of zero.new.view ≡ made_of zero.old.view }
    ensures works { works.new.items ≡ works.old.items ++ reverse (map (λ seat. seat.work) seats.entry.items) }
{
    while let Some(seat) = seats.pop() {
        let Seat { session, work } = seat;
        works.push_reserved(work);
        take_in(mount, zero, session);
    }
    seats.destroy_empty();
}

/// Does all works at the same time, each by a session that pass 0 makes, and takes in again. Where memory is wanting none is done.
pub(crate) fn do_all<
    R: Threads + Sync,
    M: Mounted + Send,
    L: Lines + Drop + Send,
    B: Backing + Drop + Send,
    W: Work<R, L, B> + Send,
>(
    rt: &R,
    alloc: Global,
    mount: &Mount<L, B>,
    zero: &mut Pass<L, B>,
    works: &mut Vec<W>,
) -> Result<(), NoMemory>
    requires named { mount.now ≡ M.mount }
    requires zero { IsZero mount.now zero.old }
    requires alone { IsAlone zero.old.view }
    requires few { made_of zero.old.view + length works.old.items < 2 ^ 32 }
    ensures zero { IsZero mount.now zero.new }
    ensures alone { IsAlone zero.new.view }
    ensures still { IsZeroStill zero.old zero.new }
    ensures worked { OnOk result (HaveWorked W.does mount.now works.old.items works.new.items zero.old zero.new) }
    ensures kept { OnErr result (works.new.items ≡ works.old.items) }
{
    let mut seats = Vec::new(alloc);
    match hire::<R, M, L, B, W>(alloc, mount, zero, works, &mut seats) {
        Ok(()) => {}
        Err(error) => {
            take_in_all(mount, zero, seats, works);
            return Err(error);
        }
    }
    serve_all(rt, seats.as_mut_slice());
    take_in_all(mount, zero, seats, works);
    Ok(())
}
