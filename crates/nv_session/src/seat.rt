//! A thread's session and its work, while they are out.
ghost use Rattle.std.specs.Prelude.{◌≡◌, ℕ, ◌<◌, length, slice_index_or};
ghost use Rattle.nv_session.specs.Works.{HasDone};

use crate::{Mounted, Session, Work};
use nv_pmem::Lines;
use nv_store::Backing;
use std::marker::Model;
use std::thread::{Threads, for_each_mut};

/// A session, and what is to be done by it.
pub(crate) struct Seat<'m, M: Mounted, L: Lines, B: Backing, W> {
    pub(crate) session: Session<'m, M, L, B>,
    pub(crate) work: W,
}

impl<'m, M: Mounted, L: Lines, B: Backing, W> Model for Seat<'m, M, L, B, W> {
    ghost use Rattle.nv_session.specs.Works.{SeatState};

    ghost Value = { SeatState W };

    ghost view = { λ s. record { session = s.session; work = s.work } };
}

// Does its work.
fn serve<'m, R, M: Mounted, L: Lines, B: Backing, W: Work<R, L, B>>(
    rt: &R,
    seat: &mut Seat<'m, M, L, B, W>,
)
    ensures { HasDone W.does M.mount seat.old seat.new }
{
    seat.work.work::<M>(rt, &mut seat.session);
}

/// All do their works, at the same time where threads can be started.
pub(crate) fn serve_all<
    'm,
    R: Threads + Sync,
    M: Mounted + Send,
    L: Lines + Drop + Send,
    B: Backing + Drop + Send,
    W: Work<R, L, B> + Send,
>(rt: &R, seats: &mut [Seat<'m, M, L, B, W>])
    ensures count { length seats.new ≡ length seats.old }
    ensures each { (i : ℕ) (d : _) → i < length seats.old → HasDone W.does M.mount (slice_index_or seats.old i d) (slice_index_or seats.new i d) }
{
    let count = seats.len();
    if count == 0 {
        return;
    }
    for_each_mut(
        rt,
        seats,
        count,
        &|_place, seat|
            ensures { HasDone W.does M.mount seat.entry.now seat.exit.now }
        { serve(rt, seat) },
    );
}
