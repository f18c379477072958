//! The steps between passes: how pass 0 makes another, how a pass puts back what it owns, and how it is taken in.
ghost use Rattle.std.specs.Prelude.{◌≡◌, ◌<◌, true, List, []};
ghost use Rattle.nv_core.specs.state.Words.{Word, STOP};
ghost use Rattle.nv_core.specs.steps.Ops.{Split as SplitOp, Join as JoinOp};
ghost use Rattle.nv_table.specs.state.Views.{Past, SeesAll};
ghost use Rattle.nv_table.specs.passes.Seats.{PassingTells, MaySplit, MayPutBack, HasPutBack, MayJoin};

use crate::laws::laws_of_the_core;
use crate::rule::{Opening, TableInvariantRule};
use crate::{Shown, View};
use atomic_table::{Play, Seat, Shared};
use std::marker::{Brand, PhantomData};
use std::snapshot::Snapshot;

/// What the making of a pass tells.
pub struct Splitting {
    marker: PhantomData<()>,
}

impl<S> Play<S, View> for Splitting {
    ghost then = { λ step old found new. PassingTells old.0 SplitOp found new.0 × (new.1 ≡ old.1) };
}

/// Pass 0 makes another pass.
pub(crate) fn split<S: Shown>(
    shared: &Shared<S, View, Snapshot<Opening<S>>, TableInvariantRule<S>>,
    seat: &mut Seat<S, View>,
) -> u64
    requires table { seat.old.table_id ≡ shared.now.table_id }
    requires place { 0 < shared.now.table_id.words }
    requires live { seat.old.me.0.live ≡ true }
    requires may { MaySplit seat.old.me.0 }
    ensures table { seat.new.table_id ≡ seat.old.table_id }
    ensures seat { seat.new.id ≡ seat.old.id }
    ensures passed { PassingTells seat.old.me.0 SplitOp result seat.new.me.0 }
    ensures slots { seat.new.me.1 ≡ seat.old.me.1 }
{
    laws_of_the_core();
    shared.load::<Splitting>(seat, 0)
}

/// A cell that is put back, for contracts alone.
pub(crate) trait Leaving {
    ghost cell: { Word };
}

impl Leaving for Brand {
    ghost cell = { STOP };
}

/// What its putting back tells.
pub struct PutBack<E, S> {
    marker: PhantomData<(E, S)>,
}

impl<E: Leaving, S: Shown> Play<S, View> for PutBack<E, S> {
    ghost then = { λ step old found new. HasPutBack S.shown old E.cell found new };
}

/// A pass puts back what a cell that it owns keeps.
pub(crate) fn leave<E: Leaving, S: Shown>(
    shared: &Shared<S, View, Snapshot<Opening<S>>, TableInvariantRule<S>>,
    seat: &mut Seat<S, View>,
) -> u64
    requires table { seat.old.table_id ≡ shared.now.table_id }
    requires place { 0 < shared.now.table_id.words }
    requires live { seat.old.me.0.live ≡ true }
    requires may { MayPutBack S.shown seat.old.me E.cell }
    ensures table { seat.new.table_id ≡ seat.old.table_id }
    ensures seat { seat.new.id ≡ seat.old.id }
    ensures left { HasPutBack S.shown seat.old.me E.cell result seat.new.me }
{
    laws_of_the_core();
    shared.load::<PutBack<E, S>>(seat, 0)
}

/// A pass that is taken in, and those that were before it, for contracts alone.
pub(crate) trait Joining {
    ghost past: { Past };

    ghost before: { List Past };
}

impl Joining for Brand {
    ghost past = { record { number = 0; run = [] } };

    ghost before = { [] };
}

/// What its taking in tells.
pub struct TakenIn<E> {
    marker: PhantomData<E>,
}

impl<E: Joining, S> Play<S, View> for TakenIn<E> {
    ghost then = { λ step old found new. PassingTells old.0 (JoinOp E.past.number) found new.0 × (new.1 ≡ old.1) × SeesAll E.past.number E.past.run new.0.run };
}

/// Pass 0 takes in the pass whose seat it has taken last.
pub(crate) fn join<E: Joining, S: Shown>(
    shared: &Shared<S, View, Snapshot<Opening<S>>, TableInvariantRule<S>>,
    seat: &mut Seat<S, View>,
) -> u64
    requires table { seat.old.table_id ≡ shared.now.table_id }
    requires place { 0 < shared.now.table_id.words }
    requires live { seat.old.me.0.live ≡ true }
    requires may { MayJoin seat.old.me.0 E.past E.before }
    ensures table { seat.new.table_id ≡ seat.old.table_id }
    ensures seat { seat.new.id ≡ seat.old.id }
    ensures passed { PassingTells seat.old.me.0 (JoinOp E.past.number) result seat.new.me.0 }
    ensures slots { seat.new.me.1 ≡ seat.old.me.1 }
    ensures behind { SeesAll E.past.number E.past.run seat.new.me.0.run }
{
    laws_of_the_core();
    shared.load::<TakenIn<E>>(seat, 0)
}
