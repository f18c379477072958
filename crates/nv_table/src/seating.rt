//! What a seat is cut into and joined with, between the steps of passes.
ghost use Rattle.std.specs.Prelude.{◌≡◌, ◌≢◌, ◌+◌, ◌<◌, true, false, []};
ghost use Rattle.nv_core.specs.state.Words.{Word, keeps_something};
ghost use Rattle.nv_core.specs.state.Passes.{times};
ghost use Rattle.nv_table.specs.state.Views.{pass_of, made_of, ended_of, still_owned, numbers};
ghost use Rattle.nv_table.specs.passes.Moments.{SeesTold, forgetful, told_back};
ghost use Rattle.nv_table.specs.passes.Seats.{parent, child, exported, imported, joined, spent};

use crate::laws::laws_of_the_core;
use crate::rule::{Opening, TableInvariantRule};
use crate::{Shown, View};
use atomic_table::{Join, Play, Seat, Shared, Split};
use std::marker::PhantomData;
use std::snapshot::Snapshot;

/// How the seat of a new pass is cut from pass 0's.
pub struct Parting {
    marker: PhantomData<()>,
}

impl Split<View> for Parting {
    ghost left = { parent };

    ghost right = { child };
}

/// The seat of the pass that pass 0 has made last.
pub(crate) fn part<S: Shown>(
    shared: &Shared<S, View, Snapshot<Opening<S>>, TableInvariantRule<S>>,
    seat: &mut Seat<S, View>,
) -> Seat<S, View>
    requires table { seat.old.table_id ≡ shared.now.table_id }
    requires place { 0 < shared.now.table_id.words }
    requires live { seat.old.me.0.live ≡ true }
    requires first { seat.old.me.0.number ≡ 0 }
    requires made { made_of seat.old.me.0 ≡ seat.old.me.0.seated + 1 }
    ensures table { seat.new.table_id ≡ seat.old.table_id }
    ensures seat { seat.new.id ≡ seat.old.id }
    ensures parent { seat.new.me ≡ (parent seat.old.me.0, seat.old.me.1) }
    ensures same_table { result.table_id ≡ seat.old.table_id }
    ensures child { result.me ≡ (child seat.old.me.0, []) }
{
    shared.split_seat::<Parting>(seat)
}

/// How an exported view is taken of a seat.
pub struct Telling {
    marker: PhantomData<()>,
}

impl Split<View> for Telling {
    ghost left = { λ view. view };

    ghost right = { exported };
}

/// An exported view of the run so far, which is a seat of no pass.
pub(crate) fn tell<S: Shown>(
    shared: &Shared<S, View, Snapshot<Opening<S>>, TableInvariantRule<S>>,
    seat: &mut Seat<S, View>,
) -> Seat<S, View>
    requires table { seat.old.table_id ≡ shared.now.table_id }
    requires place { 0 < shared.now.table_id.words }
    ensures table { seat.new.table_id ≡ seat.old.table_id }
    ensures seat { seat.new.id ≡ seat.old.id }
    ensures same { seat.new.me ≡ seat.old.me }
    ensures same_table { result.table_id ≡ seat.old.table_id }
    ensures exported { result.me ≡ (exported seat.old.me.0, []) }
{
    shared.split_seat::<Telling>(seat)
}

/// How a seat is told what an exported view says.
pub struct Hearing {
    marker: PhantomData<()>,
}

impl Join<View> for Hearing {
    ghost both = { imported };

    ghost spent = { spent };
}

/// A seat is told what an exported view says.
pub(crate) fn import_view<S: Shown>(
    shared: &Shared<S, View, Snapshot<Opening<S>>, TableInvariantRule<S>>,
    seat: &mut Seat<S, View>,
    exported: Seat<S, View>,
)
    requires table { seat.old.table_id ≡ shared.now.table_id }
    requires exported_table { exported.table_id ≡ shared.now.table_id }
    requires place { 0 < shared.now.table_id.words }
    requires live { seat.old.me.0.live ≡ true }
    requires of_no_pass { exported.me.0.live ≡ false }
    requires slots { exported.me.1 ≡ [] }
    ensures table { seat.new.table_id ≡ seat.old.table_id }
    ensures seat { seat.new.id ≡ seat.old.id }
    ensures imported { seat.new.me ≡ (imported seat.old.me.0 exported.me.0, seat.old.me.1) }
{
    shared.join_seat::<Hearing>(seat, exported)
}

/// How a seat forgets what an exported view told it last, and what view it gives back.
pub struct Forgetting {
    marker: PhantomData<()>,
}

impl Split<View> for Forgetting {
    ghost left = { forgetful };

    ghost right = { told_back };
}

/// A seat forgets what an exported view told it last.
pub(crate) fn forget<S: Shown>(
    shared: &Shared<S, View, Snapshot<Opening<S>>, TableInvariantRule<S>>,
    seat: &mut Seat<S, View>,
) -> Seat<S, View>
    requires table { seat.old.table_id ≡ shared.now.table_id }
    requires place { 0 < shared.now.table_id.words }
    ensures table { seat.new.table_id ≡ seat.old.table_id }
    ensures seat { seat.new.id ≡ seat.old.id }
    ensures forgetful { seat.new.me ≡ (forgetful seat.old.me.0, seat.old.me.1) }
    ensures same_table { result.table_id ≡ seat.old.table_id }
    ensures told_back { result.me ≡ (told_back seat.old.me.0, []) }
{
    shared.split_seat::<Forgetting>(seat)
}

/// What a look at the table tells.
pub struct Looking {
    marker: PhantomData<()>,
}

impl<S> Play<S, View> for Looking {
    ghost then = { λ step old found new. (new ≡ old) × SeesTold old.0 };
}

/// A seat looks at the table, which changes nothing.
pub(crate) fn look<S: Shown>(
    shared: &Shared<S, View, Snapshot<Opening<S>>, TableInvariantRule<S>>,
    seat: &mut Seat<S, View>,
)
    requires table { seat.old.table_id ≡ shared.now.table_id }
    requires place { 0 < shared.now.table_id.words }
    requires live { seat.old.me.0.live ≡ true }
    ensures table { seat.new.table_id ≡ seat.old.table_id }
    ensures seat { seat.new.id ≡ seat.old.id }
    ensures same { seat.new.me ≡ seat.old.me }
    ensures told { SeesTold seat.old.me.0 }
{
    shared.load::<Looking>(seat, 0);
}

/// How pass 0 takes another pass's seat.
pub struct TakingIn {
    marker: PhantomData<()>,
}

impl Join<View> for TakingIn {
    ghost both = { joined };

    ghost spent = { spent };
}

/// Pass 0 takes the seat of a pass that owns nothing.
pub(crate) fn take_in<S: Shown>(
    shared: &Shared<S, View, Snapshot<Opening<S>>, TableInvariantRule<S>>,
    seat: &mut Seat<S, View>,
    other: Seat<S, View>,
)
    requires table { seat.old.table_id ≡ shared.now.table_id }
    requires other_table { other.table_id ≡ shared.now.table_id }
    requires place { 0 < shared.now.table_id.words }
    requires live { seat.old.me.0.live ≡ true }
    requires first { seat.old.me.0.number ≡ 0 }
    requires ended { ended_of seat.old.me.0 ≡ numbers seat.old.me.0.ended }
    requires other_live { other.me.0.live ≡ true }
    requires other_some { other.me.0.number ≢ 0 }
    requires other_bare { (cell : Word) → keeps_something cell ≡ true → times cell (still_owned (pass_of other.me.0)) ≡ 0 }
    requires slots { other.me.1 ≡ [] }
    ensures table { seat.new.table_id ≡ seat.old.table_id }
    ensures seat { seat.new.id ≡ seat.old.id }
    ensures joined { seat.new.me ≡ (joined seat.old.me.0 other.me.0, seat.old.me.1) }
{
    laws_of_the_core();
    shared.join_seat::<TakingIn>(seat, other)
}
