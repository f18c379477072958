//! One atomic step of a seat.
ghost use Rattle.std.specs.Prelude.{◌≡◌, ◌<◌, true, List, Option, None};
ghost use Rattle.nv_core.specs.steps.Order.{Work};
ghost use Rattle.nv_plain.specs.declared.call.FileCall.{FileCall};
ghost use Rattle.nv_core.specs.steps.Ops.{Op, Split};
ghost use Rattle.nv_table.specs.steps.SeatSteps.{SeatPrecondition, SeatPostcondition};
ghost use Rattle.nv_table.specs.state.Changes.{changed};

use crate::laws::laws_of_the_core;
use crate::rule::{Opening, TableInvariantRule};
use crate::{Shown, View};
use atomic_table::{Play, Seat, Shared};
use std::marker::{Brand, PhantomData};
use std::snapshot::Snapshot;

/// What a step makes of its word.
#[derive(Clone, Copy, Debug)]
pub enum Change {
    /// It is read.
    Keep,
    /// It rises by so many, modulo 2^64.
    Add(u64),
    /// It falls by so many, modulo 2^64.
    Subtract(u64),
    /// It gets a value.
    Set(u64),
    /// It gets the second value where it has the first.
    Exchange(u64, u64),
}

/// A kind of step, for contracts alone: the operation, the call that it begins, if it does, and what is so of the device calls that its pass
/// has made since its last step.
pub trait StepSpec {
    ghost op: { Op };

    ghost opens: { Option FileCall };

    ghost said: { List Work → Type 0 };
}

impl StepSpec for Brand {
    ghost op = { Split };

    ghost opens = { None };

    ghost said = { λ works. Unit {0} };
}

/// What is so of the device calls before a step, for contracts alone.
pub trait Says {
    ghost said: { List Work → Type 0 };
}

impl Says for Brand {
    ghost said = { λ works. Unit {0} };
}

/// What a step of a kind tells its seat.
pub struct Acting<E, S> {
    marker: PhantomData<(E, S)>,
}

impl<E: StepSpec, S: Shown> Play<S, View> for Acting<E, S> {
    ghost then = { λ step old found new. (acted : SeatPostcondition S.shown old E.opens E.op found new) × E.said acted.works };
}

/// One step of a kind on the word at a place.
#[inline(always)]
pub(crate) fn act<E: StepSpec, S: Shown>(
    shared: &Shared<S, View, Snapshot<Opening<S>>, TableInvariantRule<S>>,
    seat: &mut Seat<S, View>,
    place: usize,
    change: Change,
) -> u64
    requires table { seat.old.table_id ≡ shared.now.table_id }
    requires live { seat.old.me.0.live ≡ true }
    requires place { place < shared.now.table_id.words }
    requires may { (may : SeatPrecondition S.shown seat.old.me E.opens E.op place (changed change)) × E.said may.works }
    ensures table { seat.new.table_id ≡ seat.old.table_id }
    ensures seat { seat.new.id ≡ seat.old.id }
    ensures acted { (acted : SeatPostcondition S.shown seat.old.me E.opens E.op result seat.new.me) × E.said acted.works }
{
    laws_of_the_core();
    match change {
        Change::Keep => shared.load::<Acting<E, S>>(seat, place),
        Change::Add(count) => shared.fetch_add::<Acting<E, S>>(seat, place, count),
        Change::Subtract(count) => shared.fetch_sub::<Acting<E, S>>(seat, place, count),
        Change::Set(value) => shared.swap::<Acting<E, S>>(seat, place, value),
        Change::Exchange(old, new) => {
            shared.compare_exchange::<Acting<E, S>>(seat, place, old, new)
        }
    }
}
