//! The passes: each thread's own, with which it steps.
ghost use Rattle.std.specs.Prelude.{◌≡◌, ◌≢◌, ℕ, ◌<◌, ◌≤◌, ◌++◌, [], take, drop, length, slice_index, vec_capacity, Some};
ghost use Rattle.nv_core.specs.steps.Opening.{IsMount};
ghost use Rattle.nv_table.specs.steps.SeatSteps.{IsFirst};
ghost use Rattle.nv_table.specs.passes.PassesMade.{IsShownStill};
ghost use Rattle.nv_table.specs.invariant.Drawn.{drawn_by, or_else as either_number};
ghost use Rattle.nv_table.specs.state.Opened.{mount_of, IsRunOf};
ghost use Rattle.nv_table.specs.invariant.BetweenSteps.{KnowsTaken};
ghost use Rattle.nv_table.specs.state.Views.{slot_times};
ghost use Rattle.nv_table.specs.state.Rotated.{SameButTurned};
ghost use Rattle.nv_table.specs.steps.CallSteps.{DueStepsStand};

use crate::laws::laws_of_the_core;
use crate::{Slot, View};
use atomic_table::Seat;
use nv_pmem::Lines;
use nv_store::Backing;
use std::marker::Model;

/// How many slots a pass owns at most where they turn one by one.
const SHORT_ROW: usize = 8;

/// What a thread steps with.
pub struct Pass<L: Lines, B: Backing> {
    pub(crate) seat: Seat<Slot<L, B>, View>,
    pub(crate) number: u64,
    pub(crate) made: u64,
    pub(crate) joined: u64,
    pub(crate) held: Vec<usize>,
    // The first number of its open write, or else of its faulted one, and that alone; and that of the passes that it took in.
    pub(crate) drawn: Option<u64>,
    pub(crate) lost: Option<u64>,
    pub(crate) inherited: Option<u64>,
    // In pass 0 the vectors that parts and stores came in, with places for all of them: the parts that have no slot, and no store. In the
    // other passes they are empty, without memory. They aren't the board's, since threads share that, and devices need not be shared.
    pub(crate) parts: Vec<L>,
    pub(crate) stores: Vec<B>,
}

impl<L: Lines, B: Backing> Model for Pass<L, B> {
    ghost use Rattle.std.specs.Prelude.{map, vec_capacity};
    ghost use Rattle.nv_table.specs.state.States.{PassState, shown_in};
    ghost use Rattle.std.specs.Prelude.{◌≡◌};
    ghost use Rattle.nv_table.specs.invariant.Drawn.{inherited_of};
    ghost use Rattle.nv_table.specs.invariant.BetweenSteps.{HasPlacesBack, IsPass};
    ghost use Rattle.nv_table.specs.state.SlotValues.{part_value, store_value, slot_value};

    ghost Value = { PassState };

    ghost view = { λ p. record {
      table = p.seat.table_id;
      view = p.seat.me.0;
      now = shown_in (slot_value (part_value L.device L.history L.fault_count L.room) (store_value B.device B.history B.fault_count)) p.seat.me.1;
      spare = map (part_value L.device L.history L.fault_count L.room) p.parts.items;
    } };

    ghost invariant = { λ p. IsPass p.seat.me.0 p.seat.me.1 p.number p.made p.joined p.held.items (vec_capacity p.held) p.drawn p.lost
        × HasPlacesBack p.seat.me.0.opened.sizes p.number p.parts.items (vec_capacity p.parts) p.stores.items (vec_capacity p.stores)
        × (p.inherited ≡ inherited_of p.seat.me.0.opened p.seat.me.0.ended) };
}

// The one, or else the other.
pub(crate) fn or_else(one: Option<u64>, other: Option<u64>) -> Option<u64>
    ensures { result ≡ either_number one other }
{
    match one {
        Some(number) => Some(number),
        None => other,
    }
}

// Where a slot first stands among some; behind the last where it doesn't.
#[inline(always)]
fn place_of(held: &[usize], slot: usize) -> usize
    ensures within { result ≤ length held.now }
    ensures found { result < length held.now → slice_index held.now result ≡ slot }
    ensures before { (i : ℕ) → i < result → slice_index held.now i ≢ slot }
{
    let mut i = 0;
    while i < held.len() && held[i] != slot {
        i += 1;
    }
    i
}

// The slots stand in the same order, from a later one on.
#[inline(always)]
fn turn<S>(seat: &mut Seat<S, View>, count: usize)
    requires { count ≤ length seat.old.me.1 }
    ensures table { seat.new.table_id ≡ seat.old.table_id }
    ensures seat { seat.new.id ≡ seat.old.id }
    ensures slots { seat.new.me ≡ (seat.old.me.0, drop count seat.old.me.1 ++ take count seat.old.me.1) }
{
    for _ in 0..count {
        seat.turn();
    }
}

// The first of a row goes behind the others.
#[inline(always)]
fn turn_once(row: &mut [usize])
    requires { 0 < length row.old }
    ensures { row.new ≡ drop 1 row.old ++ take 1 row.old }
{
    let first = row[0];
    let last = row.len() - 1;
    for i in 0..last {
        row[i] = row[i + 1];
    }
    row[last] = first;
}

// A short row turns one by one: what a rotation of slices keeps in its frame is cleared at each call.
#[inline(always)]
fn turn_short(row: &mut [usize], count: usize)
    requires { count ≤ length row.old }
    ensures { row.new ≡ drop count row.old ++ take count row.old }
{
    for _ in 0..count {
        turn_once(row);
    }
}

// The numbers of the slots that a pass owns turn likewise. Mostly it owns few.
#[inline(always)]
pub(crate) fn turn_held(held: &mut Vec<usize>, count: usize)
    requires { count ≤ length held.old.items }
    ensures items { held.new.items ≡ drop count held.old.items ++ take count held.old.items }
    ensures capacity { vec_capacity held.new ≡ vec_capacity held.old }
{
    if count > 0 && count < held.len() {
        if held.len() <= SHORT_ROW {
            turn_short(held, count);
        } else {
            held.rotate_left(count);
        }
    }
}

impl<L: Lines, B: Backing> Pass<L, B> {
    /// A law: its mount is one of which the core's laws speak, and what it has seen is a run of it.
    pub fn sees_a_run(&self)
        ensures mount { IsMount (mount_of self.now.view.opened) }
        ensures run { IsRunOf self.now.view.opened self.now.view.run }
    {
        let _ = &self.number;
    }

    /// A law: where it owns nothing, no device call has come since its last step.
    pub fn bare_is_still(&self)
        ensures { self.now.now ≡ [] → IsShownStill self.now }
    {
        let _ = &self.number;
    }

    /// A law: a step that is due is made on a word of the mount, and finds the pass where the order of steps lets it stand.
    pub fn due_steps_stand(&self)
        ensures { DueStepsStand self.now }
    {
        laws_of_the_core();
        let _ = &self.number;
    }

    /// A law: those that pass 0 took in are those that the core has as taken in, and all of their events lie in what it has seen.
    pub fn has_taken_in(&self)
        ensures { self.now.view.number ≡ 0 → KnowsTaken self.now.view }
    {
        let _ = &self.number;
    }

    /// The first number of the log that its write drew which has no place yet, be it open or ended by a device fault. Where it has no such
    /// write, it is that of the passes that it took in, of the last one that has one; `None` where there is none.
    pub fn drawn(&self) -> Option<u64>
        ensures { result ≡ drawn_by self.now.view }
    {
        or_else(self.drawn, self.inherited)
    }

    // A slot that it owns comes to the front.
    #[inline(always)]
    pub(crate) fn bring(&mut self, slot: usize)
        requires { slot_times slot self.old.now ≡ 1 }
        ensures same { SameButTurned self.old self.new }
        ensures first { IsFirst (Some slot) self.new.now }
    {
        let place = place_of(&self.held, slot);
        turn(&mut self.seat, place);
        turn_held(&mut self.held, place);
    }
}
