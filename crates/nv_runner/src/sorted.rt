//! The answers of a run: calls in their places, those that were refused, and those that were left open.
ghost use Rattle.std.specs.Prelude.{◌≡◌, ◌++◌, [], ◌∷◌, map, IfOk, IsPermutation, OnOk};
ghost use Rattle.nv_runner.specs.Histories.{placed_calls};
ghost use Rattle.nv_runner.specs.Lists.{made_call, made_calls};
ghost use Rattle.nv_runner.specs.Sorted.{AreSortedOut, opened_call, opened_calls, placed_call, refused_call, refused_calls};

use crate::{Answer, AnsweredCall};
use nv_calls::Refusal;
use nv_plain::{NoMemory, Reply};
use nv_trace::TracedCall;
use std::alloc::Global;

/// A call in its place, with its reply.
#[derive(Debug, Drop)]
pub struct Placed<'a> {
    pub place: u64,
    pub call: &'a TracedCall,
    pub reply: Reply,
}

/// A call that was refused, and has no place.
#[derive(Debug, Drop)]
pub struct Refused<'a> {
    pub call: &'a TracedCall,
    pub refusal: Refusal,
}

/// A write that a device fault ended, and the first number of the log that it drew.
#[derive(Debug, Drop)]
pub struct Open<'a> {
    pub call: &'a TracedCall,
    pub number: u64,
}

/// Answered calls: those that have a place in the order of their places, and the others in the order of their lines.
#[derive(Debug, Drop)]
pub struct SortedCalls<'a> {
    pub placed: Vec<Placed<'a>>,
    pub refused: Vec<Refused<'a>>,
    pub open_calls: Vec<Open<'a>>,
}

// Puts one to its own.
fn put_one<'a>(
    answered: AnsweredCall<'a>,
    placed: &mut Vec<Placed<'a>>,
    refused: &mut Vec<Refused<'a>>,
    open_calls: &mut Vec<Open<'a>>,
) -> Result<(), NoMemory>
    ensures placed { OnOk result (map placed_call placed.new.items ≡ map placed_call placed.old.items ++ placed_calls (made_call answered.entry ∷ [])) }
    ensures refused { OnOk result (map refused_call refused.new.items ≡ map refused_call refused.old.items ++ refused_calls (made_call answered.entry ∷ [])) }
    ensures open_calls { OnOk result (map opened_call open_calls.new.items ≡ map opened_call open_calls.old.items ++ opened_calls (made_call answered.entry ∷ [])) }
{
    let AnsweredCall { call, answer } = answered;
    match answer {
        Answer::Placed { place, reply } => placed.push(Placed { place, call, reply })?,
        Answer::Refused(refusal) => refused.push(Refused { call, refusal })?,
        Answer::Open { number } => open_calls.push(Open { call, number })?,
    }
    Ok(())
}

// No calls, with room for so many.
fn room_for<'a>(alloc: Global, count: usize) -> Result<Vec<Placed<'a>>, NoMemory>
    ensures { IfOk result (λ placed. placed.items ≡ []) }
{
    let mut placed = Vec::new(alloc);
    placed.reserve_exact(count)?;
    Ok(placed)
}

/// The room of so many calls is given back at a time.
const GIVEN_BACK: usize = 16_384;

// Gives back the room of calls that were taken out, each time that many more were: so the list shrinks as fast as those that its calls go to grow.
fn give_room_back(answered: &mut Vec<AnsweredCall<'_>>)
    ensures { answered.new.items ≡ answered.old.items }
{
    if answered.len() % GIVEN_BACK == 0 {
        answered.shrink_to_fit();
    }
}

// Each to its own, the last one first.
fn part_calls<'a>(
    alloc: Global,
    mut answered: Vec<AnsweredCall<'a>>,
) -> Result<SortedCalls<'a>, NoMemory>
    ensures placed { IfOk result (λ sorted. IsPermutation (placed_calls (made_calls answered.entry.items)) (map placed_call sorted.placed.items)) }
    ensures refused { IfOk result (λ sorted. IsPermutation (refused_calls (made_calls answered.entry.items)) (map refused_call sorted.refused.items)) }
    ensures open_calls { IfOk result (λ sorted. IsPermutation (opened_calls (made_calls answered.entry.items)) (map opened_call sorted.open_calls.items)) }
{
    // Most calls have a place: room that is taken once needs no second list while it grows.
    let mut placed = room_for(alloc, answered.len())?;
    let mut refused = Vec::new(alloc);
    let mut open_calls = Vec::new(alloc);
    while let Some(call) = answered.pop() {
        put_one(call, &mut placed, &mut refused, &mut open_calls)?;
        give_room_back(&mut answered);
    }
    Ok(SortedCalls {
        placed,
        refused,
        open_calls,
    })
}

/// Sorts answered calls out: each is among those that have a place, among those that were refused or among those that were left open, and no other is; the first don't fall by place, nor the others by line.
pub fn sort_out<'a>(
    alloc: Global,
    answered: Vec<AnsweredCall<'a>>,
) -> Result<SortedCalls<'a>, NoMemory>
    ensures { IfOk result (λ sorted. AreSortedOut (made_calls answered.entry.items) sorted) }
{
    let SortedCalls {
        mut placed,
        mut refused,
        mut open_calls,
    } = part_calls(alloc, answered)?;
    // In place, since a stable sort would take room for half of them once more.
    placed.sort_unstable_by_key(|one| one.place);
    refused.sort_unstable_by_key(|one| one.call.line);
    open_calls.sort_unstable_by_key(|one| one.call.line);
    Ok(SortedCalls {
        placed,
        refused,
        open_calls,
    })
}
