//! What became of the calls that were left open.
ghost use Rattle.std.specs.Prelude.{◌≡◌, ℕ, List, map, IfOk};
ghost use Rattle.nv_runner.specs.KeptRounds.{kept_open_call};
ghost use Rattle.nv_runner.specs.Sorted.{opened_call};
ghost use Rattle.nv_runner.specs.declared.sorted.Open.{Open as AnyOpen};
ghost use Rattle.nv_top.specs.Fates.{AreShownOpen, begun_fate, fate_of, fated, fated_opened};
ghost use Rattle.nv_top.specs.Outcomes.{fated_call};

use crate::outcome::Fated;
use nv_plain::NoMemory;
use nv_recover::Recovered;
use nv_runner::{KeptOpen, Open};
use nv_trace::{Fate, TraceCall, TracedCall};
use std::alloc::Global;

/// All calls that were left open, in the order of their lines: the writes that drew numbers, with what a recovery made of each, and those that were begun and drew none.
pub(crate) fn open_fates<'a>(
    alloc: Global,
    writes: &'a [KeptOpen],
    begun: &[&'a TracedCall],
    found: &Recovered,
) -> Result<Vec<Fated<'a>>, NoMemory>
    ensures { IfOk result (λ all. (these : List AnyOpen) → map kept_open_call writes.now ≡ map opened_call these
        → AreShownOpen found.now.first found.now.groups these (map (λ call. call.now) begun.now) (map fated_call all.items)) }
{
    let all = fates(alloc, writes, found)?;
    with_begun(all, begun)
}

/// All calls that a life of a schedule left open, in the order of their lines: the same of writes that aren't kept beyond it.
pub(crate) fn life_fates<'a>(
    alloc: Global,
    writes: &[Open<'a>],
    begun: &[&'a TracedCall],
    found: &Recovered,
) -> Result<Vec<Fated<'a>>, NoMemory>
    ensures { IfOk result (λ all. AreShownOpen found.now.first found.now.groups writes.now (map (λ call. call.now) begun.now) (map fated_call all.items)) }
{
    let mut all = Vec::new(alloc);
    for one in writes {
        all.push(Fated {
            call: one.call,
            fate: fate_of(one.number, found),
        })?;
    }
    with_begun(all, begun)
}

// Calls with their fates, and those that were begun and drew no number, in the order of their lines.
fn with_begun<'a>(
    mut all: Vec<Fated<'a>>,
    begun: &[&'a TracedCall],
) -> Result<Vec<Fated<'a>>, NoMemory>
    ensures { IfOk result (λ shown. (first : ℕ) (groups : List ℕ) (writes : List AnyOpen) → map fated_call all.entry.items ≡ map (fated first groups) writes
        → AreShownOpen first groups writes (map (λ call. call.now) begun.now) (map fated_call shown.items)) }
{
    if begun.is_empty() {
        return Ok(all);
    }
    for call in begun {
        all.push(Fated {
            call: *call,
            fate: begun_fate(&call.call),
        })?;
    }
    all.sort_by_key(|one| one.call.line)?;
    Ok(all)
}

// What became of a call that was begun and drew no number: nothing of a write is in the files.
fn begun_fate(call: &TraceCall) -> Fate
    ensures { result ≡ begun_fate call.now }
{
    match call {
        TraceCall::Pwrite { .. } | TraceCall::Pwritev { .. } => Fate::Lost,
        TraceCall::Pread { .. } | TraceCall::Preadv { .. } | TraceCall::Fsync { .. } => {
            Fate::Unanswered
        }
    }
}

// The writes that were left open and drew numbers, with what a recovery made of each.
fn fates<'a>(
    alloc: Global,
    writes: &'a [KeptOpen],
    found: &Recovered,
) -> Result<Vec<Fated<'a>>, NoMemory>
    ensures { IfOk result (λ all. map fated_call all.items ≡ map (fated_opened found.now.first found.now.groups) (map kept_open_call writes.now)) }
{
    let mut all = Vec::new(alloc);
    for one in writes {
        let fate = fate_of(one.number, found);
        all.push(Fated {
            call: &one.call,
            fate,
        })?;
    }
    Ok(all)
}

// What became of a write that drew this number.
fn fate_of(number: u64, found: &Recovered) -> Fate
    ensures { result ≡ fate_of found.now.first found.now.groups number }
{
    if number < found.first || found.groups.as_slice().contains(&number) {
        Fate::Kept
    } else {
        Fate::Lost
    }
}
