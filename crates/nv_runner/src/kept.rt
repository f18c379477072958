//! What is kept of rounds that ended.
ghost use Rattle.std.specs.Prelude.{◌≡◌, ◌+◌, ◌^◌, ◌<◌, ◌++◌, List, [], length, map, IfOk, OnOk};
ghost use Rattle.nv_runner.specs.Histories.{PlacedCall};
ghost use Rattle.nv_runner.specs.KeptRounds.{AreKept, kept_open_call};
ghost use Rattle.nv_runner.specs.Reports.{history_lines};
ghost use Rattle.nv_runner.specs.Sorted.{OpenedCall, RefusedCall, opened_call, placed_call, refused_call};

use crate::lines::{push_history, push_refused};
use crate::{Open, SortedCalls, show_refusals};
use nv_plain::NoMemory;
use nv_trace::TracedCall;
use std::alloc::Global;

/// A write that a device fault ended, and the first number of the log that it drew; the call is its own.
#[derive(Debug, Drop)]
pub struct KeptOpen {
    pub call: TracedCall,
    pub number: u64,
}

/// What is kept of rounds that ended, once the lines of the calls that have a place were written.
#[derive(Debug, Drop)]
pub struct KeptCalls {
    /// How many calls have a place.
    pub placed: u64,
    /// The lines of the refused ones, in the order of the calls' lines.
    pub refused: Vec<u8>,
    /// How many these are.
    pub refused_count: u64,
    /// Those that were left open, in the order of their lines.
    pub open_calls: Vec<KeptOpen>,
}

impl KeptCalls {
    /// What is kept before the first round: nothing. Takes no memory.
    pub fn new(alloc: Global) -> Self
        ensures { AreKept result [] [] [] }
    {
        KeptCalls {
            placed: 0,
            refused: Vec::new(alloc),
            refused_count: 0,
            open_calls: Vec::new(alloc),
        }
    }

    /// Takes what is to be kept of a round's calls behind those of the rounds before, and gives the lines of those that have a place, counted on from theirs. Takes memory for these lines, for those of the refused
    /// calls and for a copy of each open call; where it is wanting some of the round's calls may be kept already, and nothing tells which.
    pub fn take(&mut self, alloc: Global, sorted: SortedCalls<'_>) -> Result<Vec<u8>, NoMemory>
        requires placed { self.old.placed + length sorted.placed.items < 2 ^ 64 }
        requires refused { self.old.refused_count + length sorted.refused.items < 2 ^ 64 }
        ensures lines { IfOk result (λ text. text.items ≡ history_lines self.old.placed (map placed_call sorted.entry.placed.items)) }
        ensures kept { OnOk result ((placed : List PlacedCall) (refused : List RefusedCall) (open_calls : List OpenedCall) → AreKept self.old placed refused open_calls
            → AreKept self.new (placed ++ map placed_call sorted.entry.placed.items) (refused ++ map refused_call sorted.entry.refused.items) (open_calls ++ map opened_call sorted.entry.open_calls.items)) }
    {
        let mut text = Vec::new(alloc);
        push_history(alloc, &mut text, self.placed, &sorted.placed)?;
        self.placed += sorted.placed.len() as u64;
        keep_open(alloc, &sorted.open_calls, &mut self.open_calls)?;
        let shown = show_refusals(alloc, sorted.refused)?;
        push_refused(alloc, &mut self.refused, &shown)?;
        self.refused_count += shown.len() as u64;
        Ok(text)
    }
}

// Puts calls that were left open behind others, each as a call of its own.
fn keep_open(
    alloc: Global,
    open_calls: &[Open<'_>],
    kept: &mut Vec<KeptOpen>,
) -> Result<(), NoMemory>
    ensures { OnOk result (map kept_open_call kept.new.items ≡ map kept_open_call kept.old.items ++ map opened_call open_calls.now) }
{
    for one in open_calls {
        let call = one.call.copy(alloc)?;
        kept.push(KeptOpen {
            call,
            number: one.number,
        })?;
    }
    Ok(())
}
