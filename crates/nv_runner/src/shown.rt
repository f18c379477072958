//! Refusals as a report shows them.
ghost use Rattle.std.specs.Prelude.{◌≡◌, ◌++◌, [], ◌∷◌, map, IfOk, OnOk};
ghost use Rattle.nv_runner.specs.FaithfulRuns.{shown_call, shown_refusal, shown_refusals};
ghost use Rattle.nv_runner.specs.Sorted.{refused_call};

use crate::Refused;
use nv_calls::Refusal;
use nv_plain::NoMemory;
use nv_trace::TracedCall;
use std::alloc::Global;

/// A refused call, and why it was refused, as a report shows it.
#[derive(Debug, Drop)]
pub struct Shown<'a> {
    pub call: &'a TracedCall,
    pub refusal: nv_trace::Refusal,
}

/// A refusal as a report shows it; none where the call was to be made again.
pub fn show_refusal(refusal: Refusal) -> Option<nv_trace::Refusal>
    ensures { result ≡ shown_refusal refusal }
{
    match refusal {
        Refusal::BadFd => Some(nv_trace::Refusal::BadDescriptor),
        Refusal::TooFar => Some(nv_trace::Refusal::TooFar),
        Refusal::TooLong => Some(nv_trace::Refusal::TooLong),
        Refusal::Busy { .. } | Refusal::Raced { .. } => None,
        Refusal::Stopped => Some(nv_trace::Refusal::Stopped),
        Refusal::Spent { found } => Some(nv_trace::Refusal::Spent { found }),
        Refusal::Again { head, tail } => Some(nv_trace::Refusal::Again { head, tail }),
        Refusal::RegionFault => Some(nv_trace::Refusal::RegionFault),
        Refusal::StoreFault => Some(nv_trace::Refusal::StoreFault),
    }
}

// Puts one behind the others, where its refusal is shown.
fn put_shown<'a>(one: Refused<'a>, shown: &mut Vec<Shown<'a>>) -> Result<(), NoMemory>
    ensures { OnOk result (map shown_call shown.new.items ≡ map shown_call shown.old.items ++ shown_refusals (refused_call one.entry ∷ [])) }
{
    let Refused { call, refusal } = one;
    if let Some(refusal) = show_refusal(refusal) {
        shown.push(Shown { call, refusal })?;
    }
    Ok(())
}

/// Refused calls as a report shows them, in their order: those whose refusal is shown.
pub fn show_refusals<'a>(
    alloc: Global,
    refused: Vec<Refused<'a>>,
) -> Result<Vec<Shown<'a>>, NoMemory>
    ensures { IfOk result (λ shown. map shown_call shown.items ≡ shown_refusals (map refused_call refused.entry.items)) }
{
    let mut shown = Vec::new(alloc);
    for one in refused {
        put_shown(one, &mut shown)?;
    }
    Ok(shown)
}
