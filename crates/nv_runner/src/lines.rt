//! The lines of calls, as text.
ghost use Rattle.std.specs.Prelude.{◌≡◌, ◌+◌, ◌^◌, ◌<◌, ◌++◌, length, map, OnOk};
ghost use Rattle.nv_runner.specs.FaithfulRuns.{shown_call};
ghost use Rattle.nv_runner.specs.Reports.{history_lines, refused_lines};
ghost use Rattle.nv_runner.specs.Sorted.{placed_call};

use crate::{Placed, Shown};
use nv_plain::NoMemory;
use nv_trace::{history_line, refused_line};
use std::alloc::Global;

/// Puts the lines of placed calls behind a text, in their order, the first of them at this place.
pub fn push_history(
    alloc: Global,
    text: &mut Vec<u8>,
    from: u64,
    placed: &[Placed<'_>],
) -> Result<(), NoMemory>
    requires { from + length placed.now < 2 ^ 64 }
    ensures { OnOk result (text.new.items ≡ text.old.items ++ history_lines from (map placed_call placed.now)) }
{
    for (place, p) in placed.iter().enumerate() {
        let line = history_line(
            alloc,
            from + place as u64,
            p.call.thread,
            &p.call.call,
            &p.reply,
        )?;
        text.extend_from_slice(line.as_slice())?;
    }
    Ok(())
}

/// Puts the lines of refused calls behind a text, in their order.
pub fn push_refused(
    alloc: Global,
    text: &mut Vec<u8>,
    refused: &[Shown<'_>],
) -> Result<(), NoMemory>
    ensures { OnOk result (text.new.items ≡ text.old.items ++ refused_lines (map shown_call refused.now)) }
{
    for r in refused {
        let line = refused_line(alloc, r.call.thread, &r.call.call, &r.refusal)?;
        text.extend_from_slice(line.as_slice())?;
    }
    Ok(())
}
