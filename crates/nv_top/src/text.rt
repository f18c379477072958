//! Reports, as text.
ghost use Rattle.std.specs.Prelude.{◌≡◌, ◌++◌, ◌+◌, List, length, map, IfOk, OnOk};
ghost use Rattle.nv_runner.specs.Faithful.{named};
ghost use Rattle.nv_runner.specs.FaithfulRuns.{shown_refusals};
ghost use Rattle.nv_runner.specs.Histories.{PlacedCall};
ghost use Rattle.nv_runner.specs.KeptRounds.{AreKept};
ghost use Rattle.nv_runner.specs.Reports.{history_lines};
ghost use Rattle.nv_runner.specs.Sorted.{OpenedCall, RefusedCall};
ghost use Rattle.nv_top.specs.Outcomes.{fated_call};
ghost use Rattle.nv_top.specs.Reports.{open_lines, file_lines, report_text, recovery_text};

use crate::outcome::Fated;
use nv_plain::{Bytes, NoMemory};
use nv_recover::Recovered;
use nv_runner::KeptCalls;
use nv_trace::{end_line, file_line, open_line, recovered_line};
use std::alloc::Global;

/// The text of a run's report behind the lines of the calls that have a place: what is kept of its calls, those that were left open with what became of them, and the files by their names.
pub(crate) fn rest_of(
    alloc: Global,
    kept: &KeptCalls,
    fated: &[Fated<'_>],
    names: &[Bytes],
    files: &[Bytes],
) -> Result<Vec<u8>, NoMemory>
    requires files { length files.now ≡ length names.now }
    ensures { IfOk result (λ text. (placed : List PlacedCall) (refused : List RefusedCall) (open_calls : List OpenedCall) → AreKept kept.now placed refused open_calls
        → history_lines 0 placed ++ text.items ≡ report_text (record {
          history = placed;
          refused = shown_refusals refused;
          open_calls = map fated_call fated.now;
          files = named names.now (record { contents = files.now });
        })) }
{
    let mut text = Vec::new(alloc);
    text.extend_from_slice(&kept.refused)?;
    push_open(alloc, &mut text, fated)?;
    push_files(alloc, &mut text, names, files)?;
    push(
        &mut text,
        &end_line(alloc, kept.placed, kept.refused_count, fated.len() as u64)?,
    )?;
    Ok(text)
}

/// The text of a recovery's report.
pub(crate) fn recovery_text_of(
    alloc: Global,
    found: &Recovered,
    names: &[Bytes],
    files: &[Bytes],
) -> Result<Vec<u8>, NoMemory>
    requires files { length files.now ≡ length names.now }
    ensures { IfOk result (λ text. text.items ≡ recovery_text (record {
      first = found.now.first;
      next = found.now.next;
      groups = length found.now.groups;
      files = named names.now (record { contents = files.now });
    })) }
{
    let mut text = Vec::new(alloc);
    let groups = found.groups.as_slice().len() as u64;
    push(
        &mut text,
        &recovered_line(alloc, found.first, found.next, groups)?,
    )?;
    push_files(alloc, &mut text, names, files)?;
    Ok(text)
}

/// Puts the lines of calls that were left open behind a text.
pub(crate) fn push_open(
    alloc: Global,
    text: &mut Vec<u8>,
    fated: &[Fated<'_>],
) -> Result<(), NoMemory>
    ensures { OnOk result (text.new.items ≡ text.old.items ++ open_lines (map fated_call fated.now)) }
{
    for o in fated {
        push(
            text,
            &open_line(alloc, o.call.thread, &o.call.call, o.fate)?,
        )?;
    }
    Ok(())
}

/// Puts the lines of files behind a text.
pub(crate) fn push_files(
    alloc: Global,
    text: &mut Vec<u8>,
    names: &[Bytes],
    files: &[Bytes],
) -> Result<(), NoMemory>
    requires files { length files.now ≡ length names.now }
    ensures { OnOk result (text.new.items ≡ text.old.items
        ++ file_lines (named names.now (record { contents = files.now }))) }
{
    for (place, name) in names.iter().enumerate() {
        push(
            text,
            &file_line(alloc, name.as_slice(), files[place].as_slice())?,
        )?;
    }
    Ok(())
}

/// Puts a line behind a text.
pub(crate) fn push(text: &mut Vec<u8>, line: &Bytes) -> Result<(), NoMemory>
    ensures { OnOk result (text.new.items ≡ text.old.items ++ line.now) }
{
    text.extend_from_slice(line.as_slice())?;
    Ok(())
}
