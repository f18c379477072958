//! The summary of a run of generated calls, as text.
ghost use Rattle.std.specs.Prelude.{◌≡◌, ◌++◌, length, codes, IfOk, OnOk};
ghost use Rattle.nv_runner.specs.Faithful.{named};
ghost use Rattle.nv_load.specs.Counts.{summary_counted};
ghost use Rattle.nv_load.specs.Summaries.{bytes_of};
ghost use Rattle.nv_top.specs.Shows.{count_text, load_text, summary_text};

use nv_load::{Counts, Load, Summary, summarize};
use nv_plain::{Bytes, NoMemory};
use nv_trace::place_of;
use std::alloc::Global;

/// The text of the summary of a run of generated calls: of what was counted of them, and of their file, which is one of these.
pub(crate) fn show_summary(
    alloc: Global,
    load: Load,
    counts: Counts,
    names: &[Bytes],
    files: &[Bytes],
) -> Result<Vec<u8>, NoMemory>
    requires files { length files.now ≡ length names.now }
    ensures { IfOk result (λ text. text.items
        ≡ summary_text load (summary_counted counts (bytes_of (codes "g") (named names.now (record { contents = files.now }))))) }
{
    let file = bytes_of(names, files);
    summary_text_of(alloc, load, summarize(counts, file))
}

// The bytes of the file of generated calls.
fn bytes_of<'a>(names: &[Bytes], files: &'a [Bytes]) -> &'a [u8]
    requires files { length files.now ≡ length names.now }
    ensures { result.now ≡ bytes_of (codes "g") (named names.now (record { contents = files.now })) }
{
    match files.get(place_of(names, b"g") as usize) {
        Some(bytes) => bytes.as_slice(),
        None => &[],
    }
}

// The five lines of a summary.
fn summary_text_of(alloc: Global, load: Load, summary: Summary) -> Result<Vec<u8>, NoMemory>
    ensures { IfOk result (λ text. text.items ≡ summary_text load summary) }
{
    let mut text = Vec::new(alloc);
    push_load(alloc, &mut text, load)?;
    push_count(alloc, &mut text, "placed", summary.placed)?;
    push_count(alloc, &mut text, "written", summary.written)?;
    push_count(alloc, &mut text, "read", summary.read)?;
    push_count(alloc, &mut text, "sum", summary.sum)?;
    Ok(text)
}

fn push_load(alloc: Global, text: &mut Vec<u8>, load: Load) -> Result<(), NoMemory>
    ensures { OnOk result (text.new.items ≡ text.old.items ++ load_text load) }
{
    let Load {
        seed,
        calls,
        threads,
    } = load;
    let line = format!(in alloc; "gen {seed} {calls} {threads}\n")?;
    text.extend_from_slice(line.as_bytes())?;
    Ok(())
}

fn push_count(alloc: Global, text: &mut Vec<u8>, word: &str, count: u64) -> Result<(), NoMemory>
    ensures { OnOk result (text.new.items ≡ text.old.items ++ count_text word.now count) }
{
    let line = format!(in alloc; "{word} {count}\n")?;
    text.extend_from_slice(line.as_bytes())?;
    Ok(())
}
