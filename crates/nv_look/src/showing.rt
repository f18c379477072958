//! The text of a region: what its header says, what its log holds, and maybe its files.
ghost use Rattle.std.specs.Prelude.{◌≡◌, ◌≤◌, ◌++◌, length, IfOk, OnOk};
ghost use Rattle.nv_look.specs.Rows.{AreInRange};
ghost use Rattle.nv_look.specs.Texts.{bad_in, walk_end_text, files_text, groups_in, hole_text, log_text, look_text, name_text, names_text, walk_region_text, row_text};

use crate::{Listing, Row, Text};
use nv_header::Head;
use nv_plain::{Bytes, NoMemory};
use nv_trace::file_line;
use std::alloc::Global;

/// The text of a region whose header says this and whose log is listed so; with files, their lines stand before the last one.
pub fn show(
    alloc: Global,
    head: &Head,
    listing: &Listing,
    files: &[Bytes],
) -> Result<Text, NoMemory>
    requires { length files.now ≤ length head.now.names }
    ensures { IfOk result (λ text. text ≡ look_text head.now listing.now files.now) }
{
    let rows = listing.as_slice();
    let mut text = Vec::new(alloc);
    push_region(alloc, &mut text, head)?;
    push_names(alloc, &mut text, head.names.as_slice())?;
    push_log(alloc, &mut text, head.tail, rows)?;
    push_files(alloc, &mut text, head.names.as_slice(), files)?;
    push_end(alloc, &mut text, rows)?;
    Ok(Text::from_vec(text))
}

fn push_region(alloc: Global, text: &mut Vec<u8>, head: &Head) -> Result<(), NoMemory>
    ensures { OnOk result (text.new.items ≡ text.old.items ++ walk_region_text head.now) }
{
    let geometry = head.geometry;
    let version = head.version.number();
    let line = format!(in alloc;
        "region {version} {} {} {} {}\n",
        geometry.page,
        geometry.entries,
        head.names.len(),
        head.tail
    )?;
    text.extend_from_slice(line.as_bytes())?;
    Ok(())
}

fn push_names(alloc: Global, text: &mut Vec<u8>, names: &[Bytes]) -> Result<(), NoMemory>
    ensures { OnOk result (text.new.items ≡ text.old.items ++ names_text 0 names.now) }
{
    for (i, name) in names.iter().enumerate() {
        push_name(alloc, text, i as u64, name.as_slice())?;
    }
    Ok(())
}

fn push_name(alloc: Global, text: &mut Vec<u8>, i: u64, name: &[u8]) -> Result<(), NoMemory>
    ensures { OnOk result (text.new.items ≡ text.old.items ++ name_text i name.now) }
{
    let front = format!(in alloc; "name {i} ")?;
    text.extend_from_slice(front.as_bytes())?;
    text.extend_from_slice(name)?;
    text.push(b'\n')?;
    Ok(())
}

// The rows, and between them the numbers that are in none.
fn push_log(alloc: Global, text: &mut Vec<u8>, tail: u64, rows: &[Row]) -> Result<(), NoMemory>
    requires { AreInRange rows.now }
    ensures { OnOk result (text.new.items ≡ text.old.items ++ log_text tail rows.now) }
{
    let mut from = tail;
    for row in rows {
        push_hole(alloc, text, from, row.start())?;
        push_row(alloc, text, row)?;
        from = row.end();
    }
    Ok(())
}

fn push_hole(alloc: Global, text: &mut Vec<u8>, from: u64, to: u64) -> Result<(), NoMemory>
    ensures { OnOk result (text.new.items ≡ text.old.items ++ hole_text from to) }
{
    if from < to {
        let line = format!(in alloc; "hole {from} {to}\n")?;
        text.extend_from_slice(line.as_bytes())?;
    }
    Ok(())
}

fn push_row(alloc: Global, text: &mut Vec<u8>, row: &Row) -> Result<(), NoMemory>
    ensures { OnOk result (text.new.items ≡ text.old.items ++ row_text row.now) }
{
    let line = match row {
        Row::Group {
            leader,
            count,
            file,
            at,
            len,
        } => format!(in alloc; "group {leader} {count} {file} {at} {len}\n")?,
        Row::Bad { number } => format!(in alloc; "bad {number}\n")?,
    };
    text.extend_from_slice(line.as_bytes())?;
    Ok(())
}

// The lines of the files, which are the first of the names.
fn push_files(
    alloc: Global,
    text: &mut Vec<u8>,
    names: &[Bytes],
    files: &[Bytes],
) -> Result<(), NoMemory>
    requires { length files.now ≤ length names.now }
    ensures { OnOk result (text.new.items ≡ text.old.items ++ files_text names.now files.now) }
{
    for (i, bytes) in files.iter().enumerate() {
        let line = file_line(alloc, names[i].as_slice(), bytes.as_slice())?;
        text.extend_from_slice(line.as_slice())?;
    }
    Ok(())
}

// How many rows are groups, and how many are bad.
fn push_end(alloc: Global, text: &mut Vec<u8>, rows: &[Row]) -> Result<(), NoMemory>
    ensures { OnOk result (text.new.items ≡ text.old.items ++ walk_end_text rows.now) }
{
    let (groups, bad) = count(rows);
    let line = format!(in alloc; "end {groups} {bad}\n")?;
    text.extend_from_slice(line.as_bytes())?;
    Ok(())
}

fn count(rows: &[Row]) -> (u64, u64)
    ensures groups { result.0 ≡ groups_in rows.now }
    ensures bad { result.1 ≡ bad_in rows.now }
{
    let groups = rows
        .iter()
        .filter(|row| matches!(row, Row::Group { .. }))
        .count();
    (groups as u64, (rows.len() - groups) as u64)
}
