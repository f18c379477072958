//! The commit of a group of entries.
ghost use Rattle.std.specs.Prelude.{◌≡◌, ℕ, ◌+◌, ◌^◌, ◌<◌, ◌≤◌, [], ◌∷◌, ◌++◌, length, map, sum_by, vec_capacity, vec_len, IfOk, OnOk, All};
ghost use Rattle.nv_plain.specs.Faults.{HasCause};
ghost use Rattle.nv_plain.specs.Files.{padded};
ghost use Rattle.nv_plain.specs.Images.{lines_for};
ghost use Rattle.nv_plain.specs.Pieces.{pages_touched};
ghost use Rattle.nv_pmem.specs.Calls.{PartCalls, RowCalls, seen_of};
ghost use Rattle.nv_pmem.specs.Limits.{IsPageSize};
ghost use Rattle.nv_pmem.specs.Part.{part_word};
ghost use Rattle.nv_pmem.specs.Room.{Keeps, Takes};
ghost use Rattle.nv_pmem.specs.Moments.{Tells};
ghost use Rattle.nv_pmem.specs.Rows.{DidRow, DidSomeRow, RowTells, EachRowMoment, InEachRowImage, on_part, row_words, AreQuiet};
ghost use Rattle.nv_pmem.specs.Steps.{DidLineStep, DidSome, Flush, line_stores, durable_store};
ghost use Rattle.nv_entry.specs.Group.{group_steps, piece_steps, pieces_steps, count_at, data_steps, entry_field_steps, IsUncommittedOrWhole, IsWholeGroup, StoresOnly, IsReady};
ghost use Rattle.nv_entry.specs.Ready.{WritesLines, FencesHead, StaysReady};
ghost use Rattle.nv_entry.specs.Uncommitted.{AreUncommitted};

use crate::{PieceHead, cut, piece_count};
use nv_pmem::{Lines, RegionFault, store_durably};

/// Writes the pieces of a write as the entries from number `first` on, and commits them as a group. `parts` are the
/// parts of these entries, one for each piece: the bytes go to `at` of `file`, cut at the boundaries of pages of `page`
/// bytes. Where none of these entries is committed yet, at each moment the group is there as a whole or not at all, and at
/// `Ok` it is there. After a fault only the first so many of its stores, flushes and fences were made. Takes no memory.
pub fn commit_group<L: Lines>(
    parts: &mut Vec<L>,
    page: u64,
    first: u64,
    file: u64,
    at: u64,
    bytes: &[u8],
) -> Result<(), RegionFault>
    requires page { IsPageSize page }
    requires some { 1 ≤ vec_len parts.old }
    requires pieces { pages_touched at (length bytes.now) page ≡ vec_len parts.old }
    requires range { at + length bytes.now ≤ 2 ^ 60 }
    requires numbers { first + vec_len parts.old ≤ 2 ^ 60 }
    requires ready { All (λ part. IsReady page (L.room part)) parts.old.items }

    // The stores, flushes and fences are these, in this order. A load is in no history: a test counts all calls.
    ensures begun { DidSomeRow (group_steps page first file at bytes.now)
        (map L.history parts.old.items) (map L.history parts.new.items) }
    ensures done { OnOk result
        (DidRow (group_steps page first file at bytes.now) (map L.history parts.old.items) (map L.history parts.new.items)) }

    // Part by part: each of these calls ended well, or the first so many did and the next one failed, with what it left its part to be.
    ensures calls { RowCalls (group_steps page first file at bytes.now)
        (map (seen_of L.history L.room L.fault_count) parts.old.items) (map (seen_of L.history L.room L.fault_count) parts.new.items) result }

    // What a power failure may leave: the group as a whole or not at all, and everything else as it was.
    ensures moments { AreUncommitted first (vec_len parts.old) (map L.history parts.old.items)
        → EachRowMoment (InEachRowImage (IsUncommittedOrWhole page first file at bytes.now))
        (map L.history parts.old.items) (map L.history parts.new.items) }
    ensures others { RowTells (map L.history parts.old.items) (λ was.
        EachRowMoment (InEachRowImage (StoresOnly page first file at bytes.now was))
        (map L.history parts.old.items) (map L.history parts.new.items)) }
    ensures whole { AreUncommitted first (vec_len parts.old) (map L.history parts.old.items)
        → OnOk result (RowTells (map L.history parts.new.items) (InEachRowImage (IsWholeGroup page first file at bytes.now))) }
    ensures quiet { OnOk result
        (RowTells (map L.history parts.old.items) AreQuiet → RowTells (map L.history parts.new.items) AreQuiet) }

    // After them the parts read as the group, and have room for other entries.
    ensures holds { AreUncommitted first (vec_len parts.old) (map L.history parts.old.items)
        → OnOk result (RowTells (map L.history parts.new.items) (λ now. IsWholeGroup page first file at bytes.now (row_words now))) }
    ensures ready { OnOk result (All (λ part. IsReady page (L.room part)) parts.new.items) }

    ensures lines { map (λ part. (L.room part).lines) parts.new.items ≡ map (λ part. (L.room part).lines) parts.old.items }
    ensures cause { HasCause (sum_by L.fault_count parts.old.items) (sum_by L.fault_count parts.new.items) result }
    ensures devices { map L.device parts.new.items ≡ map L.device parts.old.items }
    ensures memory { vec_capacity parts.new ≡ vec_capacity parts.old }
{
    write_group(parts, page, first, file, at, bytes)
}

// The same of parts that are lent as a slice: that can't grow, so this takes no memory.
fn write_group<L: Lines>(
    parts: &mut [L],
    page: u64,
    first: u64,
    file: u64,
    at: u64,
    bytes: &[u8],
) -> Result<(), RegionFault>
    requires page { IsPageSize page }
    requires some { 1 ≤ length parts.old }
    requires pieces { pages_touched at (length bytes.now) page ≡ length parts.old }
    requires range { at + length bytes.now ≤ 2 ^ 60 }
    requires number { first + 1 ≤ 2 ^ 60 }
    requires ready { All (λ part. IsReady page (L.room part)) parts.old }
    ensures begun { DidSomeRow (group_steps page first file at bytes.now) (map L.history parts.old) (map L.history parts.new) }
    ensures done { OnOk result
        (DidRow (group_steps page first file at bytes.now) (map L.history parts.old) (map L.history parts.new)) }
    ensures calls { RowCalls (group_steps page first file at bytes.now)
        (map (seen_of L.history L.room L.fault_count) parts.old) (map (seen_of L.history L.room L.fault_count) parts.new) result }
    ensures ready { OnOk result (All (λ part. IsReady page (L.room part)) parts.new) }
    ensures lines { map (λ part. (L.room part).lines) parts.new ≡ map (λ part. (L.room part).lines) parts.old }
    ensures cause { HasCause (sum_by L.fault_count parts.old) (sum_by L.fault_count parts.new) result }
    ensures devices { map L.device parts.new ≡ map L.device parts.old }
{
    write_pieces(parts, page, first, file, at, bytes)?;
    commit(parts, page, first)
}

// The entries of a group, but for the leader's commit word.
fn write_pieces<L: Lines>(
    parts: &mut [L],
    page: u64,
    first: u64,
    file: u64,
    at: u64,
    bytes: &[u8],
) -> Result<(), RegionFault>
    requires page { IsPageSize page }
    requires pieces { pages_touched at (length bytes.now) page ≡ length parts.old }
    requires range { at + length bytes.now ≤ 2 ^ 60 }
    requires ready { All (λ part. IsReady page (L.room part)) parts.old }
    ensures calls { RowCalls (pieces_steps page first file at bytes.now (length parts.old))
        (map (seen_of L.history L.room L.fault_count) parts.old) (map (seen_of L.history L.room L.fault_count) parts.new) result }
    ensures ready { OnOk result (All (λ part. IsReady page (L.room part)) parts.new) }
    ensures lines { map (λ part. (L.room part).lines) parts.new ≡ map (λ part. (L.room part).lines) parts.old }
    ensures cause { HasCause (sum_by L.fault_count parts.old) (sum_by L.fault_count parts.new) result }
    ensures devices { map L.device parts.new ≡ map L.device parts.old }
{
    for (i, part) in parts.iter_mut().enumerate() {
        write_piece(part, page, first, file, at, bytes, i as u64)?;
    }
    Ok(())
}

/// Writes piece `i` of a write as an entry of the group from number `first` on, but for its commit word: its data and its
/// fields, durable at `Ok`. Takes no memory.
pub fn write_piece<L: Lines>(
    part: &mut L,
    page: u64,
    first: u64,
    file: u64,
    at: u64,
    bytes: &[u8],
    i: u64,
) -> Result<(), RegionFault>
    requires page { IsPageSize page }
    requires range { at + length bytes.now ≤ 2 ^ 60 }
    requires piece { i < pages_touched at (length bytes.now) page }
    requires ready { IsReady page (L.room part.old) }
    ensures begun { DidSome (piece_steps page first file at bytes.now i) (L.history part.old) (L.history part.new) }
    ensures done { OnOk result (DidLineStep (piece_steps page first file at bytes.now i) (L.history part.old) (L.history part.new)) }
    ensures calls { PartCalls (piece_steps page first file at bytes.now i)
        (seen_of L.history L.room L.fault_count part.old) (seen_of L.history L.room L.fault_count part.new) result }
    ensures ready { OnOk result (IsReady page (L.room part.new)) }
    ensures lines { (L.room part.new).lines ≡ (L.room part.old).lines }
    ensures cause { HasCause (L.fault_count part.old) (L.fault_count part.new) result }
    ensures device { L.device part.new ≡ L.device part.old }
{
    let len = bytes.len() as u64;
    let span = cut(at, len, page, i);
    let head = PieceHead {
        file,
        at: span.at,
        size: span.size,
        count: group_count(piece_count(at, len, page), i),
        leader: first,
    };
    let end = span.from + span.size;
    write_entry(part, head, &bytes[span.from as usize..end as usize])
}

// The number of entries that entry `i` of a group gives.
fn group_count(entries: u64, i: u64) -> u64
    ensures { result ≡ count_at entries i }
{
    if i == 0 { entries } else { 0 }
}

// The data and the fields of an entry; durable at `Ok`.
fn write_entry<L: Lines>(part: &mut L, head: PieceHead, bytes: &[u8]) -> Result<(), RegionFault>
    requires lines { 1 + lines_for (length bytes.now) ≤ (L.room part.old).lines }
    requires spare { (line : ℕ) → line < 1 + lines_for (length bytes.now) → 15 ≤ (L.room part.old).spare line }
    ensures calls { PartCalls (data_steps bytes.now ++ entry_field_steps head.file head.at head.size head.count head.leader)
        (seen_of L.history L.room L.fault_count part.old) (seen_of L.history L.room L.fault_count part.new) result }
    ensures ready { OnOk result (StaysReady (L.room part.old) (L.room part.new)) }
    ensures lines { (L.room part.new).lines ≡ (L.room part.old).lines }
    ensures cause { HasCause (L.fault_count part.old) (L.fault_count part.new) result }
    ensures device { L.device part.new ≡ L.device part.old }
{
    write_data(part, bytes)?;
    write_head(part, head)
}

// The data lines of an entry, stored and flushed.
fn write_data<L: Lines>(part: &mut L, bytes: &[u8]) -> Result<(), RegionFault>
    requires lines { 1 + lines_for (length bytes.now) ≤ (L.room part.old).lines }
    requires spare { (line : ℕ) → line < 1 + lines_for (length bytes.now) → 15 ≤ (L.room part.old).spare line }
    ensures calls { PartCalls (data_steps bytes.now)
        (seen_of L.history L.room L.fault_count part.old) (seen_of L.history L.room L.fault_count part.new) result }
    ensures room { OnOk result (WritesLines (lines_for (length bytes.now)) (L.room part.old) (L.room part.new)) }
    ensures lines { (L.room part.new).lines ≡ (L.room part.old).lines }
    ensures cause { HasCause (L.fault_count part.old) (L.fault_count part.new) result }
    ensures device { L.device part.new ≡ L.device part.old }
{
    for k in 0..bytes.len().div_ceil(64) {
        let end = bytes.len().min(64 * k + 64);
        write_line(part, 1 + k as u64, &bytes[64 * k..end])?;
    }
    Ok(())
}

// A data line, padded with zeros.
fn write_line<L: Lines>(part: &mut L, line: u64, bytes: &[u8]) -> Result<(), RegionFault>
    requires line { line < (L.room part.old).lines }
    requires spare { 1 ≤ (L.room part.old).spare line }
    requires size { length bytes.now ≤ 64 }
    ensures calls { PartCalls (line_stores line (padded bytes.now 64) ++ Flush line ∷ [])
        (seen_of L.history L.room L.fault_count part.old) (seen_of L.history L.room L.fault_count part.new) result }
    ensures room { Takes 1 line (L.room part.old) (L.room part.new) }
    ensures flushed { OnOk result (15 ≤ (L.room part.new).after_fence line) }
    ensures cause { HasCause (L.fault_count part.old) (L.fault_count part.new) result }
    ensures device { L.device part.new ≡ L.device part.old }
{
    let content = with_zeros(bytes);
    part.store_line(line, &content)?;
    part.flush(line)?;
    Ok(())
}

// A line's bytes, with zeros behind those given.
fn with_zeros(bytes: &[u8]) -> [u8; 64]
    requires { length bytes.now ≤ 64 }
    ensures { result ≡ padded bytes.now 64 }
{
    let mut content = [0; 64];
    content[..bytes.len()].copy_from_slice(bytes);
    content
}

// The fields behind the commit word; durable, with what was flushed, at `Ok`.
fn write_head<L: Lines>(part: &mut L, head: PieceHead) -> Result<(), RegionFault>
    requires lines { 1 ≤ (L.room part.old).lines }
    requires spare { 5 ≤ (L.room part.old).spare 0 }
    ensures calls { PartCalls (entry_field_steps head.file head.at head.size head.count head.leader)
        (seen_of L.history L.room L.fault_count part.old) (seen_of L.history L.room L.fault_count part.new) result }
    ensures room { OnOk result (FencesHead (L.room part.old) (L.room part.new)) }
    ensures lines { (L.room part.new).lines ≡ (L.room part.old).lines }
    ensures cause { HasCause (L.fault_count part.old) (L.fault_count part.new) result }
    ensures device { L.device part.new ≡ L.device part.old }
{
    part.store(0, 1, head.file)?;
    part.store(0, 2, head.at)?;
    part.store(0, 3, head.size)?;
    part.store(0, 4, head.count)?;
    part.store(0, 5, head.leader)?;
    part.flush(0)?;
    part.fence()?;
    Ok(())
}

// The commit word of a group's leader; durable at `Ok`.
fn commit<L: Lines>(parts: &mut [L], page: u64, first: u64) -> Result<(), RegionFault>
    requires some { 1 ≤ length parts.old }
    requires number { first + 1 ≤ 2 ^ 60 }
    requires ready { All (λ part. IsReady page (L.room part)) parts.old }
    ensures calls { RowCalls (on_part 0 (durable_store 0 0 (first + 1)))
        (map (seen_of L.history L.room L.fault_count) parts.old) (map (seen_of L.history L.room L.fault_count) parts.new) result }
    ensures ready { OnOk result (All (λ part. IsReady page (L.room part)) parts.new) }
    ensures lines { map (λ part. (L.room part).lines) parts.new ≡ map (λ part. (L.room part).lines) parts.old }
    ensures cause { HasCause (sum_by L.fault_count parts.old) (sum_by L.fault_count parts.new) result }
    ensures devices { map L.device parts.new ≡ map L.device parts.old }
{
    Ok(store_durably(&mut parts[0], 0, 0, first + 1)?)
}

// A word of a part.
pub(crate) fn load<L: Lines>(part: &mut L, line: u64, word: u64) -> Result<u64, RegionFault>
    requires line { line < (L.room part.old).lines }
    requires word { word < 8 }
    ensures value { IfOk result (λ value. Tells (L.history part.old) (λ now. value ≡ part_word now line word)) }
    ensures history { L.history part.new ≡ L.history part.old }
    ensures room { Keeps (L.room part.old) (L.room part.new) }
    ensures same_room { L.room part.new ≡ L.room part.old }
    ensures cause { HasCause (L.fault_count part.old) (L.fault_count part.new) result }
    ensures device { L.device part.new ≡ L.device part.old }
{
    Ok(part.load(line, word)?)
}
