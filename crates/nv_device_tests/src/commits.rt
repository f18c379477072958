//! Tests of commits.
ghost use Rattle.std.specs.Prelude.{◌≡◌, ◌+◌, ◌<◌, ◌≤◌, length, map, vec_len, All, IfOk, IfSome};
ghost use Rattle.nv_plain.specs.Images.{entry_of};
ghost use Rattle.nv_plain.specs.Pieces.{pages_touched};
ghost use Rattle.nv_pmem.specs.MemPart.{part_history, part_room};
ghost use Rattle.nv_pmem.specs.Moments.{Tells};
ghost use Rattle.nv_pmem.specs.Rows.{RowTells, InEachRowImage};
ghost use Rattle.nv_pmem.specs.Part.{part_word};
ghost use Rattle.nv_entry.specs.Group.{IsReady, IsUncommitted};

use nv_entry::{
    EntryWords, PieceHead, Span, commit_group, cut, entry_words, piece_count, read_piece,
};
use nv_plain::NoMemory;
use nv_pmem::{Fuse, MemPart};
use std::alloc::Global;

// The parts of so many entries of a page of 64 bytes, whose calls of these numbers fail.
fn entry_parts(alloc: Global, count: u64, fails: &[u64]) -> Result<Vec<MemPart>, NoMemory>
    ensures count { IfOk result (λ parts. vec_len parts ≡ count) }
    ensures ready { IfOk result (λ parts. All (λ part. IsReady 64 (part_room part)) parts.items) }
    ensures uncommitted { IfOk result (λ parts.
        RowTells (map part_history parts.items) (InEachRowImage (IsUncommitted 5 (vec_len parts)))) }
{
    let fuse = Fuse::new(alloc, fails)?;
    let mut parts = Vec::new(alloc);
    for _ in 0..count {
        parts.push(MemPart::fused(alloc, 2, fuse.copy()?)?)?;
    }
    Ok(parts)
}

// Part `i` of a group from number 5 on, of so many entries, that writes the bytes to file 1; none where it fails.
fn committed_part(
    alloc: Global,
    entries: u64,
    at: u64,
    bytes: &[u8],
    i: usize,
) -> Result<Option<MemPart>, NoMemory>
    requires some { i < entries }
    requires few { entries ≤ 16 }
    requires range { at + length bytes.now ≤ 1024 }
    requires pieces { pages_touched at (length bytes.now) 64 ≡ entries }
    ensures lines { IfOk result (λ part. IfSome part (λ part. 2 ≤ (part_room part).lines)) }
    ensures size { IfOk result (λ part. IfSome part (λ part. Tells (part_history part) (λ now. (entry_of (part_word now)).size ≤ 64))) }
{
    let mut parts = entry_parts(alloc, entries, &[])?;
    if commit_group(&mut parts, 64, 5, 1, at, bytes).is_err() {
        return Ok(None);
    }
    Ok(Some(parts.remove(i)))
}

const HEAD: PieceHead = PieceHead {
    file: 1,
    at: 130,
    size: 3,
    count: 1,
    leader: 5,
};

#[test]
fn a_group_of_one_is_written_and_read(rt: HostRuntime) -> Result<(), NoMemory> {
    let mut part = committed_part(rt.alloc(), 1, 130, b"abc", 0)?.expect(&rt, "committed");
    let mut into = [b'.'; 64];
    let read = read_piece(&mut part, &mut into);
    let words = entry_words(&mut part);
    let head = HEAD;
    assert_eq!(rt; (read, &into[..8]), (Ok(HEAD), b"abc.....".as_slice()));
    assert_eq!(rt; words, Ok(EntryWords { commit: 6, head }));
    Ok(())
}

#[test]
fn a_write_is_cut_at_page_boundaries(rt: HostRuntime) {
    let pieces = (
        piece_count(130, 70, 64),
        cut(130, 70, 64, 0),
        cut(130, 70, 64, 1),
    );
    let first = Span {
        at: 130,
        from: 0,
        size: 62,
    };
    let second = Span {
        at: 192,
        from: 62,
        size: 8,
    };
    let whole_page = piece_count(4096, 4096, 4096);
    let nothing = piece_count(4096, 0, 4096);
    assert_eq!(rt; (pieces, whole_page, nothing), ((2, first, second), 1, 0));
}
