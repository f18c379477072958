//! The pieces of a write, one for each page.
ghost use Rattle.std.specs.Prelude.{◌≡◌, ◌+◌, ◌^◌, ◌<◌, ◌≤◌};
ghost use Rattle.nv_plain.specs.Pieces.{pages_touched, piece_of};
ghost use Rattle.nv_pmem.specs.Limits.{IsPageSize};

/// A piece of a write: the bytes of it that lie in one page.
#[derive(Clone, Copy, Debug, PartialEq, Eq)]
pub struct Span {
    /// Where it goes in the file, in bytes.
    pub at: u64,
    /// Where it begins in the write's bytes.
    pub from: u64,
    /// How many bytes it has.
    pub size: u64,
}

/// How many pages a range of `len` bytes from `at` on touches, and so how many pieces a write of it has.
pub fn piece_count(at: u64, len: u64, page: u64) -> u64
    requires page { IsPageSize page }
    requires range { at + len ≤ 2 ^ 60 }
    ensures { result ≡ pages_touched at len page }
{
    if len == 0 {
        0
    } else {
        (at + len - 1) / page - at / page + 1
    }
}

/// Piece `i` of a write of `len` bytes to `at`, counted from 0 and rising. `at` is an offset in the file, `len` and `page` count
/// bytes; which file it is doesn't matter. The piece lies in page `at` / `page` + `i` of the file.
pub fn cut(at: u64, len: u64, page: u64, i: u64) -> Span
    requires page { IsPageSize page }
    requires range { at + len ≤ 2 ^ 60 }
    requires piece { i < pages_touched at len page }
    ensures at { result.at ≡ (piece_of at len page i).at }
    ensures from { result.from ≡ (piece_of at len page i).from }
    ensures size { result.size ≡ (piece_of at len page i).size }
    ensures inside { result.from + result.size ≤ len }
{
    let first_page = at / page;
    let start = at.max((first_page + i) * page);
    let end = (at + len).min((first_page + i + 1) * page);
    Span {
        at: start,
        from: start - at,
        size: end - start,
    }
}
