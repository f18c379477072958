//! Whether the parts of a region have the lines that they need.
ghost use Rattle.std.specs.Prelude.{◌≡◌, ◌*◌, ◌≤◌, ◌↔◌, length, map, min, sum_by, IfErr, IsOk};
ghost use Rattle.nv_pmem.specs.Limits.{entry_lines as needed};
ghost use Rattle.nv_plain.specs.Layouts.{layout_of};
ghost use Rattle.nv_header.specs.Needs.{HasLines, lines_wanted, lines_found};

use crate::head::Head;
use nv_plain::limits::Version;
use nv_pmem::{Geometry, Lines};
use thiserror::Error;

/// The parts of a region lack lines that it needs.
#[derive(Clone, Copy, Debug, PartialEq, Eq, Error)]
#[error("truncated: {found} lines of {wanted}")]
pub struct Truncated {
    /// Of the needed lines, those that are there.
    pub found: u64,
    /// All lines that are needed.
    pub wanted: u64,
}

/// Checks that the parts have the lines that the region of this head needs: those of the header, and for each entry one
/// of fields and its page. Lines and parts beyond these are not looked at. Takes no memory.
pub fn check_lines<L: Lines>(parts: &[L], head: &Head) -> Result<(), Truncated>
    ensures exact { IsOk result ↔ HasLines (layout_of head.now.version) head.now.geometry.page head.now.geometry.entries
        (map L.room parts.now) }
    ensures found { IfErr result (λ lack. lack.found ≡ lines_found (layout_of head.now.version) head.now.geometry.page head.now.geometry.entries
        (map L.room parts.now)) }
    ensures wanted { IfErr result (λ lack. lack.wanted ≡
        lines_wanted (layout_of head.now.version) head.now.geometry.page head.now.geometry.entries) }
{
    let found = found_lines(parts, head.version, &head.geometry);
    let wanted = head.version.header_lines()
        + head.geometry.entries * entry_lines(head.geometry.page);
    if found == wanted {
        Ok(())
    } else {
        Err(Truncated { found, wanted })
    }
}

// Of the lines that a region needs, those that its parts have.
fn found_lines<L: Lines>(parts: &[L], version: Version, geometry: &Geometry) -> u64
    ensures { result ≡ lines_found (layout_of version) geometry.now.page geometry.now.entries
        (map L.room parts.now) }
{
    match parts {
        [] => 0,
        [header, others @ ..] => {
            let count = others.len().min(geometry.entries as usize);
            version.header_lines().min(header.lines())
                + lines_up_to(&others[..count], entry_lines(geometry.page))
        }
    }
}

// Lines of an entry's part: one of fields, and a page.
fn entry_lines(page: u64) -> u64
    ensures { result ≡ needed page }
{
    1 + page / 64
}

// The lines of some parts, of each at most so many.
fn lines_up_to<L: Lines>(parts: &[L], most: u64) -> u64
    requires parts { length parts.now ≤ 1024 }
    requires most { most ≤ 65 }
    ensures { result ≡ sum_by (λ part. min most (L.room part).lines) parts.now }
{
    parts.iter().map(|part| most.min(part.lines())).sum()
}
