//! The header of a region: its geometry, the names of its files, and the persistent tail of its log.
//!
//! # The header's part
//!
//! Part 0 of a region has lines of eight little-endian words: 18 in version 1, and 274 in version 2.
//!
//! | Line of version 1 | Line of version 2 | Word | What it holds |
//! |---|---|---|---|
//! | 0 | 0 | 0 | the magic, `NVCACHE1` |
//! | 0 | 0 | 1 | the version, 1 or 2 |
//! | 0 | 0 | 2 | the page size |
//! | 0 | 0 | 3 | the number of entries |
//! | 0 | 0 | 4 | the number of files, 0 to 16; in version 2 0 to 64 |
//! | 1 | 1 | 0 | the persistent tail, at most 2^60 |
//! | 2 + i | 18 + 4i | 0 | the length of name i, 1 to 56; in version 2 1 to 248 |
//! | 2 + i | 18 + 4i | 1 to 7 | the name's first bytes, then zeros |
//! | | 19 + 4i to 21 + 4i | all | its further bytes, then zeros |
//!
//! No other word of it is read. Each entry has a part of its own behind it, with a line of fields and a page of data.
//! Parts behind these belong to no slot.
#![tactic(auto)]

mod adding;
mod fields;
mod formatting;
mod head;
mod laws;
mod lines;
mod migrating;
mod names;
mod read;
mod record;
mod region;
mod tail;
mod writing;

pub use adding::{AddError, add_file};
pub use formatting::format;
pub use head::{Head, HeadError, HeadField};
pub use laws::{
    a_header_has_one_answer, a_migrated_header_says_the_same,
    an_empty_region_stands_for_its_stores, needed_lines_make_parts, the_tail_follows_steps,
};
pub use lines::{Truncated, check_lines};
pub use migrating::migrate;
pub use names::Names;
pub use read::{is_blank, read_head, read_head_of};
pub use region::Region;
pub use tail::move_tail;
