//! Log entries in persistent memory: a write is cut into pieces, its pieces are committed as a group, and an entry
//! is read again.
//!
//! # An entry
//!
//! Each entry of the log has a part of its own: lines of 64 bytes, eight little-endian words of 8 bytes each. Line 0
//! holds the commit word and five fields, and the lines from 1 on a page of data.
//!
//! | Word of line 0 | What it holds |
//! |---|---|
//! | 0 | the commit word: the entry's number and one, where that entry is committed |
//! | 1 | the file's number |
//! | 2 | where the bytes go in the file |
//! | 3 | how many bytes there are |
//! | 4 | how many entries the group has; 0 in a follower |
//! | 5 | the number of the group's leader, its first entry |
//!
//! # A commit
//!
//! A write's pieces are a group, whose leader's commit word makes all of them count at once. So everything else is
//! durable before that word is stored. Part by part, each data line is stored and flushed, the fields are stored and
//! flushed, and a fence makes both durable. Only then is the leader's commit word stored, flushed and fenced, by itself.
//! A follower's commit word is never stored. The contract of [`commit_group`] has these very stores, flushes and
//! fences in their order, and says what a power failure leaves at each moment: the group as a whole or not at all. That
//! nothing is loaded on the way no contract says, for a load is in no history: a test counts the calls.
#![tactic(auto)]

mod bounds;
mod check;
mod group;
mod laws;
mod piece;
mod span;

pub use bounds::Bounds;
pub use check::{EntryWords, GroupCheck, check_group, entry_words, read_entry};
pub use group::{commit_group, write_piece};
pub use laws::{a_group_has_one_answer, groups_follow_steps};
pub use nv_pmem::RegionFault;
pub use piece::{PieceHead, read_piece};
pub use span::{Span, cut, piece_count};
