//! What a pass does with the pages of a call: with the buffers, the store and the parts of entries that it owns, between two steps, and the device calls of a
//! write's commit. None of these calls takes memory or waits.
#![tactic(auto)]

mod buffers;
mod commits;
mod entries;
mod laws;
mod slots;
mod stores;
mod tails;

pub use buffers::{copy_page, fill_page, lacks_buffer, move_buffer, patch_page};
pub use commits::commit_entries;
pub use entries::{Piece, patch, read_entry};
pub use laws::{commits_are_due, tail_calls_are_due};
pub use stores::{read_store, sync_store, write_store};
pub use tails::move_header_tail;
