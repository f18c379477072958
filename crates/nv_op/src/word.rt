//! The shared words, by what they are the words of.
ghost use Rattle.std.specs.Prelude.{◌≡◌};
ghost use Rattle.nv_core.specs.state.Words.{IsWord, place};
ghost use Rattle.nv_table.specs.state.Keys.{sizes_of};
ghost use Rattle.nv_table.specs.state.Layout.{slot_of_cell};
ghost use Rattle.nv_op.specs.Words.{core_word};

use nv_table::{CLEANER, HAND, HEAD, HEADER, Layout, ORDER, STOP, TAIL};

/// A shared word, by what it is the word of: a file, a slot of the log, a buffer, or a page by its number of all pages.
#[derive(Clone, Copy, Debug, PartialEq, Eq)]
pub enum Word {
    Stop,
    Order,
    Head,
    Tail,
    Hand,
    Cleaner,
    Header,
    Size { file: u64 },
    Length { file: u64 },
    Store { file: u64 },
    Entry { slot: u64 },
    Hint { buffer: u64 },
    Page { page: u64 },
    Cleanup { page: u64 },
    Dirty { page: u64 },
}

impl Word {
    // Where it stands.
    #[inline(always)]
    pub(crate) fn place(self, layout: Layout) -> u64
        requires { IsWord (sizes_of layout) (core_word self) }
        ensures { result ≡ place (sizes_of layout) (core_word self) }
    {
        match self {
            Word::Stop => STOP,
            Word::Order => ORDER,
            Word::Head => HEAD,
            Word::Tail => TAIL,
            Word::Hand => HAND,
            Word::Cleaner => CLEANER,
            Word::Header => HEADER,
            Word::Size { file } => layout.size(file),
            Word::Length { file } => layout.length(file),
            Word::Store { file } => layout.store(file),
            Word::Entry { slot } => layout.entry(slot),
            Word::Hint { buffer } => layout.hint(buffer),
            Word::Page { page } => layout.page_lock(page),
            Word::Cleanup { page } => layout.cleanup(page),
            Word::Dirty { page } => layout.dirty(page),
        }
    }

    // The slot of its cell, if that keeps something.
    #[inline(always)]
    pub(crate) fn slot(self, layout: Layout) -> Option<usize>
        requires { IsWord (sizes_of layout) (core_word self) }
        ensures { result ≡ slot_of_cell (sizes_of layout) (core_word self) }
    {
        let slot = match self {
            Word::Header => 0,
            Word::Entry { slot } => 1 + slot,
            Word::Store { file } => 1 + layout.entries + file,
            Word::Page { page } => 1 + layout.entries + layout.files + page,
            _ => return None,
        };
        Some(slot as usize)
    }
}
