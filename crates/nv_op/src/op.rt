//! The steps that calls make, as operations on shared words.
ghost use Rattle.std.specs.Prelude.{◌≡◌};
ghost use Rattle.nv_core.specs.state.Words.{IsWord, place};
ghost use Rattle.nv_table.specs.state.Keys.{sizes_of};
ghost use Rattle.nv_table.specs.state.Layout.{slot_of_cell};
ghost use Rattle.nv_op.specs.Words.{core_word};
ghost use Rattle.nv_op.specs.Ops.{SumIsSmall, word_of_op, change_of, marks_for, moves_for};

use crate::{Asked, CleanerOp, Word};
use nv_table::{Change, Layout, Marks, Moves};

/// A step of a call.
#[derive(Clone, Copy, Debug, PartialEq, Eq)]
pub enum Op {
    /// The word is read.
    Load { word: Word },
    /// The lock goes from 0 to 1, and what its cell keeps comes to the pass; where it is 1 already nothing changes.
    Take { cell: Word },
    /// And back.
    Give { cell: Word },
    /// ORDER rises: the call takes its place in the history.
    Place,
    /// STOP is set, after a device fault.
    Stop,
    /// HEAD rises by so many, where it is still as the pass saw it last.
    Draw { head: u64, count: u64 },
    /// The entry of a number is being filled, and its part comes to the pass.
    Seize { number: u64 },
    /// DIRTY of a page rises. A buffer of the page that counts has the write's piece before.
    Pledge { page: u64 },
    /// The entry of a number gets its word, ready, and its part goes back.
    Ready { number: u64, word: u64 },
    /// LENGTH of a file is the end of the write.
    Grow { file: u64, length: u64 },
    /// The entry of a number is broken, after a device fault, and its part goes back.
    Break { number: u64 },
    /// The entry of a number is held, and its part comes to the pass.
    Hold { number: u64 },
    /// It is ready again, and its part goes back.
    Return { number: u64 },
    /// HAND rises: a try of the search for a buffer for this page.
    Turn { page: u64 },
    /// HINT of a buffer is the page that was given it.
    Hint { buffer: u64, page: u64 },
    /// A step of a batch of a cleaner.
    ByCleaner(CleanerOp),
}

impl Op {
    // The word that it is made on.
    #[inline(always)]
    fn word(self, layout: Layout) -> Word
        ensures { result ≡ word_of_op (sizes_of layout) self }
    {
        match self {
            Op::Load { word } => word,
            Op::Take { cell } | Op::Give { cell } => cell,
            Op::Place => Word::Order,
            Op::Stop => Word::Stop,
            Op::Draw { .. } => Word::Head,
            Op::Seize { number }
            | Op::Ready { number, .. }
            | Op::Break { number }
            | Op::Hold { number }
            | Op::Return { number } => Word::Entry {
                slot: number % layout.entries,
            },
            Op::Pledge { page } => Word::Dirty { page },
            Op::Grow { file, .. } => Word::Length { file },
            Op::Turn { .. } => Word::Hand,
            Op::Hint { buffer, .. } => Word::Hint { buffer },
            Op::ByCleaner(op) => op.word(layout),
        }
    }

    // And its place.
    #[inline(always)]
    pub(crate) fn place(self, layout: Layout) -> u64
        requires { IsWord (sizes_of layout) (core_word (word_of_op (sizes_of layout) self)) }
        ensures { result ≡ place (sizes_of layout) (core_word (word_of_op (sizes_of layout) self)) }
    {
        self.word(layout).place(layout)
    }

    // What it makes of the word.
    #[inline(always)]
    pub(crate) fn change(self) -> Change
        requires { SumIsSmall self }
        ensures { result ≡ change_of self }
    {
        match self {
            Op::Load { .. } => Change::Keep,
            Op::Take { .. } => Change::Exchange(0, 1),
            Op::Give { .. } => Change::Set(0),
            Op::Place | Op::Pledge { .. } | Op::Hold { .. } | Op::Turn { .. } => Change::Add(1),
            Op::Stop => Change::Set(1),
            Op::Draw { head, count } => Change::Exchange(head, head + count),
            Op::Seize { .. } => Change::Set(1),
            Op::Ready { word, .. } => Change::Set(word),
            Op::Grow { length, .. } => Change::Set(length),
            Op::Break { .. } => Change::Set(5),
            Op::Return { .. } => Change::Subtract(1),
            Op::Hint { page, .. } => Change::Set(page),
            Op::ByCleaner(op) => op.change(),
        }
    }

    // What it makes of the numbers that its pass has drawn.
    #[inline(always)]
    pub(crate) fn marks(self, opens: Option<Asked<'_>>) -> Marks
        ensures { result ≡ marks_for opens.entry self }
    {
        match (opens, self) {
            (None, Op::Place) => Marks::Places,
            (None, Op::Stop | Op::ByCleaner(CleanerOp::Stop)) => Marks::Stops,
            (None, Op::Draw { .. }) => Marks::Draws,
            _ => Marks::Nothing,
        }
    }

    // The slot of the word's cell, if it keeps something.
    #[inline(always)]
    fn slot(self, layout: Layout) -> Option<usize>
        requires { IsWord (sizes_of layout) (core_word (word_of_op (sizes_of layout) self)) }
        ensures { result ≡ slot_of_cell (sizes_of layout) (core_word (word_of_op (sizes_of layout) self)) }
    {
        self.word(layout).slot(layout)
    }

    // And how it moves.
    #[inline(always)]
    pub(crate) fn moves(self, layout: Layout) -> Moves
        requires { IsWord (sizes_of layout) (core_word (word_of_op (sizes_of layout) self)) }
        ensures { result ≡ moves_for self (slot_of_cell (sizes_of layout) (core_word (word_of_op (sizes_of layout) self))) }
    {
        let slot = self.slot(layout);
        match (self, slot) {
            (Op::Take { .. }, Some(slot)) => Moves::ComesIfFree(slot),
            (Op::Seize { .. } | Op::Hold { .. }, Some(slot)) => Moves::Comes(slot),
            (
                Op::Give { .. } | Op::Ready { .. } | Op::Break { .. } | Op::Return { .. },
                Some(slot),
            ) => Moves::Goes(slot),
            (Op::ByCleaner(op), slot) => op.moves(slot),
            _ => Moves::Stays,
        }
    }
}
