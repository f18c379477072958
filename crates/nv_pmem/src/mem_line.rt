//! A line in memory, with all values that its words can have.
ghost use Rattle.std.specs.Prelude.{◌≡◌, ◌≢◌, ℕ, ◌<◌, ◌≤◌, List, length, map, take, slice_index_or, slice_set, None};
ghost use Rattle.nv_pmem.specs.MemLine.{noted, column};
ghost use Rattle.nv_pmem.specs.Part.{blank_line, word_of, newest, newest_value, word_at, stored, flushed, flushed_word, fenced, fenced_word};
ghost use Rattle.nv_pmem.specs.Made.{words_in};
ghost use Rattle.nv_pmem.specs.Steps.{word_in};
ghost use Rattle.nv_pmem.specs.Picked.{settled, value_of, taken, picked_word, picked_line};

use crate::{Pick, Picker};
use arrayvec::ArrayVec;
use std::marker::Model;

/// How many values a word can have had since its oldest.
const LATER_VALUES: usize = 15;

/// The mark of a word that no flush noted since the last fence.
const UNMARKED: u8 = 16;

/// A line in memory. Contracts see it as the line that it is.
///
/// What calls need stands in rows of eight, a place for each word: so a flush and a fence copy rows. Only a fence that
/// finds something stored behind the flush looks at the words one by one, and so does a power failure.
#[derive(Drop)]
pub(crate) struct MemLine {
    // Whether it was flushed since the last fence, and whether something may have been stored since.
    is_flushed: bool,
    is_behind: bool,
    newest: [u64; 8],
    oldest: [u64; 8],
    // How many values each word has had since its oldest, and how many of them a flush noted.
    counts: [u8; 8],
    marks: [u8; 8],
    // Those values: the first ones of all words, then the second ones, and so on.
    later: [[u64; 8]; LATER_VALUES],
}

impl Model for MemLine {
    ghost use Rattle.nv_pmem.specs.Part.{Line};
    ghost use Rattle.nv_pmem.specs.MemLine.{held_line, HoldsLine};

    ghost Value = { Line };

    ghost view = { λ l. held_line l.oldest l.counts l.marks l.later };

    ghost invariant = { λ l. HoldsLine l.is_flushed l.is_behind l.newest l.oldest l.counts l.marks l.later };
}

impl MemLine {
    pub(crate) fn blank() -> Self
        ensures { result ≡ blank_line }
    {
        MemLine::settled(&[0; 8])
    }

    /// The line of 64 bytes, of which each word has one value.
    #[tactic(auto, unfolding(crate::specs::Made::words_in))]
    pub(crate) fn of(bytes: &[u8; 64]) -> Self
        ensures { result ≡ settled (words_in bytes.now) }
    {
        MemLine::settled(&[
            word_of_bytes(bytes, 0),
            word_of_bytes(bytes, 1),
            word_of_bytes(bytes, 2),
            word_of_bytes(bytes, 3),
            word_of_bytes(bytes, 4),
            word_of_bytes(bytes, 5),
            word_of_bytes(bytes, 6),
            word_of_bytes(bytes, 7),
        ])
    }

    fn settled(words: &[u64; 8]) -> Self
        ensures { result ≡ settled words.now }
    {
        MemLine {
            is_flushed: false,
            is_behind: false,
            newest: *words,
            oldest: *words,
            counts: [0; 8],
            marks: [UNMARKED; 8],
            later: [[0; 8]; LATER_VALUES],
        }
    }

    pub(crate) fn copy(&self) -> Self
        ensures { result ≡ self.now }
    {
        MemLine {
            is_flushed: self.is_flushed,
            is_behind: self.is_behind,
            newest: self.newest,
            oldest: self.oldest,
            counts: self.counts,
            marks: self.marks,
            later: self.later,
        }
    }

    pub(crate) fn load(&self, word: usize) -> u64
        requires { word < 8 }
        ensures { result ≡ word_at (newest self.now) word }
    {
        self.newest[word]
    }

    pub(crate) fn store(&mut self, word: usize, value: u64)
        requires word { word < 8 }
        requires spare { length (word_of self.old word).later < 15 }
        ensures { self.new ≡ stored word value self.old }
    {
        let count = self.counts[word];
        self.newest[word] = value;
        self.later[count as usize][word] = value;
        self.counts[word] = count + 1;
        self.is_behind = true;
    }

    pub(crate) fn flush(&mut self)
        ensures { self.new ≡ flushed self.old }
    {
        self.marks = self.counts;
        self.is_flushed = true;
        self.is_behind = false;
    }

    pub(crate) fn fence(&mut self)
        ensures { self.new ≡ fenced self.old }
    {
        if !self.is_flushed {
            return;
        }
        if self.is_behind {
            self.fence_words();
        } else {
            self.oldest = self.newest;
            self.counts = [0; 8];
            self.marks = [UNMARKED; 8];
            self.is_flushed = false;
        }
    }

    // A fence word by word, which is rare: in a frame of its own, so that other fences save no registers for it.
    #[inline(never)]
    fn fence_words(&mut self)
        ensures { self.new ≡ fenced self.old }
    {
        // Until each word is put back, no flush has noted all of them.
        self.is_behind = true;
        for at in 0..8 {
            let mut word = self.word(at);
            word.fence();
            self.put(at, &word);
        }
        self.is_flushed = false;
    }

    /// Loses power: of each word the value that the picker takes is left.
    pub(crate) fn lose_power(&mut self, picker: &mut Picker)
        ensures { (self.new, picker.new) ≡ picked_line picker.old self.old }
    {
        // Until each word is put back, no flush has noted all of them.
        self.is_behind = true;
        for at in 0..8 {
            let mut word = self.word(at);
            word.lose_power(at, picker);
            self.put(at, &word);
        }
        self.is_flushed = false;
    }

    // The word at a place.
    fn word(&self, at: usize) -> MemWord
        requires { at < 8 }
        ensures { result ≡ word_of self.now at }
    {
        MemWord {
            oldest: self.oldest[at],
            later: taken_from(&self.later, at, self.counts[at] as usize),
            flushed: noted(self.marks[at]),
        }
    }

    // Puts a word that isn't flushed in a place.
    fn put(&mut self, at: usize, word: &MemWord)
        requires at { at < 8 }
        requires unflushed { word.now.flushed ≡ None }
        ensures { self.new ≡ slice_set self.old at word.now }
    {
        self.newest[at] = word.newest();
        self.oldest[at] = word.oldest;
        self.counts[at] = word.later.len() as u8;
        self.marks[at] = UNMARKED;
        put_into(&mut self.later, at, &word.later);
        self.is_flushed = true;
        self.is_behind = true;
    }
}

// How many values a flush noted, if there was one.
fn noted(mark: u8) -> Option<usize>
    ensures { result ≡ noted mark }
{
    if mark == UNMARKED {
        None
    } else {
        Some(mark as usize)
    }
}

// The first values that rows have at a place.
fn taken_from(
    rows: &[[u64; 8]; LATER_VALUES],
    at: usize,
    count: usize,
) -> ArrayVec<u64, LATER_VALUES>
    requires at { at < 8 }
    requires count { count ≤ 15 }
    ensures { result.items ≡ take count (column rows.now at) }
{
    let mut values = ArrayVec::new();
    for row in 0..count {
        values.push(rows[row][at]);
    }
    values
}

// Writes values over the first ones that rows have at a place.
fn put_into(rows: &mut [[u64; 8]; LATER_VALUES], at: usize, values: &[u64])
    requires at { at < 8 }
    requires count { length values.now ≤ 15 }
    requires wide { (row : ℕ) (none : List ℕ) → row < 15 → length (slice_index_or rows.old row none) ≡ 8 }
    ensures wide { (row : ℕ) (none : List ℕ) → row < 15 → length (slice_index_or rows.new row none) ≡ 8 }
    ensures put { take (length values.now) (column rows.new at) ≡ values.now }
    ensures others { (other : ℕ) → other ≢ at → column rows.new other ≡ column rows.old other }
{
    for row in 0..values.len() {
        rows[row][at] = values[row];
    }
}

/// A word of a line. Contracts see it as the word that it is.
#[derive(Drop)]
struct MemWord {
    oldest: u64,
    later: ArrayVec<u64, LATER_VALUES>,
    flushed: Option<usize>,
}

impl Model for MemWord {
    ghost use Rattle.std.specs.Prelude.{◌≤◌, length, IfSome};
    ghost use Rattle.nv_pmem.specs.Part.{Word};

    ghost Value = { Word };

    ghost view = { λ w. record { oldest = w.oldest; later = w.later.items; flushed = w.flushed } };

    ghost invariant = { λ w. IfSome w.flushed (λ count. count ≤ length w.later.items) };
}

impl MemWord {
    fn newest(&self) -> u64
        ensures { result ≡ newest_value self.now }
    {
        self.later.last().copied().unwrap_or(self.oldest)
    }

    fn fence(&mut self)
        ensures { self.new ≡ fenced_word self.old }
    {
        if let Some(count) = self.flushed.take() {
            if let Some(value) = self.later[..count].last() {
                self.oldest = *value;
            }
            if count == self.later.len() {
                self.later.clear();
            } else {
                drop(self.later.drain(..count));
            }
        }
    }

    // Loses power, at this place of its line: the value that the picker takes is left.
    #[tactic(auto, unfolding(crate::specs::Picked::picked_word))]
    fn lose_power(&mut self, at: usize, picker: &mut Picker)
        ensures { (self.new, picker.new) ≡ picked_word picker.old at self.old }
    {
        self.oldest = self.value(self.taken(at, picker));
        self.later.clear();
        self.flushed = None;
    }

    fn taken(&self, at: usize, picker: &mut Picker) -> usize
        ensures taken { (result, picker.new) ≡ taken picker.old.pick picker.old at self.now }
        ensures within { result ≤ length self.now.later }
    {
        match picker.pick() {
            Pick::Old | Pick::Torn => 0,
            Pick::Mixed if at % 2 == 0 => 0,
            Pick::New | Pick::Mixed => self.later.len(),
            Pick::Seed(_) if self.later.is_empty() => 0,
            Pick::Seed(_) => (picker.draw() % (self.later.len() as u64 + 1)) as usize,
        }
    }

    #[tactic(auto, unfolding(crate::specs::Picked::value_of))]
    fn value(&self, count: usize) -> u64
        requires { count ≤ length self.now.later }
        ensures { result ≡ value_of self.now count }
    {
        match count {
            0 => self.oldest,
            _ => self.later[count - 1],
        }
    }
}

pub(crate) fn word_of_bytes(bytes: &[u8; 64], word: usize) -> u64
    requires { word < 8 }
    ensures { result ≡ word_in bytes.now word }
{
    let mut little_endian = [0; 8];
    little_endian.copy_from_slice(&bytes[8 * word..][..8]);
    u64::from_le_bytes(little_endian)
}
