//! Lines in memory, with the states that they have had.
ghost use Rattle.std.specs.Prelude.{◌≡◌, ◌+◌, ◌*◌, ◌<◌, ◌≤◌, [], ◌∷◌, length, replicate, IfOk};
ghost use Rattle.nv_pmem.specs.Made.{words_in, line_in, part_in, resized};
ghost use Rattle.nv_pmem.specs.Part.{blank_line, line_of, word_of, part_word};
ghost use Rattle.nv_pmem.specs.Picked.{settled, picked};
ghost use Rattle.nv_pmem.specs.Room.{Keeps, Takes, Frees};
ghost use Rattle.nv_pmem.specs.Runs.{run, grown};
ghost use Rattle.nv_pmem.specs.Steps.{StoreWord, Flush, Fence, after_line_step, line_stores};

use crate::Picker;
use crate::mem_line::{MemLine, word_of_bytes};
use crate::past::Past;
use nv_plain::NoMemory;
use std::alloc::Global;

/// Lines in memory, and the states that they have had.
#[derive(Drop)]
pub(crate) struct Told {
    lines: Vec<MemLine>,
    past: Past<Vec<MemLine>>,
}

impl Told {
    ghost use Rattle.nv_pmem.specs.Told.{told_part_history, told_room};

    pub(crate) fn blank(alloc: Global, count: usize) -> Result<Self, NoMemory>
        ensures { IfOk result (λ told. told_part_history told ≡ replicate count blank_line ∷ []) }
    {
        let mut lines = Vec::with_capacity(alloc, count)?;
        for _ in 0..count {
            lines.push(MemLine::blank())?;
        }
        Ok(Told {
            lines,
            past: Past::new(),
        })
    }

    /// The lines that hold these bytes; what is behind the last whole line is left out.
    pub(crate) fn of(alloc: Global, bytes: &[u8]) -> Result<Self, NoMemory>
        ensures { IfOk result (λ told. told_part_history told ≡ part_in bytes.now ∷ []) }
    {
        let mut lines = Vec::new(alloc);
        for line in 0..bytes.len() / 64 {
            lines.push(line_in(bytes, line))?;
        }
        Ok(Told {
            lines,
            past: Past::new(),
        })
    }

    /// A copy of so many of the lines, with lines of zeros where there are fewer.
    pub(crate) fn resized(&self, alloc: Global, count: usize) -> Result<Self, NoMemory>
        ensures { IfOk result (λ told. told_part_history told ≡ resized count self.now.lines.items ∷ []) }
    {
        let mut lines = Vec::new(alloc);
        for line in 0..count {
            lines.push(self.line(line))?;
        }
        Ok(Told {
            lines,
            past: Past::new(),
        })
    }

    // A copy of a line, or zeros.
    fn line(&self, line: usize) -> MemLine
        ensures { result ≡ line_of self.now.lines.items line }
    {
        match self.lines.get(line) {
            Some(line) => line.copy(),
            None => MemLine::blank(),
        }
    }

    pub(crate) fn len(&self) -> usize
        ensures { result ≡ (told_room self.now).lines }
    {
        self.lines.len()
    }

    pub(crate) fn load(&self, line: usize, word: usize) -> u64
        requires line { line < (told_room self.now).lines }
        requires word { word < 8 }
        ensures { result ≡ part_word self.now.lines.items line word }
    {
        self.lines[line].load(word)
    }

    pub(crate) fn store(&mut self, line: usize, word: usize, value: u64)
        requires line { line < (told_room self.old).lines }
        requires word { word < 8 }
        requires spare { length (word_of (line_of self.old.lines.items line) word).later < 15 }
        ensures history { told_part_history self.new ≡ grown after_line_step (StoreWord line word value) (told_part_history self.old) }
        ensures room { Takes 1 line (told_room self.old) (told_room self.new) }
    {
        self.past.note(&self.lines);
        self.lines[line].store(word, value);
    }

    /// Stores a line's words, rising.
    pub(crate) fn store_line(&mut self, line: usize, bytes: &[u8; 64])
        requires line { line < (told_room self.old).lines }
        requires spare { 1 ≤ (told_room self.old).spare line }
        ensures history { told_part_history self.new ≡ run (grown after_line_step) (line_stores line bytes.now) (told_part_history self.old) }
        ensures room { Takes 1 line (told_room self.old) (told_room self.new) }
    {
        for word in 0..8 {
            self.store(line, word, word_of_bytes(bytes, word));
        }
    }

    pub(crate) fn flush(&mut self, line: usize)
        requires { line < (told_room self.old).lines }
        ensures history { told_part_history self.new ≡ grown after_line_step (Flush line) (told_part_history self.old) }
        ensures room { Keeps (told_room self.old) (told_room self.new) }
        ensures flushed { 15 ≤ (told_room self.new).after_fence line }
    {
        self.past.note(&self.lines);
        self.lines[line].flush();
    }

    pub(crate) fn fence(&mut self)
        ensures history { told_part_history self.new ≡ grown after_line_step Fence (told_part_history self.old) }
        ensures room { Keeps (told_room self.old) (told_room self.new) }
        ensures freed { Frees (told_room self.old) (told_room self.new) }
    {
        self.past.note(&self.lines);
        for line in self.lines.iter_mut() {
            line.fence();
        }
    }

    /// Loses power: each line is left as the picker takes it, and each of its words has one value.
    pub(crate) fn lose_power(&mut self, picker: &mut Picker)
        ensures history { told_part_history self.new ≡ (picked picker.old self.old.lines.items).0 ∷ told_part_history self.old }
        ensures draws { picker.new ≡ (picked picker.old self.old.lines.items).1 }
    {
        self.past.note(&self.lines);
        for line in self.lines.iter_mut() {
            line.lose_power(picker);
        }
    }
}

// The line that these bytes have at a place.
fn line_in(bytes: &[u8], line: usize) -> MemLine
    requires { 64 * line + 64 ≤ length bytes.now }
    ensures { result ≡ settled (words_in (line_in bytes.now line)) }
{
    let mut content = [0; 64];
    content.copy_from_slice(&bytes[64 * line..64 * line + 64]);
    MemLine::of(&content)
}
