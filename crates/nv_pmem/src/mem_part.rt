//! A part in memory.
ghost use Rattle.std.specs.Prelude.{◌≡◌, ℕ, ◌%◌, ◌<◌, ◌≤◌, [], ◌∷◌, length, IfOk, OnOk, OnErr};
ghost use Rattle.nv_plain.specs.Faults.{HasCause};
ghost use Rattle.nv_pmem.specs.Images.{IsPartImage, IsQuietPart};
ghost use Rattle.nv_pmem.specs.Made.{part_in, resized};
ghost use Rattle.nv_pmem.specs.Part.{part_word};
ghost use Rattle.nv_pmem.specs.Picked.{picked};
ghost use Rattle.nv_pmem.specs.Steps.{StoreWord, Flush, Fence, DidLineStep, DidSome, line_stores};
ghost use Rattle.nv_pmem.specs.Room.{Keeps, Takes, Frees};

use crate::fault_counter::FaultCounter;
use crate::told::Told;
use crate::{Fuse, LineFault, Lines, Picker};
use nv_plain::NoMemory;
use std::alloc::Global;

/// A part in memory. Its contents end with it; it is for trying out what stands on `Lines`.
#[derive(Drop)]
pub struct MemPart {
    told: Told,
    fault_counter: FaultCounter,
}

impl MemPart {
    ghost use Rattle.nv_pmem.specs.MemPart.{IsBlankMemPart, IsNewPart, part_now, part_history, part_room, part_faults, part_device};

    /// A part of so many lines of zeros, durable, whose calls all go well. It takes about 1,110 bytes a line.
    pub fn new(alloc: Global, lines: u64) -> Result<Self, NoMemory>
        ensures { IfOk result (IsBlankMemPart lines) }
    {
        Self::blank(alloc, lines, None)
    }

    /// As `new`, but the calls that the fuse counts out fail. Each call of `Lines` but `lines` and `faults` counts
    /// as one, and one that fails leaves the part as it was, but for the count of faults.
    pub fn fused(alloc: Global, lines: u64, fuse: Fuse) -> Result<Self, NoMemory>
        ensures { IfOk result (IsBlankMemPart lines) }
    {
        Self::blank(alloc, lines, Some(fuse))
    }

    fn blank(alloc: Global, lines: u64, fuse: Option<Fuse>) -> Result<Self, NoMemory>
        ensures { IfOk result (IsBlankMemPart lines) }
    {
        Ok(MemPart {
            told: Told::blank(alloc, lines as usize)?,
            fault_counter: FaultCounter::new(fuse),
        })
    }

    /// A part that holds these bytes, in lines of 64 and words of 8, little-endian, all durable. Its calls fail as the fuse
    /// says; with no fuse they all go well.
    pub fn of(alloc: Global, bytes: &[u8], fuse: Option<Fuse>) -> Result<Self, NoMemory>
        requires { length bytes.now % 64 ≡ 0 }
        ensures made { IfOk result (IsNewPart (part_in bytes.now)) }
        ensures quiet { IfOk result (λ part. IsQuietPart (part_now part)) }
    {
        Ok(MemPart {
            told: Told::of(alloc, bytes)?,
            fault_counter: FaultCounter::new(fuse),
        })
    }

    /// A part of so many lines that holds what this one does, each word with all of its values: new lines are zeros, and
    /// those that are too many are left out. It is a new device: its history and its count of faults begin with it.
    pub fn resized(&self, alloc: Global, lines: u64, fuse: Option<Fuse>) -> Result<Self, NoMemory>
        ensures { IfOk result (IsNewPart (resized lines (part_now self.now))) }
    {
        Ok(MemPart {
            told: self.told.resized(alloc, lines as usize)?,
            fault_counter: FaultCounter::new(fuse),
        })
    }

    /// The value of a word. It isn't a call of `Lines`: no fuse counts it.
    pub fn peek(&self, line: u64, word: u64) -> u64
        requires line { line < (part_room self.now).lines }
        requires word { word < 8 }
        ensures { result ≡ part_word (part_now self.now) line word }
    {
        self.told.load(line as usize, word as usize)
    }

    /// Loses power: each word of a line is left with one of the values that it may have, the one that the picker takes, and
    /// the part is quiet. Words of several values are drawn for in their order, line by line. It isn't a call of `Lines`:
    /// no fuse counts it, and it takes no memory.
    pub fn image(&mut self, picker: &mut Picker)
        ensures picked { part_history self.new ≡ (picked picker.old (part_now self.old)).0 ∷ part_history self.old }
        ensures draws { picker.new ≡ (picked picker.old (part_now self.old)).1 }
        ensures image { IsPartImage (part_now self.old) (part_word (part_now self.new)) }
        ensures quiet { IsQuietPart (part_now self.new) }
        ensures lines { (part_room self.new).lines ≡ (part_room self.old).lines }
        ensures spare { (line : ℕ) → (part_room self.new).spare line ≡ 15 }
        ensures faults { part_faults self.new ≡ part_faults self.old }
        ensures device { part_device self.new ≡ part_device self.old }
    {
        self.told.lose_power(picker);
    }
}

impl Lines for MemPart {
    ghost use Rattle.nv_pmem.specs.MemPart.{part_device, part_history, part_room, part_faults, part_told_lines};

    ghost device = { part_device };

    ghost history = { part_history };

    ghost room = { part_room };

    ghost fault_count = { part_faults };

    fn lines(&self) -> u64 {
        self.told.len() as u64
    }

    fn load(&mut self, line: u64, word: u64) -> Result<u64, LineFault> {
        self.fault_counter.begin()?;
        Ok(self.told.load(line as usize, word as usize))
    }

    fn store(&mut self, line: u64, word: u64, value: u64) -> Result<(), LineFault>
        requires line { line < (part_room self.old).lines }
        requires word { word < 8 }
        requires spare { 1 ≤ (part_room self.old).spare line }
        ensures begun { DidSome (StoreWord line word value ∷ []) (part_history self.old) (part_history self.new) }
        ensures done { OnOk result (DidLineStep (StoreWord line word value ∷ []) (part_history self.old) (part_history self.new)) }
        ensures refused { OnErr result (part_history self.new ≡ part_history self.old) }
        ensures room { Takes 1 line (part_room self.old) (part_room self.new) }
        ensures cause { HasCause (part_faults self.old) (part_faults self.new) result }
        ensures device { part_device self.new ≡ part_device self.old }
    {
        self.fault_counter.begin()?;
        self.told.store(line as usize, word as usize, value);
        Ok(())
    }

    fn store_line(&mut self, line: u64, bytes: &[u8; 64]) -> Result<(), LineFault>
        requires line { line < (part_room self.old).lines }
        requires spare { 1 ≤ (part_room self.old).spare line }
        ensures begun { DidSome (line_stores line bytes.now) (part_history self.old) (part_history self.new) }
        ensures done { OnOk result (DidLineStep (line_stores line bytes.now) (part_history self.old) (part_history self.new)) }
        ensures refused { OnErr result (part_history self.new ≡ part_history self.old) }
        ensures room { Takes 1 line (part_room self.old) (part_room self.new) }
        ensures cause { HasCause (part_faults self.old) (part_faults self.new) result }
        ensures device { part_device self.new ≡ part_device self.old }
    {
        self.fault_counter.begin()?;
        self.told.store_line(line as usize, bytes);
        Ok(())
    }

    fn flush(&mut self, line: u64) -> Result<(), LineFault>
        requires line { line < (part_room self.old).lines }
        ensures begun { DidSome (Flush line ∷ []) (part_history self.old) (part_history self.new) }
        ensures done { OnOk result (DidLineStep (Flush line ∷ []) (part_history self.old) (part_history self.new)) }
        ensures refused { OnErr result (part_history self.new ≡ part_history self.old) }
        ensures room { Keeps (part_room self.old) (part_room self.new) }
        ensures flushed { OnOk result (15 ≤ (part_room self.new).after_fence line) }
        ensures cause { HasCause (part_faults self.old) (part_faults self.new) result }
        ensures device { part_device self.new ≡ part_device self.old }
    {
        self.fault_counter.begin()?;
        self.told.flush(line as usize);
        Ok(())
    }

    fn fence(&mut self) -> Result<(), LineFault>
        ensures begun { DidSome (Fence ∷ []) (part_history self.old) (part_history self.new) }
        ensures done { OnOk result (DidLineStep (Fence ∷ []) (part_history self.old) (part_history self.new)) }
        ensures refused { OnErr result (part_history self.new ≡ part_history self.old) }
        ensures room { Keeps (part_room self.old) (part_room self.new) }
        ensures freed { OnOk result (Frees (part_room self.old) (part_room self.new)) }
        ensures cause { HasCause (part_faults self.old) (part_faults self.new) result }
        ensures device { part_device self.new ≡ part_device self.old }
    {
        self.fault_counter.begin()?;
        self.told.fence();
        Ok(())
    }

    fn faults(&self) -> u64 {
        self.fault_counter.faults()
    }

    ghost told_lines = { part_told_lines };
}
