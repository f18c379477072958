//! The parts of a vectored read.
ghost use Rattle.std.specs.List.{sum};
ghost use Rattle.std.specs.Prelude.{◌≡◌, ◌↔◌, ◌<◌, ◌≤◌, ℕ, [], ◌∷◌, ◌++◌, length, replicate, slice_index_or, Err, OnOk, OnErr};
ghost use Rattle.nv_plain.specs.declared.call.FileCall.{FileCall};
ghost use Rattle.nv_plain.specs.declared.call.FileCall.TheVariants.{Read};
ghost use Rattle.nv_core.specs.state.Passes.{plain_call};
ghost use Rattle.nv_cache.specs.ReadSteps.{HasMadeOne};
ghost use Rattle.nv_cache.specs.RunningReads.{IsOpen, IsSettled, IsUnderWay, asked_in, read_measure};
ghost use Rattle.nv_table.specs.invariant.Idle.{IsIdle};
ghost use Rattle.nv_table.specs.state.States.{IsOf, PassState};
ghost use Rattle.nv_calls.specs.calls.EarlyRefusals.{IsInFile};
ghost use Rattle.nv_calls.specs.declared.gather.AddError.TheVariants.{TooManyParts};
ghost use Rattle.nv_calls.specs.reads.Reads.{HaveGot, IsReadDoneAs, got_by};

use crate::read::read_as;
use crate::reading::advance_in;
use crate::{AddError, MOST_PARTS};
use nv_cache::RunningRead;
use nv_mirror::{Done, Refusal};
use nv_op::Asks;
use nv_pmem::Lines;
use nv_store::Backing;
use nv_table::{Board, Pass};
use std::alloc::Global;
use std::marker::Model;

/// What a vectored read fills: at most 16 parts, in order, each to its end before the next. Contracts see how long each part is, the bytes in the room of
/// them all, and what each part got.
#[derive(Drop)]
pub struct Scatter {
    room: Vec<u8>,
    lens: [u64; 16],
    count: usize,
    got: usize,
}

impl Model for Scatter {
    ghost use Rattle.std.specs.Prelude.{◌≡◌, ◌≤◌, length, take};
    ghost use Rattle.std.specs.List.{sum};
    ghost use Rattle.nv_plain.specs.Calls.{filled};
    ghost use Rattle.nv_calls.specs.calls.Scattered.{Scattered};

    ghost Value = { Scattered };

    ghost view = { λ s. record { lens = take s.count s.lens; list = s.room.items; parts = filled (take s.count s.lens) (take s.got s.room.items) } };

    ghost invariant = { λ s. (s.count ≤ 16) × (length s.lens ≡ 16) × (sum (take s.count s.lens) ≡ length s.room.items) × (s.got ≤ length s.room.items) };
}

impl Scatter {
    /// No parts. Takes no memory.
    pub fn new(alloc: Global) -> Self
        ensures { result ≡ record { lens = []; list = []; parts = [] } }
    {
        Scatter {
            room: Vec::new(alloc),
            lens: [0; 16],
            count: 0,
            got: 0,
        }
    }

    /// Adds a part of so many bytes behind the others, which has got none. `TooManyParts` exactly where there are 16, else
    /// `NoMemory` where there isn't enough; after both nothing is changed.
    pub fn add(&mut self, len: u64) -> Result<(), AddError>
        ensures lens { OnOk result (self.new.lens ≡ self.old.lens ++ len ∷ []) }
        ensures list { OnOk result (self.new.list ≡ self.old.list ++ replicate len 0) }
        ensures parts { OnOk result (self.new.parts ≡ self.old.parts ++ [] ∷ []) }
        ensures unchanged { OnErr result (self.new ≡ self.old) }
        ensures full { (result ≡ Err TooManyParts) ↔ (length self.old.lens ≡ 16) }
    {
        if self.count == MOST_PARTS {
            return Err(AddError::TooManyParts);
        }
        let Some(end) = self.room.len().checked_add(len as usize) else {
            return Err(AddError::NoMemory);
        };
        if self.room.resize(end, 0).is_err() {
            return Err(AddError::NoMemory);
        }
        self.lens[self.count] = len;
        self.count += 1;
        Ok(())
    }

    /// How many parts there are. Takes no memory.
    pub fn len(&self) -> usize
        ensures { result ≡ length self.now.lens }
    {
        self.count
    }

    /// How many bytes all parts ask for together: as many as their room has. Takes no memory.
    pub fn total(&self) -> u64
        ensures sum { result ≡ sum self.now.lens }
        ensures room { result ≡ length self.now.list }
    {
        self.room.len() as u64
    }

    /// What part i got. Takes no memory.
    pub fn part(&self, i: usize) -> &[u8]
        requires { i < length self.now.lens }
        ensures { result.now ≡ slice_index_or self.now.parts i [] }
    {
        let from = start(&self.lens[..i], self.room.len());
        let to = from + self.lens[i] as usize;
        &self.room[from.min(self.got)..to.min(self.got)]
    }

    // No part has got any.
    pub(crate) fn empty(&mut self)
        ensures got { HaveGot 0 self.old self.new }
        ensures list { self.new.list ≡ self.old.list }
    {
        self.got = 0;
    }

    // Reads into the room a file whose call is asked as `A` says; the parts get what that read got.
    pub(crate) fn read_as<A: Asks, L: Lines + Drop, B: Backing + Drop>(
        &mut self,
        board: &Board<L, B>,
        pass: &mut Pass<L, B>,
        file: u64,
        at: u64,
    ) -> Result<Done, Refusal>
        requires board { IsOf board.now pass.old }
        requires idle { IsIdle pass.old }
        requires made { plain_call A.call ≡ Read file at (sum self.old.lens) }
        requires here { IsInFile board.now.opened.sizes file at (sum self.old.lens) }
        ensures board { IsOf board.now pass.new }
        ensures got { HaveGot (got_by result) self.old self.new }
        ensures done { IsReadDoneAs A.call self.new.list pass.old pass.new result }
    {
        self.got = 0;
        let result = read_as::<A, L, B>(board, pass, file, at, &mut self.room);
        if let Ok(done) = result {
            self.got = done.len as usize;
        }
        result
    }

    // Makes the next step of a read into the room, with a room for a page; the parts get none.
    pub(crate) fn advance_as<A: Asks, L: Lines, B: Backing>(
        &mut self,
        board: &Board<L, B>,
        pass: &mut Pass<L, B>,
        read: &mut RunningRead,
        page: &mut [u8],
    )
        requires board { IsOf board.now pass.old }
        requires open { IsOpen read.old }
        requires page { length page.old ≡ pass.old.view.opened.sizes.page }
        requires way { (start : PassState) × IsUnderWay (plain_call A.call) read.old self.old.list page.old start pass.old }
        ensures board { IsOf board.now pass.new }
        ensures settled { IsSettled read.new }
        ensures one { HasMadeOne read.old read.new pass.old pass.new }
        ensures falls { read_measure pass.old.view.opened.sizes read.new < read_measure pass.old.view.opened.sizes read.old }
        ensures asks { asked_in A.call read.new pass.new ≡ asked_in A.call read.old pass.old }
        ensures way { (call : FileCall) (start : PassState) → IsUnderWay call read.old self.old.list page.old start pass.old → IsUnderWay call read.new self.new.list page.new start pass.new }
        ensures got { HaveGot 0 self.old self.new }
    {
        self.got = 0;
        advance_in::<A, L, B>(board, pass, read, page, &mut self.room);
    }

    /// The parts get so many bytes of their room, from its front on. Takes no memory.
    pub fn fill(&mut self, got: u64)
        requires { got ≤ length self.old.list }
        ensures got { HaveGot got self.old self.new }
        ensures list { self.new.list ≡ self.old.list }
    {
        self.got = got as usize;
    }
}

// Where the part behind these begins.
fn start(lens: &[u64], most: usize) -> usize
    requires { sum lens.now ≤ most }
    ensures { result ≡ sum lens.now }
{
    let mut all = 0;
    for len in lens {
        all += *len as usize;
    }
    all
}
