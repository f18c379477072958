//! The parts of a vectored write.
ghost use Rattle.std.specs.Prelude.{◌≡◌, ◌↔◌, [], ◌∷◌, ◌++◌, length, Err, OnOk, OnErr};
ghost use Rattle.std.specs.List.{concat};
ghost use Rattle.nv_calls.specs.declared.gather.AddError.TheVariants.{TooManyParts};

use std::alloc::Global;
use std::marker::Model;
use thiserror::Error;

/// Most parts of a vectored call.
pub const MOST_PARTS: usize = 16;

/// Why a part wasn't added.
#[derive(Clone, Copy, Debug, PartialEq, Eq, Error)]
pub enum AddError {
    /// There are 16 parts.
    #[error("too many parts")]
    TooManyParts,
    /// There was not enough memory.
    #[error("no memory")]
    NoMemory,
}

/// What a vectored write writes: at most 16 parts, joined in order. Contracts see the list of the parts.
#[derive(Drop)]
pub struct Gather {
    bytes: Vec<u8>,
    lens: [u64; 16],
    count: usize,
}

impl Model for Gather {
    ghost use Rattle.std.specs.Prelude.{◌≡◌, ◌≤◌, ℕ, List, length, take};
    ghost use Rattle.std.specs.List.{sum};
    ghost use Rattle.nv_plain.specs.Calls.{filled};

    ghost Value = { List (List ℕ) };

    ghost view = { λ g. filled (take g.count g.lens) g.bytes.items };

    ghost invariant = { λ g. (g.count ≤ 16) × (length g.lens ≡ 16) × (sum (take g.count g.lens) ≡ length g.bytes.items) };
}

impl Gather {
    /// No parts. Takes no memory.
    pub fn new(alloc: Global) -> Self
        ensures { result ≡ [] }
    {
        Gather {
            bytes: Vec::new(alloc),
            lens: [0; 16],
            count: 0,
        }
    }

    /// Adds a part behind the others, a copy of these bytes. `TooManyParts` exactly where there are 16, else
    /// `NoMemory` where there isn't enough; after both nothing is changed.
    pub fn add(&mut self, bytes: &[u8]) -> Result<(), AddError>
        ensures added { OnOk result (self.new ≡ self.old ++ bytes.now ∷ []) }
        ensures unchanged { OnErr result (self.new ≡ self.old) }
        ensures full { (result ≡ Err TooManyParts) ↔ (length self.old ≡ 16) }
    {
        if self.count == MOST_PARTS {
            return Err(AddError::TooManyParts);
        }
        if self.bytes.extend_from_slice(bytes).is_err() {
            return Err(AddError::NoMemory);
        }
        self.lens[self.count] = bytes.len() as u64;
        self.count += 1;
        Ok(())
    }

    /// How many parts there are. Takes no memory.
    pub fn len(&self) -> usize
        ensures { result ≡ length self.now }
    {
        self.count
    }

    /// How many bytes all parts have together. Takes no memory.
    pub fn total(&self) -> u64
        ensures { result ≡ length (concat self.now) }
    {
        self.joined().len() as u64
    }

    /// The bytes of all parts, joined in order. Takes no memory.
    pub fn joined(&self) -> &[u8]
        ensures { result.now ≡ concat self.now }
    {
        &self.bytes
    }
}
