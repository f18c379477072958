//! The parts of a vectored call, and their lengths.
ghost use Rattle.std.specs.Prelude.{◌≡◌, ◌==◌, length};

use crate::Bytes;
use std::marker::Model;

/// Parts in order: those that a vectored write joins, or those that a vectored read gives. Contracts see them
/// as a list of lists.
#[derive(Debug, Drop)]
pub struct Parts {
    parts: Vec<Bytes>,
}

impl Model for Parts {
    ghost use Rattle.std.specs.Prelude.{ℕ, List};

    ghost Value = { List (List ℕ) };

    ghost view = { λ p. p.parts.items };
}

impl Parts {
    /// The parts of a vector. Takes no memory.
    pub fn from_vec(parts: Vec<Bytes>) -> Self
        ensures { result ≡ parts.items }
    {
        Parts { parts }
    }

    /// The vector of the parts. Takes no memory.
    pub fn into_vec(self) -> Vec<Bytes>
        ensures { result.items ≡ self }
    {
        self.parts
    }

    /// The parts, to look at.
    pub fn as_slice(&self) -> &[Bytes]
        ensures { result.now ≡ self.now }
    {
        &self.parts
    }

    /// How many parts there are.
    pub fn len(&self) -> usize
        ensures { result ≡ length self.now }
    {
        self.parts.len()
    }

    /// Whether there are no parts.
    pub fn is_empty(&self) -> bool
        ensures { result ≡ (length self.now == 0) }
    {
        self.parts.is_empty()
    }
}

/// How many bytes each part of a vectored read asks for, in order. Contracts see them as a list.
#[derive(Debug, Drop)]
pub struct Lens {
    lens: Vec<u64>,
}

impl Model for Lens {
    ghost use Rattle.std.specs.Prelude.{ℕ, List};

    ghost Value = { List ℕ };

    ghost view = { λ l. l.lens.items };
}

impl Lens {
    /// The lengths of a vector. Takes no memory.
    pub fn from_vec(lens: Vec<u64>) -> Self
        ensures { result ≡ lens.items }
    {
        Lens { lens }
    }

    /// The vector of the lengths. Takes no memory.
    pub fn into_vec(self) -> Vec<u64>
        ensures { result.items ≡ self }
    {
        self.lens
    }

    /// The lengths, to look at.
    pub fn as_slice(&self) -> &[u64]
        ensures { result.now ≡ self.now }
    {
        &self.lens
    }

    /// How many lengths there are.
    pub fn len(&self) -> usize
        ensures { result ≡ length self.now }
    {
        self.lens.len()
    }

    /// Whether there are no lengths.
    pub fn is_empty(&self) -> bool
        ensures { result ≡ (length self.now == 0) }
    {
        self.lens.is_empty()
    }
}
