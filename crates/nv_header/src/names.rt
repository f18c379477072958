//! The names of a region's files.
ghost use Rattle.std.specs.Prelude.{◌≡◌, ◌==◌, [], ◌∷◌, ◌++◌, length, nat_eq, slice_get, OnErr, OnOk};
ghost use Rattle.std.specs.List.{list_any};
ghost use Rattle.std.specs.Option.{option_copied};
ghost use lib.Pointwise.{pointwise};

use nv_plain::{Bytes, NoMemory};
use std::alloc::Global;
use std::marker::Model;

/// The names of a region's files, in their order. Contracts see them as a list.
#[derive(Debug, Drop)]
pub struct Names {
    names: Vec<Bytes>,
}

impl Model for Names {
    ghost use Rattle.std.specs.Prelude.{ℕ, List};

    ghost Value = { List (List ℕ) };

    ghost view = { λ n. n.names.items };
}

impl Names {
    /// No names. Takes no memory.
    pub fn new(alloc: Global) -> Self
        ensures { result ≡ [] }
    {
        Names {
            names: Vec::new(alloc),
        }
    }

    /// The names of a vector. Takes no memory.
    pub fn from_vec(names: Vec<Bytes>) -> Self
        ensures { result ≡ names.items }
    {
        Names { names }
    }

    /// The vector of the names. Takes no memory.
    pub fn into_vec(self) -> Vec<Bytes>
        ensures { result.items ≡ self }
    {
        self.names
    }

    /// How many names there are.
    pub fn len(&self) -> usize
        ensures { result ≡ length self.now }
    {
        self.names.len()
    }

    /// Whether there are no names.
    pub fn is_empty(&self) -> bool
        ensures { result ≡ (length self.now == 0) }
    {
        self.names.is_empty()
    }

    /// The names, to look at.
    pub fn as_slice(&self) -> &[Bytes]
        ensures { result.now ≡ self.now }
    {
        &self.names
    }

    /// Name i.
    pub fn get(&self, i: usize) -> Option<&Bytes>
        ensures { option_copied result ≡ slice_get self.now i }
    {
        self.names.get(i)
    }

    /// Whether this is one of the names.
    pub fn contains(&self, name: &[u8]) -> bool
        ensures { result ≡ list_any (λ known. pointwise nat_eq known name.now) self.now }
    {
        self.names.iter().any(|known| known.as_slice() == name)
    }

    /// Puts a name behind the others.
    pub fn push(&mut self, name: Bytes) -> Result<(), NoMemory>
        ensures ok { OnOk result (self.new ≡ self.old ++ name ∷ []) }
        ensures no_memory { OnErr result (self.new ≡ self.old) }
    {
        self.names.push(name)?;
        Ok(())
    }
}
