//! The parts of the vectored calls of a trace.
ghost use Rattle.std.specs.Prelude.{◌≡◌, IfOk, length};
ghost use Rattle.nv_trace.specs.Grammar.{IsPartCount};

use nv_plain::{Bytes, NoMemory};
use std::alloc::Global;
use std::marker::Model;

/// The bytes of each part of a vectored write, in order: 1 to 16 parts. Contracts see them as a list of lists.
#[derive(Debug, Drop)]
pub struct PartList {
    parts: Vec<Bytes>,
}

impl Model for PartList {
    ghost use Rattle.std.specs.Prelude.{ℕ, List, length};
    ghost use Rattle.nv_trace.specs.Grammar.{IsPartCount};

    ghost Value = { List (List ℕ) };

    ghost view = { λ p. p.parts.items };

    ghost invariant = { λ p. IsPartCount (length p.parts.items) };
}

impl PartList {
    /// The parts of a vector. Takes no memory.
    pub fn from_vec(parts: Vec<Bytes>) -> Self
        requires { IsPartCount (length parts.items) }
        ensures { result ≡ parts.items }
    {
        PartList { parts }
    }

    /// The parts, to look at.
    pub fn as_slice(&self) -> &[Bytes]
        ensures parts { result.now ≡ self.now }
        ensures count { IsPartCount (length result.now) }
    {
        &self.parts
    }

    /// The same parts once more.
    pub(crate) fn copy(&self, alloc: Global) -> Result<PartList, NoMemory>
        ensures { IfOk result (λ copy. copy ≡ self.now) }
    {
        let parts = copied_parts(alloc, self.as_slice())?;
        Ok(PartList::from_vec(parts))
    }
}

/// How many bytes each part of a vectored read asks for, in order: 1 to 16 parts. Contracts see them as a list.
#[derive(Debug, Drop)]
pub struct LenList {
    lens: Vec<u64>,
}

impl Model for LenList {
    ghost use Rattle.std.specs.Prelude.{ℕ, List, length};
    ghost use Rattle.nv_trace.specs.Grammar.{IsPartCount};

    ghost Value = { List ℕ };

    ghost view = { λ l. l.lens.items };

    ghost invariant = { λ l. IsPartCount (length l.lens.items) };
}

impl LenList {
    /// The lengths of a vector. Takes no memory.
    pub fn from_vec(lens: Vec<u64>) -> Self
        requires { IsPartCount (length lens.items) }
        ensures { result ≡ lens.items }
    {
        LenList { lens }
    }

    /// The lengths, to look at.
    pub fn as_slice(&self) -> &[u64]
        ensures lens { result.now ≡ self.now }
        ensures count { IsPartCount (length result.now) }
    {
        &self.lens
    }

    /// The same lengths once more.
    pub(crate) fn copy(&self, alloc: Global) -> Result<LenList, NoMemory>
        ensures { IfOk result (λ copy. copy ≡ self.now) }
    {
        Ok(LenList::from_vec(Vec::from_slice(alloc, self.as_slice())?))
    }
}

fn copied_parts(alloc: Global, parts: &[Bytes]) -> Result<Vec<Bytes>, NoMemory>
    ensures { IfOk result (λ copy. copy.items ≡ parts.now) }
{
    let mut copy = Vec::new(alloc);
    for part in parts {
        copy.push(copied(alloc, part)?)?;
    }
    Ok(copy)
}

/// The same bytes once more.
pub(crate) fn copied(alloc: Global, bytes: &Bytes) -> Result<Bytes, NoMemory>
    ensures { IfOk result (λ copy. copy ≡ bytes.now) }
{
    Ok(Bytes::from_vec(Vec::from_slice(alloc, bytes.as_slice())?))
}
