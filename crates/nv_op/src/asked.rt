//! What a call asks for.
ghost use Rattle.std.specs.Prelude.{◌≡◌};
ghost use Rattle.nv_core.specs.state.Passes.{at_of, file_of, len_of};
ghost use Rattle.nv_op.specs.Ops.{asked_with, call_asked};

/// A call, as its first step begins it. Only contracts speak of it.
#[derive(Clone, Copy, Debug, PartialEq, Eq)]
pub enum Asked<'a> {
    Read { file: u64, at: u64, len: u64 },
    Write { file: u64, at: u64, bytes: &'a [u8] },
    Sync { file: u64 },
}

impl Asked<'_> {
    /// Its file.
    #[inline(always)]
    pub fn file(self) -> u64
        ensures { result ≡ file_of (call_asked self.entry) }
    {
        match self {
            Asked::Read { file, .. } | Asked::Write { file, .. } | Asked::Sync { file } => file,
        }
    }

    /// Its offset in bytes; 0 for a sync.
    #[inline(always)]
    pub fn at(self) -> u64
        ensures { result ≡ at_of (call_asked self.entry) }
    {
        match self {
            Asked::Read { at, .. } | Asked::Write { at, .. } => at,
            Asked::Sync { .. } => 0,
        }
    }

    /// How many bytes it asks for; 0 for a sync.
    #[inline(always)]
    pub fn size(self) -> u64
        ensures { result ≡ len_of (call_asked self.entry) }
    {
        match self {
            Asked::Read { len, .. } => len,
            Asked::Write { bytes, .. } => bytes.len() as u64,
            Asked::Sync { .. } => 0,
        }
    }

    /// The same, with this list where it is a write.
    pub fn with_list<'b>(self, list: &'b [u8]) -> Asked<'b>
        ensures { result ≡ asked_with list.entry self.entry }
    {
        match self {
            Asked::Read { file, at, len } => Asked::Read { file, at, len },
            Asked::Write { file, at, .. } => Asked::Write {
                file,
                at,
                bytes: list,
            },
            Asked::Sync { file } => Asked::Sync { file },
        }
    }
}
