//! What the word of an entry says.
ghost use Rattle.std.specs.Prelude.{◌≡◌, ◌<◌, ◌≤◌, ◌^◌, ◌==◌};
ghost use Rattle.nv_core.specs.state.Words.{entry_word, kind_of, page_of, ready};
ghost use Rattle.nv_core.specs.steps.CleanerSteps.{count_of};

const READY: u64 = 2;

/// The word of an entry: its kind, how many entries its group has where it is the leader's, and the page of its
/// piece among all. Here alone it is made and taken apart.
#[derive(Clone, Copy, Debug, PartialEq, Eq)]
pub struct EntryWord {
    pub word: u64,
}

impl EntryWord {
    /// That of an entry that is ready: of a leader with the count of its group, of a follower with 0.
    pub fn ready(count: u64, page: u64) -> Self
        requires few { count < 128 }
        requires low { page ≤ 2 ^ 50 }
        ensures word { result.word ≡ entry_word ready count page }
        ensures kind { kind_of result.word ≡ ready }
        ensures count { count_of result.word ≡ count }
        ensures page { page_of result.word ≡ page }
    {
        EntryWord {
            word: READY + 8 * count + 1024 * page,
        }
    }

    /// Whether its entry is ready.
    pub fn is_ready(self) -> bool
        ensures { result ≡ (kind_of self.word == ready) }
    {
        self.word % 8 == READY
    }

    /// How many entries its group has, where it is the leader's.
    pub fn count(self) -> u64
        ensures { result ≡ count_of self.word }
    {
        self.word / 8 % 128
    }

    /// The page of its piece among all.
    pub fn page(self) -> u64
        ensures { result ≡ page_of self.word }
    {
        self.word / 1024
    }
}
