//! Which image a power failure leaves.
ghost use Rattle.std.specs.Prelude.{◌≡◌};

use rand_core::SeedableRng;
use rand_core::utils::NextWord;
use rand_xoshiro::SplitMix64;
use std::marker::Model;

/// Which of the images that a power failure may leave is taken.
#[derive(Clone, Copy, Debug, PartialEq, Eq)]
pub enum Pick {
    /// The value last made durable of each word of a line, and the content last made durable of stores.
    Old,
    /// The newest value of each word of a line, and the newest content of stores.
    New,
    /// The oldest value of each word of a line; of stores the newest length, with the byte a5 wherever a byte isn't certain.
    Torn,
    /// The oldest value of the words 0, 2, 4 and 6 of each line, and the newest of 1, 3, 5 and 7; stores as `Torn`.
    Mixed,
    /// One by draws from SplitMix64, which begins in this state.
    Seed(u64),
}

/// A pick, and the generator that draws for it: one stream of words for all the devices that are powered off together.
#[derive(Drop)]
pub struct Picker {
    pick: Pick,
    words: SplitMix64,
}

impl Model for Picker {
    ghost use Rattle.nv_pmem.specs.Draws.{Draws};

    ghost Value = { Draws };

    ghost view = { λ picker. record { pick = picker.pick; state = picker.words } };
}

impl Picker {
    ghost use Rattle.nv_pmem.specs.Draws.{draws_of, next_word, after_draw};

    /// The picker of a pick, before its first draw.
    pub fn new(pick: Pick) -> Self
        ensures { result ≡ draws_of pick }
    {
        let state = match pick {
            Pick::Seed(state) => state,
            Pick::Old | Pick::New | Pick::Torn | Pick::Mixed => 0,
        };
        Picker {
            pick,
            words: SplitMix64::seed_from_u64(state),
        }
    }

    /// Which images it takes.
    pub fn pick(&self) -> Pick
        ensures { result ≡ self.now.pick }
    {
        self.pick
    }

    /// Draws the next word.
    pub fn draw(&mut self) -> u64
        ensures word { result ≡ next_word self.old }
        ensures after { self.new ≡ after_draw self.old }
    {
        self.words.next_word()
    }
}
