//! The numbers of the leaders of some groups.
ghost use Rattle.std.specs.Prelude.{◌≡◌};

use std::marker::Model;

/// The numbers of the leaders of some groups. Contracts see them as a list.
#[derive(Debug, Drop)]
pub struct Leaders {
    numbers: Vec<u64>,
}

impl Model for Leaders {
    ghost use Rattle.std.specs.Prelude.{ℕ, List};

    ghost Value = { List ℕ };

    ghost view = { λ l. l.numbers.items };
}

impl Leaders {
    /// The numbers of a vector. Takes no memory.
    pub fn from_vec(numbers: Vec<u64>) -> Self
        ensures { result ≡ numbers.items }
    {
        Leaders { numbers }
    }

    /// The vector of the numbers. Takes no memory.
    pub fn into_vec(self) -> Vec<u64>
        ensures { result.items ≡ self }
    {
        self.numbers
    }

    /// The numbers, to look at.
    pub fn as_slice(&self) -> &[u64]
        ensures { result.now ≡ self.now }
    {
        &self.numbers
    }
}
