//! The states that a device in memory has had, for clauses alone.
ghost use Rattle.std.specs.Prelude.{◌≡◌, List, [], ◌∷◌};
ghost use Rattle.std.specs.Borrow.{ftrue};

use std::marker::{Model, PhantomData};

/// What a device in memory has been, the latest first. It takes no bytes: only clauses read it.
#[derive(Drop)]
pub struct Past<T> {
    marker: PhantomData<T>,
    pub ghost states: { List T },
}

impl<T> Model for Past<T> {
    ghost also_owns = { λ _. ftrue };
}

// It owns nothing.
unsafe impl<T: Send> Send for Past<T> {}

impl<T> Past<T> {
    /// The past of a new device.
    pub fn new() -> Self
        ensures { result.states ≡ [] }
    {
        Past {
            marker: PhantomData,
        }
    }

    /// Notes what the device is now.
    pub fn note(&mut self, _now: &T)
        ensures { self.new.states ≡ _now.now ∷ self.old.states }
    {}
}
