//! The kinds of step.

/// The kind of a step, as schedules name it.
#[derive(Clone, Copy, Debug, PartialEq, Eq)]
pub enum Kind {
    /// A word is read.
    Load,
    /// A lock is tried.
    Take,
    /// A lock is given back.
    Give,
    /// The call takes its place in the history.
    Place,
    /// STOP is set after a device fault.
    Stop,
    /// Numbers of the log are drawn.
    Draw,
    /// An entry is seized.
    Seize,
    /// A page's DIRTY rises.
    Pledge,
    /// An entry is made ready.
    Ready,
    /// LENGTH grows.
    Grow,
    /// An entry is broken.
    Break,
    /// An entry is held.
    Hold,
    /// An entry is returned.
    Return,
    /// A page's DIRTY falls.
    Subtract,
    /// An entry is freed.
    Free,
    /// TAIL moves.
    Tail,
    /// The hand of the cache turns.
    Hand,
    /// A buffer's HINT is set.
    Hint,
}
