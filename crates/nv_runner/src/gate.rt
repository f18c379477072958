//! Where a test may hold a thread.

/// A moment of a thread's call.
#[derive(Clone, Copy, Debug, PartialEq, Eq)]
pub enum Point {
    /// Before the call is first tried.
    Before,
    /// After it is answered.
    Answered,
    /// After a cleaner has retired some entries.
    Cleaned,
}

/// What the threads of a run pass at each moment of a call. In tests it may hold one.
pub trait Gate {
    fn at(&self, thread: u64, call: u64, point: Point);
}

/// A gate that holds nobody.
#[derive(Clone, Copy, Debug)]
pub struct OpenGate;

impl Gate for OpenGate {
    fn at(&self, _thread: u64, _call: u64, _point: Point) {}
}
