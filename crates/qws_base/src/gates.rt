//! Gates: places where a test may hold a client for a while.

/// Where a client comes by.
#[derive(Clone, Copy, Debug, PartialEq, Eq)]
pub enum Place {
    /// In a paint turn, before its first pixel.
    InTurn,
    /// After a call.
    AfterTurn,
}

/// What a client calls as it comes by. It returns, and promises nothing else.
pub trait Gate {
    /// The client of that number comes by that place.
    fn at(&self, client: u32, place: Place);
}

/// A gate that does nothing.
#[derive(Clone, Copy, Debug, PartialEq, Eq)]
pub struct NoGate;

impl Gate for NoGate {
    fn at(&self, _client: u32, _place: Place) {}
}
