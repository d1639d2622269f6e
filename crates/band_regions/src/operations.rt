//! The operations on two sets.

/// What is kept of two sets.
#[derive(Clone, Copy)]
pub enum Operation {
    Unite,
    Meet,
    Minus,
}
