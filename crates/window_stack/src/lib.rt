//! The stack of windows: which stands before which.
#![tactic(auto)]

mod laws;
mod places;
mod stacked;
mod stacks;
mod stops;

pub use laws::{stack_of_windows, stacks_of_arranged_windows};
pub use stacks::Stack;
pub use stops::StackStop;
