//! The painter over the shared words.
#![tactic(auto)]

mod laws;
mod painters;
mod rows;

pub use laws::paints_are_carried_whole;
pub use painters::{PaintStop, Painted, try_paint};
