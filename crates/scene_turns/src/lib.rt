//! What a server turn does to the framebuffer: it carries the pixels of a region to another place, and fills regions.
#![tactic(auto)]

mod laws;
mod regions;
mod stretches;
mod works;

pub use laws::scenes_are_changed;
pub use regions::{carry, fill};
