//! Which pixels of the screen a planned step bares, and which a move carries.
#![tactic(auto)]

mod losses;
mod moves;
mod windows;

pub use losses::bared;
pub use moves::{CarriedPixels, carried_by, distance};
pub use windows::{origin_of, owner_of};
