//! Filled rectangles as pictures.
#![tactic(auto)]

mod blits;
mod fills;
mod images;
mod tiles;

pub use blits::Blit;
pub use fills::Fill;
pub use images::{Image, ImageStop};
pub use tiles::Tile;
