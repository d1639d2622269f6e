//! The plain picture: the slow runnable form of the pixel model. It looks at each pixel alone.
#![tactic(auto)]

mod canvas;
mod owners;
mod paints;
mod shows;
mod steps;

pub use canvas::Canvas;
pub use owners::{are_placed, owner_of};
