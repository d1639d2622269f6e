//! A planned step on a canvas: it is shown by the regions that it changes, and no other pixel is looked at.
#![tactic(auto)]

mod patches;
mod pixels;
mod steps;

pub use steps::show_step;
