//! Clips: a painter's copies of published rows, fetched anew only where their revision has changed.
#![tactic(auto)]

mod clips;
mod laws;

pub use clips::{Clip, Look};
pub use laws::kept_clips_are_fresh;
