//! What the program makes of scripts whose clients run in threads: `run` and `trial`.
#![tactic(auto)]

mod runs;
mod trials;

pub use runs::{Ran, run_output};
pub use trials::trial_output;
