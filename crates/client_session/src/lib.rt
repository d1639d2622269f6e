//! One client's run of a script, over the shared words and the shared desk.
#![tactic(auto)]

mod clips;
mod paints;
mod runs;
mod spaces;
mod steps;

pub use runs::{Done, run_client};
