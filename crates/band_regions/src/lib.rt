//! Sets of pixels as canonical lists of rectangles, and the operations on them.
#![tactic(auto)]

mod around;
mod bands;
mod laws;
mod operations;
mod regions;
mod rows;
mod runs;
mod sweeps;

pub use laws::{count_of_corners, one_list_for_a_set, unique_list};
pub use regions::{Region, are_in_range};
