//! Which pixels of the screen belong to which window.
#![tactic(auto)]

mod allocations;
mod laws;
mod sharing;

pub use allocations::{Allocation, allocate, reallocate};
pub use laws::{
    allocation_of_windows, allocation_stays, one_allocation, others_keep_their_pixels,
    pixels_are_shared_out,
};
