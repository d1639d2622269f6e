//! The windows of a state, with what they ask for and which pixels belong to which slot, and what a change of them brings.
#![tactic(auto)]

mod arrangements;
mod checks;
mod requests;
mod windows;

pub use arrangements::{Arrangement, Created};
pub use checks::{bad_place, changed_slots, modified_slots, off_range, risen, too_complex};
pub use windows::window_of;
