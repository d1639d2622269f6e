//! What a server turn publishes of a planned step.
#![tactic(auto)]

mod cursors;
mod laws;
mod rows;
mod scenes;

pub use cursors::write_cursor;
pub use laws::{redrawn_steps_are_carried, steps_ask_for_regions};
pub use rows::write_rows;
pub use scenes::redraw;
