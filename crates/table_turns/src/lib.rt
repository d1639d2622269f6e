//! What a server turn writes into the published table: the row of a slot, the cursor with its cells, and the stamp.
#![tactic(auto)]

mod cursors;
mod laws;
mod rows;
mod words;

pub use cursors::{write_place, write_shape};
pub use laws::tables_are_written;
pub use rows::write_row;
pub use words::write_stamp;
