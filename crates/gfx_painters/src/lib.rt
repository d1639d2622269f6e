//! Everything that can be painted, as one type: a paint is a picture of one of seven kinds.
#![tactic(auto)]

mod paints;
mod plain;

pub use paints::Paint;
pub use plain::{is_on_canvas, paint_plain};
