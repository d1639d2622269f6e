//! Lines and polylines as pictures.
#![tactic(auto)]

mod columns;
mod laws;
mod lines;
mod polylines;

pub use laws::{line_ends, line_within, polyline_within};
pub use lines::Line;
pub use picture_rows::PointStop;
pub use polylines::Polyline;
