//! Polygons as pictures.
#![tactic(auto)]

mod crossings;
mod laws;
mod polygons;

pub use laws::{inside_within, two_triangles};
pub use picture_rows::PointStop;
pub use polygons::Polygon;
