//! What the kinds of pictures share: which places of a row lie in a rectangle, inks laid on them, the rectangles between
//! points, and lists of points.
#![tactic(auto)]

mod inking;
mod parts;
mod point_lists;
mod reaches;

pub use inking::{clear, fill_run, lay, skip_around};
pub use parts::{part, places_after, span};
pub use point_lists::{PointList, PointStop};
pub use reaches::{closed_reach, half_open_reach};
