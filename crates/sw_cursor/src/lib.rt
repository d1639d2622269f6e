//! The software cursor over the shared words: shapes, and painting under the cursor.
#![tactic(auto)]

mod cells;
mod covers;
mod drops;
mod lifts;
mod paints;
mod shapes;

pub use cells::cell_on;
pub use covers::Cover;
pub use drops::drop_at;
pub use lifts::lift;
pub use paints::{put_clear, put_covered, put_under};
pub use shapes::{Shape, ShapeStop};
