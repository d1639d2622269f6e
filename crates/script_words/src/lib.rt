//! The words of a script line: what each is spelled as, and why it is bad.
#![tactic(auto)]

mod causes;
mod groups;
mod hex;
mod inks;
mod lists;
mod numbers;
mod texts;

pub use causes::{join, join3, join4, push};
pub use groups::{placed_point, placed_rect, screen_size, signed_point, signed_rect};
pub use hex::{cells, colour, is_row_text, pixels, row, sent_bytes};
pub use inks::{ink, ink_words, is};
pub use lists::{points, rects, rows, shorts};
pub use numbers::{declared, number, ranged, short};
pub use texts::{channel, name, window};
