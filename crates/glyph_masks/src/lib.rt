//! Fonts of bit glyphs, and texts as pictures.
#![tactic(auto)]

mod fonts;
mod rows;
mod texts;

pub use fonts::{Font, GlyphStop};
pub use texts::{RunStop, TextRun, bits_within, no_shared_points};
