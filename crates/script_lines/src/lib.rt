//! The lines of fonts, glyphs, images and calls: what the words of a line make behind the lines before it, and the first cause
//! why they make none.
#![tactic(auto)]

mod additions;
mod assets;
mod calls;
mod commands;
mod counts;
mod fonts;
mod glyphs;
mod heads;
mod images;
mod laws;
mod lines;
mod paints;

pub use assets::next_asset;
pub use calls::call_line;
pub use counts::Counts;
pub use heads::{clients, depth, screen};
pub use laws::{adds_to_stock, refuses_line};
pub use lines::next_call;
use qws_base::OutOfMemory;
use script_grammar::Cause;

// What judged words make, or their first cause; or no memory was there.
type Judged<T> = Result<Result<T, Cause>, OutOfMemory>;
