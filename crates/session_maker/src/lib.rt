//! Session scripts made from a number, for large input.
#![tactic(auto)]

mod draws;
mod kinds;
mod laws;
mod scripts;
mod texts;
mod words;

pub use laws::{makes_calls, makes_sessions};
pub use scripts::make_script;
