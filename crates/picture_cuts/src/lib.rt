//! The part of a rectangle on the screen that a picture reaches, so that a painter asks for no row and no column without ink.
#![tactic(auto)]

mod cuts;
mod laws;

pub use cuts::cut;
pub use laws::cuts_have_the_ink;
