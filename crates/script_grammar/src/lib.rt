//! The grammar of session scripts: what a script says, how it is printed, how bytes are read and why they are bad, and the laws
//! that join these.
#![tactic(auto)]

mod laws;
mod lines;

pub use laws::{
    first_bad, keeps_limits, keeps_stock, no_front, nothing_behind, printed_once, reads_as_printed,
    told_by_shape,
};
pub use lines::{CallLine, Cause, LineCall, Points, ScriptStop, Window};
