//! What the calls of a script mean as a session goes on: the windows that names stand for, and the command or the paint that a
//! line makes.
#![tactic(auto)]

mod calls;
mod laws;
mod making;
mod slots;

pub use calls::{Call, meaning};
pub use laws::{stands_for_latest, stands_for_none};
pub use slots::Slots;
