//! The desk: clients' commands on a shared screen, one after the other, and the close of a session.
#![tactic(auto)]

mod answers;
mod calls;
mod closing;
mod desks;
mod frames;
mod kept;
mod laws;
mod pictures;
mod seating;
mod sessions;
mod turns;

pub use answers::{Answer, CallStop, CloseStop, ConnectStop, FrameCallStop, Grab};
pub use desks::Desk;
pub use laws::own_windows_are_served;
pub use sessions::Closed;
