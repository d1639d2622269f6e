//! The display lock: turns of painters and of the server over the shared words.
#![tactic(auto)]

mod turns;

pub use turns::{Busy, PaintTurn, ServerTurn, try_paint_turn, try_server_turn, withdraw};
