//! The server's turn of a planned step: what it changes on the framebuffer and in the published table.
#![tactic(auto)]

mod changed;
mod covers;
mod laws;
mod publishing;

pub use changed::Changes;
pub use laws::words_publish_states;
pub use publishing::publish;
