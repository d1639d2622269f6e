//! The state of the server: a command is planned first, with all memory that it needs, and committed then.
#![tactic(auto)]

mod changes;
mod cores;
mod cursor_plans;
mod held;
mod mail_plans;
mod plans;
mod window_plans;

pub use cores::Core;
pub use plans::Plan;
