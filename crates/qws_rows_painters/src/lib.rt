//! Server turns that publish a table which they have checked, for tests.
#![tactic(auto)]

pub mod checks;
pub mod turns;
