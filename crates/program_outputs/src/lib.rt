//! What the program writes: the texts of its statuses, and what the forms that wait for nobody make of what they read.
#![tactic(auto)]

mod checks;
mod loads;
mod outputs;
mod texts;

pub use checks::check_output;
pub use loads::make_output;
pub use outputs::Output;
pub use texts::{bad_line, tried};
