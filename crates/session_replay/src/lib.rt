//! A session replayed on one thread over the plain picture: the file of its calls in the order of their lines, and whether a
//! file is that of a history of its calls.
#![tactic(auto)]

mod answers;
mod callers;
mod checks;
mod laws;
mod orders;
mod paints;
mod replays;
mod steps;
mod verdicts;

pub use checks::check;
pub use laws::{file_names_run, holds_for_runs, one_run_in_order, one_verdict, runs_are_named};
pub use orders::in_order;
pub use verdicts::Verdict;
