//! Worked rows of sessions replayed, as tests.
#![tactic(auto)]

#[cfg(test)]
mod check_rows;
#[cfg(test)]
mod long_rows;
#[cfg(test)]
mod replay_rows;
