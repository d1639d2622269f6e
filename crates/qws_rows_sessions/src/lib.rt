//! Worked rows of sessions on threads, as tests.
#![tactic(auto)]

#[cfg(test)]
mod client_rows;
#[cfg(test)]
mod session_rows;
