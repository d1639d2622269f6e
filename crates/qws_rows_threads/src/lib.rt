//! Worked rows over the shared words, as tests.
#![tactic(auto)]

#[cfg(test)]
mod thread_rows;
#[cfg(test)]
mod tokens;
#[cfg(test)]
mod turn_rows;
#[cfg(test)]
mod word_rows;
