//! Rows of clients that share a desk, as tests: refusals, and three clients on three threads.
#![tactic(auto)]

#[cfg(test)]
mod refusal_rows;
#[cfg(test)]
mod replays;
#[cfg(test)]
mod sessions;
#[cfg(test)]
mod shared_rows;
#[cfg(test)]
mod stops;
#[cfg(test)]
mod workers;
