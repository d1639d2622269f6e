//! Worked rows of scripts, as tests.
#![tactic(auto)]

#[cfg(test)]
mod bad_rows;
#[cfg(test)]
mod call_rows;
#[cfg(test)]
mod end_rows;
#[cfg(test)]
mod form_rows;
#[cfg(test)]
mod kind_rows;
#[cfg(test)]
mod meaning_rows;
#[cfg(test)]
mod name_rows;
#[cfg(test)]
mod session_rows;
#[cfg(test)]
mod split_rows;
