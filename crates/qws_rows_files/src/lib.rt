//! Worked rows of frames, histories and files, as tests.
#![tactic(auto)]

#[cfg(test)]
mod command_rows;
#[cfg(test)]
mod file_rows;
#[cfg(test)]
mod merge_rows;
#[cfg(test)]
mod refusal_rows;
#[cfg(test)]
mod reply_rows;
#[cfg(test)]
mod samples;
