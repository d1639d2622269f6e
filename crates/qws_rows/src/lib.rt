//! Worked rows of the libraries, as tests.
#![tactic(auto)]

#[cfg(test)]
mod base_rows;
#[cfg(test)]
mod canvas_rows;
#[cfg(test)]
mod channel_rows;
#[cfg(test)]
mod paint_rows;
#[cfg(test)]
mod region_rows;
#[cfg(test)]
mod shape_rows;
#[cfg(test)]
mod table_rows;
