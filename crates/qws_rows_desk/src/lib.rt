//! Worked rows over one desk, its passes and a painter, as tests.
#![tactic(auto)]

#[cfg(test)]
mod desk_rows;
#[cfg(test)]
mod gate_rows;
#[cfg(test)]
mod shown_rows;
#[cfg(test)]
mod stages;
