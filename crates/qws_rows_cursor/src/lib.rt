//! Worked rows of paints under a cursor and after changed tables, as tests beside the plain picture.
#![tactic(auto)]

#[cfg(test)]
mod busy_rows;
#[cfg(test)]
mod cursor_rows;
#[cfg(test)]
mod moving;
#[cfg(test)]
mod paint_rows;
#[cfg(test)]
mod plain;
#[cfg(test)]
mod refresh_rows;
#[cfg(test)]
mod stages;
#[cfg(test)]
mod table_rows;
#[cfg(test)]
mod thread_rows;
