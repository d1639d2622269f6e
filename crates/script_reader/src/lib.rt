//! What a script says, read from its bytes in one pass, or the first bad line and its first cause; what is kept of it beside its
//! bytes, which is what its head says and where the line of each call begins; and where bytes are cut into lines and words.
#![tactic(auto)]

mod bodies;
mod cuts;
mod heads;
mod laws;
mod openings;
mod places;
mod readings;
mod words;

pub use bodies::Body;
pub use cuts::{cut_at, split};
pub use heads::Head;
pub use laws::{many_words, splits_behind_script};
pub use places::{LinePlace, Starts, client_starts, paint_places, step_places};
pub use readings::found;
