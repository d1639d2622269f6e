//! A whole session on threads: the clients of a script over one screen and one shared desk, then the close and the file.
#![tactic(auto)]

mod clients;
mod sessions;

pub use sessions::run_session;
