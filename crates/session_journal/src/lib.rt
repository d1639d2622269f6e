//! The history of a session, the merge of a journal with the clients' books, and the file of a session.
#![tactic(auto)]

mod files;
mod histories;
mod merging;
mod naming;
mod places;
mod reading;
mod texts;
mod writing;

pub use files::{File, FileStop, Lines};
pub use histories::{Entry, History};
pub use merging::merge;
pub use naming::{client_named, comments_name_clients};
pub use reading::read_file;
pub use writing::{push_paint_comment, push_picture, push_step_comment, write_file};
