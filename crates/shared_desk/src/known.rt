//! What the desk's table is told, and what a caller's seat knows.

use server_desk::Desk;
use std::collections::LinkedList;
use std::snapshot::Snapshot;

/// The desk as it was when it was shared, and how many callers were made.
#[derive(Drop)]
pub struct DeskKey {
    pub desk: Snapshot<Desk>,
    pub callers: usize,
}

/// A caller: its number, whether it holds the desk, and the desk as it was when it was shared. No value of it is made.
pub struct Part {
    pub number: u64,
    pub holds: bool,
    pub desk: Desk,
}

/// The callers for which a seat stands. No value of it is made.
pub struct Known {
    pub callers: LinkedList<Part>,
}
