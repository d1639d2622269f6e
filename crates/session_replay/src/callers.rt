//! The clients of a session that is replayed.
use session_script::Names;

/// A client's names, how many of its calls were made, and how many it has.
#[derive(Drop)]
pub struct Caller {
    pub names: Names,
    pub made: u64,
    pub calls: u64,
}
