//! What is written, and the status.

/// A text that the program writes, and the exit status that goes with it.
#[derive(Debug, Drop)]
pub struct Output {
    pub status: u8,
    pub text: Vec<u8>,
}
