//! What a turn has read and written on pixel words. No value of this type is ever made.

/// A framebuffer word or a saved word was read, or written.
pub enum Item {
    Pick { word: u64, value: u64 },
    Put { word: u64, value: u64 },
}
