//! A window in the stack.

/// A window in the stack: its slot, its owner and its layer.
#[derive(Clone, Copy, Debug)]
pub struct StackedWindow {
    pub slot: u32,
    pub owner: u32,
    pub layer: u32,
}
