//! Why a call on the stack did nothing.

/// Why a call on the stack did nothing.
#[derive(Clone, Copy, Debug, PartialEq, Eq)]
pub enum StackStop {
    /// The stack holds 32 windows.
    Full { held: u64 },
    /// No window has the slot.
    NoWindow { slot: u32 },
    /// The layer is above 1.
    BadLayer { layer: u32 },
}
