//! Why something isn't encoded or decoded.
ghost use Rattle.std.specs.Prelude.{◌≡◌};
ghost use Rattle.qws_frames.specs.declared.stops.FrameStop.TheVariants.{OutOfMemory as no_memory};
ghost use Rattle.qws_frames.specs.declared.stops.EncodeStop.TheVariants.{OutOfMemory as no_room};

use std::alloc::{AllocError, AllocFailed};

/// Why a command or a reply has no frame.
#[derive(Clone, Copy, Debug, PartialEq, Eq)]
pub enum EncodeStop {
    /// The raw part would have more than 65,536 bytes, or a name more than 65,535. `found` is the raw part's length.
    TooLong { found: u64 },
    /// No memory was there.
    OutOfMemory,
}

/// Why bytes are no frame.
#[derive(Clone, Copy, Debug, PartialEq, Eq)]
pub enum FrameStop {
    /// There are fewer bytes than the head or the parts need.
    Short { have: u64, need: u64 },
    /// The type isn't known.
    BadType { found: u64 },
    /// A length is wrong: of the simple part at 2, of the raw part at 4, or bytes follow the frame, which ends at `at`.
    BadLength { at: u64 },
    /// A field is out of its range, or isn't 0 where it isn't used.
    BadField { at: u64 },
    /// The raw part has more than 65,536 bytes.
    TooLong { found: u64 },
    /// No memory was there.
    OutOfMemory,
}

impl From<AllocError> for FrameStop {
    ghost from_gives = { λ _ stop. stop ≡ no_memory };

    fn from(_: AllocError) -> Self {
        FrameStop::OutOfMemory
    }
}

impl<T: Drop> From<AllocFailed<T>> for FrameStop {
    ghost from_gives = { λ _ stop. stop ≡ no_memory };

    fn from(_: AllocFailed<T>) -> Self {
        FrameStop::OutOfMemory
    }
}

impl From<AllocError> for EncodeStop {
    ghost from_gives = { λ _ stop. stop ≡ no_room };

    fn from(_: AllocError) -> Self {
        EncodeStop::OutOfMemory
    }
}

impl<T: Drop> From<AllocFailed<T>> for EncodeStop {
    ghost from_gives = { λ _ stop. stop ≡ no_room };

    fn from(_: AllocFailed<T>) -> Self {
        EncodeStop::OutOfMemory
    }
}
