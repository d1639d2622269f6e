//! Stops of tests.
use qws_base::{OutOfMemory, Reply};
use server_desk::{CallStop, CloseStop, ConnectStop};
use shared_painter::PaintStop;
use std::alloc::{AllocError, AllocFailed};

/// Why a test ends before its end.
#[derive(Debug, Drop)]
pub enum Stop {
    NoScreen,
    NoColour,
    NoClient,
    NoSlot,
    NoTurn,
    LastRevision,
    NotPlaced,
    NoStamps,
    /// The entry with this number, counted from 0, isn't what the replay gives.
    Differs { entry: usize },
    /// Another reply came.
    Other { reply: Reply },
    Connect { stop: ConnectStop },
    Call { stop: CallStop },
    Paint { stop: PaintStop },
    Close { stop: CloseStop },
    OutOfMemory,
}

impl From<OutOfMemory> for Stop {
    fn from(_: OutOfMemory) -> Self {
        Stop::OutOfMemory
    }
}

impl From<AllocError> for Stop {
    fn from(_: AllocError) -> Self {
        Stop::OutOfMemory
    }
}

impl<T: Drop> From<AllocFailed<T>> for Stop {
    fn from(_: AllocFailed<T>) -> Self {
        Stop::OutOfMemory
    }
}

impl From<ConnectStop> for Stop {
    fn from(stop: ConnectStop) -> Self {
        Stop::Connect { stop }
    }
}

impl From<CallStop> for Stop {
    fn from(stop: CallStop) -> Self {
        Stop::Call { stop }
    }
}

impl From<PaintStop> for Stop {
    fn from(stop: PaintStop) -> Self {
        Stop::Paint { stop }
    }
}
