//! What the desk's calls answer.
ghost use Rattle.std.specs.Prelude.{◌≡◌};
ghost use Rattle.server_desk.specs.Memory.{connect_memory, call_memory};

use qws_base::{OutOfMemory, Reply, Words};
use qws_frames::FrameStop;

/// The answer to a command: the number of its journal entry, counted from 1, and the reply.
#[derive(Debug, PartialEq, Eq, Drop)]
pub struct Answer {
    pub number: u64,
    pub reply: Reply,
}

/// The picture that was shown before a command: its colours of 24 bits by rows, and the number of the command's journal entry.
#[derive(Debug, PartialEq, Eq, Drop)]
pub struct Grab {
    pub number: u64,
    pub shown: Words,
}

/// Why a client wasn't connected.
#[derive(Clone, Copy, Debug, PartialEq, Eq)]
pub enum ConnectStop {
    /// Sixteen are: the number of those connected.
    TooManyClients { held: u64 },
    /// No memory was there.
    OutOfMemory,
}

/// Why a command wasn't answered.
#[derive(Clone, Copy, Debug, PartialEq, Eq)]
pub enum CallStop {
    /// Painters are in a turn, or were refused and aren't back yet: the gate word that was found.
    Busy { found: u64 },
    /// The client has made as many steps as it may: the number of its journal entries.
    JournalFull { held: u64 },
    /// No memory was there.
    OutOfMemory,
}

/// Why a frame wasn't answered.
#[derive(Clone, Copy, Debug, PartialEq, Eq)]
pub enum FrameCallStop {
    /// Painters are in a turn, or were refused and aren't back yet: the gate word that was found.
    Busy { found: u64 },
    /// The client has made as many steps as it may: the number of its journal entries.
    JournalFull { held: u64 },
    /// No memory was there.
    OutOfMemory,
    /// No command is spelled so.
    Frame { cause: FrameStop },
}

/// Why a session wasn't closed.
#[derive(Clone, Copy, Debug, PartialEq, Eq)]
pub enum CloseStop {
    /// Not each connected client's pass is there: how many are, and how many clients are connected.
    Missing { held: u64, wanted: u64 },
    /// No memory was there.
    OutOfMemory,
}

impl From<OutOfMemory> for ConnectStop {
    ghost from_gives = { λ _ stop. stop ≡ connect_memory };

    fn from(_: OutOfMemory) -> Self {
        ConnectStop::OutOfMemory
    }
}

impl From<OutOfMemory> for CallStop {
    ghost from_gives = { λ _ stop. stop ≡ call_memory };

    fn from(_: OutOfMemory) -> Self {
        CallStop::OutOfMemory
    }
}
