//! Why a call on the channels did nothing.
ghost use Rattle.std.specs.Prelude.{◌≡◌};
ghost use Rattle.qcop_channels.specs.declared.stops.QcopStop.TheVariants.{OutOfMemory as no_memory};

use qws_base::Refusal;
use std::alloc::{AllocError, AllocFailed};

/// Why a call on the channels did nothing.
#[derive(Clone, Copy, Debug, PartialEq, Eq)]
pub enum QcopStop {
    /// The name hasn't 1 to 64 bytes of 0x21 to 0x7e.
    BadName,
    /// The client is a subscriber already.
    Joined,
    /// The channel isn't known, and 64 are.
    TooManyChannels,
    /// The client is no subscriber.
    NotJoined,
    /// The payload has more than 4,096 bytes. `len` is its number of bytes, or `2^32 - 1` where it has more.
    TooLarge { len: u32 },
    /// The channel isn't known.
    NoChannel,
    /// The client's mailbox holds 256 messages.
    MailboxFull { client: u32 },
    /// The mailbox holds no event.
    Empty,
    /// No memory was there.
    OutOfMemory,
}

impl QcopStop {
    ghost use Rattle.qcop_channels.specs.Stops.{refusal_of};

    /// The cause for which a command is refused; none where no memory was there.
    pub fn cause(self) -> Option<Refusal>
        ensures { result ≡ refusal_of self }
    {
        match self {
            QcopStop::BadName => Some(Refusal::BadName),
            QcopStop::Joined => Some(Refusal::Joined),
            QcopStop::TooManyChannels => Some(Refusal::TooManyChannels),
            QcopStop::NotJoined => Some(Refusal::NotJoined),
            QcopStop::TooLarge { len } => Some(Refusal::TooLarge { len }),
            QcopStop::NoChannel => Some(Refusal::NoChannel),
            QcopStop::MailboxFull { client } => Some(Refusal::MailboxFull { client }),
            QcopStop::Empty => Some(Refusal::Empty),
            QcopStop::OutOfMemory => None,
        }
    }
}

impl From<AllocError> for QcopStop {
    ghost from_gives = { λ _ stop. stop ≡ no_memory };

    fn from(_: AllocError) -> Self {
        QcopStop::OutOfMemory
    }
}

impl<T: Drop> From<AllocFailed<T>> for QcopStop {
    ghost from_gives = { λ _ stop. stop ≡ no_memory };

    fn from(_: AllocFailed<T>) -> Self {
        QcopStop::OutOfMemory
    }
}

impl From<qws_base::OutOfMemory> for QcopStop {
    ghost from_gives = { λ _ stop. stop ≡ no_memory };

    fn from(_: qws_base::OutOfMemory) -> Self {
        QcopStop::OutOfMemory
    }
}
