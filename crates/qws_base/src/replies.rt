//! Replies to commands and paints, and the events of mailboxes.
ghost use Rattle.std.specs.Prelude.{◌≡◌, IfOk};

use crate::lists::{Bytes, OutOfMemory};
use std::alloc::Global;

/// What a client's mailbox holds.
#[derive(Debug, PartialEq, Eq, Drop)]
pub enum Event {
    /// A message of a channel, from a client.
    Message {
        channel: Bytes,
        from: u32,
        message: Bytes,
        payload: Bytes,
    },
    /// The pixels of the client's window in a slot have changed.
    RegionModified {
        slot: u32,
    },
}

/// The server's answer to a command.
#[derive(Debug, PartialEq, Eq, Drop)]
pub enum Reply {
    /// A window has the slot.
    Created { slot: u32 },
    /// It is done.
    Done,
    /// A message went to so many clients.
    Sent { to: u32 },
    /// Whether the channel is known.
    Registered { yes: bool },
    /// The oldest event.
    Event { event: Event },
    /// Nothing was done.
    Refused { cause: Refusal },
}

/// Why a command is refused. A refused command changes nothing. The causes are numbered 1 to 16 in this order.
#[derive(Clone, Copy, Debug, PartialEq, Eq)]
pub enum Refusal {
    /// No window has the slot.
    NoWindow { slot: u32 },
    /// The window is another client's.
    NotYours { slot: u32, owner: u32 },
    /// 32 windows are live.
    NoSlot,
    /// The layer is above 1.
    BadLayer { layer: u32 },
    /// A rectangle is out of range, or stands at place 32 or later.
    BadRegion { index: u32 },
    /// A slot would need more than 256 rectangles on the screen.
    TooComplex { slot: u32, rects: u32 },
    /// An origin is out of range, or the cursor's place isn't on the screen.
    OffScreen { x: i32, y: i32 },
    /// A cursor's shape has sides out of range, or not `w * h` cells.
    BadShape { w: u32, h: u32 },
    /// The client is a subscriber already.
    Joined,
    /// 64 channels are known.
    TooManyChannels,
    /// A name hasn't 1 to 64 bytes of 0x21 to 0x7e.
    BadName,
    /// The client is no subscriber.
    NotJoined,
    /// The channel isn't known.
    NoChannel,
    /// A subscriber's mailbox holds 256 messages.
    MailboxFull { client: u32 },
    /// A payload has more than 4,096 bytes.
    TooLarge { len: u32 },
    /// The client's mailbox holds no event.
    Empty,
}

/// What a paint did.
#[derive(Clone, Copy, Debug, PartialEq, Eq)]
pub enum PaintReply {
    /// So many pixels took an ink other than Skip.
    Painted { pixels: u64 },
    /// The client has no window in the slot; nothing was painted.
    Gone,
}

impl Event {
    /// An equal event.
    pub fn copy(&self, alloc: Global) -> Result<Self, OutOfMemory>
        ensures { IfOk result (λ copy. copy ≡ self.now) }
    {
        match self {
            Event::Message {
                channel,
                from,
                message,
                payload,
            } => Ok(Event::Message {
                channel: channel.copy(alloc)?,
                from: *from,
                message: message.copy(alloc)?,
                payload: payload.copy(alloc)?,
            }),
            Event::RegionModified { slot } => Ok(Event::RegionModified { slot: *slot }),
        }
    }
}

impl Reply {
    /// An equal reply.
    pub fn copy(&self, alloc: Global) -> Result<Self, OutOfMemory>
        ensures { IfOk result (λ copy. copy ≡ self.now) }
    {
        match self {
            Reply::Created { slot } => Ok(Reply::Created { slot: *slot }),
            Reply::Done => Ok(Reply::Done),
            Reply::Sent { to } => Ok(Reply::Sent { to: *to }),
            Reply::Registered { yes } => Ok(Reply::Registered { yes: *yes }),
            Reply::Event { event } => Ok(Reply::Event {
                event: event.copy(alloc)?,
            }),
            Reply::Refused { cause } => Ok(Reply::Refused { cause: *cause }),
        }
    }
}
