//! Commands of clients.
ghost use Rattle.std.specs.Prelude.{◌≡◌, IfOk};

use crate::lists::{Bytes, OutOfMemory, Rects, Words};
use crate::points::Point;
use std::alloc::Global;

/// What a client asks of the server. Slots are 0 to 31, 32 for no window.
#[derive(Debug, PartialEq, Eq, Drop)]
pub enum Command {
    /// A new window of the client, at the front of a layer.
    Create {
        layer: u32,
    },
    /// The client's window goes.
    Destroy {
        slot: u32,
    },
    /// A window's origin on the screen, and the rectangles that it asks for, local to it.
    Region {
        slot: u32,
        origin: Point,
        rects: Rects,
    },
    /// A window's origin alone. The window's pixels are carried along.
    Move {
        slot: u32,
        origin: Point,
    },
    /// A window to the front of its layer.
    Raise {
        slot: u32,
    },
    /// A window to the back of its layer.
    Lower {
        slot: u32,
    },
    /// The cursor's shape: 1 to 32 columns and rows, with `w * h` cells of `alpha * 2^24 + colour`.
    CursorShape {
        w: u32,
        h: u32,
        cells: Words,
    },
    /// The place of the cursor's top left cell.
    CursorMove {
        x: i32,
        y: i32,
    },
    /// Whether the cursor is shown.
    CursorShow {
        shown: bool,
    },
    /// The client subscribes to a channel, which becomes known where it wasn't.
    Join {
        channel: Bytes,
    },
    /// The client subscribes no more.
    Leave {
        channel: Bytes,
    },
    /// A message to all subscribers of a channel.
    Send {
        channel: Bytes,
        message: Bytes,
        payload: Bytes,
    },
    /// The client's oldest event.
    Take,
    /// Whether a channel is known.
    IsRegistered {
        channel: Bytes,
    },
}

impl Command {
    /// An equal command.
    pub fn copy(&self, alloc: Global) -> Result<Self, OutOfMemory>
        ensures { IfOk result (λ copy. copy ≡ self.now) }
    {
        Ok(match self {
            Command::Create { layer } => Command::Create { layer: *layer },
            Command::Destroy { slot } => Command::Destroy { slot: *slot },
            Command::Region {
                slot,
                origin,
                rects,
            } => Command::Region {
                slot: *slot,
                origin: *origin,
                rects: rects.copy(alloc)?,
            },
            Command::Move { slot, origin } => Command::Move {
                slot: *slot,
                origin: *origin,
            },
            Command::Raise { slot } => Command::Raise { slot: *slot },
            Command::Lower { slot } => Command::Lower { slot: *slot },
            Command::CursorShape { w, h, cells } => Command::CursorShape {
                w: *w,
                h: *h,
                cells: cells.copy(alloc)?,
            },
            Command::CursorMove { x, y } => Command::CursorMove { x: *x, y: *y },
            Command::CursorShow { shown } => Command::CursorShow { shown: *shown },
            Command::Join { channel } => Command::Join {
                channel: channel.copy(alloc)?,
            },
            Command::Leave { channel } => Command::Leave {
                channel: channel.copy(alloc)?,
            },
            Command::Send {
                channel,
                message,
                payload,
            } => Command::Send {
                channel: channel.copy(alloc)?,
                message: message.copy(alloc)?,
                payload: payload.copy(alloc)?,
            },
            Command::Take => Command::Take,
            Command::IsRegistered { channel } => Command::IsRegistered {
                channel: channel.copy(alloc)?,
            },
        })
    }
}
