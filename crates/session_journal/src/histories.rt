//! Histories: what the clients of a session did, in order, with the replies.
ghost use Rattle.std.specs.Prelude.{◌≡◌};

use qws_base::{Command, PaintReply, Reply};
use std::marker::Model;

/// A command or a paint of a client, with its reply.
#[derive(Debug, PartialEq, Eq, Drop)]
pub enum Entry {
    /// A command.
    Step {
        client: u32,
        command: Command,
        reply: Reply,
    },
    /// A paint of the window in a slot, with the caller's tag.
    Paint {
        client: u32,
        slot: u32,
        tag: u64,
        reply: PaintReply,
    },
}

/// Entries in order. Contracts see them as a list.
#[derive(Debug, Drop)]
pub struct History {
    entries: Vec<Entry>,
}

impl Model for History {
    ghost use Rattle.std.specs.Prelude.{List};
    ghost use Rattle.session_journal.specs.declared.histories.Entry.{Entry};

    ghost Value = { List Entry };

    ghost view = { λ h. h.entries.items };
}

impl History {
    /// The history of these entries. It takes no memory.
    pub fn of(v: Vec<Entry>) -> History
        ensures { result ≡ v.items }
    {
        History { entries: v }
    }

    /// The entries in order.
    pub fn as_slice(&self) -> &[Entry]
        ensures { result.now ≡ self.now }
    {
        self.entries.as_slice()
    }
}
