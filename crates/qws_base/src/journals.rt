//! The entries of a session: the server's journal of commands, and each client's book of paints.
ghost use Rattle.std.specs.Prelude.{◌≡◌, ◌<◌, ◌≤◌, ◌↔◌, ◌++◌, ◌∷◌, [], length, IsTrue, IfOk};

use crate::commands::Command;
use crate::lists::OutOfMemory;
use crate::replies::{PaintReply, Reply};
use std::alloc::Global;
use std::marker::Model;

/// A closed server turn: its number, counted from 1, its client, and the command with its reply.
#[derive(Debug, PartialEq, Eq, Drop)]
pub struct JournalEntry {
    pub number: u64,
    pub client: u32,
    pub command: Command,
    pub reply: Reply,
}

impl JournalEntry {
    /// An equal entry.
    pub fn copy(&self, alloc: Global) -> Result<Self, OutOfMemory>
        ensures { IfOk result (λ copy. copy ≡ self.now) }
    {
        Ok(JournalEntry {
            number: self.number,
            client: self.client,
            command: self.command.copy(alloc)?,
            reply: self.reply.copy(alloc)?,
        })
    }
}

/// A closed paint turn: how many server turns were closed when it began, the slot that was painted, the caller's tag, and
/// the reply.
#[derive(Clone, Copy, Debug, PartialEq, Eq)]
pub struct BookEntry {
    pub stamp: u64,
    pub slot: u32,
    pub tag: u64,
    pub reply: PaintReply,
}

/// The paints of a client, in order, with room for a number of them.
#[derive(Debug, Drop)]
pub struct Book {
    client: u32,
    limit: u64,
    list: Vec<BookEntry>,
}

impl Model for Book {
    ghost use Rattle.std.specs.Prelude.{◌≤◌, vec_capacity};
    ghost use Rattle.qws_base.specs.Books.{BookView};

    ghost Value = { BookView };

    ghost view = { λ b. record { client = b.client; limit = b.limit; entries = b.list.items } };

    ghost invariant = { λ b. b.limit ≤ vec_capacity b.list };
}

impl Book {
    /// An empty book of a client, with room for that many entries.
    pub fn new(alloc: Global, client: u32, limit: u64) -> Result<Book, OutOfMemory>
        ensures { IfOk result (λ book. book ≡ record { client = client; limit = limit; entries = [] }) }
    {
        Ok(Book {
            client,
            limit,
            list: Vec::with_capacity(alloc, limit as usize)?,
        })
    }

    /// The client's number.
    pub fn client(&self) -> u32
        ensures { result ≡ self.now.client }
    {
        self.client
    }

    /// How many entries it may hold.
    pub fn limit(&self) -> u64
        ensures { result ≡ self.now.limit }
    {
        self.limit
    }

    /// The entries in order.
    pub fn entries(&self) -> &[BookEntry]
        ensures { result.now ≡ self.now.entries }
    {
        &self.list
    }

    /// Whether it holds as many entries as it may.
    pub fn is_full(&self) -> bool
        ensures { IsTrue result ↔ (self.now.limit ≤ length self.now.entries) }
    {
        self.limit <= self.list.len() as u64
    }

    /// Appends an entry to a book that isn't full. It takes no memory, since the room was taken with the book.
    pub fn push(&mut self, entry: BookEntry)
        requires { length self.old.entries < self.old.limit }
        ensures { self.new ≡ record self.old { entries = self.old.entries ++ entry ∷ [] } }
    {
        let _ = self.list.push(entry);
    }
}
