//! A session that was closed.
ghost use Rattle.std.specs.Prelude.{◌≡◌};

use qws_base::{Book, JournalEntry, Size};
use std::marker::Model;

/// A session that was closed: the journal, the clients' books, and the picture that the screen shows. Only a desk's close makes
/// one.
#[derive(Drop)]
pub struct Closed {
    pub(crate) size: Size,
    pub(crate) shown: Vec<u32>,
    pub(crate) journal: Vec<JournalEntry>,
    pub(crate) books: Vec<Book>,
}

impl Model for Closed {
    ghost use Rattle.server_desk.specs.DeskViews.{ClosedView};
    ghost use Rattle.server_desk.specs.Sessions.{IsSession};

    ghost Value = { ClosedView };

    ghost view = { λ c. record { size = c.size; shown = c.shown.items; journal = c.journal.items; books = c.books.items } };

    ghost invariant = { λ c. IsSession record { size = c.size; shown = c.shown.items; journal = c.journal.items; books = c.books.items } };
}

impl Closed {
    /// The size of the screen.
    pub fn size(&self) -> Size
        ensures { result ≡ self.now.size }
    {
        self.size
    }

    /// The colours that the screen shows, of 24 bits, by rows.
    pub fn shown(&self) -> &[u32]
        ensures { result.now ≡ self.now.shown }
    {
        &self.shown
    }

    /// The answered commands of all clients, with their numbers.
    pub fn journal(&self) -> &[JournalEntry]
        ensures { result.now ≡ self.now.journal }
    {
        &self.journal
    }

    /// The paints of each client, by client number.
    pub fn books(&self) -> &[Book]
        ensures { result.now ≡ self.now.books }
    {
        &self.books
    }
}
