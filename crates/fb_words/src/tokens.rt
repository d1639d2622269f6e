//! The tokens that step on the words. None can be copied.
use crate::known::View;
use atomic_table::Seat;
use qws_base::{Book, BookEntry};
use std::marker::Model;

/// A client's token. Contracts see its screen, its part, and how many entries its book may hold.
#[derive(Drop)]
pub struct Pass {
    pub(crate) book: Book,
    pub(crate) seen: u64,
    pub(crate) seat: Seat<(), View>,
}

impl Model for Pass {
    ghost use Rattle.std.specs.Prelude.{◌≡◌, []};
    ghost use Rattle.fb_words.specs.Views.{PassView, alone, only, books_in};

    ghost Value = { PassView };

    ghost view = { λ p. record { screen = record { table = p.seat.table_id; setting = (only p.seat.me.0.clients).setting }; client = only p.seat.me.0.clients; book_limit = p.book.limit } };

    ghost invariant = { λ p. (p.seat.me ≡ (alone (only p.seat.me.0.clients), [])) × (p.book.client ≡ (only p.seat.me.0.clients).number) × (p.book.entries ≡ books_in (only p.seat.me.0.clients).own) × (p.seen ≡ (only p.seat.me.0.clients).seen) };
}

/// The server's token. Contracts see its screen, its part, and the clients that sit with it.
#[derive(Drop)]
pub struct Head {
    pub(crate) admitted: u32,
    pub(crate) closing: bool,
    // What the clients that sit have seen, by their numbers.
    pub(crate) seen: [u64; 16],
    pub(crate) seat: Seat<(), View>,
}

impl Model for Head {
    ghost use Rattle.std.specs.Prelude.{◌≡◌, [], length};
    ghost use Rattle.fb_words.specs.Views.{HeadView, head_view, the_server, busy, is_closing, HasSeen};
    ghost use Rattle.turn_logs.specs.Lists.{total};

    ghost Value = { HeadView };

    ghost view = { λ h. record { screen = record { table = h.seat.table_id; setting = (the_server h.seat.me.0).setting }; server = the_server h.seat.me.0; sitting = h.seat.me.0.clients } };

    ghost invariant = { λ h. (h.seat.me ≡ (head_view (the_server h.seat.me.0) h.seat.me.0.clients, [])) × (length (the_server h.seat.me.0).limits ≡ h.admitted) × (total busy h.seat.me.0.clients ≡ 0) × (h.closing ≡ is_closing (the_server h.seat.me.0).mode) × HasSeen h.seen h.seat.me.0.clients };
}

/// A client that sits with a head. Contracts see its book.
#[derive(Drop)]
pub struct Stub {
    pub(crate) book: Book,
}

impl Model for Stub {
    ghost use Rattle.qws_base.specs.Books.{BookView};

    ghost Value = { BookView };

    ghost view = { λ s. s.book };
}

impl Pass {
    ghost use Rattle.std.specs.Prelude.{◌≡◌};
    ghost use Rattle.fb_words.specs.Views.{books_in};

    /// The client's number, 0 to 15.
    pub fn client(&self) -> u32
        ensures { result ≡ self.now.client.number }
    {
        self.book.client()
    }

    /// The paints of the client, in order.
    pub fn entries(&self) -> &[BookEntry]
        ensures { result.now ≡ books_in self.now.client.own }
    {
        self.book.entries()
    }

    /// How many entries its book may hold.
    pub fn book_limit(&self) -> u64
        ensures { result ≡ self.now.book_limit }
    {
        self.book.limit()
    }

    /// The greatest stamp or journal number that it has seen, 0 at first. A paint turn that is closed raises it to its stamp,
    /// and a server turn that is closed for the client to its number.
    pub fn seen(&self) -> u64
        ensures { result ≡ self.now.client.seen }
    {
        self.seen
    }
}

impl Head {
    ghost use Rattle.std.specs.Prelude.{◌≡◌};
    ghost use Rattle.fb_words.specs.Views.{is_closing};

    /// Whether it has announced itself and isn't let in yet.
    pub fn is_closing(&self) -> bool
        ensures { result ≡ is_closing self.now.server.mode }
    {
        self.closing
    }
}
