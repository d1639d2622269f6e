//! The passes of all clients at the close of a session: their books, and their seats.
ghost use Rattle.std.specs.Prelude.{◌≡◌, [], length, map, All, IfOk};
ghost use Rattle.fb_words.specs.declared.known.Mode.TheVariants.{Idle};
ghost use Rattle.fb_words.specs.Steps.{AllSit, AllIdle, AllHere, SitOnce};
ghost use Rattle.server_desk.specs.Sessions.{book_among, books_among};

use fb_words::{Head, Pass, Screen};
use qws_base::{Book, BookEntry, OutOfMemory};
use std::alloc::Global;

// A client's book of some entries, with room for them alone.
fn book_of(alloc: Global, client: u32, entries: &[BookEntry]) -> Result<Book, OutOfMemory>
    ensures { IfOk result (λ book. book ≡ record { client = client; limit = length entries.now; entries = entries.now }) }
{
    let mut book = Book::new(alloc, client, entries.len() as u64)?;
    for entry in entries {
        book.push(*entry);
    }
    Ok(book)
}

// The book of the client with that number among the passes; an empty one where there is none.
fn book_among(alloc: Global, passes: &[Pass], client: u32) -> Result<Book, OutOfMemory>
    ensures { IfOk result (λ book. book ≡ book_among passes.now client) }
{
    for pass in passes {
        if pass.client() == client {
            return book_of(alloc, client, pass.entries());
        }
    }
    Book::new(alloc, client, 0)
}

/// The books of so many clients, by number.
pub(crate) fn books_of(
    alloc: Global,
    passes: &[Pass],
    clients: u32,
) -> Result<Vec<Book>, OutOfMemory>
    ensures { IfOk result (λ books. books.items ≡ books_among passes.now clients) }
{
    let mut books = Vec::new(alloc);
    for client in 0..clients {
        let book = book_among(alloc, passes, client)?;
        books.push(book)?;
    }
    Ok(books)
}

/// The clients of all passes sit with a head, in the order of the passes.
pub(crate) fn seat_all(screen: &Screen, head: &mut Head, passes: Vec<Pass>)
    requires screen { head.old.screen ≡ screen.now }
    requires passes { All (λ pass. (pass.screen ≡ screen.now) × (pass.client.mode ≡ Idle)) passes.items }
    requires none { head.old.sitting ≡ [] }
    ensures head { head.new ≡ record head.old { sitting = map (λ pass. pass.client) passes.items } }
    ensures sits { AllSit head.new.server head.new.sitting }
    ensures idle { AllIdle head.new.sitting }
    ensures once { SitOnce head.new.sitting }
    ensures here { length passes.items ≡ length head.old.server.limits → AllHere head.new.server head.new.sitting }
{
    for pass in passes {
        let _ = screen.sit(head, pass);
    }
}
