//! The merge of a journal with the clients' books.
ghost use Rattle.std.specs.Prelude.{◌≡◌, ◌+◌, ◌++◌, ◌<◌, ◌≤◌, length, map, All, OnOk, IfOk};
ghost use Rattle.std.specs.List.{flat_map};
ghost use Rattle.std.specs.List.Sorted.{IsNonDecreasingBy};
ghost use Rattle.qws_base.specs.Merges.{merged, numbered, stamped};
ghost use Rattle.session_journal.specs.Merging.{step_of, paint_of, paints_of, entries_below, AreStamps};

use crate::histories::{Entry, History};
use qws_base::{Book, BookEntry, JournalEntry, OutOfMemory};
use std::alloc::Global;

// The journal entry with that number at the end of the entries; none for 0.
fn push_step(
    alloc: Global,
    entries: &mut Vec<Entry>,
    journal: &[JournalEntry],
    number: usize,
) -> Result<(), OutOfMemory>
    ensures { OnOk result (entries.new.items ≡ entries.old.items ++ numbered (map step_of journal.now) number) }
{
    if number == 0 {
        return Ok(());
    }
    if let Some(turn) = journal.get(number - 1) {
        let command = turn.command.copy(alloc)?;
        let reply = turn.reply.copy(alloc)?;
        entries.push(Entry::Step {
            client: turn.client,
            command,
            reply,
        })?;
    }
    Ok(())
}

// The paints of a book with that stamp at the end of the entries. They stand in the book from that place on; gives the
// place behind them.
fn push_paints(
    entries: &mut Vec<Entry>,
    client: u32,
    book: &[BookEntry],
    stamp: u64,
    from: usize,
) -> Result<usize, OutOfMemory>
    requires rising { IsNonDecreasingBy (λ e. e.stamp) book.now }
    requires from { from ≡ entries_below stamp book.now }
    ensures paints { OnOk result (entries.new.items ≡ entries.old.items ++ stamped stamp (map (paint_of client) book.now)) }
    ensures past { IfOk result (λ past. past ≡ entries_below (stamp + 1) book.now) }
{
    let mut at = from;
    while at < book.len() && book[at].stamp == stamp {
        entries.push(Entry::Paint {
            client,
            slot: book[at].slot,
            tag: book[at].tag,
            reply: book[at].reply,
        })?;
        at += 1;
    }
    Ok(at)
}

// The paints of all books with that stamp, book by book, at the end of the entries.
fn push_stamp(
    entries: &mut Vec<Entry>,
    books: &[Book],
    places: &mut [usize],
    stamp: u64,
) -> Result<(), OutOfMemory>
    requires rising { All (λ book. IsNonDecreasingBy (λ e. e.stamp) book.entries) books.now }
    requires places { places.old ≡ map (λ book. entries_below stamp book.entries) books.now }
    ensures paints { OnOk result (entries.new.items ≡ entries.old.items ++ flat_map (stamped stamp) (map paints_of books.now)) }
    ensures places { OnOk result (places.new ≡ map (λ book. entries_below (stamp + 1) book.entries) books.now) }
{
    for k in 0..books.len() {
        places[k] = push_paints(
            entries,
            books[k].client(),
            books[k].entries(),
            stamp,
            places[k],
        )?;
    }
    Ok(())
}

/// The history of a journal and books that stand by client number, with copies of the entries: for each number from 0 to
/// the last of the journal first the journal entry with it, which 0 lacks, then book by book the paints with that stamp.
/// The stamps of a book never fall, and none is above the journal's last number.
pub fn merge(
    alloc: Global,
    journal: &[JournalEntry],
    books: &[Book],
) -> Result<History, OutOfMemory>
    requires { All (λ book. AreStamps (length journal.now) book.entries) books.now }
    ensures { IfOk result (λ history. history ≡ merged (map step_of journal.now) (map paints_of books.now)) }
{
    let mut entries = Vec::new(alloc);
    let mut places = vec![in alloc; 0usize; books.len()]?;
    for number in 0..journal.len() + 1 {
        push_step(alloc, &mut entries, journal, number)?;
        push_stamp(&mut entries, books, &mut places, number as u64)?;
    }
    Ok(History::of(entries))
}
