//! The merge of a journal and a book.
ghost use Rattle.std.specs.Prelude.{◌≡◌};

use qws_base::{Book, BookEntry, Command, JournalEntry, PaintReply, Reply};
use session_journal::{Entry, merge};
use std::test::Fail;

// A closed server turn of client 0 that showed the cursor.
fn turn(number: u64, shown: bool) -> JournalEntry {
    JournalEntry {
        number,
        client: 0,
        command: Command::CursorShow { shown },
        reply: Reply::Done,
    }
}

// A closed paint turn in slot 0 that found no window.
fn paint(stamp: u64, tag: u64) -> BookEntry
    ensures { result.stamp ≡ stamp }
{
    BookEntry {
        stamp,
        slot: 0,
        tag,
        reply: PaintReply::Gone,
    }
}

#[test]
fn merges_paints_at_their_stamps(rt: HostRuntime) -> Result<(), Fail> {
    let journal = vec![in rt.alloc(); turn(1, true), turn(2, false)]?;
    let mut book = Book::new(rt.alloc(), 0, 2)?;
    book.push(paint(0, 7));
    book.push(paint(2, 8));
    let books = vec![in rt.alloc(); book]?;
    let history = merge(rt.alloc(), &journal, &books)?;
    let entries = history.as_slice();
    assert!(rt; entries.len() == 4);
    assert!(rt; matches!(entries[0], Entry::Paint { tag: 7, .. }));
    assert!(rt;
        matches!(
            entries[1],
            Entry::Step {
                command: Command::CursorShow { shown: true },
                ..
            }
        )
    );
    assert!(rt;
        matches!(
            entries[2],
            Entry::Step {
                command: Command::CursorShow { shown: false },
                ..
            }
        )
    );
    assert!(rt; matches!(entries[3], Entry::Paint { tag: 8, .. }));
    Ok(())
}
