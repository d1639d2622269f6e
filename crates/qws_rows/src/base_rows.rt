//! Blending, copies, books, and streams over readers and writers of std.
use qws_base::{
    Book, BookEntry, Bytes, CleanSink, CleanSource, Command, Cursor, Ink, JournalEntry, MemSink,
    MemSource, PaintReply, Point, ReadStop, Rect, Rects, Reply, Rgb, RowBuf, Sink, StdSink,
    StdSource, WindowView, Words, WriteFault, after, read_all, write_all,
};
use std::alloc::Global;
use std::test::Fail;

#[test]
fn blending(rt: HostRuntime) -> Result<(), Fail> {
    let white = Rgb::new(0xffffff).ok_or("a colour")?;
    let black = Rgb::new(0).ok_or("a colour")?;
    for (a, old, want) in [
        (128, black, 0x808080),
        (0, black, 0),
        (255, black, 0xffffff),
    ] {
        assert!(rt; after(Ink::Blend { c: white, a }, old).value() == want);
    }
    Ok(())
}

#[test]
fn copies_are_equal(rt: HostRuntime) -> Result<(), Fail> {
    let alloc = rt.alloc();
    let command = Command::Create { layer: 0 };
    assert!(rt; command.copy(alloc).ok() == Some(command));
    let reply = Reply::Created { slot: 0 };
    assert!(rt; reply.copy(alloc).ok() == Some(reply));
    let rect = Rect {
        x: 1,
        y: 2,
        w: 3,
        h: 4,
    };
    let rects = Rects::of(vec![in alloc; rect]?)
        .copy(alloc)
        .ok()
        .ok_or("memory")?;
    assert!(rt; rects.as_slice() == [rect].as_slice());
    let bytes = Bytes::of(vec![in alloc; 7]?)
        .copy(alloc)
        .ok()
        .ok_or("memory")?;
    assert!(rt; bytes.as_slice() == [7].as_slice());
    let words = Words::of(vec![in alloc; 8]?)
        .copy(alloc)
        .ok()
        .ok_or("memory")?;
    assert!(rt; words.as_slice() == [8].as_slice());
    assert!(rt; words != Words::of(vec![in alloc; 8, 8]?));
    Ok(())
}

#[test]
fn copies_of_records_are_equal(rt: HostRuntime) -> Result<(), Fail> {
    let alloc = rt.alloc();
    let rect = Rect {
        x: 1,
        y: 2,
        w: 3,
        h: 4,
    };
    let window = WindowView {
        slot: 1,
        owner: 2,
        layer: 0,
        origin: Point { x: 3, y: -4 },
        rects: Rects::of(vec![in alloc; rect]?),
    };
    assert!(rt; window.copy(alloc).ok() == Some(window));
    let cursor = Cursor::hidden(alloc);
    assert!(rt; cursor.is_shape() && !cursor.shown);
    assert!(rt; cursor.copy(alloc).ok() == Some(cursor));
    let entry = JournalEntry {
        number: 1,
        client: 2,
        command: Command::Take,
        reply: Reply::Done,
    };
    assert!(rt; entry.copy(alloc).ok() == Some(entry));
    Ok(())
}

#[test]
fn channels_of_a_colour(rt: HostRuntime) {
    let orange = Rgb::of_channels(255, 128, 0);
    assert!(rt; orange.value() == 0xff8000);
    assert!(rt; orange.channels() == [255, 128, 0]);
}

#[test]
fn a_book_and_a_row(rt: HostRuntime) -> Result<(), Fail> {
    let alloc = rt.alloc();
    let mut book = Book::new(alloc, 3, 1).ok().ok_or("memory")?;
    let entry = BookEntry {
        stamp: 1,
        slot: 2,
        tag: 4,
        reply: PaintReply::Gone,
    };
    assert!(rt; !book.is_full());
    book.push(entry);
    assert!(rt; book.is_full());
    assert!(rt; book.client() == 3);
    assert!(rt; book.entries() == [entry].as_slice());
    let mut row = RowBuf::new(alloc).ok().ok_or("memory")?;
    assert!(rt; row.inks().len() == 640);
    Ok(())
}

fn read_std(alloc: Global, bytes: &[u8]) -> Result<Vec<u8>, Fail> {
    let mut source = StdSource::new(bytes);
    Ok(read_all(alloc, &mut source, 100).ok().ok_or("a fault")?)
}

#[test]
fn a_reader_of_std(rt: HostRuntime) -> Result<(), Fail> {
    let bytes = read_std(rt.alloc(), b"screen 2 1 102030\n")?;
    assert!(rt; bytes.as_slice() == b"screen 2 1 102030\n".as_slice());
    Ok(())
}

#[test]
fn a_writer_of_std(rt: HostRuntime) -> Result<(), Fail> {
    let mut written = Vec::new(rt.alloc());
    let mut sink = StdSink::new(&mut written);
    assert!(rt; write_all(&mut sink, b"P6\n").is_ok());
    let _ = sink;
    assert!(rt; written.as_slice() == b"P6\n".as_slice());
    Ok(())
}

#[test]
fn what_stops_a_reader(rt: HostRuntime) -> Result<(), Fail> {
    let alloc = rt.alloc();
    let mut clean = CleanSource::new(b"screen".to_vec(alloc)?);
    assert!(rt; read_all(alloc, &mut clean, 5).err() == Some(ReadStop::TooLong));
    let mut failing = MemSource::new(b"screen".to_vec(alloc)?, 4, vec![in alloc; 2]?);
    assert!(rt; read_all(alloc, &mut failing, 6).err() == Some(ReadStop::ReadFault));
    let mut pieces = MemSource::new(b"screen".to_vec(alloc)?, 4, Vec::new(alloc));
    let bytes = read_all(alloc, &mut pieces, 6).ok().ok_or("a stop")?;
    assert!(rt; bytes.as_slice() == b"screen".as_slice());
    Ok(())
}

#[test]
fn what_stops_a_writer(rt: HostRuntime) -> Result<(), Fail> {
    let alloc = rt.alloc();
    let row = b"P6\n2 1\n255\n\x10\x20\x30\x10\x20\x30";
    let mut sink = MemSink::new(alloc, 100, 5, vec![in alloc; 3]?)
        .ok()
        .ok_or("memory")?;
    assert!(rt; write_all(&mut sink, row) == Err(WriteFault));
    assert!(rt; sink.bytes() == b"P6\n2 1\n255".as_slice());
    let mut clean = CleanSink::new();
    assert!(rt; clean.write(row).ok() == Some(17));
    assert!(rt; write_all(&mut clean, row) == Ok(()));
    Ok(())
}
