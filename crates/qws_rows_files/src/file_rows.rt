//! The file of a session without a call, written and read, and with each byte of its head changed.
use qws_base::{Command, PaintReply, Refusal, Reply, Size};
use session_journal::{
    Entry, File, FileStop, History, client_named, push_paint_comment, push_picture,
    push_step_comment, read_file, write_file,
};
use std::test::Fail;

// No comment, two columns and one row, and both pixels 0x102030.
const EMPTY: &[u8; 17] = b"P6\n2 1\n255\n\x10\x20\x30\x10\x20\x30";

fn stop_of(answer: Result<File, FileStop>) -> Option<FileStop> {
    match answer {
        Ok(_) => None,
        Err(stop) => Some(stop),
    }
}

#[test]
fn writes_the_empty_session(rt: HostRuntime) -> Result<(), Fail> {
    let size = Size::new(2, 1).ok_or("a size")?;
    let history = History::of(Vec::new(rt.alloc()));
    let bytes = write_file(rt.alloc(), size, &history, &[0x102030, 0x102030])?;
    assert!(rt; bytes.as_slice() == EMPTY.as_slice());
    Ok(())
}

#[test]
fn reads_the_empty_session(rt: HostRuntime) -> Result<(), Fail> {
    let file = read_file(rt.alloc(), EMPTY)?;
    assert!(rt; file.size.w() == 2);
    assert!(rt; file.size.h() == 1);
    assert!(rt; file.lines.as_slice().len() == 0);
    assert!(rt; file.raster.as_slice() == b"\x10\x20\x30\x10\x20\x30".as_slice());
    Ok(())
}

#[test]
fn reads_comment_lines(rt: HostRuntime) -> Result<(), Fail> {
    let file = read_file(rt.alloc(), b"P6\n# 0 0 created 0\n#\n1 1\n255\nabc")?;
    assert!(rt; file.lines.as_slice().len() == 2);
    assert!(rt; file.lines.as_slice()[0].as_slice() == b" 0 0 created 0".as_slice());
    assert!(rt; file.lines.as_slice()[1].as_slice().len() == 0);
    Ok(())
}

#[test]
fn each_byte_of_the_head_counts(rt: HostRuntime) -> Result<(), Fail> {
    for at in 0..11usize {
        let mut bytes = EMPTY.to_vec(rt.alloc())?;
        if let Some(byte) = bytes.get_mut(at) {
            *byte = 0;
        }
        assert!(rt;
            stop_of(read_file(rt.alloc(), &bytes)) == Some(FileStop::Bad { at }),
            "{at}"
        );
    }
    Ok(())
}

#[test]
fn finds_where_bytes_leave_the_grammar(rt: HostRuntime) -> Result<(), Fail> {
    let cases: [(&[u8], usize); 8] = [
        (b"", 0),
        (b"P5\n", 1),
        (b"P6\n2 1\n255\n\x10\x20", 13),
        (b"P6\n1 1\n255\nabcd", 14),
        (b"P6\n0 1\n", 3),
        (b"P6\n641 1\n", 5),
        (b"P6\n1 481\n", 7),
        (b"P6\n#\t\n", 4),
    ];
    for (bytes, at) in cases {
        assert!(rt;
            stop_of(read_file(rt.alloc(), bytes)) == Some(FileStop::Bad { at }),
            "{at}"
        );
    }
    Ok(())
}

#[test]
fn a_written_comment_reads_back_and_names_its_client(rt: HostRuntime) -> Result<(), Fail> {
    let alloc = rt.alloc();
    let size = Size::new(1, 1).ok_or("a size")?;
    let entries = vec![in alloc;
        Entry::Step {
            client: 12,
            command: Command::Take,
            reply: Reply::Refused {
                cause: Refusal::Empty
            }
        },
        Entry::Paint {
            client: 3,
            slot: 0,
            tag: 0,
            reply: PaintReply::Painted { pixels: 307200 }
        },
    ]?;
    let bytes = write_file(alloc, size, &History::of(entries), &[0x010203])?;
    let file = read_file(alloc, &bytes)?;
    let lines = file.lines.as_slice();
    assert!(rt; lines.len() == 2);
    assert!(rt; lines[0].as_slice() == b" 12 0 refused 16".as_slice());
    assert!(rt; lines[1].as_slice() == b" 3 0 painted 307200".as_slice());
    assert!(rt; client_named(lines[0].as_slice(), 16) == Some(12));
    assert!(rt; client_named(lines[0].as_slice(), 12) == None);
    assert!(rt; client_named(lines[1].as_slice(), 16) == Some(3));
    Ok(())
}

#[test]
fn pushes_comments_and_the_picture(rt: HostRuntime) -> Result<(), Fail> {
    let alloc = rt.alloc();
    let size = Size::new(2, 1).ok_or("a size")?;
    let mut out = Vec::new(alloc);
    push_step_comment(alloc, &mut out, 0, 7, &Reply::Created { slot: 31 })?;
    assert!(rt; out.as_slice() == b" 0 7 created 31".as_slice());
    out.clear();
    push_paint_comment(alloc, &mut out, 15, 65535, PaintReply::Gone)?;
    assert!(rt; out.as_slice() == b" 15 65535 gone".as_slice());
    out.clear();
    push_picture(alloc, &mut out, size, &[0x102030, 0x405060])?;
    assert!(rt; out.as_slice() == b"2 1\n255\n\x10\x20\x30\x40\x50\x60".as_slice());
    Ok(())
}

#[test]
fn long_numbers_name_no_client(rt: HostRuntime) -> Result<(), Fail> {
    assert!(rt; client_named(b" 4294967296 0 done", 16) == None);
    assert!(rt; client_named(b" 99999999999999999999999999 0 done", 16) == None);
    assert!(rt; client_named(b" 007 0 done", 16) == Some(7));
    assert!(rt; client_named(b"", 0) == None);
    Ok(())
}
