//! Runs of the program over memory.
use crate::program::{plain_top, top};
use qws_base::{Gate, MemSink, MemSource, NoGate};
use server_desk::Closed;
use std::alloc::Global;
use std::sync::Wait;
use std::test::Fail;
use std::thread::Threads;

const EMPTY: &[u8] = b"screen 2 1 102030\nclients 0\nend\n";

const EMPTY_FILE: &[u8] = b"P6\n2 1\n255\n\x10\x20\x30\x10\x20\x30";

const CLIPPING: &[u8] =
    b"screen 3 2 000000\nclients 1\n0 create a 0\n0 region a 1 0 0 0 1 2\n0 fill a -5 -5 20 20 copy ff8000\nend\n";

const CLIPPING_FILE: &[u8] =
    b"P6\n# 0 0 created 0\n# 0 1 done\n# 0 2 painted 2\n3 2\n255\n\x00\x00\x00\xff\x80\x00\x00\x00\x00\x00\x00\x00\xff\x80\x00\x00\x00\x00";

const TWO_COMMENTS: &[u8] =
    b"P6\n# 0 0 created 0\n# 0 1 done\n3 2\n255\n\x00\x00\x00\xff\x80\x00\x00\x00\x00\x00\x00\x00\xff\x80\x00\x00\x00\x00";

const NARROW: &[u8] =
    b"depth 16\nscreen 2 1 123456\nclients 1\n0 create a 0\n0 region a 0 0 1 0 1 1\n0 fill a 1 0 1 1 copy ff8000\nend\n";

const NARROW_FILE: &[u8] =
    b"P6\n# 0 0 created 0\n# 0 1 done\n# 0 2 painted 1\n2 1\n255\n\x10\x34\x52\xff\x82\x00";

const MADE: &[u8] =
    b"screen 320 240 204060\nclients 1\nfont 3\nglyph 65 3 2 7 5\nimage 2 2 ff102030ff405060ff708090ffa0b0c0\n0 create a 0\nend\n";

const USAGE: &[u8] = b"usage: qws_demo run, check, make or trial --seed N --clients N --calls N\n";

// The words of a text, between single blanks.
fn words_of(alloc: Global, text: &str) -> Result<Vec<String>, Fail> {
    let mut words = Vec::new(alloc);
    if text.is_empty() {
        return Ok(words);
    }
    for word in text.split(' ') {
        words.push(String::from_str(alloc, word)?)?;
    }
    Ok(words)
}

/// The program with some words, over a source and a sink, whose clients are handed a gate.
pub fn run_gated<R: Threads + Wait + Sync, G: Gate + Sync>(
    rt: &R,
    alloc: Global,
    words: &str,
    mut source: MemSource,
    mut sink: MemSink,
    gate: &G,
) -> Result<(u8, MemSink, Option<Closed>), Fail> {
    let words = words_of(alloc, words)?;
    let mut kept = None;
    let status = top(rt, alloc, &words, &mut source, &mut sink, gate, &mut kept);
    Ok((status, sink, kept))
}

// The program with some words, over a source, into a sink that takes at most so many bytes a call and fails at the calls of
// these numbers.
fn run_with<R: Threads + Wait + Sync>(
    rt: &R,
    alloc: Global,
    words: &str,
    source: MemSource,
    max_piece: usize,
    failing: Vec<u64>,
) -> Result<(u8, MemSink), Fail> {
    let sink = MemSink::new(alloc, 1000, max_piece.max(1), failing)?;
    let (status, sink, _kept) = run_gated(rt, alloc, words, source, sink, &NoGate)?;
    Ok((status, sink))
}

// One piece of bytes behind another.
fn joined(alloc: Global, front: &[u8], rest: &[u8]) -> Result<Vec<u8>, Fail> {
    let mut bytes = front.to_vec(alloc)?;
    bytes.extend_from_slice(rest)?;
    Ok(bytes)
}

#[test]
fn scripts_become_files(rt: HostRuntime) -> Result<(), Fail> {
    let alloc = rt.alloc();
    let cases = [
        (EMPTY, 0, EMPTY_FILE),
        (CLIPPING, 0, CLIPPING_FILE),
        (NARROW, 0, NARROW_FILE),
        (b"".as_slice(), 1, b"bad line 1 end\n".as_slice()),
        (
            b"screen 0 1 102030\nclients 0\nend\n".as_slice(),
            1,
            b"bad line 1 range\n".as_slice(),
        ),
    ];
    for (script, status, file) in cases {
        let source = MemSource::new(script.to_vec(alloc)?, 7, Vec::new(alloc));
        let (got, sink) = run_with(&rt, alloc, "run", source, 1000, Vec::new(alloc))?;
        assert!(rt; got == status);
        assert!(rt; sink.bytes() == file);
    }
    Ok(())
}

#[test]
fn files_are_held_against_their_scripts(rt: HostRuntime) -> Result<(), Fail> {
    let alloc = rt.alloc();
    let cases = [
        (CLIPPING, CLIPPING_FILE, 0, b"holds 3\n".as_slice()),
        (EMPTY, EMPTY_FILE, 0, b"holds 0\n".as_slice()),
        (CLIPPING, TWO_COMMENTS, 7, b"bad entry 3\n".as_slice()),
        (EMPTY, CLIPPING_FILE, 7, b"bad screen 3 2\n".as_slice()),
        (
            EMPTY,
            b"P6\n2 1\n255\n\x10\x20\x30\x10\x20\x31".as_slice(),
            7,
            b"bad pixel 1\n".as_slice(),
        ),
        (
            EMPTY,
            b"P6\n2 1\n256\n".as_slice(),
            1,
            b"bad byte 9\n".as_slice(),
        ),
    ];
    for (script, file, status, text) in cases {
        let source = MemSource::new(joined(alloc, script, file)?, 100, Vec::new(alloc));
        let (got, sink) = run_with(&rt, alloc, "check", source, 1000, Vec::new(alloc))?;
        assert!(rt; got == status);
        assert!(rt; sink.bytes() == text);
    }
    Ok(())
}

#[test]
fn words_are_told_apart(rt: HostRuntime) -> Result<(), Fail> {
    let alloc = rt.alloc();
    let cases = [
        ("make --seed 7 --clients 1 --calls 1", 0, MADE),
        ("make --calls=1 --seed=7 --clients=1", 0, MADE),
        (
            "trial --seed 7 --clients 2 --calls 9",
            0,
            b"clients 2 calls 18 holds\n".as_slice(),
        ),
        ("", 2, USAGE),
        ("run run", 2, USAGE),
        ("make --seed 7", 2, USAGE),
        ("make --seed 7 --clients 17 --calls 1", 2, USAGE),
        ("--help", 2, USAGE),
    ];
    for (words, status, text) in cases {
        let source = MemSource::new(EMPTY.to_vec(alloc)?, 7, Vec::new(alloc));
        let (got, sink) = run_with(&rt, alloc, words, source, 1000, Vec::new(alloc))?;
        assert!(rt; got == status, "{words}");
        assert!(rt; sink.bytes() == text, "{words}");
    }
    Ok(())
}

#[test]
fn no_script_runs_without_waiting(rt: HostRuntime) -> Result<(), Fail> {
    let alloc = rt.alloc();
    let cases = [
        ("run", 2, USAGE),
        ("trial --seed 7 --clients 1 --calls 1", 2, USAGE),
        ("make --seed 7 --clients 1 --calls 1", 0, MADE),
    ];
    for (words, status, text) in cases {
        let words = words_of(alloc, words)?;
        let mut source = MemSource::new(EMPTY.to_vec(alloc)?, 7, Vec::new(alloc));
        let mut sink = MemSink::new(alloc, 1000, 1000, Vec::new(alloc))?;
        let got = plain_top(alloc, &words, &mut source, &mut sink);
        assert!(rt; got == status);
        assert!(rt; sink.bytes() == text);
    }
    Ok(())
}

#[test]
fn the_sink_fails_at_its_third_call(rt: HostRuntime) -> Result<(), Fail> {
    let alloc = rt.alloc();
    let source = MemSource::new(EMPTY.to_vec(alloc)?, 7, Vec::new(alloc));
    let (got, sink) = run_with(&rt, alloc, "run", source, 5, vec![in alloc; 3]?)?;
    assert!(rt; got == 4);
    assert!(rt; sink.bytes() == b"P6\n2 1\n255".as_slice());
    Ok(())
}

#[test]
fn the_first_read_fails(rt: HostRuntime) -> Result<(), Fail> {
    let alloc = rt.alloc();
    let source = MemSource::new(EMPTY.to_vec(alloc)?, 7, vec![in alloc; 1]?);
    let (got, sink) = run_with(&rt, alloc, "run", source, 1000, Vec::new(alloc))?;
    assert!(rt; got == 3);
    assert!(rt; sink.bytes() == b"".as_slice());
    Ok(())
}

// So many blanks.
fn blanks(alloc: Global, len: u32) -> Result<Vec<u8>, Fail> {
    let mut bytes = Vec::new(alloc);
    for _ in 0..len {
        bytes.push(b' ')?;
    }
    Ok(bytes)
}

#[test]
fn a_byte_more_than_the_limit(rt: HostRuntime) -> Result<(), Fail> {
    let alloc = rt.alloc();
    let source = MemSource::new(blanks(alloc, 4_194_305)?, 65_536, Vec::new(alloc));
    let (got, sink) = run_with(&rt, alloc, "run", source, 1000, Vec::new(alloc))?;
    assert!(rt; got == 6);
    assert!(rt; sink.bytes() == b"too long\n".as_slice());
    Ok(())
}
