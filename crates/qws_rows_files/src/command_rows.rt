//! Frames of commands: the bytes of each, and what has none.
use crate::samples::{letters, text_of};
use qws_base::{Bytes, Command, Point, Rect, Rects, Words};
use qws_frames::{EncodeStop, command_round_trip, decode_command, encode_command};
use std::alloc::Global;
use std::process::Abort;
use std::test::Fail;

// A command encodes to exactly these bytes, and they decode to it.
fn is_frame_of(rt: &impl Abort, alloc: Global, command: Command, bytes: &[u8]) -> Result<(), Fail> {
    let frame = encode_command(alloc, &command)?;
    assert!(rt; frame.as_slice() == bytes);
    let back = decode_command(alloc, bytes)?;
    assert!(rt; text_of(alloc, &back)?.as_str() == text_of(alloc, &command)?.as_str());
    Ok(())
}

fn named(alloc: Global, text: &[u8]) -> Result<Bytes, Fail> {
    Ok(Bytes::of(text.to_vec(alloc)?))
}

#[test]
fn frames_without_a_raw_part(rt: HostRuntime) -> Result<(), Fail> {
    let alloc = rt.alloc();
    let origin = Point { x: -2, y: 258 };
    for (command, bytes) in [
        (
            Command::Create { layer: 1 },
            b"\x01\0\x04\0\0\0\0\0\x01\0\0\0".as_slice(),
        ),
        (
            Command::Destroy { slot: 31 },
            b"\x02\0\x04\0\0\0\0\0\x1f\0\0\0",
        ),
        (
            Command::Move { slot: 3, origin },
            b"\x04\0\x0c\0\0\0\0\0\x03\0\0\0\xfe\xff\xff\xff\x02\x01\0\0",
        ),
        (
            Command::Raise { slot: 0x01020304 },
            b"\x05\0\x04\0\0\0\0\0\x04\x03\x02\x01",
        ),
        (Command::Lower { slot: 0 }, b"\x06\0\x04\0\0\0\0\0\0\0\0\0"),
        (
            Command::CursorMove { x: 639, y: -1 },
            b"\x08\0\x08\0\0\0\0\0\x7f\x02\0\0\xff\xff\xff\xff",
        ),
        (
            Command::CursorShow { shown: false },
            b"\x09\0\x04\0\0\0\0\0\0\0\0\0",
        ),
        (
            Command::CursorShow { shown: true },
            b"\x09\0\x04\0\0\0\0\0\x01\0\0\0",
        ),
        (Command::Take, b"\x0d\0\0\0\0\0\0\0"),
    ] {
        is_frame_of(&rt, alloc, command, bytes)?;
    }
    Ok(())
}

#[test]
fn frames_with_a_raw_part(rt: HostRuntime) -> Result<(), Fail> {
    let alloc = rt.alloc();
    let rects = [
        Rect {
            x: 1,
            y: -2,
            w: 3,
            h: 4,
        },
        Rect {
            x: -4096,
            y: 4095,
            w: 1,
            h: 4096,
        },
    ];
    let region = Command::Region {
        slot: 1,
        origin: Point { x: 0, y: -1 },
        rects: Rects::of(rects.to_vec(alloc)?),
    };
    let bytes =
        b"\x03\0\x10\0\x20\0\0\0\x01\0\0\0\0\0\0\0\xff\xff\xff\xff\x02\0\0\0\x01\0\0\0\xfe\xff\xff\xff\x03\0\0\0\x04\0\0\0\0\xf0\xff\xff\xff\x0f\0\0\x01\0\0\0\0\x10\0\0";
    is_frame_of(&rt, alloc, region, bytes)?;
    let nowhere = Command::Region {
        slot: 32,
        origin: Point { x: 5, y: 6 },
        rects: Rects::of(Vec::new(alloc)),
    };
    let bytes = b"\x03\0\x10\0\0\0\0\0\x20\0\0\0\x05\0\0\0\x06\0\0\0\0\0\0\0";
    is_frame_of(&rt, alloc, nowhere, bytes)?;
    let shape = Command::CursorShape {
        w: 2,
        h: 1,
        cells: Words::of(vec![in alloc; 0xff00_00ff, 0x8011_2233]?),
    };
    let bytes = b"\x07\0\x08\0\x08\0\0\0\x02\0\0\0\x01\0\0\0\xff\0\0\xff\x33\x22\x11\x80";
    is_frame_of(&rt, alloc, shape, bytes)
}

#[test]
fn frames_of_channels(rt: HostRuntime) -> Result<(), Fail> {
    let alloc = rt.alloc();
    let join = Command::Join {
        channel: named(alloc, b"chat")?,
    };
    is_frame_of(&rt, alloc, join, b"\x0a\0\0\0\x04\0\0\0chat")?;
    let leave = Command::Leave {
        channel: named(alloc, b"")?,
    };
    is_frame_of(&rt, alloc, leave, b"\x0b\0\0\0\0\0\0\0")?;
    let send = Command::Send {
        channel: named(alloc, b"c")?,
        message: named(alloc, b"hi")?,
        payload: named(alloc, b"\0\xff")?,
    };
    let bytes = b"\x0c\0\x04\0\x05\0\0\0\x01\0\x02\0chi\0\xff";
    is_frame_of(&rt, alloc, send, bytes)?;
    let asked = Command::IsRegistered {
        channel: named(alloc, b"d")?,
    };
    is_frame_of(&rt, alloc, asked, b"\x0e\0\0\0\x01\0\0\0d")
}

// The length of a command's frame, or why it has none.
fn length_of(alloc: Global, command: Command) -> Result<usize, EncodeStop> {
    let frame = encode_command(alloc, &command)?;
    Ok(frame.len())
}

fn too_long(found: u64) -> Result<usize, EncodeStop> {
    Err(EncodeStop::TooLong { found })
}

#[test]
fn raw_parts_of_65536_bytes(rt: HostRuntime) -> Result<(), Fail> {
    let alloc = rt.alloc();
    for (len, want) in [(65536, Ok(65544)), (65537, too_long(65537))] {
        let channel = letters(alloc, b'a', len)?;
        assert!(rt; length_of(alloc, Command::Join { channel }) == want);
    }
    for (len, want) in [(16384, Ok(65552)), (16385, too_long(65540))] {
        let cells = Words::of(vec![in alloc; 1; len]?);
        assert!(rt; length_of(alloc, Command::CursorShape { w: 1, h: 1, cells }) == want);
    }
    let (slot, origin) = (0, Point { x: 0, y: 0 });
    let rect = Rect {
        x: 0,
        y: 0,
        w: 1,
        h: 1,
    };
    for (len, want) in [(4096, Ok(65560)), (4097, too_long(65552))] {
        let rects = Rects::of(vec![in alloc; rect; len]?);
        let region = Command::Region {
            slot,
            origin,
            rects,
        };
        assert!(rt; length_of(alloc, region) == want);
    }
    Ok(())
}

#[test]
fn names_of_65535_bytes(rt: HostRuntime) -> Result<(), Fail> {
    let alloc = rt.alloc();
    for (channel, message, payload, want) in [
        (65535, 1, 0, Ok(65548)),
        (1, 65535, 0, Ok(65548)),
        (0, 0, 65536, Ok(65548)),
        (65536, 0, 0, too_long(65536)),
        (0, 65536, 0, too_long(65536)),
        (65535, 1, 1, too_long(65537)),
        (0, 0, 65537, too_long(65537)),
        (65536, 65536, 1, too_long(131073)),
    ] {
        let send = Command::Send {
            channel: letters(alloc, b'a', channel)?,
            message: letters(alloc, b'b', message)?,
            payload: letters(alloc, b'c', payload)?,
        };
        assert!(rt; length_of(alloc, send) == want);
    }
    Ok(())
}

#[test]
fn a_round_trip(rt: HostRuntime) -> Result<(), Fail> {
    let back = command_round_trip(rt.alloc(), &Command::Create { layer: 1 })??;
    assert!(rt; matches!(back, Command::Create { layer: 1 }));
    Ok(())
}
