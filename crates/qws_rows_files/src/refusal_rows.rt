//! Bytes that are no frame, and the first cause.
use qws_frames::{FrameStop, decode_command, decode_reply};
use std::alloc::Global;
use std::test::Fail;

fn command_stop(alloc: Global, bytes: &[u8]) -> Option<FrameStop> {
    decode_command(alloc, bytes).err()
}

fn reply_stop(alloc: Global, bytes: &[u8]) -> Option<FrameStop> {
    decode_reply(alloc, bytes).err()
}

// A frame of Create in layer 1, and one of a refusal for another client's window.
const CREATE: &[u8; 12] = b"\x01\0\x04\0\0\0\0\0\x01\0\0\0";

const NOT_YOURS: &[u8; 20] = b"\x87\0\x0c\0\0\0\0\0\x02\0\0\0\0\0\0\0\x01\0\0\0";

#[test]
fn cut_frames(rt: HostRuntime) {
    let alloc = rt.alloc();
    for have in 0..12 {
        let need = if have < 8 { 8 } else { 12 };
        let stop = command_stop(alloc, &CREATE[..have]);
        let have = have as u64;
        assert!(rt; stop == Some(FrameStop::Short { have, need }), "{have}");
    }
    assert!(rt; command_stop(alloc, CREATE) == None);
    for have in 0..20 {
        let need = if have < 8 { 8 } else { 20 };
        let stop = reply_stop(alloc, &NOT_YOURS[..have]);
        let have = have as u64;
        assert!(rt; stop == Some(FrameStop::Short { have, need }), "{have}");
    }
    assert!(rt; reply_stop(alloc, NOT_YOURS) == None);
}

#[test]
fn heads_of_commands(rt: HostRuntime) {
    let alloc = rt.alloc();
    for (bytes, stop) in [
        (
            b"\0\0\0\0\0\0\0".as_slice(),
            FrameStop::Short { have: 7, need: 8 },
        ),
        (b"\x63\0\0\0\0\0\0\0", FrameStop::BadType { found: 99 }),
        (b"\0\0\0\0\0\0\0\0", FrameStop::BadType { found: 0 }),
        (b"\x0f\0\0\0\0\0\0\0", FrameStop::BadType { found: 15 }),
        (b"\x82\0\0\0\0\0\0\0", FrameStop::BadType { found: 130 }),
        (b"\x0d\x01\0\0\0\0\0\0", FrameStop::BadType { found: 269 }),
        // before the length of the raw part
        (b"\x63\0\0\0\x01\0\x01\0", FrameStop::BadType { found: 99 }),
        (
            b"\x0a\0\0\0\x01\0\x01\0",
            FrameStop::TooLong { found: 65537 },
        ),
        // before the length of the simple part
        (
            b"\x01\0\x05\0\x01\0\x01\0",
            FrameStop::TooLong { found: 65537 },
        ),
        (
            b"\x01\0\x05\0\0\0\0\0\x01\0\0\0\0",
            FrameStop::BadLength { at: 2 },
        ),
        // before the number of bytes
        (b"\x01\0\x05\0\0\0\0\0", FrameStop::BadLength { at: 2 }),
    ] {
        assert!(rt; command_stop(alloc, bytes) == Some(stop), "of {bytes:?}");
    }
}

#[test]
fn parts_of_commands(rt: HostRuntime) {
    let alloc = rt.alloc();
    for (bytes, stop) in [
        // before the length of a raw part that there is none of
        (
            b"\x01\0\x04\0\x01\0\0\0\0\0\0\0".as_slice(),
            FrameStop::Short { have: 12, need: 13 },
        ),
        (
            b"\x01\0\x04\0\x01\0\0\0\0\0\0\0\0",
            FrameStop::BadLength { at: 4 },
        ),
        // two rectangles and 16 bytes; 2^28 rectangles and none
        (
            b"\x03\0\x10\0\x10\0\0\0\0\0\0\0\0\0\0\0\0\0\0\0\x02\0\0\0abcdefghijklmnop",
            FrameStop::BadLength { at: 4 },
        ),
        (
            b"\x03\0\x10\0\0\0\0\0\0\0\0\0\0\0\0\0\0\0\0\0\0\0\0\x10",
            FrameStop::BadLength { at: 4 },
        ),
        // half a cell
        (
            b"\x07\0\x08\0\x02\0\0\0\x01\0\0\0\x01\0\0\0ab",
            FrameStop::BadLength { at: 4 },
        ),
        (b"\x0d\0\0\0\0\0\0\0\0", FrameStop::BadLength { at: 8 }),
        // before the fields
        (
            b"\x09\0\x04\0\0\0\0\0\x02\0\0\0\0",
            FrameStop::BadLength { at: 12 },
        ),
        (
            b"\x09\0\x04\0\0\0\0\0\x02\0\0\0",
            FrameStop::BadField { at: 8 },
        ),
        // two lengths that together exceed the raw part
        (
            b"\x0c\0\x04\0\x02\0\0\0\x02\0\x01\0ab",
            FrameStop::BadField { at: 8 },
        ),
        (
            b"\x0c\0\x04\0\0\0\0\0\xff\xff\x01\0",
            FrameStop::BadField { at: 8 },
        ),
    ] {
        assert!(rt; command_stop(alloc, bytes) == Some(stop), "of {bytes:?}");
    }
}

#[test]
fn bad_replies(rt: HostRuntime) {
    let alloc = rt.alloc();
    for (bytes, stop) in [
        (
            b"\x80\0\0\0\0\0\0\0".as_slice(),
            FrameStop::BadType { found: 128 },
        ),
        (b"\x88\0\0\0\0\0\0\0", FrameStop::BadType { found: 136 }),
        (b"\x0d\0\0\0\0\0\0\0", FrameStop::BadType { found: 13 }),
        (
            b"\x84\0\x04\0\0\0\0\0\x02\0\0\0",
            FrameStop::BadField { at: 8 },
        ),
        (
            b"\x85\0\x08\0\x02\0\0\0\0\0\0\0\x02\0\x01\0ab",
            FrameStop::BadField { at: 12 },
        ),
        // a refusal's number, and the fields that it hasn't
        (
            b"\x87\0\x0c\0\0\0\0\0\0\0\0\0\0\0\0\0\0\0\0\0",
            FrameStop::BadField { at: 8 },
        ),
        (
            b"\x87\0\x0c\0\0\0\0\0\x11\0\0\0\0\0\0\0\0\0\0\0",
            FrameStop::BadField { at: 8 },
        ),
        (
            b"\x87\0\x0c\0\0\0\0\0\x03\0\0\0\x01\0\0\0\x01\0\0\0",
            FrameStop::BadField { at: 12 },
        ),
        (
            b"\x87\0\x0c\0\0\0\0\0\x03\0\0\0\0\0\0\0\x01\0\0\0",
            FrameStop::BadField { at: 16 },
        ),
        (
            b"\x87\0\x0c\0\0\0\0\0\x01\0\0\0\x01\0\0\0\x01\0\0\0",
            FrameStop::BadField { at: 16 },
        ),
    ] {
        assert!(rt; reply_stop(alloc, bytes) == Some(stop), "of {bytes:?}");
    }
}
