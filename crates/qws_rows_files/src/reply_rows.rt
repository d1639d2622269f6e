//! Frames of replies: the bytes of each, and what has none.
use crate::samples::{letters, text_of};
use qws_base::{Event, Refusal, Reply};
use qws_frames::{EncodeStop, decode_reply, encode_reply, reply_round_trip};
use std::alloc::Global;
use std::process::Abort;
use std::test::Fail;

// A reply encodes to exactly these bytes, and they decode to it.
fn is_frame_of(rt: &impl Abort, alloc: Global, reply: Reply, bytes: &[u8]) -> Result<(), Fail> {
    let frame = encode_reply(alloc, &reply)?;
    assert!(rt; frame.as_slice() == bytes);
    let back = decode_reply(alloc, bytes)?;
    assert!(rt; text_of(alloc, &back)?.as_str() == text_of(alloc, &reply)?.as_str());
    Ok(())
}

// A message of these lengths.
fn message(alloc: Global, channel: usize, message: usize, payload: usize) -> Result<Reply, Fail> {
    let event = Event::Message {
        channel: letters(alloc, b'a', channel)?,
        from: 15,
        message: letters(alloc, b'b', message)?,
        payload: letters(alloc, b'c', payload)?,
    };
    Ok(Reply::Event { event })
}

#[test]
fn frames_of_replies(rt: HostRuntime) -> Result<(), Fail> {
    let alloc = rt.alloc();
    let event = Event::RegionModified { slot: 7 };
    for (reply, bytes) in [
        (
            Reply::Created { slot: 2 },
            b"\x81\0\x04\0\0\0\0\0\x02\0\0\0".as_slice(),
        ),
        (Reply::Done, b"\x82\0\0\0\0\0\0\0"),
        (Reply::Sent { to: 16 }, b"\x83\0\x04\0\0\0\0\0\x10\0\0\0"),
        (
            Reply::Registered { yes: false },
            b"\x84\0\x04\0\0\0\0\0\0\0\0\0",
        ),
        (
            Reply::Registered { yes: true },
            b"\x84\0\x04\0\0\0\0\0\x01\0\0\0",
        ),
        (
            message(alloc, 1, 2, 3)?,
            b"\x85\0\x08\0\x06\0\0\0\x0f\0\0\0\x01\0\x02\0abbccc",
        ),
        (Reply::Event { event }, b"\x86\0\x04\0\0\0\0\0\x07\0\0\0"),
        (
            Reply::Refused {
                cause: Refusal::NotYours { slot: 0, owner: 1 },
            },
            b"\x87\0\x0c\0\0\0\0\0\x02\0\0\0\0\0\0\0\x01\0\0\0",
        ),
    ] {
        is_frame_of(&rt, alloc, reply, bytes)?;
    }
    Ok(())
}

#[test]
fn frames_of_refusals(rt: HostRuntime) -> Result<(), Fail> {
    let alloc = rt.alloc();
    for (cause, fields) in [
        (
            Refusal::NoWindow { slot: 32 },
            b"\x01\0\0\0\x20\0\0\0\0\0\0\0".as_slice(),
        ),
        (Refusal::NoSlot, b"\x03\0\0\0\0\0\0\0\0\0\0\0"),
        (
            Refusal::BadLayer { layer: 2 },
            b"\x04\0\0\0\x02\0\0\0\0\0\0\0",
        ),
        (
            Refusal::BadRegion { index: 31 },
            b"\x05\0\0\0\x1f\0\0\0\0\0\0\0",
        ),
        (
            Refusal::TooComplex {
                slot: 0,
                rects: 257,
            },
            b"\x06\0\0\0\0\0\0\0\x01\x01\0\0",
        ),
        (
            Refusal::OffScreen { x: 2, y: -1 },
            b"\x07\0\0\0\x02\0\0\0\xff\xff\xff\xff",
        ),
        (
            Refusal::BadShape { w: 33, h: 1 },
            b"\x08\0\0\0\x21\0\0\0\x01\0\0\0",
        ),
        (Refusal::Joined, b"\x09\0\0\0\0\0\0\0\0\0\0\0"),
        (Refusal::TooManyChannels, b"\x0a\0\0\0\0\0\0\0\0\0\0\0"),
        (Refusal::BadName, b"\x0b\0\0\0\0\0\0\0\0\0\0\0"),
        (Refusal::NotJoined, b"\x0c\0\0\0\0\0\0\0\0\0\0\0"),
        (Refusal::NoChannel, b"\x0d\0\0\0\0\0\0\0\0\0\0\0"),
        (
            Refusal::MailboxFull { client: 1 },
            b"\x0e\0\0\0\x01\0\0\0\0\0\0\0",
        ),
        (
            Refusal::TooLarge { len: 4097 },
            b"\x0f\0\0\0\x01\x10\0\0\0\0\0\0",
        ),
        (Refusal::Empty, b"\x10\0\0\0\0\0\0\0\0\0\0\0"),
    ] {
        let mut bytes = b"\x87\0\x0c\0\0\0\0\0".to_vec(alloc)?;
        bytes.extend_from_slice(fields)?;
        is_frame_of(&rt, alloc, Reply::Refused { cause }, &bytes)?;
    }
    Ok(())
}

// The length of a message's frame, or why it has none.
fn length_of(alloc: Global, reply: Reply) -> Result<usize, EncodeStop> {
    let frame = encode_reply(alloc, &reply)?;
    Ok(frame.len())
}

#[test]
fn messages_of_65536_bytes(rt: HostRuntime) -> Result<(), Fail> {
    let alloc = rt.alloc();
    for (channel, name, payload, found) in [
        (65535, 1, 0, None),
        (0, 0, 65536, None),
        (65536, 0, 0, Some(65536)),
        (0, 65536, 0, Some(65536)),
        (65535, 1, 1, Some(65537)),
        (0, 0, 65537, Some(65537)),
    ] {
        let want = match found {
            Some(found) => Err(EncodeStop::TooLong { found }),
            None => Ok(65552),
        };
        let reply = message(alloc, channel, name, payload)?;
        assert!(rt; length_of(alloc, reply) == want);
    }
    Ok(())
}

#[test]
fn a_round_trip(rt: HostRuntime) -> Result<(), Fail> {
    let back = reply_round_trip(rt.alloc(), &Reply::Sent { to: 3 })??;
    assert!(rt; matches!(back, Reply::Sent { to: 3 }));
    Ok(())
}
