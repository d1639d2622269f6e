//! Commands and replies to frames.
ghost use Rattle.std.specs.Prelude.{◌≡◌, ◌≤◌, ◌+◌, ◌*◌, length, None, IfOk};
ghost use Rattle.qws_base.specs.declared.commands.Command.TheVariants.{Region, CursorShape};
ghost use Rattle.qws_frames.specs.Encoding.{IsPlain, IsNamed, IsLetter};
ghost use Rattle.qws_frames.specs.Layout.{SpellsCommand, SpellsReply, SpellsCause};
ghost use Rattle.qws_frames.specs.Stops.{raw_refusal, letter_refusal, command_refusal, reply_refusal, encode_refusal_in};

use crate::building::{head, put_rects, put_u16, put_words};
use crate::checks::MOST_RAW;
use crate::stops::EncodeStop;
use qws_base::{Command, Event, Point, Rect, Refusal, Reply};
use std::alloc::Global;

/// The most bytes of a channel or a message beside another part.
const MOST_NAME: usize = 65535;

// The length of a raw part, where a frame may have it.
fn raw_length(bytes: u64) -> Result<u32, EncodeStop>
    ensures same { IfOk result (λ raw. raw ≡ bytes) }
    ensures few { IfOk result (λ raw. raw ≤ 65536) }
    ensures refusal { encode_refusal_in result ≡ raw_refusal bytes }
{
    if bytes > u64::from(MOST_RAW) {
        return Err(EncodeStop::TooLong { found: bytes });
    }
    Ok(bytes as u32)
}

// The length of the raw part of a channel, a message and a payload, where a frame may have it.
fn letter_length(channel: &[u8], message: &[u8], payload: &[u8]) -> Result<u32, EncodeStop>
    ensures same { IfOk result (λ raw. raw ≡ length channel.now + length message.now + length payload.now) }
    ensures few { IfOk result (λ raw. raw ≤ 65536) }
    ensures channel { IfOk result (λ raw. length channel.now ≤ 65535) }
    ensures message { IfOk result (λ raw. length message.now ≤ 65535) }
    ensures refusal { encode_refusal_in result ≡ letter_refusal (length channel.now) (length message.now) (length payload.now) }
{
    let names = channel.len() as u64 + message.len() as u64;
    let found = names.saturating_add(payload.len() as u64);
    if channel.len() > MOST_NAME || message.len() > MOST_NAME {
        return Err(EncodeStop::TooLong { found });
    }
    raw_length(found)
}

// A frame without a raw part, whose simple part is these words.
fn plain(alloc: Global, kind: u16, words: &[u32]) -> Result<Vec<u8>, EncodeStop>
    requires { length words.now ≤ 4 }
    ensures spelled { IfOk result (λ frame. IsPlain kind words.now frame.items) }
    ensures refusal { encode_refusal_in result ≡ None }
{
    let mut frame = head(alloc, kind, 4 * words.len() as u16, 0)?;
    put_words(&mut frame, words)?;
    Ok(frame)
}

// A frame whose raw part is a channel, without a simple part.
fn named(alloc: Global, kind: u16, channel: &[u8]) -> Result<Vec<u8>, EncodeStop>
    ensures spelled { IfOk result (λ frame. IsNamed kind channel.now frame.items) }
    ensures refusal { encode_refusal_in result ≡ raw_refusal (length channel.now) }
{
    let raw = raw_length(channel.len() as u64)?;
    let mut frame = head(alloc, kind, 0, raw)?;
    frame.extend_from_slice(channel)?;
    Ok(frame)
}

fn region(alloc: Global, slot: u32, origin: Point, rects: &[Rect]) -> Result<Vec<u8>, EncodeStop>
    ensures spelled { IfOk result (λ frame. SpellsCommand (Region slot origin rects.now) frame.items) }
    ensures refusal { encode_refusal_in result ≡ raw_refusal (16 * length rects.now) }
{
    let raw = raw_length(16 * rects.len() as u64)?;
    let mut frame = head(alloc, 3, 16, raw)?;
    let words = [
        slot,
        origin.x.cast_unsigned(),
        origin.y.cast_unsigned(),
        rects.len() as u32,
    ];
    put_words(&mut frame, &words)?;
    put_rects(&mut frame, rects)?;
    Ok(frame)
}

fn cursor_shape(alloc: Global, w: u32, h: u32, cells: &[u32]) -> Result<Vec<u8>, EncodeStop>
    ensures spelled { IfOk result (λ frame. SpellsCommand (CursorShape w h cells.now) frame.items) }
    ensures refusal { encode_refusal_in result ≡ raw_refusal (4 * length cells.now) }
{
    let raw = raw_length(4 * cells.len() as u64)?;
    let mut frame = head(alloc, 7, 8, raw)?;
    put_words(&mut frame, &[w, h])?;
    put_words(&mut frame, cells)?;
    Ok(frame)
}

// A frame whose simple part is these words and two lengths, and whose raw part is a channel, a message and a payload.
fn letter(
    alloc: Global,
    kind: u16,
    words: &[u32],
    channel: &[u8],
    message: &[u8],
    payload: &[u8],
) -> Result<Vec<u8>, EncodeStop>
    requires { length words.now ≤ 1 }
    ensures spelled { IfOk result (λ frame. IsLetter kind words.now channel.now message.now payload.now frame.items) }
    ensures refusal { encode_refusal_in result ≡ letter_refusal (length channel.now) (length message.now) (length payload.now) }
{
    let raw = letter_length(channel, message, payload)?;
    let mut frame = head(alloc, kind, 4 * words.len() as u16 + 4, raw)?;
    put_words(&mut frame, words)?;
    put_u16(&mut frame, channel.len() as u16)?;
    put_u16(&mut frame, message.len() as u16)?;
    frame.extend_from_slice(channel)?;
    frame.extend_from_slice(message)?;
    frame.extend_from_slice(payload)?;
    Ok(frame)
}

/// The frame of a command. Refused with `TooLong` where the raw part would have more than 65,536 bytes, or a Send's channel or
/// message more than 65,535; no memory is asked for then.
pub fn encode_command(alloc: Global, command: &Command) -> Result<Vec<u8>, EncodeStop>
    ensures spelled { IfOk result (λ frame. SpellsCommand command.now frame.items) }
    ensures refusal { encode_refusal_in result ≡ command_refusal command.now }
{
    match command {
        Command::Create { layer } => plain(alloc, 1, &[*layer]),
        Command::Destroy { slot } => plain(alloc, 2, &[*slot]),
        Command::Region {
            slot,
            origin,
            rects,
        } => region(alloc, *slot, *origin, rects.as_slice()),
        Command::Move { slot, origin } => {
            let x = origin.x.cast_unsigned();
            let y = origin.y.cast_unsigned();
            plain(alloc, 4, &[*slot, x, y])
        }
        Command::Raise { slot } => plain(alloc, 5, &[*slot]),
        Command::Lower { slot } => plain(alloc, 6, &[*slot]),
        Command::CursorShape { w, h, cells } => cursor_shape(alloc, *w, *h, cells.as_slice()),
        Command::CursorMove { x, y } => plain(alloc, 8, &[x.cast_unsigned(), y.cast_unsigned()]),
        Command::CursorShow { shown } => plain(alloc, 9, &[u32::from(*shown)]),
        Command::Join { channel } => named(alloc, 10, channel.as_slice()),
        Command::Leave { channel } => named(alloc, 11, channel.as_slice()),
        Command::Send {
            channel,
            message,
            payload,
        } => letter(
            alloc,
            12,
            &[],
            channel.as_slice(),
            message.as_slice(),
            payload.as_slice(),
        ),
        Command::Take => plain(alloc, 13, &[]),
        Command::IsRegistered { channel } => named(alloc, 14, channel.as_slice()),
    }
}

// The number of a refusal and its two fields, 0 where it hasn't one.
fn cause_words(cause: &Refusal) -> (u32, u32, u32)
    ensures { SpellsCause cause.now result.0 result.1 result.2 }
{
    match cause {
        Refusal::NoWindow { slot } => (1, *slot, 0),
        Refusal::NotYours { slot, owner } => (2, *slot, *owner),
        Refusal::NoSlot => (3, 0, 0),
        Refusal::BadLayer { layer } => (4, *layer, 0),
        Refusal::BadRegion { index } => (5, *index, 0),
        Refusal::TooComplex { slot, rects } => (6, *slot, *rects),
        Refusal::OffScreen { x, y } => (7, x.cast_unsigned(), y.cast_unsigned()),
        Refusal::BadShape { w, h } => (8, *w, *h),
        Refusal::Joined => (9, 0, 0),
        Refusal::TooManyChannels => (10, 0, 0),
        Refusal::BadName => (11, 0, 0),
        Refusal::NotJoined => (12, 0, 0),
        Refusal::NoChannel => (13, 0, 0),
        Refusal::MailboxFull { client } => (14, *client, 0),
        Refusal::TooLarge { len } => (15, *len, 0),
        Refusal::Empty => (16, 0, 0),
    }
}

/// The frame of a reply. Refused with `TooLong` where a message event's raw part would have more than 65,536 bytes, or its channel
/// or its message more than 65,535; no memory is asked for then.
pub fn encode_reply(alloc: Global, reply: &Reply) -> Result<Vec<u8>, EncodeStop>
    ensures spelled { IfOk result (λ frame. SpellsReply reply.now frame.items) }
    ensures refusal { encode_refusal_in result ≡ reply_refusal reply.now }
{
    match reply {
        Reply::Created { slot } => plain(alloc, 129, &[*slot]),
        Reply::Done => plain(alloc, 130, &[]),
        Reply::Sent { to } => plain(alloc, 131, &[*to]),
        Reply::Registered { yes } => plain(alloc, 132, &[u32::from(*yes)]),
        Reply::Event {
            event: Event::Message {
                channel,
                from,
                message,
                payload,
            },
        } => letter(
            alloc,
            133,
            &[*from],
            channel.as_slice(),
            message.as_slice(),
            payload.as_slice(),
        ),
        Reply::Event {
            event: Event::RegionModified { slot },
        } => plain(alloc, 134, &[*slot]),
        Reply::Refused { cause } => {
            let (number, first, second) = cause_words(cause);
            plain(alloc, 135, &[number, first, second])
        }
    }
}
