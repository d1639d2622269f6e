//! Frames to commands and replies.
ghost use Rattle.std.specs.Prelude.{◌≡◌, ◌≢◌, ◌≤◌, ◌<◌, ◌+◌, ◌++◌, length, drop, false, true, None, IfOk};
ghost use Rattle.qws_frames.specs.Layout.{u16_at, u32_at, rects_at, words_at, SpellsCommand, SpellsReply, SpellsCause};
ghost use Rattle.qws_frames.specs.Stops.{field_count, takes_bytes, frame_refusal, refusal_in, IsOrNoMemory};
ghost use Rattle.qws_base.specs.declared.commands.Command.{Command};
ghost use Rattle.qws_base.specs.declared.replies.Reply.{Reply};

use crate::checks::frame_stop;
use crate::fields::{i32_at, point_at, rect_at, u16_at, u32_at};
use crate::stops::FrameStop;
use qws_base::{Bytes, Command, Event, Rects, Refusal, Reply, Words};
use std::alloc::Global;

fn bytes_from(alloc: Global, bytes: &[u8], start: usize) -> Result<Bytes, FrameStop>
    requires { start ≤ length bytes.now }
    ensures copied { IfOk result (λ all. all ≡ drop start bytes.now) }
    ensures refusal { refusal_in result ≡ None }
{
    let all = bytes[start..].to_vec(alloc)?;
    Ok(Bytes::of(all))
}

fn rects_in(alloc: Global, bytes: &[u8], count: u32) -> Result<Rects, FrameStop>
    requires { count ≤ 4096 }
    ensures read { IfOk result (λ all. all ≡ rects_at 24 count bytes.now) }
    ensures refusal { refusal_in result ≡ None }
{
    let mut all = Vec::new(alloc);
    for k in 0..count {
        all.push(rect_at(bytes, 24 + 16 * k))?;
    }
    Ok(Rects::of(all))
}

fn words_in(alloc: Global, bytes: &[u8], count: u32) -> Result<Words, FrameStop>
    requires { count ≤ 16384 }
    ensures read { IfOk result (λ all. all ≡ words_at 16 count bytes.now) }
    ensures refusal { refusal_in result ≡ None }
{
    let mut all = Vec::new(alloc);
    for k in 0..count {
        all.push(u32_at(bytes, 16 + 4 * k))?;
    }
    Ok(Words::of(all))
}

// A channel, a message and a payload, one after the other.
struct Letter {
    channel: Bytes,
    message: Bytes,
    payload: Bytes,
}

fn letter_at(
    alloc: Global,
    bytes: &[u8],
    start: usize,
    channel_len: u16,
    message_len: u16,
) -> Result<Letter, FrameStop>
    requires { start + channel_len + message_len ≤ length bytes.now }
    ensures channel { IfOk result (λ l. length l.channel ≡ channel_len) }
    ensures message { IfOk result (λ l. length l.message ≡ message_len) }
    ensures payload { IfOk result (λ l. start + channel_len + message_len + length l.payload ≡ length bytes.now) }
    ensures text { IfOk result (λ l. drop start bytes.now ≡ (l.channel ++ l.message) ++ l.payload) }
    ensures refusal { refusal_in result ≡ None }
{
    let (channel, others) = bytes[start..].split_at(channel_len as usize);
    let (message, payload) = others.split_at(message_len as usize);
    let channel = channel.to_vec(alloc)?;
    let message = message.to_vec(alloc)?;
    let payload = payload.to_vec(alloc)?;
    Ok(Letter {
        channel: Bytes::of(channel),
        message: Bytes::of(message),
        payload: Bytes::of(payload),
    })
}

fn region(alloc: Global, bytes: &[u8]) -> Result<Command, FrameStop>
    requires refused { frame_refusal false bytes.now ≡ None }
    requires kind { u16_at 0 bytes.now ≡ 3 }
    ensures spelled { IfOk result (λ c. SpellsCommand c bytes.now) }
    ensures refusal { refusal_in result ≡ None }
{
    let rects = rects_in(alloc, bytes, u32_at(bytes, 20))?;
    Ok(Command::Region {
        slot: u32_at(bytes, 8),
        origin: point_at(bytes, 12),
        rects,
    })
}

fn cursor_shape(alloc: Global, bytes: &[u8]) -> Result<Command, FrameStop>
    requires refused { frame_refusal false bytes.now ≡ None }
    requires kind { u16_at 0 bytes.now ≡ 7 }
    ensures spelled { IfOk result (λ c. SpellsCommand c bytes.now) }
    ensures refusal { refusal_in result ≡ None }
{
    let cells = words_in(alloc, bytes, u32_at(bytes, 4) / 4)?;
    Ok(Command::CursorShape {
        w: u32_at(bytes, 8),
        h: u32_at(bytes, 12),
        cells,
    })
}

fn send(alloc: Global, bytes: &[u8]) -> Result<Command, FrameStop>
    requires refused { frame_refusal false bytes.now ≡ None }
    requires kind { u16_at 0 bytes.now ≡ 12 }
    ensures spelled { IfOk result (λ c. SpellsCommand c bytes.now) }
    ensures refusal { refusal_in result ≡ None }
{
    let letter = letter_at(alloc, bytes, 12, u16_at(bytes, 8), u16_at(bytes, 10))?;
    let Letter {
        channel,
        message,
        payload,
    } = letter;
    Ok(Command::Send {
        channel,
        message,
        payload,
    })
}

// A command without a raw part.
fn plain_command(bytes: &[u8]) -> Command
    requires refused { frame_refusal false bytes.now ≡ None }
    requires region { u16_at 0 bytes.now ≢ 3 }
    requires shape { u16_at 0 bytes.now ≢ 7 }
    requires bytes { takes_bytes (u16_at 0 bytes.now) ≡ false }
    ensures { SpellsCommand result bytes.now }
{
    match u16_at(bytes, 0) {
        1 => Command::Create {
            layer: u32_at(bytes, 8),
        },
        2 => Command::Destroy {
            slot: u32_at(bytes, 8),
        },
        4 => Command::Move {
            slot: u32_at(bytes, 8),
            origin: point_at(bytes, 12),
        },
        5 => Command::Raise {
            slot: u32_at(bytes, 8),
        },
        6 => Command::Lower {
            slot: u32_at(bytes, 8),
        },
        8 => Command::CursorMove {
            x: i32_at(bytes, 8),
            y: i32_at(bytes, 12),
        },
        9 => Command::CursorShow {
            shown: u32_at(bytes, 8) == 1,
        },
        _ => Command::Take,
    }
}

fn command_in(alloc: Global, bytes: &[u8]) -> Result<Command, FrameStop>
    requires { frame_refusal false bytes.now ≡ None }
    ensures spelled { IfOk result (λ c. SpellsCommand c bytes.now) }
    ensures refusal { refusal_in result ≡ None }
{
    match u16_at(bytes, 0) {
        3 => region(alloc, bytes),
        7 => cursor_shape(alloc, bytes),
        10 => {
            let channel = bytes_from(alloc, bytes, 8)?;
            Ok(Command::Join { channel })
        }
        11 => {
            let channel = bytes_from(alloc, bytes, 8)?;
            Ok(Command::Leave { channel })
        }
        12 => send(alloc, bytes),
        14 => {
            let channel = bytes_from(alloc, bytes, 8)?;
            Ok(Command::IsRegistered { channel })
        }
        _ => Ok(plain_command(bytes)),
    }
}

/// The command that the bytes spell, which is the only one. Refused with the first cause, in the order of `frame_stop`.
pub fn decode_command(alloc: Global, bytes: &[u8]) -> Result<Command, FrameStop>
    ensures spelled { IfOk result (λ c. SpellsCommand c bytes.now) }
    ensures refusal { refusal_in result ≡ frame_refusal false bytes.now }
    ensures back { (c : Command) → SpellsCommand c bytes.now → IsOrNoMemory result c }
{
    match frame_stop(bytes, false) {
        Some(stop) => Err(stop),
        None => command_in(alloc, bytes),
    }
}

// The refusal of a number and its fields.
fn cause(number: u32, first: u32, second: u32) -> Refusal
    requires low { 1 ≤ number }
    requires high { number ≤ 16 }
    requires first { field_count number ≡ 0 → first ≡ 0 }
    requires second { field_count number < 2 → second ≡ 0 }
    ensures { SpellsCause result number first second }
{
    match number {
        1 => Refusal::NoWindow { slot: first },
        2 => Refusal::NotYours {
            slot: first,
            owner: second,
        },
        3 => Refusal::NoSlot,
        4 => Refusal::BadLayer { layer: first },
        5 => Refusal::BadRegion { index: first },
        6 => Refusal::TooComplex {
            slot: first,
            rects: second,
        },
        7 => Refusal::OffScreen {
            x: first.cast_signed(),
            y: second.cast_signed(),
        },
        8 => Refusal::BadShape {
            w: first,
            h: second,
        },
        9 => Refusal::Joined,
        10 => Refusal::TooManyChannels,
        11 => Refusal::BadName,
        12 => Refusal::NotJoined,
        13 => Refusal::NoChannel,
        14 => Refusal::MailboxFull { client: first },
        15 => Refusal::TooLarge { len: first },
        _ => Refusal::Empty,
    }
}

fn message_event(alloc: Global, bytes: &[u8]) -> Result<Reply, FrameStop>
    requires refused { frame_refusal true bytes.now ≡ None }
    requires kind { u16_at 0 bytes.now ≡ 133 }
    ensures spelled { IfOk result (λ r. SpellsReply r bytes.now) }
    ensures refusal { refusal_in result ≡ None }
{
    let letter = letter_at(alloc, bytes, 16, u16_at(bytes, 12), u16_at(bytes, 14))?;
    let Letter {
        channel,
        message,
        payload,
    } = letter;
    let event = Event::Message {
        channel,
        from: u32_at(bytes, 8),
        message,
        payload,
    };
    Ok(Reply::Event { event })
}

fn plain_reply(bytes: &[u8]) -> Reply
    requires refused { frame_refusal true bytes.now ≡ None }
    requires bytes { u16_at 0 bytes.now ≢ 133 }
    ensures { SpellsReply result bytes.now }
{
    match u16_at(bytes, 0) {
        129 => Reply::Created {
            slot: u32_at(bytes, 8),
        },
        130 => Reply::Done,
        131 => Reply::Sent {
            to: u32_at(bytes, 8),
        },
        132 => Reply::Registered {
            yes: u32_at(bytes, 8) == 1,
        },
        134 => Reply::Event {
            event: Event::RegionModified {
                slot: u32_at(bytes, 8),
            },
        },
        _ => Reply::Refused {
            cause: cause(u32_at(bytes, 8), u32_at(bytes, 12), u32_at(bytes, 16)),
        },
    }
}

/// The reply that the bytes spell, which is the only one. Refused with the first cause, in the order of `frame_stop`.
pub fn decode_reply(alloc: Global, bytes: &[u8]) -> Result<Reply, FrameStop>
    ensures spelled { IfOk result (λ r. SpellsReply r bytes.now) }
    ensures refusal { refusal_in result ≡ frame_refusal true bytes.now }
    ensures back { (r : Reply) → SpellsReply r bytes.now → IsOrNoMemory result r }
{
    if let Some(stop) = frame_stop(bytes, true) {
        return Err(stop);
    }
    if u16_at(bytes, 0) == 133 {
        return message_event(alloc, bytes);
    }
    Ok(plain_reply(bytes))
}
