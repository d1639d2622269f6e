//! What bytes must meet to be a frame, in order.
ghost use Rattle.std.specs.Prelude.{◌≡◌, Some, IfSome, ◌<◌, ◌*◌, ◌%◌, nat_le, nat_lt, not, ◌&&◌, ◌||◌, ◌==◌, ◌+◌, length};
ghost use Rattle.qws_frames.specs.Layout.{u16_at, u32_at};
ghost use Rattle.qws_frames.specs.Stops.{is_known, simple_length, takes_bytes, raw_fits, field_count, whole_length, head_refusal, parts_refusal, field_refusal, frame_refusal, stop_of};

use crate::fields::{u16_at, u32_at};
use crate::stops::FrameStop;

/// The most bytes of a raw part.
pub const MOST_RAW: u32 = 65536;

fn is_known(is_reply: bool, kind: u16) -> bool
    ensures { result ≡ is_known is_reply kind }
{
    if is_reply {
        129 <= kind && kind <= 135
    } else {
        1 <= kind && kind <= 14
    }
}

fn simple_length(kind: u16) -> u16
    ensures { result ≡ simple_length kind }
{
    if kind == 10 || kind == 11 || kind == 13 || kind == 14 || kind == 130 {
        return 0;
    }
    if kind == 7 || kind == 8 || kind == 133 {
        return 8;
    }
    if kind == 4 || kind == 135 {
        return 12;
    }
    if kind == 3 { 16 } else { 4 }
}

fn takes_bytes(kind: u16) -> bool
    ensures { result ≡ takes_bytes kind }
{
    kind == 10 || kind == 11 || kind == 12 || kind == 14 || kind == 133
}

fn raw_fits(kind: u16, raw: u32, bytes: &[u8]) -> bool
    ensures { result ≡ raw_fits kind raw bytes.now }
{
    if takes_bytes(kind) {
        return true;
    }
    if kind == 3 {
        return u64::from(raw) == 16 * u64::from(u32_at(bytes, 20));
    }
    if kind == 7 {
        return raw % 4 == 0;
    }
    raw == 0
}

fn whole_length(bytes: &[u8]) -> u64
    ensures { result ≡ whole_length bytes.now }
{
    8 + u64::from(u16_at(bytes, 2)) + u64::from(u32_at(bytes, 4))
}

fn head_stop(bytes: &[u8], is_reply: bool) -> Option<FrameStop>
    ensures stop { result ≡ head_refusal is_reply bytes.now }
    ensures told { IfSome result (λ stop. stop_of stop ≡ Some stop) }
{
    let have = bytes.len() as u64;
    if have < 8 {
        return Some(FrameStop::Short { have, need: 8 });
    }
    let kind = u16_at(bytes, 0);
    if !is_known(is_reply, kind) {
        return Some(FrameStop::BadType {
            found: u64::from(kind),
        });
    }
    let raw = u32_at(bytes, 4);
    if raw > MOST_RAW {
        return Some(FrameStop::TooLong {
            found: u64::from(raw),
        });
    }
    if u16_at(bytes, 2) != simple_length(kind) {
        return Some(FrameStop::BadLength { at: 2 });
    }
    None
}

fn parts_stop(bytes: &[u8]) -> Option<FrameStop>
    ensures stop { result ≡ parts_refusal bytes.now }
    ensures told { IfSome result (λ stop. stop_of stop ≡ Some stop) }
{
    let have = bytes.len() as u64;
    let need = whole_length(bytes);
    if have < need {
        return Some(FrameStop::Short { have, need });
    }
    if !raw_fits(u16_at(bytes, 0), u32_at(bytes, 4), bytes) {
        return Some(FrameStop::BadLength { at: 4 });
    }
    if need < have {
        return Some(FrameStop::BadLength { at: need });
    }
    None
}

fn field_count(number: u32) -> u32
    ensures { result ≡ field_count number }
{
    if number == 2 || number == 6 || number == 7 || number == 8 {
        return 2;
    }
    if number == 1 || number == 4 || number == 5 || number == 14 || number == 15 {
        return 1;
    }
    0
}

fn is_no_truth(kind: u16, bytes: &[u8]) -> bool
    ensures { result ≡ (((kind == 9) || (kind == 132)) && nat_lt 1 (u32_at 8 bytes.now)) }
{
    (kind == 9 || kind == 132) && u32_at(bytes, 8) > 1
}

fn is_no_number(kind: u16, bytes: &[u8]) -> bool
    ensures { result ≡ ((kind == 135) && not (nat_le 1 (u32_at 8 bytes.now) && nat_le (u32_at 8 bytes.now) 16)) }
{
    let number = u32_at(bytes, 8);
    kind == 135 && !(1 <= number && number <= 16)
}

// Whether two lengths, at a place and behind it, are together more than the raw part has.
fn exceed_raw(bytes: &[u8], at: u32) -> bool
    requires { at < 16 }
    ensures { result ≡ nat_lt (u32_at 4 bytes.now) (u16_at at bytes.now + u16_at (at + 2) bytes.now) }
{
    u32_at(bytes, 4) < u32::from(u16_at(bytes, at)) + u32::from(u16_at(bytes, at + 2))
}

fn has_unused(kind: u16, bytes: &[u8]) -> bool
    ensures { result ≡ ((kind == 135) && ((field_count (u32_at 8 bytes.now) == 0) && not (u32_at 12 bytes.now == 0))) }
{
    kind == 135 && (field_count(u32_at(bytes, 8)) == 0 && u32_at(bytes, 12) != 0)
}

fn has_second_unused(kind: u16, bytes: &[u8]) -> bool
    ensures { result ≡ ((kind == 135) && (nat_lt (field_count (u32_at 8 bytes.now)) 2 && not (u32_at 16 bytes.now == 0))) }
{
    kind == 135 && (field_count(u32_at(bytes, 8)) < 2 && u32_at(bytes, 16) != 0)
}

fn field_stop(bytes: &[u8]) -> Option<FrameStop>
    ensures stop { result ≡ field_refusal bytes.now }
    ensures told { IfSome result (λ stop. stop_of stop ≡ Some stop) }
{
    let kind = u16_at(bytes, 0);
    if is_no_truth(kind, bytes) || is_no_number(kind, bytes) {
        return Some(FrameStop::BadField { at: 8 });
    }
    if kind == 12 && exceed_raw(bytes, 8) {
        return Some(FrameStop::BadField { at: 8 });
    }
    if kind == 133 && exceed_raw(bytes, 12) {
        return Some(FrameStop::BadField { at: 12 });
    }
    if has_unused(kind, bytes) {
        return Some(FrameStop::BadField { at: 12 });
    }
    if has_second_unused(kind, bytes) {
        return Some(FrameStop::BadField { at: 16 });
    }
    None
}

/// The first cause for which bytes are no frame of a command, or of a reply.
pub fn frame_stop(bytes: &[u8], is_reply: bool) -> Option<FrameStop>
    ensures stop { result ≡ frame_refusal is_reply bytes.now }
    ensures told { IfSome result (λ stop. stop_of stop ≡ Some stop) }
{
    if let Some(stop) = head_stop(bytes, is_reply) {
        return Some(stop);
    }
    if let Some(stop) = parts_stop(bytes) {
        return Some(stop);
    }
    field_stop(bytes)
}
