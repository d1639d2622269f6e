//! Numbers at places of a frame, lowest byte first. A byte past the end reads as 0.
ghost use Rattle.std.specs.Prelude.{◌≡◌, ◌<◌, slice_index};
ghost use Rattle.qws_frames.specs.Layout.{u16_at, u32_at, i32_at, point_at, rect_at};

use byteorder::{ByteOrder, LittleEndian};
use qws_base::{Point, Rect};

fn byte_at(bytes: &[u8], at: usize) -> u8
    ensures { result ≡ slice_index bytes.now at }
{
    bytes.get(at).copied().unwrap_or(0)
}

pub fn u16_at(bytes: &[u8], at: u32) -> u16
    ensures { result ≡ u16_at at bytes.now }
{
    let at = at as usize;
    LittleEndian::read_u16(&[byte_at(bytes, at), byte_at(bytes, at + 1)])
}

pub fn u32_at(bytes: &[u8], at: u32) -> u32
    ensures { result ≡ u32_at at bytes.now }
{
    let at = at as usize;
    LittleEndian::read_u32(&[
        byte_at(bytes, at),
        byte_at(bytes, at + 1),
        byte_at(bytes, at + 2),
        byte_at(bytes, at + 3),
    ])
}

pub fn i32_at(bytes: &[u8], at: u32) -> i32
    ensures { result ≡ i32_at at bytes.now }
{
    u32_at(bytes, at).cast_signed()
}

pub fn point_at(bytes: &[u8], at: u32) -> Point
    requires { at < 2097152 }
    ensures { result ≡ point_at at bytes.now }
{
    Point {
        x: i32_at(bytes, at),
        y: i32_at(bytes, at + 4),
    }
}

pub fn rect_at(bytes: &[u8], at: u32) -> Rect
    requires { at < 2097152 }
    ensures { result ≡ rect_at at bytes.now }
{
    Rect {
        x: i32_at(bytes, at),
        y: i32_at(bytes, at + 4),
        w: u32_at(bytes, at + 8),
        h: u32_at(bytes, at + 12),
    }
}
