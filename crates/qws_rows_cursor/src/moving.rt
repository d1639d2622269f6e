//! Tables of two windows and a cursor that move with each server turn, as words and as the plain picture has them, and the
//! pictures that are painted on the windows.
ghost use Rattle.std.specs.Prelude.{◌≡◌, ◌<◌, ◌^◌, IfOk};
ghost use Rattle.qws_base.specs.Shown.{IsShape};

use crate::plain::window;
use gfx_fills::Fill;
use qws_base::{Cursor, Ink, OutOfMemory, Point, Rect, Rgb, WindowView};
use std::alloc::Global;
use sw_cursor::{Shape, ShapeStop};

// The cells of the cursor, three columns and two rows.
const CELLS: [u32; 6] = [
    0xff00_0000,
    0x80ff_0000,
    0x4000_ff00,
    0xc000_00ff,
    0x00ff_ffff,
    0x80ff_ffff,
];

// A part of the screen, of eight columns and four rows.
#[derive(Clone, Copy)]
struct Area {
    x: u8,
    y: u8,
    w: u8,
    h: u8,
}

// The window of a slot in the tables whose numbers leave a rest after division by 3: slot 0 and slot 1 meet in column 4, then in
// column 2, then in column 7.
fn area_of(slot: u32, number: u64) -> Area {
    let (x, y, w, h) = match (slot, number % 3) {
        (0, 0) => (0, 0, 4, 4),
        (0, 1) => (0, 1, 2, 3),
        (0, _) => (1, 0, 6, 4),
        (_, 0) => (4, 0, 4, 4),
        (_, 1) => (2, 0, 6, 3),
        (_, _) => (7, 1, 1, 2),
    };
    Area { x, y, w, h }
}

// The column and the row of the cursor, and whether it is shown.
fn place(number: u64) -> (u64, u64, bool)
    ensures column { result.0 < 8 }
    ensures row { result.1 < 4 }
{
    (number % 8, number / 2 % 4, number % 5 > 0)
}

// The words of a window: its owner, its revision, its origin, its count and its rectangle.
fn row_words(slot: u32, number: u64) -> [u64; 5]
    requires { number < 2 ^ 63 }
{
    let area = area_of(slot, number);
    let (x, y) = (u64::from(area.x), u64::from(area.y));
    let (w, h) = (u64::from(area.w), u64::from(area.h));
    let origin = x + 32768 + (y + 32768) * 65536;
    let rect = x + y * 65536 + w * 4_294_967_296 + h * 281_474_976_710_656;
    [u64::from(slot) + 1, number + 1, origin, 1, rect]
}

/// The words of the table with a number, from 1 on: client 0's window in slot 0, client 1's in slot 1, and the cursor.
pub fn changes_at(number: u64) -> [(usize, u64); 18]
    requires { number < 2 ^ 63 }
{
    let [owner, revision, origin, count, rect] = row_words(0, number);
    let [
        other_owner,
        other_revision,
        other_origin,
        other_count,
        other_rect,
    ] = row_words(1, number);
    let (x, y, shown) = place(number);
    let shown_bit = if shown { 4_294_967_296 } else { 0 };
    [
        (2, x + y * 65536 + shown_bit),
        (3, 0x0002_0003),
        (4, u64::from(CELLS[0])),
        (5, u64::from(CELLS[1])),
        (6, u64::from(CELLS[2])),
        (36, u64::from(CELLS[3])),
        (37, u64::from(CELLS[4])),
        (38, u64::from(CELLS[5])),
        (2052, owner),
        (2053, revision),
        (2054, origin),
        (2055, count),
        (2056, rect),
        (2312, other_owner),
        (2313, other_revision),
        (2314, other_origin),
        (2315, other_count),
        (2316, other_rect),
    ]
}

// The window of a slot, as the plain picture has it.
fn window_at(alloc: Global, slot: u32, number: u64) -> Result<WindowView, OutOfMemory> {
    let area = area_of(slot, number);
    let origin = Point {
        x: i32::from(area.x),
        y: i32::from(area.y),
    };
    let whole = Rect {
        x: 0,
        y: 0,
        w: u32::from(area.w),
        h: u32::from(area.h),
    };
    window(alloc, slot, slot, origin, &[whole])
}

/// The windows of the table with a number. A new screen's table, number 0, has none.
pub fn windows_at(alloc: Global, number: u64) -> Result<Vec<WindowView>, OutOfMemory> {
    let mut windows = Vec::new(alloc);
    if number > 0 {
        windows.push(window_at(alloc, 0, number)?)?;
        windows.push(window_at(alloc, 1, number)?)?;
    }
    Ok(windows)
}

/// The cursor of the table with a number, from 1 on.
pub fn cursor_at(alloc: Global, number: u64) -> Result<Cursor, ShapeStop>
    ensures { IfOk result IsShape }
{
    let (x, y, shown) = place(number);
    let shape = Shape::new(alloc, 3, 2, &CELLS)?;
    Ok(shape.cursor(x as u32, y as u32, shown))
}

/// The picture with a tag, for a slot. What a row of them leaves depends on their order.
pub fn picture(slot: u32, tag: u64) -> Fill {
    let rect = Rect {
        x: (tag % 5) as i32 - 1,
        y: (tag % 3) as i32 - 1,
        w: (tag % 4) as u32 + 1,
        h: (tag / 4 % 4) as u32 + 1,
    };
    let c = Rgb::of_channels((tag % 256) as u8, (tag / 2 % 256) as u8, (slot % 256) as u8);
    let ink = match tag % 7 {
        0 => Ink::Copy { c },
        1 => Ink::Xor { c },
        _ => Ink::Blend {
            c,
            a: (tag / 3 % 256) as u8,
        },
    };
    Fill::new(rect, ink)
}
