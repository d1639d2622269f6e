//! What each word of a table holds.
ghost use Rattle.std.specs.Prelude.{◌≡◌, ◌≤◌, All, map, slice_index};
ghost use Rattle.qws_base.specs.Points.{IsPlaced};
ghost use Rattle.region_table.specs.Numbers.{IsTableWord};
ghost use Rattle.region_table.specs.Packing.{IsPackable, packed};
ghost use Rattle.region_table.specs.Tables.{IsSpellable, IsSpellableRow, IsCursor, owner_word, origin_word, place_word, shape_word, cell_value, head_word_of, row_word_of, word_of_table};

use crate::numbers::{FIRST_CELL, FIRST_ROW, PLACE, ROW_SIZE, SHAPE, STAMP};
use crate::packing::pack;
use crate::tables::{Row, Table};
use qws_base::{Cursor, Point, Rects};

/// What a row's first word holds: the owner's number plus one; 0 without an owner.
pub fn owner_word(owner: Option<u32>) -> u64
    ensures { result ≡ owner_word owner }
{
    match owner {
        None => 0,
        Some(client) => u64::from(client) + 1,
    }
}

/// What a row's word of the origin holds: both coordinates with an offset of 32,768, sixteen bits each.
pub fn origin_word(p: Point) -> u64
    requires { IsPlaced p }
    ensures { result ≡ origin_word p }
{
    (i64::from(p.x) + 32768) as u64 + (((i64::from(p.y) + 32768) as u64) << 16)
}

/// What the word of the cursor's place holds: its column and row, sixteen bits each, and above them whether it is shown.
pub fn place_word(cursor: &Cursor) -> u64
    requires { IsCursor cursor.now }
    ensures { result ≡ place_word cursor.now }
{
    let shown = if cursor.shown { 1 << 32 } else { 0 };
    u64::from(cursor.x) + (u64::from(cursor.y) << 16) + shown
}

/// What the word of the cursor's shape holds: its width and height, sixteen bits each.
pub fn shape_word(cursor: &Cursor) -> u64
    requires { IsCursor cursor.now }
    ensures { result ≡ shape_word cursor.now }
{
    u64::from(cursor.w) + (u64::from(cursor.h) << 16)
}

// The rectangle at a place in a row; 0 past the last.
fn rect_word(rects: &Rects, j: usize) -> u64
    requires { All IsPackable rects.now }
    ensures { result ≡ slice_index (map packed rects.now) j }
{
    match rects.as_slice().get(j) {
        Some(rect) => pack(*rect),
        None => 0,
    }
}

// The cell in a column and a row; 0 outside the shape.
fn cell_value(cursor: &Cursor, column: u32, row: u32) -> u64
    requires { IsCursor cursor.now }
    ensures { result ≡ cell_value cursor.now column row }
{
    if column < cursor.w && row < cursor.h {
        u64::from(cursor.cells.as_slice()[(row * cursor.w + column) as usize])
    } else {
        0
    }
}

// The words 1 to 1,027.
fn head_word(table: &Table, index: u64) -> u64
    requires cursor { IsCursor table.now.cursor }
    requires low { 1 ≤ index }
    requires high { index ≤ 1027 }
    ensures { result ≡ head_word_of table.now index }
{
    let cursor = &table.cursor;
    match index {
        STAMP => table.stamp,
        PLACE => place_word(cursor),
        SHAPE => shape_word(cursor),
        _ => {
            let cell = index - FIRST_CELL;
            cell_value(cursor, (cell % 32) as u32, (cell / 32) as u32)
        }
    }
}

// The words of a row, counted from its first.
fn row_word(row: &Row, k: u64) -> u64
    requires { IsSpellableRow row.now }
    ensures { result ≡ row_word_of row.now k }
{
    match k {
        0 => owner_word(row.owner),
        1 => row.revision,
        2 => origin_word(row.origin),
        3 => row.rects.as_slice().len() as u64,
        _ => rect_word(&row.rects, (k - 4) as usize),
    }
}

/// What a table holds in the word with that number: the stamp is word 1, the cursor's place and shape are words 2 and 3,
/// its cells begin at word 4, and the rows at word 2,052. A rectangle word past a row's rectangles is 0.
pub fn word_of(table: &Table, index: u64) -> u64
    requires word { IsTableWord index }
    requires table { IsSpellable table.now }
    ensures { result ≡ word_of_table table.now index }
{
    if index < FIRST_ROW {
        head_word(table, index)
    } else {
        let row = &table.rows.as_slice()[((index - FIRST_ROW) / ROW_SIZE) as usize];
        row_word(row, (index - FIRST_ROW) % ROW_SIZE)
    }
}
