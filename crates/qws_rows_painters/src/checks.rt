//! Whether words are a table that a server turn may publish after another.
ghost use Rattle.std.specs.Prelude.{◌≡◌, ◌+◌, ◌<◌, ◌≤◌, length, slice_index, IsTrue, IfSome};
ghost use Rattle.turn_logs.specs.Tables.{count_in, revision_in, rect_in, IsCursorIn, IsOnScreen, IsTable, Follows, SameRow};
ghost use Rattle.region_table.specs.Packing.{unpacked};
ghost use Rattle.qws_rows_painters.specs.Checks.{IsRowIn, StandInRow, AreRows, AreCells, left_in, right_in};

use qws_base::{Rect, Size};
use region_table::unpack;

// The first word of a row, and the words of a row.
const FIRST_ROW: usize = 2052;

const ROW_SIZE: usize = 260;

// Whether a row has an owner, a revision, an origin and a number of rectangles as a table has them.
fn is_row(admitted: u64, words: &[u64], slot: usize) -> bool
    requires long { length words.now ≡ 10632 }
    requires slot { slot < 33 }
    ensures { IsTrue result → IsRowIn admitted words.now slot }
{
    let row = FIRST_ROW + ROW_SIZE * slot;
    let owner = words[row];
    let origin = words[row + 2];
    let count = words[row + 3];
    if words[row + 1] == 0 || count > 256 || owner > admitted {
        return false;
    }
    if owner == 0 && count > 0 {
        return false;
    }
    let (x, y) = (origin % 65536, origin / 65536);
    if x < 28672 || x > 36863 {
        return false;
    }
    28672 <= y && y <= 36863
}

// Whether a rectangle isn't empty, and lies on the screen.
fn is_on_screen(size: Size, rect: Rect) -> bool
    ensures { IsTrue result → IsOnScreen size rect }
{
    if rect.w == 0 || rect.h == 0 || rect.x < 0 || rect.y < 0 {
        return false;
    }
    let right = i64::from(rect.x) + i64::from(rect.w);
    let bottom = i64::from(rect.y) + i64::from(rect.h);
    right <= i64::from(size.w()) && bottom <= i64::from(size.h())
}

// The column past the rectangles of a row, where they lie on the screen one right of the other from a column on.
fn past_row(size: Size, words: &[u64], slot: usize, from: u64) -> Option<u64>
    requires long { length words.now ≡ 10632 }
    requires slot { slot < 33 }
    requires few { count_in words.now slot ≤ 256 }
    ensures { IfSome result (λ past. StandInRow size words.now slot (count_in words.now slot) from past) }
{
    let row = FIRST_ROW + ROW_SIZE * slot;
    let count = words[row + 3] as usize;
    let mut past = from;
    for j in 0..count {
        let word = words[row + 4 + j];
        let left = word % 65536;
        if left < past || !is_on_screen(size, unpack(word)) {
            return None;
        }
        past = left + word / 4_294_967_296 % 65536;
    }
    Some(past)
}

// Whether the rows are those of a table, of which no two rectangles share a column.
fn are_rows(size: Size, admitted: u64, words: &[u64]) -> bool
    requires long { length words.now ≡ 10632 }
    ensures { IsTrue result → AreRows size admitted words.now 33 }
{
    let mut past = 0;
    for slot in 0..33 {
        if !is_row(admitted, words, slot) {
            return false;
        }
        match past_row(size, words, slot, past) {
            Some(next) => past = next,
            None => return false,
        }
    }
    true
}

// Whether the cells of the cursor are below 2^32.
fn are_cells(words: &[u64]) -> bool
    requires long { length words.now ≡ 10632 }
    ensures { IsTrue result → AreCells words.now 1028 }
{
    for index in 4..1028 {
        if words[index] >= 4_294_967_296 {
            return false;
        }
    }
    true
}

// Whether the words of the cursor are those of a table.
fn is_cursor(size: Size, words: &[u64]) -> bool
    requires long { length words.now ≡ 10632 }
    ensures { IsTrue result → IsCursorIn size words.now }
{
    let (place, shape) = (words[2], words[3]);
    let (w, h) = (shape % 65536, shape / 65536);
    let in_columns = place % 65536 < u64::from(size.w());
    let in_rows = place / 65536 % 65536 < u64::from(size.h());
    if !in_columns || !in_rows || place / 4_294_967_296 > 1 {
        return false;
    }
    let some = 1 <= w && w <= 32 && 1 <= h && h <= 32;
    let none = w == 0 && h == 0;
    (some || none) && are_cells(words)
}

/// Whether the words are a table with that stamp, whose owners are below that number. Rectangles of all rows stand one right
/// of the other.
pub fn is_table(size: Size, admitted: u64, stamp: u64, words: &[u64]) -> bool
    requires long { length words.now ≡ 10632 }
    ensures { IsTrue result → IsTable size admitted stamp words.now }
{
    words[1] == stamp && is_cursor(size, words) && are_rows(size, admitted, words)
}

// Whether a row is the same in two tables.
fn is_same_row(before: &[u64], after: &[u64], slot: usize) -> bool
    requires before { length before.now ≡ 10632 }
    requires after { length after.now ≡ 10632 }
    requires slot { slot < 33 }
    requires few { count_in before.now slot ≤ 256 }
    ensures { IsTrue result → SameRow before.now after.now slot }
{
    let row = FIRST_ROW + ROW_SIZE * slot;
    for k in 0..ROW_SIZE {
        if before[row + k] != after[row + k] {
            return false;
        }
    }
    true
}

/// Whether each row of a table is the one before it, or has a greater revision.
pub fn follow(before: &[u64], after: &[u64]) -> bool
    requires before { length before.now ≡ 10632 }
    requires after { length after.now ≡ 10632 }
    ensures { IsTrue result → Follows before.now after.now }
{
    for slot in 0..33 {
        let row = FIRST_ROW + ROW_SIZE * slot;
        let few = before[row + 3] <= 256;
        let rises = before[row + 1] < after[row + 1];
        if !rises && !(few && is_same_row(before, after, slot)) {
            return false;
        }
    }
    true
}
