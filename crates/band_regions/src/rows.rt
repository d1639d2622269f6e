//! Rows of spans: the operations on two rows, each by one walk over their whole spans.
ghost use Rattle.std.specs.Prelude.{◌≡◌, ◌+◌, ℤ, pos, negsuc, ◌+ℤ◌, ◌≤ℤ◌, ◌&&◌, ◌||◌, ◌++◌, not, length, ◌≢◌, OnOk};
ghost use Rattle.qws_base.specs.Regions.{right};
ghost use Rattle.band_regions.specs.Rows.{IsSpan, IsBandRow, IsAdded, IsTaken, has_column, columns_of, start_of_row};

use qws_base::{OutOfMemory, Rect};

/// The first column and the first row.
pub const FIRST: i32 = -32768;

/// One past the last column and the last row.
pub const END: i32 = 32768;

/// How many columns, or rows, there are from the first up to the second.
pub fn distance(from: i32, to: i32) -> u32
    requires ordered { from ≤ℤ to }
    requires low { negsuc 32767 ≤ℤ from }
    requires high { to ≤ℤ pos 32768 }
    ensures { (from +ℤ pos result) ≡ to }
{
    (to - from) as u32
}

/// One past the last column of a span.
pub fn right_end(span: &Rect) -> i32
    requires { IsSpan span.now }
    ensures { result ≡ right span.now }
{
    span.x + span.w as i32
}

/// Where the row starts; `END` where it has no span.
fn start_of(row: &[Rect]) -> i32
    requires { IsBandRow row.now }
    ensures { result ≡ start_of_row row.now }
{
    match row {
        [] => END,
        [span, ..] => span.x,
    }
}

/// Appends the columns, where there are any, as a span that has those rows.
fn push_columns(
    rects: &mut Vec<Rect>,
    from: i32,
    to: i32,
    top: i32,
    height: u32,
) -> Result<(), OutOfMemory>
    requires low { negsuc 32767 ≤ℤ from }
    requires high { to ≤ℤ pos 32768 }
    ensures { OnOk result (rects.new.items ≡ rects.old.items ++ columns_of from to top height) }
{
    if from < to {
        rects.push(Rect {
            x: from,
            y: top,
            w: distance(from, to),
            h: height,
        })?;
    }
    Ok(())
}

/// Appends the columns of a row as a band.
pub fn copy_row(
    rects: &mut Vec<Rect>,
    row: &[Rect],
    top: i32,
    height: u32,
) -> Result<(), OutOfMemory>
    requires { IsBandRow row.now }
    ensures { OnOk result (IsAdded top height rects.old.items rects.new.items (has_column row.now)) }
{
    for span in row {
        rects.push(Rect {
            x: span.x,
            y: top,
            w: span.w,
            h: height,
        })?;
    }
    Ok(())
}

/// Takes the first span of two rows, of which there is one, off its row. Gives it and what is left of both.
fn take_next<'a>(first: &'a [Rect], second: &'a [Rect]) -> (Rect, &'a [Rect], &'a [Rect])
    requires first { IsBandRow first.now }
    requires second { IsBandRow second.now }
    requires some { length first.now + length second.now ≢ 0 }
    ensures { IsTaken result.0 first.now second.now result.1.now result.2.now }
{
    if start_of(first) <= start_of(second) {
        (first[0], &first[1..], second)
    } else {
        (second[0], first, &second[1..])
    }
}

/// Appends the columns that are in one of two rows as a band.
pub fn unite_rows(
    rects: &mut Vec<Rect>,
    first: &[Rect],
    second: &[Rect],
    top: i32,
    height: u32,
) -> Result<(), OutOfMemory>
    requires first { IsBandRow first.now }
    requires second { IsBandRow second.now }
    ensures { OnOk result (IsAdded top height rects.old.items rects.new.items (λ c. has_column first.now c || has_column second.now c)) }
{
    let mut from = start_of(first).min(start_of(second));
    let mut to = from;
    let mut first = first;
    let mut second = second;
    while !first.is_empty() || !second.is_empty() {
        let (span, first_rest, second_rest) = take_next(first, second);
        if to < span.x {
            push_columns(rects, from, to, top, height)?;
            from = span.x;
        }
        to = to.max(right_end(&span));
        first = first_rest;
        second = second_rest;
    }
    push_columns(rects, from, to, top, height)
}

/// Appends the columns that are in both of two rows as a band.
pub fn meet_rows(
    rects: &mut Vec<Rect>,
    first: &[Rect],
    second: &[Rect],
    top: i32,
    height: u32,
) -> Result<(), OutOfMemory>
    requires first { IsBandRow first.now }
    requires second { IsBandRow second.now }
    ensures { OnOk result (IsAdded top height rects.old.items rects.new.items (λ c. has_column first.now c && has_column second.now c)) }
{
    let mut first = first;
    let mut second = second;
    while !first.is_empty() && !second.is_empty() {
        let end = right_end(&first[0]);
        let other_end = right_end(&second[0]);
        let from = start_of(first).max(start_of(second));
        push_columns(rects, from, end.min(other_end), top, height)?;
        if end <= other_end {
            first = &first[1..];
        } else {
            second = &second[1..];
        }
    }
    Ok(())
}

/// Appends the columns that are in the first row and not in the second as a band.
pub fn subtract_row(
    rects: &mut Vec<Rect>,
    first: &[Rect],
    second: &[Rect],
    top: i32,
    height: u32,
) -> Result<(), OutOfMemory>
    requires first { IsBandRow first.now }
    requires second { IsBandRow second.now }
    ensures { OnOk result (IsAdded top height rects.old.items rects.new.items (λ c. has_column first.now c && not (has_column second.now c))) }
{
    let mut first = first;
    let mut second = second;
    let mut free = FIRST;
    while !first.is_empty() {
        let end = right_end(&first[0]);
        let next = start_of(second);
        let from = start_of(first).max(free);
        push_columns(rects, from, end.min(next), top, height)?;
        match second {
            [] => first = &first[1..],
            [hole, ..] if end <= hole.x => first = &first[1..],
            [hole, rest @ ..] => {
                free = right_end(hole);
                second = rest;
            }
        }
    }
    Ok(())
}
