//! The operations on two lists of bands, by one sweep over the rows at which their bands begin and end.
ghost use Rattle.std.specs.Prelude.{◌≡◌, IfOk, OnOk};
ghost use Rattle.qws_base.specs.Points.{any_holds};
ghost use Rattle.qws_base.specs.declared.points.Point.{Point};
ghost use Rattle.band_regions.specs.Ranges.{IsInForm};
ghost use Rattle.band_regions.specs.Operations.{keeps};
ghost use Rattle.band_regions.specs.Rows.{IsBandRow, IsAdded, has_column};
ghost use Rattle.band_regions.specs.Bands.{IsBanded};

use crate::bands::{close_band, first_len, next_row, past_row, row_at};
use crate::operations::Operation;
use crate::rows::{FIRST, copy_row, distance, meet_rows, subtract_row, unite_rows};
use qws_base::{OutOfMemory, Rect};
use std::alloc::Global;

/// Appends the columns that the operation keeps of two rows as a band. A row that meets nothing of the other is copied.
fn combine(
    rects: &mut Vec<Rect>,
    operation: Operation,
    first: &[Rect],
    second: &[Rect],
    top: i32,
    height: u32,
) -> Result<(), OutOfMemory>
    requires first { IsBandRow first.now }
    requires second { IsBandRow second.now }
    ensures { OnOk result (IsAdded top height rects.old.items rects.new.items (λ c. keeps operation (has_column first.now c) (has_column second.now c))) }
{
    match operation {
        Operation::Unite if first.is_empty() => copy_row(rects, second, top, height),
        Operation::Unite if second.is_empty() => copy_row(rects, first, top, height),
        Operation::Unite => unite_rows(rects, first, second, top, height),
        Operation::Meet => meet_rows(rects, first, second, top, height),
        Operation::Minus if second.is_empty() => copy_row(rects, first, top, height),
        Operation::Minus => subtract_row(rects, first, second, top, height),
    }
}

/// The canonical list of the points that the operation keeps of two lists. It goes once over the rows at which a band of
/// one of them begins or ends, and between two such rows once over the spans of both.
pub fn sweep(
    alloc: Global,
    operation: Operation,
    first: &[Rect],
    second: &[Rect],
) -> Result<Vec<Rect>, OutOfMemory>
    requires first { IsBanded first.now }
    requires second { IsBanded second.now }
    ensures kept { IfOk result (λ v. IsInForm v.items) }
    ensures points { IfOk result (λ v. (p : Point) → any_holds v.items p ≡ keeps operation (any_holds first.now p) (any_holds second.now p)) }
{
    let mut rects = Vec::with_capacity(alloc, first.len().max(second.len()).saturating_mul(2))?;
    let mut last = 0;
    let mut first = first;
    let mut second = second;
    let mut first_count = first_len(first);
    let mut second_count = first_len(second);
    let mut y = FIRST;
    while !first.is_empty() || !second.is_empty() {
        let next = next_row(first, y).min(next_row(second, y));
        let height = distance(y, next);
        let start = rects.len();
        let first_row = row_at(first, first_count, y);
        let second_row = row_at(second, second_count, y);
        combine(&mut rects, operation, first_row, second_row, y, height)?;
        last = close_band(&mut rects, last, start, y, height);
        (first, first_count) = past_row(first, first_count, next);
        (second, second_count) = past_row(second, second_count, next);
        y = next;
    }
    Ok(rects)
}
