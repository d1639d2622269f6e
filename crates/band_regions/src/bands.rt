//! The bands of a list of rectangles, from the top, and a list that grows by bands at its end.
ghost use Rattle.std.specs.Prelude.{◌≡◌, ◌≤◌, ◌<◌, ◌+◌, ℕ, ℤ, pos, negsuc, ◌+ℤ◌, ◌<ℤ◌, ◌≤ℤ◌, ◌^◌, ◌++◌, All, IsTrue, ◌↔◌, length, map, take, drop, vec_len};
ghost use Rattle.qws_base.specs.Points.{any_holds};
ghost use Rattle.qws_base.specs.Regions.{bottom, span_of};
ghost use Rattle.qws_base.specs.declared.points.Point.{Point};
ghost use Rattle.band_regions.specs.Ranges.{IsInRange};
ghost use Rattle.band_regions.specs.Rows.{IsBandRow, IsBand, has_column};
ghost use Rattle.band_regions.specs.Bands.{IsBanded, IsRestOfBands, IsFirstLen, IsSweptTo, taller, EndsBelow, ReachesDown, in_row};

use crate::rows::END;
use qws_base::Rect;

/// One past the last row of a rectangle.
pub fn bottom_end(rect: &Rect) -> i32
    requires { IsInRange rect.now }
    ensures { result ≡ bottom rect.now }
{
    rect.y + rect.h as i32
}

/// The next row at which the first band begins or ends; `END` where there is no band.
pub fn next_row(rects: &[Rect], from: i32) -> i32
    requires is_banded { IsBanded rects.now }
    requires ahead { All (EndsBelow from) rects.now }
    requires low { from <ℤ pos 32768 }
    ensures after { from <ℤ result }
    ensures within { result ≤ℤ pos 32768 }
    ensures no_end_before { All (ReachesDown result) rects.now }
    ensures uniform { (p : Point) → from ≤ℤ p.y → p.y <ℤ result → any_holds rects.now p ≡ any_holds rects.now (in_row from p) }
{
    match rects {
        [] => END,
        [rect, ..] => {
            if from < rect.y {
                rect.y
            } else {
                bottom_end(rect)
            }
        }
    }
}

/// How many rectangles the first band has, of that top.
fn band_len(rects: &[Rect], top: i32) -> usize
    requires is_banded { IsBanded rects.now }
    requires top { All (λ r. top ≤ℤ r.y) rects.now }
    ensures within { result ≤ length rects.now }
    ensures in_band { All (λ r. r.y ≡ top) (take result rects.now) }
    ensures beyond { All (λ r. top <ℤ r.y) (drop result rects.now) }
{
    let mut n = 0;
    while n < rects.len() && rects[n].y == top {
        n += 1;
    }
    n
}

/// How many rectangles the first band has; 0 where there is none.
pub fn first_len(rects: &[Rect]) -> usize
    requires { IsBanded rects.now }
    ensures { IsFirstLen result rects.now }
{
    match rects {
        [] => 0,
        [rect, ..] => band_len(rects, rect.y),
    }
}

/// The spans in a row that no band ends before. The first band has so many rectangles.
pub fn row_at(rects: &[Rect], count: usize, row: i32) -> &[Rect]
    requires is_banded { IsBanded rects.now }
    requires count { IsFirstLen count rects.now }
    requires ahead { All (EndsBelow row) rects.now }
    ensures is_row { IsBandRow result.now }
    ensures columns { (p : Point) → has_column result.now p.x ≡ any_holds rects.now (in_row row p) }
{
    match rects {
        [] => &[],
        [rect, ..] => { if rect.y <= row { &rects[..count] } else { &[] } }
    }
}

/// What is left of the bands from the row on, before which none ends, and how many rectangles its first band has. The
/// first band has so many.
pub fn past_row(rects: &[Rect], count: usize, row: i32) -> (&[Rect], usize)
    requires is_banded { IsBanded rects.now }
    requires count { IsFirstLen count rects.now }
    requires no_end_before { All (ReachesDown row) rects.now }
    ensures rest { IsRestOfBands row rects.now result.0.now }
    ensures count { IsFirstLen result.1 result.0.now }
{
    match rects {
        [] => (rects, count),
        [rect, ..] if row < bottom_end(rect) => (rects, count),
        _ => {
            let rest = &rects[count..];
            (rest, first_len(rest))
        }
    }
}

/// Whether two bands have the same spans.
pub fn has_same_spans(first: &[Rect], second: &[Rect]) -> bool
    ensures { IsTrue result ↔ (map span_of first.now ≡ map span_of second.now) }
{
    if first.len() != second.len() {
        return false;
    }
    for (i, r) in first.iter().enumerate() {
        let s = &second[i];
        if r.x != s.x || r.w != s.w {
            return false;
        }
    }
    true
}

/// Makes the rectangles from a place on higher by some rows.
fn extend_down(rects: &mut Vec<Rect>, last: usize, height: u32)
    requires within { last ≤ vec_len rects.old }
    requires fits { All (λ r. r.h + height < 2 ^ 32) (drop last rects.old.items) }
    ensures { rects.new.items ≡ take last rects.old.items ++ map (taller height) (drop last rects.old.items) }
{
    for i in last..rects.len() {
        rects[i].h += height;
    }
}

/// Ends a list of bands by the band from `start` on, which is merged with the one above it where that ends at its top and
/// has the same spans. The bands from `last` on up to it end at its top. Gives the place from which on the bands end where
/// it ends.
pub fn close_band(rects: &mut Vec<Rect>, last: usize, start: usize, top: i32, height: u32) -> usize
    requires start { start ≤ vec_len rects.old }
    requires swept { IsSweptTo top last (take start rects.old.items) }
    requires is_band { IsBand top height (drop start rects.old.items) }
    requires some { 0 < height }
    requires low { negsuc 32767 ≤ℤ top }
    requires high { (top +ℤ pos height) ≤ℤ pos 32768 }
    ensures swept { IsSweptTo (top +ℤ pos height) result rects.new.items }
    ensures points { (p : Point) → any_holds rects.new.items p ≡ any_holds rects.old.items p }
{
    if rects.len() == start {
        return start;
    }
    if has_same_spans(&rects[last..start], &rects[start..]) {
        rects.truncate(start);
        extend_down(rects, last, height);
        return last;
    }
    start
}
