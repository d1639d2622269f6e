//! How much of a list of rectangles is canonical as it stands.
ghost use Rattle.std.specs.Prelude.{◌≡◌, ◌≤◌, ◌<◌, length, take, All};
ghost use Rattle.band_regions.specs.Ranges.{IsInRange, IsInForm};
ghost use Rattle.std.specs.Bool.{OnTrue};
ghost use Rattle.band_regions.specs.Runs.{IsNext, IsBandRun};

use crate::bands::{bottom_end, has_same_spans};
use crate::rows::{FIRST, right_end};
use qws_base::Rect;

/// Whether a rectangle goes on with a band: it has pixels and the rows of the first, and starts right of a column.
fn continues(first: &Rect, column: i32, rect: &Rect) -> bool
    ensures { OnTrue result (IsNext first.now column rect.now) }
{
    rect.w > 0 && rect.h > 0 && rect.y == first.y && rect.h == first.h && column < rect.x
}

/// How many rectangles at the front are a band: spans with gaps between, from the left, that have the rows of the first.
fn band_run(rects: &[Rect]) -> usize
    requires { All IsInRange rects.now }
    ensures { IsBandRun result rects.now }
{
    let mut end = FIRST - 1;
    for (n, rect) in rects.iter().enumerate() {
        if !continues(&rects[0], end, rect) {
            return n;
        }
        end = right_end(rect);
    }
    rects.len()
}

/// How many rectangles at the front are a canonical list.
pub fn canonical_len(rects: &[Rect]) -> usize
    requires { All IsInRange rects.now }
    ensures within { result ≤ length rects.now }
    ensures kept { IsInForm (take result rects.now) }
{
    let mut last = 0;
    let mut end = 0;
    let mut y = FIRST;
    while end < rects.len() {
        let band = &rects[end..];
        let count = band_run(band);
        let top = band[0].y;
        if count == 0 || top < y {
            return end;
        }
        if top <= y && has_same_spans(&rects[last..end], &band[..count]) {
            return end;
        }
        last = end;
        end += count;
        y = bottom_end(&band[0]);
    }
    end
}
