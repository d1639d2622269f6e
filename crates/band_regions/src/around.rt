//! The least rectangle around a list of rectangles.
ghost use Rattle.std.specs.Prelude.{◌<◌, length, All};
ghost use Rattle.qws_base.specs.Points.{any_holds};
ghost use Rattle.qws_base.specs.Regions.{HasPixels};
ghost use Rattle.band_regions.specs.Ranges.{IsInRange};
ghost use Rattle.band_regions.specs.Around.{IsHull, IsLeastAround};

use crate::bands::bottom_end;
use crate::rows::{distance, right_end};
use qws_base::Rect;

/// The least rectangle around two.
fn hull(first: &Rect, second: &Rect) -> Rect
    requires first { IsInRange first.now }
    requires second { IsInRange second.now }
    requires first_pixels { HasPixels first.now }
    requires second_pixels { HasPixels second.now }
    ensures hull { IsHull first.now second.now result }
    ensures in_range { IsInRange result }
    ensures some_pixels { HasPixels result }
{
    let x = first.x.min(second.x);
    let y = first.y.min(second.y);
    let right = right_end(first).max(right_end(second));
    let bottom = bottom_end(first).max(bottom_end(second));
    Rect {
        x,
        y,
        w: distance(x, right),
        h: distance(y, bottom),
    }
}

/// The least rectangle around some, of which there is one and each has pixels.
pub fn around(rects: &[Rect]) -> Rect
    requires some { 0 < length rects.now }
    requires in_range { All IsInRange rects.now }
    requires some_pixels { All HasPixels rects.now }
    ensures { IsLeastAround result (any_holds rects.now) }
{
    let mut all = rects[0];
    for i in 1..rects.len() {
        all = hull(&all, &rects[i]);
    }
    all
}
