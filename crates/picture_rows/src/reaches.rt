//! The rectangles between the outermost of some points.
ghost use Rattle.std.specs.Prelude.{◌≡◌, ◌<◌};
ghost use Rattle.std.specs.List.{All};
ghost use Rattle.qws_base.specs.Points.{IsPlaced};
ghost use Rattle.qws_base.specs.Bounds.{AreBounds};
ghost use Rattle.picture_rows.specs.Boxes.{closed_rect, half_open_rect, closed_reach, half_open_reach};

use qws_base::{Bounds, Point, Rect};

// No columns and no rows.
const NONE: Rect = Rect {
    x: 0,
    y: 0,
    w: 0,
    h: 0,
};

// The columns and rows within bounds without the last column and the last row.
fn half_open(bounds: Bounds) -> Rect
    requires { AreBounds bounds }
    ensures value { result ≡ half_open_rect bounds }
    ensures few_columns { result.w < 8192 }
    ensures few_rows { result.h < 8192 }
{
    Rect {
        x: bounds.left,
        y: bounds.top,
        w: bounds.left.abs_diff(bounds.right),
        h: bounds.top.abs_diff(bounds.bottom),
    }
}

// The same with them.
fn closed(bounds: Bounds) -> Rect
    requires { AreBounds bounds }
    ensures { result ≡ closed_rect bounds }
{
    let rect = half_open(bounds);
    Rect {
        w: rect.w + 1,
        h: rect.h + 1,
        ..rect
    }
}

/// The columns and rows between the outermost of some points, the last ones among them. Coordinates are in -4,096 to 4,095.
pub fn closed_reach(points: &[Point]) -> Rect
    requires { All IsPlaced points.now }
    ensures { result ≡ closed_reach points.now }
{
    match points {
        [first, rest @ ..] => closed(Bounds::of(*first, rest)),
        [] => NONE,
    }
}

/// The same without the last column and the last row.
pub fn half_open_reach(points: &[Point]) -> Rect
    requires { All IsPlaced points.now }
    ensures { result ≡ half_open_reach points.now }
{
    match points {
        [first, rest @ ..] => half_open(Bounds::of(*first, rest)),
        [] => NONE,
    }
}
