//! The outermost columns and rows of points.
ghost use Rattle.std.specs.Prelude.{◌≡◌};
ghost use Rattle.std.specs.List.{All};
ghost use Rattle.qws_base.specs.Points.{IsPlaced};
ghost use Rattle.qws_base.specs.Bounds.{bounds_of_point, grown, bounds_of, AreBounds};

use crate::points::Point;

/// The outermost columns and rows of some points.
#[derive(Clone, Copy, Debug, PartialEq, Eq)]
pub struct Bounds {
    pub left: i32,
    pub top: i32,
    pub right: i32,
    pub bottom: i32,
}

impl Bounds {
    // Those of one point.
    fn of_point(p: Point) -> Bounds
        requires { IsPlaced p }
        ensures value { result ≡ bounds_of_point p }
        ensures are { AreBounds result }
    {
        Bounds {
            left: p.x,
            top: p.y,
            right: p.x,
            bottom: p.y,
        }
    }

    // Those of a point more.
    fn grown(self, p: Point) -> Bounds
        requires old { AreBounds self }
        requires point { IsPlaced p }
        ensures value { result ≡ grown self p }
        ensures are { AreBounds result }
    {
        Bounds {
            left: self.left.min(p.x),
            top: self.top.min(p.y),
            right: self.right.max(p.x),
            bottom: self.bottom.max(p.y),
        }
    }

    /// Those of a point and some more. Coordinates are in -4,096 to 4,095.
    pub fn of(first: Point, rest: &[Point]) -> Bounds
        requires first { IsPlaced first }
        requires rest { All IsPlaced rest.now }
        ensures value { result ≡ bounds_of first rest.now }
        ensures are { AreBounds result }
    {
        let mut bounds = Bounds::of_point(first);
        for p in rest {
            bounds = bounds.grown(*p);
        }
        bounds
    }
}
