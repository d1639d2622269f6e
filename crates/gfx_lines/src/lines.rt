//! Lines: one colour at the points nearest to a straight line.
ghost use Rattle.std.specs.Prelude.{◌≡◌};

use crate::columns::line_columns;
use picture_rows::{closed_reach, fill_run, span};
use qws_base::{Ink, Picture, Point, Rect, Rgb};
use std::marker::Model;

/// One colour at the points of a line, both ends among them. Contracts see the ends and the colour.
#[derive(Clone, Copy, Debug, PartialEq, Eq)]
pub struct Line {
    from: Point,
    to: Point,
    colour: Rgb,
}

impl Model for Line {
    ghost use Rattle.qws_base.specs.Points.{IsPlaced};
    ghost use Rattle.gfx_lines.specs.Strokes.{LineView};

    ghost Value = { LineView };

    ghost view = { λ l. record { from = l.from; to = l.to; colour = l.colour } };

    ghost invariant = { λ l. IsPlaced l.from × IsPlaced l.to };

    ghost inverse = { λ v. record { from = v.from; to = v.to; colour = v.colour } };
}

impl Line {
    ghost use Rattle.qws_base.specs.Points.{IsPlaced};

    /// The line from a point to another, of a colour. Coordinates are in -4,096 to 4,095.
    pub fn new(from: Point, to: Point, c: Rgb) -> Line
        requires from { IsPlaced from }
        requires to { IsPlaced to }
        ensures { result ≡ record { from = from; to = to; colour = c } }
    {
        Line {
            from,
            to,
            colour: c,
        }
    }

    /// The point that the line begins with.
    pub fn from(&self) -> Point
        ensures value { result ≡ self.now.from }
        ensures placed { IsPlaced result }
    {
        self.from
    }

    /// The point that the line ends with.
    pub fn to(&self) -> Point
        ensures value { result ≡ self.now.to }
        ensures placed { IsPlaced result }
    {
        self.to
    }

    /// The colour.
    pub fn colour(&self) -> Rgb
        ensures { result ≡ self.now.colour }
    {
        self.colour
    }
}

impl Picture for Line {
    ghost use Rattle.gfx_lines.specs.Strokes.{line_sheet};

    ghost sheet = { λ l. line_sheet l };

    fn reach(&self) -> Rect {
        closed_reach(&[self.from, self.to])
    }

    fn row(&self, y: i32, x: i32, out: &mut [Ink]) {
        let (left, count) = line_columns(self.from, self.to, y);
        let (first, end) = span(left, count, x, out.len());
        fill_run(first, end, &Ink::Copy { c: self.colour }, out);
    }
}
