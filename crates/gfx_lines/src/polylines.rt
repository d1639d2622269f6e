//! Polylines: one colour at the points of the lines between neighbours.
ghost use Rattle.std.specs.Prelude.{◌≡◌, ◌<◌, ◌↔◌, ◌⊎◌, length, slice_index_or, if◌then◌else◌, IfOk, IfErr, OnOk};
ghost use Rattle.std.specs.List.{All};
ghost use Rattle.qws_base.specs.Points.{IsPlaced};
ghost use Rattle.qws_base.specs.declared.inks.Ink.TheVariants.{Skip};
ghost use Rattle.picture_rows.specs.Runs.{pixel, IsInked};
ghost use Rattle.gfx_lines.specs.Lines.{on_line};
ghost use Rattle.gfx_lines.specs.Strokes.{IsPolylineCount, on_polyline};

use crate::columns::line_columns;
use picture_rows::{PointList, PointStop, clear, closed_reach, lay, span};
use qws_base::{Ink, Picture, Point, Rect, Rgb};
use std::alloc::Global;
use std::marker::Model;

/// One colour at the points of the lines between neighbours in a list. Contracts see the list and the colour.
#[derive(Debug, Drop)]
pub struct Polyline {
    points: PointList,
    colour: Rgb,
}

impl Model for Polyline {
    ghost use Rattle.gfx_lines.specs.Strokes.{PolylineView, IsPolyline};

    ghost Value = { PolylineView };

    ghost view = { λ l. record { points = l.points; colour = l.colour } };

    ghost invariant = { λ l. IsPolyline l.points };
}

// Gives a row from the point `(x, y)` on an ink at the points of a line, and leaves it elsewhere.
fn lay_line(from: Point, to: Point, ink: &Ink, y: i32, x: i32, out: &mut [Ink])
    requires from { IsPlaced from }
    requires to { IsPlaced to }
    ensures { IsInked (length out.old) (λ k. if on_line from to (pixel y x k) then ink.now else slice_index_or out.old k Skip) out.new }
{
    let (left, count) = line_columns(from, to, y);
    if 0 < count {
        let (first, end) = span(left, count, x, out.len());
        lay(first, end, ink, out);
    }
}

// Gives a row from the point `(x, y)` on an ink at the points of the lines between neighbours, and Skip elsewhere.
fn fill_lines(points: &[Point], ink: &Ink, y: i32, x: i32, out: &mut [Ink])
    requires some { 0 < length points.now }
    requires placed { All IsPlaced points.now }
    ensures { IsInked (length out.old) (λ k. if on_polyline points.now (pixel y x k) then ink.now else Skip) out.new }
{
    clear(out);
    for i in 1..points.len() {
        lay_line(points[i - 1], points[i], ink, y, x, out);
    }
}

impl Polyline {
    ghost use Rattle.gfx_lines.specs.Strokes.{IsPolyline};

    /// The polyline of those points, which it copies, of a colour. Coordinates are in -4,096 to 4,095.
    pub fn new(alloc: Global, points: &[Point], c: Rgb) -> Result<Polyline, PointStop>
        requires { All IsPlaced points.now }
        ensures made { IfOk result (λ l. l ≡ record { points = points.now; colour = c }) }
        ensures good_count { OnOk result (IsPolylineCount (length points.now)) }
        ensures bad_points { (result ≡ Err (PointStop.BadPoints (length points.now))) ↔ ¬ IsPolylineCount (length points.now) }
        ensures no_other { IfErr result (λ stop. (stop ≡ PointStop.BadPoints (length points.now)) ⊎ (stop ≡ PointStop.OutOfMemory)) }
    {
        let points = PointList::new(alloc, points, 2)?;
        Ok(Polyline { points, colour: c })
    }

    /// The points.
    pub fn points(&self) -> &[Point]
        ensures value { result.now ≡ self.now.points }
        ensures is_polyline { IsPolyline result.now }
    {
        self.points.as_slice()
    }

    /// The colour.
    pub fn colour(&self) -> Rgb
        ensures { result ≡ self.now.colour }
    {
        self.colour
    }
}

impl Picture for Polyline {
    ghost use Rattle.gfx_lines.specs.Strokes.{polyline_sheet};

    ghost sheet = { λ l. polyline_sheet l };

    fn reach(&self) -> Rect {
        closed_reach(self.points.as_slice())
    }

    fn row(&self, y: i32, x: i32, out: &mut [Ink]) {
        let ink = Ink::Copy { c: self.colour };
        fill_lines(self.points.as_slice(), &ink, y, x, out);
    }
}
