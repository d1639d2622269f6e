//! Polygons: one ink at the points inside a closed ring.
ghost use Rattle.std.specs.Prelude.{◌≡◌, ◌↔◌, ◌⊎◌, length, IfOk, IfErr, OnOk};
ghost use Rattle.gfx_polygons.specs.Polygons.{IsPolygonCount};

use crate::crossings::{crossings, fill_between};
use picture_rows::{PointList, PointStop, half_open_reach};
use qws_base::{Ink, Picture, Point, Rect};
use std::alloc::Global;
use std::marker::Model;

/// One ink at the points inside the closed ring of some points. Contracts see the points and the ink.
#[derive(Debug, Drop)]
pub struct Polygon {
    points: PointList,
    ink: Ink,
}

impl Model for Polygon {
    ghost use Rattle.gfx_polygons.specs.Polygons.{PolygonView, IsPolygon};

    ghost Value = { PolygonView };

    ghost view = { λ p. record { points = p.points; ink = p.ink } };

    ghost invariant = { λ p. IsPolygon p.points };
}

impl Polygon {
    ghost use Rattle.std.specs.List.{All};
    ghost use Rattle.qws_base.specs.Points.{IsPlaced};
    ghost use Rattle.gfx_polygons.specs.Polygons.{IsPolygon};

    /// The polygon of those points, which it copies, with an ink. Coordinates are in -4,096 to 4,095.
    pub fn new(alloc: Global, points: &[Point], ink: Ink) -> Result<Polygon, PointStop>
        requires { All IsPlaced points.now }
        ensures made { IfOk result (λ p. p ≡ record { points = points.now; ink = ink }) }
        ensures good_count { OnOk result (IsPolygonCount (length points.now)) }
        ensures bad_points { (result ≡ Err (PointStop.BadPoints (length points.now))) ↔ ¬ IsPolygonCount (length points.now) }
        ensures no_other { IfErr result (λ stop. (stop ≡ PointStop.BadPoints (length points.now)) ⊎ (stop ≡ PointStop.OutOfMemory)) }
    {
        let points = PointList::new(alloc, points, 3)?;
        Ok(Polygon { points, ink })
    }

    /// The points.
    pub fn points(&self) -> &[Point]
        ensures value { result.now ≡ self.now.points }
        ensures is_polygon { IsPolygon result.now }
    {
        self.points.as_slice()
    }

    /// The ink.
    pub fn ink(&self) -> Ink
        ensures { result ≡ self.now.ink }
    {
        self.ink
    }
}

impl Picture for Polygon {
    ghost use Rattle.gfx_polygons.specs.Polygons.{polygon_sheet};

    ghost sheet = { λ p. polygon_sheet p };

    fn reach(&self) -> Rect {
        half_open_reach(self.points.as_slice())
    }

    fn row(&self, y: i32, x: i32, out: &mut [Ink]) {
        let mut places = [0u64; 64];
        let count = crossings(self.points.as_slice(), y, x, out.len(), &mut places);
        fill_between(&mut places[..count], &self.ink, out);
    }
}
