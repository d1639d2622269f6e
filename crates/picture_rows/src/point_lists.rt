//! Lists of points.
ghost use Rattle.std.specs.Prelude.{◌≡◌, ◌↔◌, ◌⊎◌, length, IfOk, IfErr, OnOk, IsTrue};
ghost use Rattle.picture_rows.specs.Counts.{IsPointCount};

use qws_base::Point;
use std::alloc::Global;
use std::marker::Model;

/// Why there is no list of points.
#[derive(Clone, Copy, Debug, PartialEq, Eq)]
pub enum PointStop {
    /// There are too few points, or more than 64.
    BadPoints { count: u64 },
    /// Memory ran out.
    OutOfMemory,
}

/// A list of at most 64 points. Contracts see it as a list.
#[derive(Debug, Drop)]
pub struct PointList {
    items: Vec<Point>,
}

impl Model for PointList {
    ghost use Rattle.std.specs.Prelude.{List};
    ghost use Rattle.qws_base.specs.declared.points.Point.{Point};

    ghost Value = { List Point };

    ghost view = { λ l. l.items.items };
}

// Whether there may be so many points.
fn is_point_count(least: usize, count: usize) -> bool
    ensures { IsTrue result ↔ IsPointCount least count }
{
    least <= count && count <= 64
}

impl PointList {
    /// The list of those points, which it copies: at least so many, and at most 64.
    pub fn new(alloc: Global, points: &[Point], least: usize) -> Result<PointList, PointStop>
        ensures made { IfOk result (λ l. l ≡ points.now) }
        ensures count { OnOk result (IsPointCount least (length points.now)) }
        ensures bad_points { (result ≡ Err (PointStop.BadPoints (length points.now))) ↔ ¬ IsPointCount least (length points.now) }
        ensures no_other { IfErr result (λ stop. (stop ≡ PointStop.BadPoints (length points.now)) ⊎ (stop ≡ PointStop.OutOfMemory)) }
    {
        let count = points.len();
        if !is_point_count(least, count) {
            return Err(PointStop::BadPoints {
                count: count as u64,
            });
        }
        match points.to_vec(alloc) {
            Ok(items) => Ok(PointList { items }),
            Err(_) => Err(PointStop::OutOfMemory),
        }
    }

    /// The points.
    pub fn as_slice(&self) -> &[Point]
        ensures { result.now ≡ self.now }
    {
        &self.items
    }
}
