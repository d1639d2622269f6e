//! Laws of the definitions. Each function does nothing; its clause is the law.
ghost use Rattle.std.specs.Prelude.{◌≡◌, [], ◌∷◌, not, if◌then◌else◌, IsTrue};
ghost use Rattle.qws_base.specs.Points.{holds};
ghost use Rattle.picture_rows.specs.Boxes.{half_open_reach};
ghost use Rattle.gfx_polygons.specs.Polygons.{is_inside};

use qws_base::Point;

/// Of two triangles ABC and ABD over a side, the points inside exactly one are those inside the ring A D B C.
pub fn two_triangles(a: Point, b: Point, c: Point, d: Point, p: Point)
    ensures { is_inside (a ∷ d ∷ b ∷ c ∷ []) p
        ≡ (if is_inside (a ∷ b ∷ c ∷ []) p then not (is_inside (a ∷ b ∷ d ∷ []) p) else is_inside (a ∷ b ∷ d ∷ []) p) }
{
    let _ = (a, b, c, d, p);
}

/// Each point inside a ring lies in the rectangle between its outermost vertices, the outermost column and row at the right and at the bottom not among it.
pub fn inside_within(first: Point, rest: &[Point], p: Point)
    ensures { IsTrue (is_inside (first ∷ rest.now) p) → IsTrue (holds (half_open_reach (first ∷ rest.now)) p) }
{
    let _ = (first, rest.len(), p);
}
