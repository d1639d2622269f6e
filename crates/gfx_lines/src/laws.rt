//! Laws of the definitions. Each function does nothing; its clause is the law.
ghost use Rattle.std.specs.Prelude.{◌≡◌, [], ◌∷◌, IsTrue};
ghost use Rattle.qws_base.specs.Points.{holds};
ghost use Rattle.qws_base.specs.Sheets.{ink_at};
ghost use Rattle.qws_base.specs.declared.inks.Ink.TheVariants.{Copy};
ghost use Rattle.picture_rows.specs.Boxes.{closed_reach};
ghost use Rattle.gfx_lines.specs.Lines.{on_line};
ghost use Rattle.gfx_lines.specs.Strokes.{line_sheet, on_polyline};

use qws_base::{Point, Rgb};

/// A line holds both its ends.
pub fn line_ends(from: Point, to: Point, c: Rgb)
    ensures from { ink_at (line_sheet (record { from = from; to = to; colour = c })) from ≡ Copy c }
    ensures to { ink_at (line_sheet (record { from = from; to = to; colour = c })) to ≡ Copy c }
{
    let _ = (from, to, c);
}

/// Each point of a line lies in the rectangle between its ends, the outermost columns and rows among it.
pub fn line_within(from: Point, to: Point, p: Point)
    ensures { IsTrue (on_line from to p) → IsTrue (holds (closed_reach (from ∷ to ∷ [])) p) }
{
    let _ = (from, to, p);
}

/// Each point of the lines between neighbours lies in the rectangle between the outermost points.
pub fn polyline_within(points: &[Point], p: Point)
    ensures { IsTrue (on_polyline points.now p) → IsTrue (holds (closed_reach points.now) p) }
{
    let _ = (points.len(), p);
}
