//! A paint is a picture of one of the kinds.
use gfx_fills::{Blit, Fill, Tile};
use gfx_lines::{Line, Polyline};
use gfx_polygons::Polygon;
use glyph_masks::TextRun;
use qws_base::{Ink, Picture, Rect};

/// Something to paint, in points local to a window's origin. Its sheet is that of the picture in it. Tiles and blits borrow
/// their images, and texts their fonts, for `'a`; the other kinds own all that they need.
#[derive(Debug, Drop)]
pub enum Paint<'a> {
    /// One ink on a rectangle.
    Fill { fill: Fill },
    /// An image again and again in a rectangle.
    Tile { tile: Tile<'a> },
    /// An image once, with an alpha for all of it.
    Blit { blit: Blit<'a> },
    /// One colour at the points of a line.
    Line { line: Line },
    /// One colour at the points of the lines between neighbours in a list.
    Polyline { polyline: Polyline },
    /// One ink at the points inside a closed ring.
    Polygon { polygon: Polygon },
    /// One ink at the bits of glyphs side by side.
    Text { text: TextRun<'a> },
}

impl<'a> Picture for Paint<'a> {
    ghost use Rattle.gfx_painters.specs.Paints.{paint_sheet};

    ghost sheet = { paint_sheet };

    fn reach(&self) -> Rect {
        match self {
            Paint::Fill { fill } => fill.reach(),
            Paint::Tile { tile } => tile.reach(),
            Paint::Blit { blit } => blit.reach(),
            Paint::Line { line } => line.reach(),
            Paint::Polyline { polyline } => polyline.reach(),
            Paint::Polygon { polygon } => polygon.reach(),
            Paint::Text { text } => text.reach(),
        }
    }

    fn row(&self, y: i32, x: i32, out: &mut [Ink]) {
        match self {
            Paint::Fill { fill } => fill.row(y, x, out),
            Paint::Tile { tile } => tile.row(y, x, out),
            Paint::Blit { blit } => blit.row(y, x, out),
            Paint::Line { line } => line.row(y, x, out),
            Paint::Polyline { polyline } => polyline.row(y, x, out),
            Paint::Polygon { polygon } => polygon.row(y, x, out),
            Paint::Text { text } => text.row(y, x, out),
        }
    }
}
