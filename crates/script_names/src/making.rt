//! The paint of each kind of line, from the fonts and images of the script.
ghost use Rattle.std.specs.Prelude.{◌≡◌, ◌<◌, length, IfOk};
ghost use Rattle.qws_base.specs.Points.{IsPlaced};
ghost use Rattle.gfx_fills.specs.Parts.{IsPlacedRect};
ghost use Rattle.gfx_lines.specs.Strokes.{IsPolyline};
ghost use Rattle.gfx_polygons.specs.Polygons.{IsPolygon};
ghost use Rattle.glyph_masks.specs.Texts.{spelled};
ghost use Rattle.gfx_painters.specs.declared.paints.Paint.TheVariants.{Tile as TilePaint, Blit as BlitPaint, Polyline as PolylinePaint, Polygon as PolygonPaint, Text as TextPaint};
ghost use Rattle.script_grammar.specs.Session.{font_at, image_at};
ghost use Rattle.script_grammar.specs.Limits.{IsWritten};

use gfx_fills::{Blit, Image, Tile};
use gfx_lines::Polyline;
use gfx_painters::Paint;
use gfx_polygons::Polygon;
use glyph_masks::{Font, TextRun};
use qws_base::{Ink, OutOfMemory, Point, Rect, Rgb};
use std::alloc::Global;

/// The paint of a `tile` line.
pub(crate) fn tile<'a>(images: &'a [Image], rect: Rect, image: u32) -> Paint<'a>
    requires placed { IsPlacedRect rect }
    requires declared { image < length images.now }
    ensures { result ≡ TilePaint (record { rect = rect; image = image_at images.now image }) }
{
    Paint::Tile {
        tile: Tile::new(rect, &images[image as usize]),
    }
}

/// The paint of a `blit` line.
pub(crate) fn blit<'a>(images: &'a [Image], at: Point, image: u32, alpha: u8) -> Paint<'a>
    requires placed { IsPlaced at }
    requires declared { image < length images.now }
    ensures { result ≡ BlitPaint (record { at = at; image = image_at images.now image; alpha = alpha }) }
{
    Paint::Blit {
        blit: Blit::new(at, &images[image as usize], alpha),
    }
}

/// The paint of a `polyline` line.
pub(crate) fn polyline<'a>(
    alloc: Global,
    points: &[Point],
    colour: Rgb,
) -> Result<Paint<'a>, OutOfMemory>
    requires { IsPolyline points.now }
    ensures { IfOk result (λ paint. paint ≡ PolylinePaint (record { points = points.now; colour = colour })) }
{
    match Polyline::new(alloc, points, colour) {
        Ok(polyline) => Ok(Paint::Polyline { polyline }),
        Err(_) => Err(OutOfMemory),
    }
}

/// The paint of a `polygon` line.
pub(crate) fn polygon<'a>(
    alloc: Global,
    points: &[Point],
    ink: Ink,
) -> Result<Paint<'a>, OutOfMemory>
    requires { IsPolygon points.now }
    ensures { IfOk result (λ paint. paint ≡ PolygonPaint (record { points = points.now; ink = ink })) }
{
    match Polygon::new(alloc, points, ink) {
        Ok(polygon) => Ok(Paint::Polygon { polygon }),
        Err(_) => Err(OutOfMemory),
    }
}

/// The paint of a `text` line.
pub(crate) fn text<'a>(
    alloc: Global,
    fonts: &'a [Font],
    font: u32,
    at: Point,
    ink: Ink,
    codes: &[u32],
) -> Result<Paint<'a>, OutOfMemory>
    requires placed { IsPlaced at }
    requires written { IsWritten fonts.now font codes.now }
    ensures { IfOk result (λ paint. paint ≡ TextPaint (record { at = at; ink = ink; height = (font_at fonts.now font).height; glyphs = spelled (font_at fonts.now font) codes.now })) }
{
    match TextRun::new(alloc, &fonts[font as usize], at, codes, ink) {
        Ok(text) => Ok(Paint::Text { text }),
        Err(_) => Err(OutOfMemory),
    }
}
