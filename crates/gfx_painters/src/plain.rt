//! Painting on the plain picture, row by row.
ghost use Rattle.std.specs.Prelude.{◌≡◌, ◌↔◌, IsTrue, ◌+◌, ◌%◌, ◌<◌, ◌≤◌, All, length, if◌then◌else◌};
ghost use Rattle.std.specs.List.{filter, range_with_len};
ghost use Rattle.qws_base.specs.Inks.{is_skip};
ghost use Rattle.qws_base.specs.Points.{IsPlaced, IsOnLargest, point_of, pixel_count};
ghost use Rattle.qws_base.specs.Regions.{HasPixels};
ghost use Rattle.qws_base.specs.Scenes.{has_ink};
ghost use Rattle.qws_base.specs.RectPixels.{IsWithin, AreDisjoint, rect_pixels, rects_pixels};
ghost use Rattle.gfx_painters.specs.Paints.{paint_sheet};
ghost use Rattle.gfx_painters.specs.Plain.{laid, region_painted, region_inked};

use crate::paints::Paint;
use band_regions::Region;
use picture_cuts::cut;
use pixel_model::Canvas;
use qws_base::{Ink, Picture, Point, Rect, RowBuf, Size};

// 1 for an ink that isn't Skip.
fn inked(ink: &Ink) -> u64
    ensures { result ≡ (if is_skip ink.now then 0 else 1) }
{
    match ink {
        Ink::Skip => 0,
        _ => 1,
    }
}

// Paints pixels of a row, as many as there is room for inks, and counts those with ink. `at` is the point of the first.
fn paint_row<P: Picture>(
    canvas: &mut Canvas,
    picture: &P,
    origin: Point,
    at: Point,
    first: u32,
    inks: &mut [Ink],
) -> u64
    requires origin { IsPlaced origin }
    requires on_screen { IsOnLargest at }
    requires at { at ≡ point_of canvas.old.setting.size.w first }
    requires width { first % canvas.old.setting.size.w + length inks.old ≤ canvas.old.setting.size.w }
    requires most { canvas.old.setting.size.w ≤ 640 }
    requires pixels { first + length inks.old ≤ pixel_count canvas.old.setting.size }
    requires few { pixel_count canvas.old.setting.size ≤ 307200 }
    ensures canvas { canvas.new ≡ record canvas.old { scene = laid canvas.old.setting origin (P.sheet picture.now) (range_with_len first (length inks.old)) canvas.old.scene } }
    ensures few { result ≤ length inks.old }
    ensures count { result ≡ length (filter (has_ink canvas.old.setting.size.w origin (P.sheet picture.now)) (range_with_len first (length inks.old))) }
    ensures room { length inks.new ≡ length inks.old }
{
    picture.row(at.y - origin.y, at.x - origin.x, inks);
    let mut count = 0;
    for j in 0..inks.len() {
        count += inked(&inks[j]);
        canvas.lay(first + j as u32, inks[j]);
    }
    count
}

// Paints the pixels of a rectangle on the screen, by rows, and counts those with ink.
fn paint_rect<P: Picture>(
    canvas: &mut Canvas,
    picture: &P,
    origin: Point,
    rect: Rect,
    size: Size,
    inks: &mut [Ink],
) -> u64
    requires origin { IsPlaced origin }
    requires size { size ≡ canvas.old.setting.size }
    requires on_screen { IsWithin size rect }
    requires some_pixels { HasPixels rect }
    requires room { length inks.old ≡ 640 }
    ensures canvas { canvas.new ≡ record canvas.old { scene = laid canvas.old.setting origin (P.sheet picture.now) (rect_pixels size.w rect) canvas.old.scene } }
    ensures count { result ≡ length (filter (has_ink size.w origin (P.sheet picture.now)) (rect_pixels size.w rect)) }
    ensures few { result ≤ 307200 }
    ensures room { length inks.new ≡ 640 }
{
    let width = size.w();
    let _height = size.h();
    let mut count = 0;
    for i in 0..rect.h {
        let at = Point {
            x: rect.x,
            y: rect.y + i as i32,
        };
        let first = (rect.y as u32 + i) * width + rect.x as u32;
        let span = &mut inks[..rect.w as usize];
        count += paint_row(canvas, picture, origin, at, first, span);
    }
    count
}

// Paints the pixels of a rectangle on the screen, and counts those with ink. Only the part that the picture reaches is visited, by
// rows: all pixels around it have Skip.
fn paint_part<P: Picture>(
    canvas: &mut Canvas,
    picture: &P,
    origin: Point,
    reach: Rect,
    rect: Rect,
    size: Size,
    inks: &mut [Ink],
) -> u64
    requires origin { IsPlaced origin }
    requires reach { reach ≡ (P.sheet picture.now).reach }
    requires size { size ≡ canvas.old.setting.size }
    requires on_screen { IsWithin size rect }
    requires room { length inks.old ≡ 640 }
    ensures canvas { canvas.new ≡ record canvas.old { scene = laid canvas.old.setting origin (P.sheet picture.now) (rect_pixels size.w rect) canvas.old.scene } }
    ensures count { result ≡ length (filter (has_ink size.w origin (P.sheet picture.now)) (rect_pixels size.w rect)) }
    ensures few { result ≤ 307200 }
    ensures room { length inks.new ≡ 640 }
{
    let _width = size.w();
    let part = cut(rect, origin, reach);
    if part.w == 0 || part.h == 0 {
        return 0;
    }
    paint_rect(canvas, picture, origin, part, size, inks)
}

// Paints the pixels of rectangles on the screen, one rectangle after another, and counts those with ink.
fn paint_rects<P: Picture>(
    canvas: &mut Canvas,
    picture: &P,
    origin: Point,
    rects: &[Rect],
    inks: &mut [Ink],
) -> u64
    requires origin { IsPlaced origin }
    requires on_screen { All (IsWithin canvas.old.setting.size) rects.now }
    requires disjoint { AreDisjoint canvas.old.setting.size rects.now }
    requires room { length inks.old ≡ 640 }
    ensures canvas { canvas.new ≡ record canvas.old { scene = laid canvas.old.setting origin (P.sheet picture.now) (rects_pixels canvas.old.setting.size.w rects.now) canvas.old.scene } }
    ensures count { result ≡ length (filter (has_ink canvas.old.setting.size.w origin (P.sheet picture.now)) (rects_pixels canvas.old.setting.size.w rects.now)) }
{
    let size = canvas.size();
    let _width = size.w();
    let reach = picture.reach();
    let mut count = 0;
    for rect in rects {
        count += paint_part(canvas, picture, origin, reach, *rect, size, inks);
    }
    count
}

// Whether a rectangle lies on a screen.
fn is_within(size: Size, rect: &Rect) -> bool
    ensures { IsTrue result ↔ IsWithin size rect.now }
{
    let width = size.w();
    let height = size.h();
    if rect.x < 0 || rect.y < 0 {
        return false;
    }
    let right = i64::from(rect.x) + i64::from(rect.w);
    let bottom = i64::from(rect.y) + i64::from(rect.h);
    right <= i64::from(width) && bottom <= i64::from(height)
}

/// Whether a region is on the canvas, as `paint_plain` asks.
pub fn is_on_canvas(canvas: &Canvas, region: &Region) -> bool
    ensures { IsTrue result ↔ All (IsWithin canvas.now.setting.size) region.now }
{
    let size = canvas.size();
    region.rects().iter().all(|rect| is_within(size, rect))
}

/// Paints on the pixels of a region of the canvas, for a window with that origin: each takes the paint's ink, and no other
/// pixel changes. Gives the number of those whose ink isn't Skip. The region is on the canvas, and the origin's coordinates
/// are in -4,096 to 4,095. It takes no memory.
pub fn paint_plain(
    canvas: &mut Canvas,
    region: &Region,
    origin: Point,
    paint: &Paint<'_>,
    row: &mut RowBuf,
) -> u64
    requires origin { IsPlaced origin }
    requires on_screen { All (IsWithin canvas.old.setting.size) region.now }
    ensures canvas { canvas.new ≡ record canvas.old { scene = region_painted canvas.old.setting region.now origin (paint_sheet paint.now) canvas.old.scene } }
    ensures count { result ≡ length (region_inked canvas.old.setting.size region.now origin (paint_sheet paint.now)) }
{
    let _pixels = canvas.pixels();
    paint_rects(canvas, paint, origin, region.rects(), row.inks())
}
