//! Painting a picture row by row.
ghost use Rattle.std.specs.Prelude.{◌≡◌, ℕ, ◌+◌, ◌*◌, ◌%◌, ◌<◌, ◌≤◌, All, length, if◌then◌else◌, true, false};
ghost use Rattle.std.specs.List.{filter, range_with_len};
ghost use Rattle.qws_base.specs.Inks.{is_skip};
ghost use Rattle.qws_base.specs.Points.{IsPlaced, IsOnLargest, point_of};
ghost use Rattle.qws_base.specs.Scenes.{has_ink};
ghost use Rattle.turn_logs.specs.Tables.{IsOnScreen};
ghost use Rattle.display_lock.specs.Turns.{IsOpen, SameTurn, client_in};
ghost use Rattle.sw_cursor.specs.Covers.{PaintsOn, IsCover};
ghost use Rattle.qws_base.specs.RectPixels.{rect_pixels};
ghost use Rattle.shared_painter.specs.Painted.{PaintsPixels, PaintsInks, IsClear, OwnsSpan, OwnsRect, cut_pixels};
ghost use Rattle.picture_cuts.specs.Cuts.{cut_rect};

use display_lock::PaintTurn;
use picture_cuts::cut;
use qws_base::{Ink, Picture, Point, Rect, Size};
use sw_cursor::{Cover, put_clear, put_covered};

// 1 for an ink that isn't Skip.
#[inline(always)]
fn inked(ink: &Ink) -> u64
    ensures { result ≡ (if is_skip ink.now then 0 else 1) }
{
    match ink {
        Ink::Skip => 0,
        _ => 1,
    }
}

// Whether a place has an ink.
#[inline(always)]
fn is_ink(place: &Ink, ink: &Ink) -> bool
    ensures { result ≡ true → place.now ≡ ink.now }
{
    *place == *ink
}

// Paints the pixels of a row, on which no cell of the cursor lies, up to the first with another ink than this one, which isn't
// Skip. How many there are.
#[inline(always)]
fn paint_front(turn: &mut PaintTurn, cover: &Cover, first: u32, inks: &[Ink], ink: Ink) -> usize
    requires open { IsOpen turn.old }
    requires cover { IsCover (client_in turn.old) cover.now }
    requires clear { IsClear (client_in turn.old) cover.now first (length inks.now) }
    requires pixels { first + length inks.now ≤ 307200 }
    requires owns { OwnsSpan (client_in turn.old) first (length inks.now) }
    requires inked { is_skip ink ≡ false }
    ensures same { SameTurn turn.old turn.new }
    ensures open { IsOpen turn.new }
    ensures goes { PaintsOn (client_in turn.old) (client_in turn.new) }
    ensures cover { IsCover (client_in turn.new) cover.now }
    ensures log { PaintsInks inks.now first result (client_in turn.old) (client_in turn.new) result }
    ensures few { result ≤ length inks.now }
{
    for j in 0..inks.len() {
        if !is_ink(&inks[j], &ink) {
            return j;
        }
        put_clear(turn, cover, first + j as u32, ink);
    }
    inks.len()
}

// Paints the pixels of a row, on which no cell of the cursor lies, up to the first with another ink than the first one's, where
// that is a Copy or a Blend; else none. How many there are. The kind of ink is asked once.
#[inline(always)]
fn paint_even(turn: &mut PaintTurn, cover: &Cover, first: u32, inks: &[Ink]) -> usize
    requires open { IsOpen turn.old }
    requires cover { IsCover (client_in turn.old) cover.now }
    requires clear { IsClear (client_in turn.old) cover.now first (length inks.now) }
    requires pixels { first + length inks.now ≤ 307200 }
    requires owns { OwnsSpan (client_in turn.old) first (length inks.now) }
    ensures same { SameTurn turn.old turn.new }
    ensures open { IsOpen turn.new }
    ensures goes { PaintsOn (client_in turn.old) (client_in turn.new) }
    ensures cover { IsCover (client_in turn.new) cover.now }
    ensures log { PaintsInks inks.now first result (client_in turn.old) (client_in turn.new) result }
    ensures few { result ≤ length inks.now }
{
    match inks.first() {
        Some(Ink::Copy { c }) => paint_front(turn, cover, first, inks, Ink::Copy { c: *c }),
        Some(Ink::Blend { c, a }) => {
            paint_front(turn, cover, first, inks, Ink::Blend { c: *c, a: *a })
        }
        _ => 0,
    }
}

// Paints the pixels of a row on which no cell of the cursor lies, and counts those with ink.
#[inline(always)]
fn paint_clear(turn: &mut PaintTurn, cover: &Cover, first: u32, inks: &[Ink]) -> u64
    requires open { IsOpen turn.old }
    requires cover { IsCover (client_in turn.old) cover.now }
    requires clear { IsClear (client_in turn.old) cover.now first (length inks.now) }
    requires pixels { first + length inks.now ≤ 307200 }
    requires owns { OwnsSpan (client_in turn.old) first (length inks.now) }
    ensures same { SameTurn turn.old turn.new }
    ensures open { IsOpen turn.new }
    ensures goes { PaintsOn (client_in turn.old) (client_in turn.new) }
    ensures cover { IsCover (client_in turn.new) cover.now }
    ensures log { PaintsInks inks.now first (length inks.now) (client_in turn.old) (client_in turn.new) result }
    ensures few { result ≤ length inks.now }
{
    let front = paint_even(turn, cover, first, inks);
    let mut count = front as u64;
    for j in front..inks.len() {
        count += inked(&inks[j]);
        put_clear(turn, cover, first + j as u32, inks[j]);
    }
    count
}

// Paints pixels of a row, as many as there is room for inks, and counts those with ink. `at` is the point of the first.
#[inline(always)]
fn paint_row<P: Picture>(
    turn: &mut PaintTurn,
    cover: &Cover,
    picture: &P,
    origin: Point,
    at: Point,
    first: u32,
    inks: &mut [Ink],
) -> u64
    requires open { IsOpen turn.old }
    requires cover { IsCover (client_in turn.old) cover.now }
    requires origin { IsPlaced origin }
    requires on_screen { IsOnLargest at }
    requires at { at ≡ point_of (client_in turn.old).setting.size.w first }
    requires width { first % (client_in turn.old).setting.size.w + length inks.old ≤ (client_in turn.old).setting.size.w }
    requires most { (client_in turn.old).setting.size.w ≤ 640 }
    requires pixels { first + length inks.old ≤ 307200 }
    requires owns { OwnsSpan (client_in turn.old) first (length inks.old) }
    ensures same { SameTurn turn.old turn.new }
    ensures open { IsOpen turn.new }
    ensures goes { PaintsOn (client_in turn.old) (client_in turn.new) }
    ensures cover { IsCover (client_in turn.new) cover.now }
    ensures log { PaintsPixels origin (P.sheet picture.now) (range_with_len first (length inks.old)) (client_in turn.old) (client_in turn.new) }
    ensures few { result ≤ length inks.old }
    ensures count { result ≡ length (filter (has_ink (client_in turn.old).setting.size.w origin (P.sheet picture.now)) (range_with_len first (length inks.old))) }
    ensures room { length inks.new ≡ length inks.old }
{
    picture.row(at.y - origin.y, at.x - origin.x, inks);
    if cover.misses(at.y) {
        return paint_clear(turn, cover, first, inks);
    }
    let mut count = 0;
    for j in 0..inks.len() {
        count += inked(&inks[j]);
        let point = Point {
            x: at.x + j as i32,
            y: at.y,
        };
        put_covered(turn, cover, point, first + j as u32, inks[j]);
    }
    count
}

// Paints the pixels of a rectangle on the screen, by rows, and counts those with ink.
#[inline(always)]
fn paint_rect<P: Picture>(
    turn: &mut PaintTurn,
    cover: &Cover,
    picture: &P,
    origin: Point,
    rect: Rect,
    size: Size,
    inks: &mut [Ink],
) -> u64
    requires open { IsOpen turn.old }
    requires cover { IsCover (client_in turn.old) cover.now }
    requires origin { IsPlaced origin }
    requires size { size ≡ (client_in turn.old).setting.size }
    requires on_screen { IsOnScreen size rect }
    requires room { length inks.old ≡ 640 }
    requires owns { OwnsRect (client_in turn.old) rect }
    ensures same { SameTurn turn.old turn.new }
    ensures open { IsOpen turn.new }
    ensures goes { PaintsOn (client_in turn.old) (client_in turn.new) }
    ensures cover { IsCover (client_in turn.new) cover.now }
    ensures log { PaintsPixels origin (P.sheet picture.now) (rect_pixels size.w rect) (client_in turn.old) (client_in turn.new) }
    ensures count { result ≡ length (filter (has_ink size.w origin (P.sheet picture.now)) (rect_pixels size.w rect)) }
    ensures few { result ≤ 307200 }
    ensures room { length inks.new ≡ 640 }
{
    let width = size.w();
    let _height = size.h();
    let mut count = 0;
    for i in 0..rect.h {
        let at = Point {
            x: rect.x,
            y: rect.y + i as i32,
        };
        let first = (rect.y as u32 + i) * width + rect.x as u32;
        let span = &mut inks[..rect.w as usize];
        count += paint_row(turn, cover, picture, origin, at, first, span);
    }
    count
}

// Paints the pixels of a rectangle on the screen that the picture reaches, by rows, and counts those with ink.
#[inline(always)]
fn paint_part<P: Picture>(
    turn: &mut PaintTurn,
    cover: &Cover,
    picture: &P,
    origin: Point,
    reach: Rect,
    rect: Rect,
    size: Size,
    inks: &mut [Ink],
) -> u64
    requires open { IsOpen turn.old }
    requires cover { IsCover (client_in turn.old) cover.now }
    requires origin { IsPlaced origin }
    requires size { size ≡ (client_in turn.old).setting.size }
    requires on_screen { IsOnScreen size rect }
    requires room { length inks.old ≡ 640 }
    requires owns { OwnsRect (client_in turn.old) rect }
    ensures same { SameTurn turn.old turn.new }
    ensures open { IsOpen turn.new }
    ensures goes { PaintsOn (client_in turn.old) (client_in turn.new) }
    ensures cover { IsCover (client_in turn.new) cover.now }
    ensures log { PaintsPixels origin (P.sheet picture.now) (rect_pixels size.w (cut_rect origin reach rect)) (client_in turn.old) (client_in turn.new) }
    ensures count { result ≡ length (filter (has_ink size.w origin (P.sheet picture.now)) (rect_pixels size.w (cut_rect origin reach rect))) }
    ensures few { result ≤ 307200 }
    ensures room { length inks.new ≡ 640 }
{
    let _width = size.w();
    let part = cut(rect, origin, reach);
    if part.w == 0 {
        return 0;
    }
    if part.h == 0 {
        return 0;
    }
    paint_rect(turn, cover, picture, origin, part, size, inks)
}

// Paints the pixels of rectangles on the screen that the picture reaches, one rectangle after another, and counts those with ink.
#[inline(always)]
pub(crate) fn paint_rects<P: Picture>(
    turn: &mut PaintTurn,
    cover: &Cover,
    picture: &P,
    origin: Point,
    rects: &[Rect],
    size: Size,
    inks: &mut [Ink],
) -> u64
    requires open { IsOpen turn.old }
    requires cover { IsCover (client_in turn.old) cover.now }
    requires origin { IsPlaced origin }
    requires size { size ≡ (client_in turn.old).setting.size }
    requires few { length rects.now ≤ 256 }
    requires on_screen { All (IsOnScreen size) rects.now }
    requires room { length inks.old ≡ 640 }
    requires owns { All (OwnsRect (client_in turn.old)) rects.now }
    ensures same { SameTurn turn.old turn.new }
    ensures open { IsOpen turn.new }
    ensures goes { PaintsOn (client_in turn.old) (client_in turn.new) }
    ensures log { PaintsPixels origin (P.sheet picture.now) (cut_pixels size.w origin (P.sheet picture.now).reach rects.now) (client_in turn.old) (client_in turn.new) }
    ensures count { result ≡ length (filter (has_ink size.w origin (P.sheet picture.now)) (cut_pixels size.w origin (P.sheet picture.now).reach rects.now)) }
{
    let reach = picture.reach();
    let mut count = 0;
    for rect in rects {
        count += paint_part(turn, cover, picture, origin, reach, *rect, size, inks);
    }
    count
}
