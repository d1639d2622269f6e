//! What a paint makes of the cells of a picture.
ghost use Rattle.std.specs.Prelude.{◌≡◌, ◌<◌, not, All, length, if◌then◌else◌};
ghost use Rattle.qws_base.specs.Inks.{is_skip};
ghost use Rattle.qws_base.specs.Points.{IsPlaced, IsOnLargest, minus, pixel_count};
ghost use Rattle.qws_base.specs.Windows.{layout_of, origin_of, owns};
ghost use Rattle.qws_base.specs.Sheets.{ink_at};
ghost use Rattle.qws_base.specs.Scenes.{Setting, by_pixels, ink_on, inked, pixel_after_paint, scene_after_paint, paint_reply};
ghost use Rattle.qws_base.specs.declared.inks.Ink.TheVariants.{Skip};
ghost use Rattle.pixel_model.specs.Drawn.{AllSceneColours};

use crate::owners::{has_own, owner_of, pixel_point, slot_origin};
use qws_base::{Depth, Ink, PaintReply, Picture, Point, Rgb, Size, WindowView, after_at};

// The ink that a picture has at a point of the screen, for a window with that origin.
fn picture_ink<P: Picture>(picture: &P, origin: Point, p: Point) -> Ink
    requires placed { IsPlaced origin }
    requires on_screen { IsOnLargest p }
    ensures { result ≡ ink_at (P.sheet picture.now) (minus p origin) }
{
    let mut one = [Ink::Skip];
    picture.row(p.y - origin.y, p.x - origin.x, &mut one);
    one[0]
}

// The ink that a paint of a slot has at a pixel: Skip where the pixel isn't the slot's.
fn pixel_ink<P: Picture>(
    size: Size,
    windows: &[WindowView],
    slot: u32,
    origin: Point,
    picture: &P,
    p: u32,
) -> Ink
    requires placed { IsPlaced origin }
    requires range { p < pixel_count size }
    ensures { result ≡ (if owns (layout_of size windows.now) slot p then ink_on size.w origin (P.sheet picture.now) p else Skip) }
{
    let at = pixel_point(size.w(), p);
    match owner_of(windows, at) {
        Some(owner) if owner == slot => picture_ink(picture, origin, at),
        _ => Ink::Skip,
    }
}

// Whether a pixel takes ink.
fn takes_ink(ink: &Ink) -> bool
    ensures { result ≡ not (is_skip ink.now) }
{
    *ink != Ink::Skip
}

// Paints the pixels of a slot, and counts those that take ink.
fn paint_slot<P: Picture>(
    cells: &mut [Rgb],
    size: Size,
    depth: Depth,
    windows: &[WindowView],
    slot: u32,
    origin: Point,
    picture: &P,
) -> u64
    requires placed { IsPlaced origin }
    requires origin { origin ≡ origin_of windows.now slot }
    requires pixels { length cells.old ≡ pixel_count size }
    requires colours { AllSceneColours depth cells.old }
    ensures cells { let setting : Setting = record { size = size; depth = depth; backdrop = 0 } in
        cells.new ≡ by_pixels size (pixel_after_paint setting (layout_of size windows.now) slot (P.sheet picture.now) cells.old) }
    ensures colours { AllSceneColours depth cells.new }
    ensures count { result ≡ length (inked size (layout_of size windows.now) slot (P.sheet picture.now)) }
{
    let mut pixels = 0;
    for p in 0..cells.len() {
        let ink = pixel_ink(size, windows, slot, origin, picture, p as u32);
        if takes_ink(&ink) {
            pixels += 1;
        }
        cells[p] = after_at(depth, ink, cells[p]);
    }
    pixels
}

/// A paint of a slot by a client: Gone exactly where the client has no window in the slot, and then the cells stay.
pub fn paint<P: Picture>(
    cells: &mut [Rgb],
    size: Size,
    depth: Depth,
    windows: &[WindowView],
    client: u32,
    slot: u32,
    picture: &P,
) -> PaintReply
    requires placed { All (λ w. IsPlaced w.origin) windows.now }
    requires pixels { length cells.old ≡ pixel_count size }
    requires colours { AllSceneColours depth cells.old }
    ensures cells { let setting : Setting = record { size = size; depth = depth; backdrop = 0 } in
        cells.new ≡ scene_after_paint setting (layout_of size windows.now) client slot (P.sheet picture.now) cells.old }
    ensures colours { AllSceneColours depth cells.new }
    ensures reply { result ≡ paint_reply size (layout_of size windows.now) client slot (P.sheet picture.now) }
{
    if !has_own(windows, client, slot) {
        return PaintReply::Gone;
    }
    let origin = slot_origin(windows, slot);
    PaintReply::Painted {
        pixels: paint_slot(cells, size, depth, windows, slot, origin, picture),
    }
}
