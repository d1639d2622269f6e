//! What a step makes of the cells of a picture.
ghost use Rattle.std.specs.Prelude.{◌≡◌, ◌<◌, ◌≤◌, ◌*◌, ◌⊎◌, All, length, is_none, slice_index, if◌then◌else◌, IfSome, Some};
ghost use Rattle.qws_base.specs.Points.{IsPlaced, minus, pixel_at, pixel_count, point_of};
ghost use Rattle.qws_base.specs.Windows.{layout_of, origin_of, owns};
ghost use Rattle.qws_base.specs.Scenes.{Setting, carried_from, pixel_after_step, scene_after_step};
ghost use Rattle.std.specs.Bool.{OnTrue, OnFalse};
ghost use Rattle.pixel_model.specs.Directions.{GoesOn, GoesBack};
ghost use Rattle.pixel_model.specs.Drawn.{IsShift, CarriesDown, CarriesUp};
ghost use Rattle.qws_base.specs.declared.colours.Depth.TheVariants.{Full};

use crate::owners::{owner_of, pixel_point, point_pixel, slot_origin};
use qws_base::{Point, Rgb, Size, WindowView};

// How far a move shifts a slot.
fn shift_of(before: &[WindowView], after: &[WindowView], slot: u32) -> Point
    requires before { All (λ w. IsPlaced w.origin) before.now }
    requires after { All (λ w. IsPlaced w.origin) after.now }
    ensures value { result ≡ minus (origin_of after.now slot) (origin_of before.now slot) }
    ensures range { IsShift result }
{
    let from = slot_origin(before, slot);
    let to = slot_origin(after, slot);
    Point {
        x: to.x - from.x,
        y: to.y - from.y,
    }
}

// The pixel that lies that far before a pixel, if it is on the screen.
fn shifted_back(size: Size, shift: Point, p: u32) -> Option<u32>
    requires shift { IsShift shift }
    requires range { p < pixel_count size }
    ensures value { result ≡ pixel_at size (minus (point_of size.w p) shift) }
    ensures range { IfSome result (λ q. q < pixel_count size) }
{
    let at = pixel_point(size.w(), p);
    point_pixel(
        size,
        Point {
            x: at.x - shift.x,
            y: at.y - shift.y,
        },
    )
}

// Whether a pixel belongs to a slot.
fn is_owned(size: Size, windows: &[WindowView], slot: u32, p: u32) -> bool
    requires { p < pixel_count size }
    ensures { result ≡ owns (layout_of size windows.now) slot p }
{
    match owner_of(windows, pixel_point(size.w(), p)) {
        Some(owner) => owner == slot,
        None => false,
    }
}

// The pixel that a step carries to a pixel.
fn carried(
    size: Size,
    before: &[WindowView],
    after: &[WindowView],
    moved: Option<u32>,
    p: u32,
) -> Option<u32>
    requires before { All (λ w. IsPlaced w.origin) before.now }
    requires after { All (λ w. IsPlaced w.origin) after.now }
    requires range { p < pixel_count size }
    ensures value { result ≡ carried_from size (layout_of size before.now) (layout_of size after.now) moved p }
    ensures range { IfSome result (λ q. q < pixel_count size) }
{
    let slot = moved?;
    let q = shifted_back(size, shift_of(before, after, slot), p)?;
    if is_owned(size, after, slot, p) && is_owned(size, before, slot, q) {
        Some(q)
    } else {
        None
    }
}

// A pixel after a step.
fn stepped_pixel(
    size: Size,
    backdrop: Rgb,
    before: &[WindowView],
    after: &[WindowView],
    moved: Option<u32>,
    cells: &[Rgb],
    p: u32,
) -> Rgb
    requires before { All (λ w. IsPlaced w.origin) before.now }
    requires after { All (λ w. IsPlaced w.origin) after.now }
    requires pixels { length cells.now ≡ pixel_count size }
    requires range { p < pixel_count size }
    ensures { let setting : Setting = record { size = size; depth = Full; backdrop = backdrop } in
        result ≡ pixel_after_step setting (layout_of size before.now) (layout_of size after.now) moved cells.now p }
{
    match carried(size, before, after, moved, p) {
        Some(q) => cells[q as usize],
        None => kept_pixel(size, backdrop, after, cells, p),
    }
}

// A pixel to which nothing is carried.
fn kept_pixel(size: Size, backdrop: Rgb, after: &[WindowView], cells: &[Rgb], p: u32) -> Rgb
    requires pixels { length cells.now ≡ pixel_count size }
    requires range { p < pixel_count size }
    ensures { result ≡ (if is_none ((layout_of size after.now).owner p) then backdrop else slice_index cells.now p) }
{
    match owner_of(after, pixel_point(size.w(), p)) {
        None => backdrop,
        Some(_) => cells[p as usize],
    }
}

// A step that carries no pixel from a lower one: from the first pixel on.
fn rise(
    cells: &mut [Rgb],
    size: Size,
    backdrop: Rgb,
    before: &[WindowView],
    after: &[WindowView],
    moved: Option<u32>,
)
    requires before { All (λ w. IsPlaced w.origin) before.now }
    requires after { All (λ w. IsPlaced w.origin) after.now }
    requires pixels { length cells.old ≡ pixel_count size }
    requires down { CarriesDown size (layout_of size before.now) (layout_of size after.now) moved }
    ensures { let setting : Setting = record { size = size; depth = Full; backdrop = backdrop } in
        cells.new ≡ scene_after_step setting (layout_of size before.now) (layout_of size after.now) moved cells.old }
{
    for p in 0..cells.len() {
        cells[p] = stepped_pixel(size, backdrop, before, after, moved, cells, p as u32);
    }
}

// A step that carries no pixel from a higher one: from the last pixel on.
fn fall(
    cells: &mut [Rgb],
    size: Size,
    backdrop: Rgb,
    before: &[WindowView],
    after: &[WindowView],
    moved: Option<u32>,
)
    requires before { All (λ w. IsPlaced w.origin) before.now }
    requires after { All (λ w. IsPlaced w.origin) after.now }
    requires pixels { length cells.old ≡ pixel_count size }
    requires up { CarriesUp size (layout_of size before.now) (layout_of size after.now) moved }
    ensures { let setting : Setting = record { size = size; depth = Full; backdrop = backdrop } in
        cells.new ≡ scene_after_step setting (layout_of size before.now) (layout_of size after.now) moved cells.old }
{
    let mut p = cells.len();
    while p > 0 {
        p -= 1;
        cells[p] = stepped_pixel(size, backdrop, before, after, moved, cells, p as u32);
    }
}

// Whether a shift goes to later pixels: down, or to the right in the row.
fn goes_on(shift: Point) -> bool
    ensures on { OnTrue result (GoesOn shift) }
    ensures back { OnFalse result (GoesBack shift) }
{
    shift.y > 0 || shift.y == 0 && shift.x > 0
}

// A step whose slot was moved.
fn apply_move(
    cells: &mut [Rgb],
    size: Size,
    backdrop: Rgb,
    before: &[WindowView],
    after: &[WindowView],
    slot: u32,
)
    requires before { All (λ w. IsPlaced w.origin) before.now }
    requires after { All (λ w. IsPlaced w.origin) after.now }
    requires pixels { length cells.old ≡ pixel_count size }
    ensures { let setting : Setting = record { size = size; depth = Full; backdrop = backdrop } in
        cells.new ≡ scene_after_step setting (layout_of size before.now) (layout_of size after.now) (Some slot) cells.old }
{
    if goes_on(shift_of(before, after, slot)) {
        fall(cells, size, backdrop, before, after, Some(slot));
    } else {
        rise(cells, size, backdrop, before, after, Some(slot));
    }
}

/// The cells after an accepted command, with the windows before and after it, and the slot if it was a move.
pub fn apply(
    cells: &mut [Rgb],
    size: Size,
    backdrop: Rgb,
    before: &[WindowView],
    after: &[WindowView],
    moved: Option<u32>,
)
    requires before { All (λ w. IsPlaced w.origin) before.now }
    requires after { All (λ w. IsPlaced w.origin) after.now }
    requires pixels { length cells.old ≡ pixel_count size }
    ensures { let setting : Setting = record { size = size; depth = Full; backdrop = backdrop } in
        cells.new ≡ scene_after_step setting (layout_of size before.now) (layout_of size after.now) moved cells.old }
{
    match moved {
        Some(slot) => apply_move(cells, size, backdrop, before, after, slot),
        None => rise(cells, size, backdrop, before, after, None),
    }
}
