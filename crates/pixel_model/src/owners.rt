//! Which window a point belongs to, and where windows are.
ghost use Rattle.std.specs.Prelude.{◌≡◌, ◌+ℤ◌, ◌<◌, ◌≤◌, ◌*◌, ◌↔◌, IsTrue, All, IfSome};
ghost use Rattle.qws_base.specs.Points.{spans, holds, shifted, point_of, pixel_at, pixel_count, IsOnLargest, IsPlaced};
ghost use Rattle.std.specs.List.{find};
ghost use Rattle.std.specs.Option.{option_map};
ghost use Rattle.qws_base.specs.Windows.{covers, has_slot, owner_at, origin_of, is_own};

use qws_base::{Point, Rect, Size, WindowView};

// Whether `len` places from `origin + start` on have a place among them.
fn is_spanned(origin: i32, start: i32, len: u32, at: i32) -> bool
    ensures { result ≡ spans (origin +ℤ start) len at }
{
    let low = origin as i64 + start as i64;
    let at = at as i64;
    low <= at && at < low + len as i64
}

// Whether a rectangle, moved by an origin, has the point in it.
fn is_in(origin: Point, r: Rect, p: Point) -> bool
    ensures { result ≡ holds (shifted origin r) p }
{
    is_spanned(origin.x, r.x, r.w, p.x) && is_spanned(origin.y, r.y, r.h, p.y)
}

fn is_covered(window: &WindowView, p: Point) -> bool
    ensures { result ≡ covers p window.now }
{
    window
        .rects
        .as_slice()
        .iter()
        .any(|r| is_in(window.origin, *r, p))
}

/// The slot of the first window in the list that covers the point of the screen: one of its rectangles, moved by its
/// origin, has the point in it. None exactly where no window does.
pub fn owner_of(windows: &[WindowView], p: Point) -> Option<u32>
    ensures { result ≡ owner_at windows.now p }
{
    windows.iter().find(|w| is_covered(w, p)).map(|w| w.slot)
}

/// Whether a window of the client has the slot.
pub fn has_own(windows: &[WindowView], client: u32, slot: u32) -> bool
    ensures { result ≡ is_own windows.now client slot }
{
    windows.iter().any(|w| w.slot == slot && w.owner == client)
}

/// Whether each window's origin is in -4,096 to 4,095, as `apply_step` and `apply_paint` of a canvas ask.
pub fn are_placed(windows: &[WindowView]) -> bool
    ensures { IsTrue result ↔ All (λ w. IsPlaced w.origin) windows.now }
{
    windows.iter().all(|w| w.origin.is_placed())
}

// The origin of the first window with a slot.
fn found_origin(windows: &[WindowView], slot: u32) -> Option<Point>
    requires { All (λ w. IsPlaced w.origin) windows.now }
    ensures value { result ≡ option_map (λ w. w.origin) (find (has_slot slot) windows.now) }
    ensures placed { IfSome result IsPlaced }
{
    windows.iter().find(|w| w.slot == slot).map(|w| w.origin)
}

/// The origin of the window in a slot; (0, 0) where there is none.
#[tactic(auto, using(crate::proofs::Origins::origin_found, crate::proofs::Origins::origin_missing))]
pub fn slot_origin(windows: &[WindowView], slot: u32) -> Point
    requires { All (λ w. IsPlaced w.origin) windows.now }
    ensures value { result ≡ origin_of windows.now slot }
    ensures placed { IsPlaced result }
{
    match found_origin(windows, slot) {
        Some(origin) => origin,
        None => Point { x: 0, y: 0 },
    }
}

/// The point of a pixel on a screen of that width.
pub fn pixel_point(width: u32, p: u32) -> Point
    requires some { 0 < width }
    requires most { width ≤ 640 }
    requires range { p < 480 * width }
    ensures value { result ≡ point_of width p }
    ensures on_screen { IsOnLargest result }
{
    let row = p / width;
    Point {
        x: (p % width) as i32,
        y: row as i32,
    }
}

/// The pixel at a point; none off the screen.
pub fn point_pixel(size: Size, p: Point) -> Option<u32>
    ensures value { result ≡ pixel_at size p }
    ensures range { IfSome result (λ q. q < pixel_count size) }
{
    let w = size.w();
    if is_spanned(0, 0, w, p.x) && is_spanned(0, 0, size.h(), p.y) {
        Some(p.y as u32 * w + p.x as u32)
    } else {
        None
    }
}
