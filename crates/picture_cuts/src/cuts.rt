//! The part of a rectangle that a picture reaches.
ghost use Rattle.std.specs.Prelude.{◌≡◌, ◌≤◌, pos, ◌+ℤ◌, ◌≤ℤ◌};
ghost use Rattle.qws_base.specs.RectPixels.{IsWithin};
ghost use Rattle.picture_cuts.specs.Cuts.{later, sooner, shared_span, cut_rect, largest};

use qws_base::{Point, Rect};

#[inline(always)]
fn later(a: i64, b: i64) -> i64
    ensures value { result ≡ later a b }
    ensures low { a ≤ℤ result }
{
    if a <= b { b } else { a }
}

#[inline(always)]
fn sooner(a: i64, b: i64) -> i64
    ensures value { result ≡ sooner a b }
    ensures high { result ≤ℤ a }
{
    if a <= b { a } else { b }
}

// The places of a side of a screen that a picture's side reaches: the first, and how many. Without any it is empty, at `start`.
#[inline(always)]
fn shared_span(start: i32, len: u32, origin: i32, reach: i32, count: u32) -> (i32, u32)
    requires low { pos 0 ≤ℤ start }
    requires high { (start +ℤ pos len) ≤ℤ pos 640 }
    ensures { result ≡ shared_span start len (origin +ℤ reach) count }
{
    let from = i64::from(origin) + i64::from(reach);
    let low = later(i64::from(start), from);
    let high = sooner(i64::from(start) + i64::from(len), from + i64::from(count));
    if low < high {
        (low as i32, (high - low) as u32)
    } else {
        (start, 0)
    }
}

/// The part of a rectangle that a picture reaches, for a window with that origin: the points of `rect` that are also points of
/// `reach` moved by `origin`, as a rectangle again. `rect` is on the largest screen, so in columns 0 to 639 and rows 0 to 479, and
/// may be empty; `reach` is in points local to the window. Where the two share no column the answer has no width, and where they
/// share no row no height.
#[inline(always)]
pub fn cut(rect: Rect, origin: Point, reach: Rect) -> Rect
    requires { IsWithin largest rect }
    ensures { result ≡ cut_rect origin reach rect }
{
    let (x, w) = shared_span(rect.x, rect.w, origin.x, reach.x, reach.w);
    let (y, h) = shared_span(rect.y, rect.h, origin.y, reach.y, reach.h);
    Rect { x, y, w, h }
}
