//! What windows ask for, in coordinates of the screen.
ghost use Rattle.std.specs.Prelude.{◌≡◌, ◌<◌, None, IfOk, false, length, slice_set, map};
ghost use Rattle.std.specs.List.{list_any};
ghost use Rattle.qws_base.specs.Points.{holds, any_holds, shifted};
ghost use Rattle.qws_base.specs.Refusals.{off_screen, bad_region};
ghost use Rattle.qws_base.specs.declared.points.Point.{Point};
ghost use Rattle.window_arrangements.specs.Near.{IsNearPoint, IsNearRect};

use band_regions::Region;
use qws_base::{OutOfMemory, Point, Rect};
use std::alloc::Global;

/// The rectangle moved by an origin.
fn moved_rect(origin: Point, rect: &Rect) -> Rect
    requires origin { IsNearPoint origin }
    requires rect { IsNearRect rect.now }
    ensures { result ≡ shifted origin rect.now }
{
    Rect {
        x: origin.x + rect.x,
        y: origin.y + rect.y,
        w: rect.w,
        h: rect.h,
    }
}

/// The rectangles moved by an origin.
fn moved(alloc: Global, origin: Point, rects: &[Rect]) -> Result<Vec<Rect>, OutOfMemory>
    requires origin { off_screen origin ≡ None }
    requires rects { bad_region rects.now ≡ None }
    ensures { IfOk result (λ v. v.items ≡ map (shifted origin) rects.now) }
{
    let mut all = Vec::new(alloc);
    for rect in rects {
        all.push(moved_rect(origin, rect))?;
    }
    Ok(all)
}

/// The request of a window: the points that its rectangles hold, moved by its origin.
pub fn request_of(alloc: Global, origin: Point, rects: &[Rect]) -> Result<Region, OutOfMemory>
    requires origin { off_screen origin ≡ None }
    requires rects { bad_region rects.now ≡ None }
    ensures { IfOk result (λ region. (p : Point) → any_holds region p ≡ list_any (λ r. holds (shifted origin r) p) rects.now) }
{
    let moved = moved(alloc, origin, rects)?;
    let region = Region::of_rects(alloc, &moved)?;
    Ok(region)
}

/// The request of a window without rectangles.
pub fn no_request(alloc: Global) -> Result<Region, OutOfMemory>
    ensures { IfOk result (λ region. (p : Point) → any_holds region p ≡ false) }
{
    Region::of_rects(alloc, &[])
}

/// The requests, of which that of the slot is another.
pub fn with_request(
    alloc: Global,
    requests: &[Region],
    slot: u32,
    request: Region,
) -> Result<Vec<Region>, OutOfMemory>
    requires { slot < length requests.now }
    ensures { IfOk result (λ v. v.items ≡ slice_set requests.now slot request) }
{
    let mut all = Vec::new(alloc);
    for region in requests {
        all.push(region.copy(alloc)?)?;
    }
    all[slot as usize] = request;
    Ok(all)
}
