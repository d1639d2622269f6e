//! Whether the cursor lies where a step draws.
ghost use Rattle.std.specs.Prelude.{◌≡◌, ℕ, pos, ◌+ℤ◌, int_lt, ◌&&◌, ◌||◌, All, false, true, Some};
ghost use Rattle.qws_base.specs.RectPixels.{IsWithin};
ghost use Rattle.qws_base.specs.Points.{minus, shifted};
ghost use Rattle.qws_base.specs.Windows.{origin_of};
ghost use Rattle.window_core.specs.CoreViews.{Belongs, IsServed};
ghost use Rattle.step_regions.specs.Carried.{CarriesFor, IsNear, slot_carried};
ghost use Rattle.step_turns.specs.Changes.{IsClear};
ghost use Rattle.step_turns.specs.Covers.{shares, meets, any_meets, place_of, IsNearby};

use band_regions::Region;
use qws_base::{Command, Point, Rect};
use step_regions::{CarriedPixels, distance};
use window_core::{Core, Plan};

// Whether so many places from a start on end behind a place.
fn end_behind(start: i32, count: u32, place: i32) -> bool
    ensures { result ≡ int_lt place (start +ℤ pos count) }
{
    i64::from(place) < i64::from(start) + i64::from(count)
}

// Whether so many places from one on, and so many from another on, have a place in common.
fn share_places(first: i32, count: u32, other: i32, others: u32) -> bool
    ensures { result ≡ shares first count other others }
{
    (end_behind(first, count, first) && end_behind(other, others, first))
        && (end_behind(first, count, other) && end_behind(other, others, other))
}

// Whether two rectangles have a point in common.
fn is_meeting(rect: Rect, other: Rect) -> bool
    ensures { result ≡ meets other rect }
{
    share_places(rect.x, rect.w, other.x, other.w) && share_places(rect.y, rect.h, other.y, other.h)
}

// Whether one of the rectangles has a point in common with another.
fn is_any_meeting(rects: &[Rect], other: Rect) -> bool
    ensures { result ≡ any_meets other rects.now }
{
    rects.iter().any(|rect| is_meeting(*rect, other))
}

// Where the cells of a cursor on the screen lie.
fn place_of(core: &Core) -> Rect
    requires served { IsServed core.now.size core.now.state }
    ensures place { result ≡ place_of core.now.state.cursor }
    ensures nearby { IsNearby result }
{
    let _width = core.size().w();
    let cursor = core.cursor();
    Rect {
        x: cursor.x as i32,
        y: cursor.y as i32,
        w: cursor.w,
        h: cursor.h,
    }
}

// A place moved by a distance.
fn moved_by(by: Point, place: Rect) -> Rect
    requires near { IsNear by.x × IsNear by.y }
    requires place { IsNearby place }
    ensures { result ≡ shifted by place }
{
    Rect {
        x: by.x + place.x,
        y: by.y + place.y,
        w: place.w,
        h: place.h,
    }
}

// Where a place goes with the window that a plan's step moves; without one it stays.
fn moved_place(core: &Core, plan: &Plan, command: &Command, place: Rect) -> Rect
    requires belongs { Belongs core.now.size plan.now core.now.state }
    requires command { plan.now.command ≡ command.now }
    requires place { IsNearby place }
    ensures { (slot : ℕ) → slot_carried plan.now ≡ Some slot → result ≡ shifted (minus (origin_of plan.now.windows slot) (origin_of core.now.state.windows slot)) place }
{
    if let Command::Move { slot, origin: _ } = command {
        return moved_by(distance(core, plan, *slot), place);
    }
    place
}

// Whether a cursor is shown, and lies on one of three things.
fn covers_any(shown: bool, first: bool, second: bool, third: bool) -> bool
    ensures { result ≡ (shown && ((first || second) || third)) }
{
    shown && (first || second || third)
}

/// Whether a cell of the shown cursor lies on a pixel that is carried or filled, or from which one is carried.
pub(crate) fn is_covered(
    core: &Core,
    plan: &Plan,
    command: &Command,
    carried: &CarriedPixels,
    bared: &Region,
) -> bool
    requires served { IsServed core.now.size core.now.state }
    requires belongs { Belongs core.now.size plan.now core.now.state }
    requires command { plan.now.command ≡ command.now }
    requires carried { CarriesFor core.now.size core.now.state.windows plan.now.windows (slot_carried plan.now) carried.now.region carried.now.falling carried.now.by }
    requires bared { All (IsWithin core.now.size) bared.now }
    ensures clear { result ≡ false → IsClear core.now.size core.now.state.cursor carried.now bared.now }
    ensures covered { result ≡ true → IsClear core.now.size core.now.state.cursor carried.now bared.now → ⊥ }
{
    let place = place_of(core);
    let source = moved_place(core, plan, command, place);
    let on_carried = is_any_meeting(carried.region.rects(), place);
    let on_bared = is_any_meeting(bared.rects(), place);
    let on_source = is_any_meeting(carried.region.rects(), source);
    covers_any(core.cursor().shown, on_carried, on_bared, on_source)
}
