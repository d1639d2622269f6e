//! The pixels that a move carries.
ghost use Rattle.std.specs.Prelude.{◌≡◌, ◌-◌, ◌<◌, ◌≤◌, nat_lt, pos, ◌-ℤ◌, ◌≤ℤ◌, [], IfOk, Some};
ghost use Rattle.qws_base.specs.Points.{minus};
ghost use Rattle.qws_base.specs.States.{is_refused};
ghost use Rattle.qws_base.specs.Windows.{origin_of};
ghost use Rattle.window_core.specs.CoreViews.{Belongs};
ghost use Rattle.step_regions.specs.Carried.{CarriesFor, IsCarried, IsNear, slot_carried};

use crate::windows::origin_of;
use band_regions::Region;
use qws_base::{Command, OutOfMemory, Point, Reply};
use std::alloc::Global;
use window_core::{Core, Plan};

/// Where a move brings colours: to the pixels of a region on the screen, each from the pixel so many places ahead, or `falling`
/// so many places behind.
#[derive(Debug, Drop)]
pub struct CarriedPixels {
    pub region: Region,
    pub falling: bool,
    pub by: u32,
}

// How many places a distance goes forth.
fn places_forth(d: i32) -> u32
    requires { IsNear d }
    ensures forth { pos 0 ≤ℤ d → pos result ≡ d }
    ensures none { d ≤ℤ pos 0 → result ≡ 0 }
    ensures few { result ≤ 8192 }
{
    if d > 0 { d as u32 } else { 0 }
}

// How many places a distance goes back.
fn places_back(d: i32) -> u32
    requires { IsNear d }
    ensures back { d ≤ℤ pos 0 → (pos 0 -ℤ pos result) ≡ d }
    ensures none { pos 0 ≤ℤ d → result ≡ 0 }
    ensures few { result ≤ 8192 }
{
    if d < 0 { d.unsigned_abs() } else { 0 }
}

// Whether there are more places forth than back.
fn is_falling(forth: u32, back: u32) -> bool
    ensures { result ≡ nat_lt back forth }
{
    back < forth
}

// How many places lie between.
fn places_between(forth: u32, back: u32) -> u32
    ensures falling { back < forth → result ≡ forth - back }
    ensures rising { forth ≤ back → result ≡ back - forth }
{
    if back < forth {
        forth - back
    } else {
        back - forth
    }
}

// The pixels of a slot that it has before a plan's step and after it, where its window moves by so many columns and rows.
fn carried(
    alloc: Global,
    core: &Core,
    plan: &Plan,
    slot: u32,
    dx: i32,
    dy: i32,
) -> Result<CarriedPixels, OutOfMemory>
    requires belongs { Belongs core.now.size plan.now core.now.state }
    requires slot { slot < 32 }
    requires columns { IsNear dx }
    requires rows { IsNear dy }
    ensures { IfOk result (λ c. IsCarried core.now.size core.now.state.windows plan.now.windows slot (record { x = dx; y = dy }) c.region c.falling c.by) }
{
    let width = core.size().w();
    let moved = core.region(slot).shift(alloc, dx, dy)?;
    let region = plan.region(slot).meet(alloc, &moved)?;
    let right = places_forth(dx);
    let left = places_back(dx);
    let down = places_forth(dy);
    let up = places_back(dy);
    let forth = down * width + right;
    let back = up * width + left;
    let falling = is_falling(forth, back);
    let by = places_between(forth, back);
    Ok(CarriedPixels {
        region,
        falling,
        by,
    })
}

// No pixels.
fn no_pixels(alloc: Global) -> Result<CarriedPixels, OutOfMemory>
    ensures { IfOk result (λ c. c.region ≡ []) }
{
    let region = Region::of_rects(alloc, &[])?;
    let _none = region.is_empty();
    Ok(CarriedPixels {
        region,
        falling: false,
        by: 0,
    })
}

// Whether a reply is a refusal.
fn is_refused(reply: &Reply) -> bool
    ensures { result ≡ is_refused reply.now }
{
    matches!(reply, Reply::Refused { cause: _ })
}

/// How far the window of a slot moves by a plan's step.
pub fn distance(core: &Core, plan: &Plan, slot: u32) -> Point
    requires { Belongs core.now.size plan.now core.now.state }
    ensures distance { result ≡ minus (origin_of plan.now.windows slot) (origin_of core.now.state.windows slot) }
    ensures near { IsNear result.x × IsNear result.y }
{
    let before = origin_of(core.windows(), slot);
    let after = origin_of(plan.windows(), slot);
    Point {
        x: after.x - before.x,
        y: after.y - before.y,
    }
}

// The pixels that the window of a slot carries to where it is after the step.
fn carried_to(
    alloc: Global,
    core: &Core,
    plan: &Plan,
    slot: u32,
) -> Result<CarriedPixels, OutOfMemory>
    requires belongs { Belongs core.now.size plan.now core.now.state }
    requires slot { slot < 32 }
    ensures { IfOk result (λ c. CarriesFor core.now.size core.now.state.windows plan.now.windows (Some slot) c.region c.falling c.by) }
{
    let by = distance(core, plan, slot);
    carried(alloc, core, plan, slot, by.x, by.y)
}

/// The pixels that a plan's step carries: those of an accepted move that its slot has before it and after it; else none. All
/// memory is taken here.
pub fn carried_by(
    alloc: Global,
    core: &Core,
    plan: &Plan,
    command: &Command,
) -> Result<CarriedPixels, OutOfMemory>
    requires belongs { Belongs core.now.size plan.now core.now.state }
    requires command { plan.now.command ≡ command.now }
    ensures { IfOk result (λ c. CarriesFor core.now.size core.now.state.windows plan.now.windows (slot_carried plan.now) c.region c.falling c.by) }
{
    let _windows = core.windows();
    if is_refused(plan.reply()) {
        return no_pixels(alloc);
    }
    if let Command::Move { slot, origin: _ } = command {
        return carried_to(alloc, core, plan, *slot);
    }
    no_pixels(alloc)
}
