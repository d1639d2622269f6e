//! Sharing out pixels among windows, by operations on regions.
ghost use Rattle.std.specs.Prelude.{◌≡◌, ◌&&◌, ◌||◌, not, false, length, IfOk, OnOk, All};
ghost use Rattle.qws_base.specs.Points.{any_holds, is_on_screen};
ghost use Rattle.qws_base.specs.Regions.{IsRegionOf};
ghost use Rattle.qws_base.specs.declared.points.Point.{Point};
ghost use Rattle.region_alloc.specs.Allocations.{windows_asking};
ghost use Rattle.region_alloc.specs.Sharing.{AreParts};

use band_regions::Region;
use qws_base::{OutOfMemory, Rect, Size};
use std::alloc::Global;
use window_stack::Stack;

/// The number of slots.
pub const SLOTS: u32 = 32;

/// All pixels of the screen.
pub fn whole_screen(alloc: Global, screen: Size) -> Result<Region, OutOfMemory>
    ensures { IfOk result (λ region. IsRegionOf region (is_on_screen screen)) }
{
    let rects = [Rect {
        x: 0,
        y: 0,
        w: screen.w(),
        h: screen.h(),
    }];
    Region::of_rects(alloc, &rects)
}

/// Takes out of the ground what the request holds of it.
fn take(alloc: Global, request: &Region, ground: &mut Region) -> Result<Region, OutOfMemory>
    ensures part { IfOk result (λ part. IsRegionOf part (λ p. any_holds request.now p && any_holds ground.old p)) }
    ensures rest { OnOk result ((p : Point) → any_holds ground.new p ≡ (any_holds ground.old p && not (any_holds request.now p))) }
{
    let part = request.meet(alloc, ground)?;
    if !part.rects().is_empty() {
        *ground = ground.minus(alloc, &part)?;
    }
    Ok(part)
}

/// An empty region for each slot.
fn no_parts(alloc: Global) -> Result<Vec<Region>, OutOfMemory>
    ensures count { IfOk result (λ parts. length parts.items ≡ 32) }
    ensures none { IfOk result (λ parts. All (λ part. IsRegionOf part (λ p. false)) parts.items) }
{
    let mut parts = Vec::new(alloc);
    for _slot in 0..SLOTS {
        let none = Region::of_rects(alloc, &[])?;
        parts.push(none)?;
    }
    Ok(parts)
}

/// Shares out the ground: each of its pixels goes to the first window of the stack whose slot's request holds it.
pub fn share_out(
    alloc: Global,
    stack: &Stack,
    requests: &[Region],
    ground: Region,
) -> Result<Vec<Region>, OutOfMemory>
    requires { length requests.now ≡ 32 }
    ensures { IfOk result (λ parts. AreParts ground (windows_asking requests.now stack.now) parts.items) }
{
    let mut ground = ground;
    let mut parts = no_parts(alloc)?;
    for k in 0..stack.len() {
        let (slot, _, _) = stack.at(k);
        let slot = slot as usize;
        let part = take(alloc, &requests[slot], &mut ground)?;
        parts[slot] = part;
    }
    Ok(parts)
}

/// What a slot has, where the changed pixels were shared out again: its part of these, and what it had outside of them.
pub fn renewed(
    alloc: Global,
    old: &Region,
    changed: &Region,
    part: &Region,
) -> Result<Region, OutOfMemory>
    ensures { IfOk result (λ region. IsRegionOf region (λ p. any_holds part.now p || (any_holds old.now p && not (any_holds changed.now p)))) }
{
    if old.rects().is_empty() {
        return Ok(part.copy(alloc)?);
    }
    let outside = old.minus(alloc, changed)?;
    if part.rects().is_empty() {
        return Ok(outside);
    }
    part.unite(alloc, &outside)
}
