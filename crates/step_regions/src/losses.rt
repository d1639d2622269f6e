//! The pixels that lose their last owner.
ghost use Rattle.std.specs.Prelude.{◌≡◌, ◌<◌, ◌&&◌, not, All, IfOk};
ghost use Rattle.qws_base.specs.Points.{any_holds};
ghost use Rattle.qws_base.specs.RectPixels.{IsWithin};
ghost use Rattle.qws_base.specs.declared.points.Point.{Point};
ghost use Rattle.window_core.specs.CoreViews.{Belongs};
ghost use Rattle.step_regions.specs.Bared.{of_slots, is_lost};

use band_regions::Region;
use qws_base::{OutOfMemory, windows_stay_arranged};
use std::alloc::Global;
use window_core::{Core, Plan};

// The pixels that belong to one of the slots now.
fn all_of(alloc: Global, core: &Core, slots: &[u32]) -> Result<Region, OutOfMemory>
    requires { All (λ slot. slot < 32) slots.now }
    ensures { IfOk result (λ region. (p : Point) → any_holds region p ≡ of_slots core.now.size core.now.state.windows slots.now p) }
{
    let mut region = Region::of_rects(alloc, &[])?;
    for slot in slots {
        region = region.unite(alloc, core.region(*slot))?;
    }
    Ok(region)
}

// The pixels of a region that belong to none of the slots after a plan's step.
fn none_of(alloc: Global, plan: &Plan, slots: &[u32], region: Region) -> Result<Region, OutOfMemory>
    requires { All (λ slot. slot < 32) slots.now }
    ensures { IfOk result (λ rest. (p : Point) → any_holds rest p ≡ (any_holds region p && not (of_slots plan.now.size plan.now.windows slots.now p))) }
{
    let mut rest = region;
    for slot in slots {
        rest = rest.minus(alloc, plan.region(*slot))?;
    }
    Ok(rest)
}

/// The pixels of the screen that belong to a slot now, and to none after a plan's step. All memory is taken here.
pub fn bared(alloc: Global, core: &Core, plan: &Plan) -> Result<Region, OutOfMemory>
    requires { Belongs core.now.size plan.now core.now.state }
    ensures points { IfOk result (λ region. (p : Point) → any_holds region p ≡ is_lost core.now.size core.now.state.windows plan.now.windows p) }
    ensures within { IfOk result (λ region. All (IsWithin core.now.size) region) }
{
    windows_stay_arranged();
    let _windows = core.windows();
    let slots = plan.risen();
    let before = all_of(alloc, core, slots)?;
    let lost = none_of(alloc, plan, slots, before)?;
    let _rects = lost.rects();
    Ok(lost)
}
