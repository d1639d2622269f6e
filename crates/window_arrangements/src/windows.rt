//! Lists of windows, from front to back.
ghost use Rattle.std.specs.Prelude.{◌≡◌, ◌∷◌, ◌++◌, nat_le, not, IfOk, map, option_copied};
ghost use Rattle.std.specs.List.{find, filter};
ghost use Rattle.qws_base.specs.Windows.{client_of_slot, has_slot, origin_of};
ghost use Rattle.qws_base.specs.Stacking.{new_window, windows_without, with_region, with_origin};
ghost use Rattle.window_arrangements.specs.Lists.{is_from};

use qws_base::{OutOfMemory, Point, Rects, WindowView};
use std::alloc::Global;

/// The window of the slot; none where no window has it.
pub fn window_of(windows: &[WindowView], slot: u32) -> Option<&WindowView>
    ensures { option_copied result ≡ find (has_slot slot) windows.now }
{
    windows.iter().find(|w| w.slot == slot)
}

/// The client whose window has the slot.
pub fn owner_of(windows: &[WindowView], slot: u32) -> Option<u32>
    ensures { result ≡ client_of_slot windows.now slot }
{
    let window = window_of(windows, slot)?;
    Some(window.owner)
}

/// The origin of the window of the slot; (0, 0) where there is none.
pub fn origin_of(windows: &[WindowView], slot: u32) -> Point
    ensures { result ≡ origin_of windows.now slot }
{
    match window_of(windows, slot) {
        Some(window) => window.origin,
        None => Point { x: 0, y: 0 },
    }
}

/// A new window, at (0, 0) and without rectangles.
pub fn new_window(alloc: Global, slot: u32, client: u32, layer: u32) -> WindowView
    ensures { result ≡ new_window slot client layer }
{
    WindowView {
        slot,
        owner: client,
        layer,
        origin: Point { x: 0, y: 0 },
        rects: Rects::of(Vec::new(alloc)),
    }
}

/// The windows without that of the slot.
pub fn without(
    alloc: Global,
    windows: &[WindowView],
    slot: u32,
) -> Result<Vec<WindowView>, OutOfMemory>
    ensures { IfOk result (λ v. v.items ≡ windows_without slot windows.now) }
{
    let mut others = Vec::new(alloc);
    for window in windows {
        if window.slot != slot {
            others.push(window.copy(alloc)?)?;
        }
    }
    Ok(others)
}

/// The window put among others: behind those whose layer is at least `layer`, before all others.
pub fn put_behind(
    alloc: Global,
    others: Vec<WindowView>,
    window: WindowView,
    layer: u32,
) -> Result<Vec<WindowView>, OutOfMemory>
    ensures { IfOk result (λ v. v.items ≡ filter (is_from layer) others.items ++ window ∷ filter (λ w. not (is_from layer w)) others.items) }
{
    let mut front = Vec::new(alloc);
    let mut back = Vec::new(alloc);
    for other in others {
        if other.layer >= layer {
            front.push(other)?;
        } else {
            back.push(other)?;
        }
    }
    front.push(window)?;
    front.append(&mut back)?;
    Ok(front)
}

/// The windows, of which that of the slot has a new origin and new rectangles.
pub fn with_new_region(
    alloc: Global,
    windows: &[WindowView],
    slot: u32,
    origin: Point,
    rects: &Rects,
) -> Result<Vec<WindowView>, OutOfMemory>
    ensures { IfOk result (λ v. v.items ≡ map (with_region slot origin rects.now) windows.now) }
{
    let mut all = Vec::new(alloc);
    for window in windows {
        let mut copy = window.copy(alloc)?;
        if window.slot == slot {
            copy.origin = origin;
            copy.rects = rects.copy(alloc)?;
        }
        all.push(copy)?;
    }
    Ok(all)
}

/// The windows, of which that of the slot has a new origin.
pub fn with_new_origin(
    alloc: Global,
    windows: &[WindowView],
    slot: u32,
    origin: Point,
) -> Result<Vec<WindowView>, OutOfMemory>
    ensures { IfOk result (λ v. v.items ≡ map (with_origin slot origin) windows.now) }
{
    let mut all = Vec::new(alloc);
    for window in windows {
        let mut copy = window.copy(alloc)?;
        if window.slot == slot {
            copy.origin = origin;
        }
        all.push(copy)?;
    }
    Ok(all)
}
