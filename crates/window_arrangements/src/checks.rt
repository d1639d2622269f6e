//! What a change of windows brings: a slot that needs too many rectangles, and the slots that changed.
ghost use Rattle.std.specs.Prelude.{◌≡◌, ◌<◌, ◌+◌, ◌-◌, ◌^◌, ℕ, IfOk, if◌then◌else◌, map, length, slice_index};
ghost use Rattle.std.specs.List.{filter};
ghost use Rattle.qws_base.specs.Windows.{client_of_slot, origin_of};
ghost use Rattle.qws_base.specs.Stacking.{slots};
ghost use Rattle.qws_base.specs.Refusals.{bad_region, is_requestable, off_screen, too_complex};
ghost use Rattle.qws_base.specs.Steps.{is_modified, is_changed};

use crate::arrangements::Arrangement;
use crate::windows::{origin_of, owner_of};
use band_regions::{count_of_corners, one_list_for_a_set};
use qws_base::{OutOfMemory, Point, Rect, Refusal};
use std::alloc::Global;

/// The most rectangles of a request.
const MOST_REQUESTED: usize = 32;

/// The most rectangles that the pixels of a slot may need.
const MOST_RECTS: usize = 256;

/// The refusal for an origin of a window, a point of the screen: `OffScreen` where x or y isn't in -4,096 to 4,095, and none
/// where both are.
pub fn off_range(origin: Point) -> Option<Refusal>
    ensures { result ≡ off_screen origin }
{
    if -4096 <= origin.x && origin.x <= 4095 && -4096 <= origin.y && origin.y <= 4095 {
        return None;
    }
    Some(Refusal::OffScreen {
        x: origin.x,
        y: origin.y,
    })
}

/// The refusal for requested rectangles, in points local to a window's origin: `BadRegion` with the place of the first, from 0,
/// that has x or y out of -4,096 to 4,095 or a side out of 1 to 4,096, or that stands at place 32 or later; none where there is
/// no such rectangle.
pub fn bad_place(rects: &[Rect]) -> Option<Refusal>
    ensures { result ≡ bad_region rects.now }
{
    for k in 0..rects.len() {
        if k >= MOST_REQUESTED || !is_requestable(&rects[k]) {
            let index = k as u32;
            return Some(Refusal::BadRegion { index });
        }
    }
    None
}

/// Whether a rectangle may be asked for.
fn is_requestable(rect: &Rect) -> bool
    ensures { result ≡ is_requestable rect.now }
{
    -4096 <= rect.x
        && rect.x <= 4095
        && -4096 <= rect.y
        && rect.y <= 4095
        && 1 <= rect.w
        && rect.w <= 4096
        && 1 <= rect.h
        && rect.h <= 4096
}

/// The refusal for windows: `TooComplex` with the least slot whose pixels need more than 256 canonical rectangles, and how many
/// it needs; none where each slot needs at most 256.
pub fn too_complex(windows: &Arrangement) -> Option<Refusal>
    ensures { result ≡ too_complex windows.now.size windows.now.windows }
{
    count_of_corners();
    // A screen has so few pixels that the number of rectangles fits.
    let _ = windows.size().w();
    for slot in 0..32 {
        let rects = windows.region(slot).rects().len();
        if rects > MOST_RECTS {
            return Some(Refusal::TooComplex {
                slot,
                rects: rects as u32,
            });
        }
    }
    None
}

/// Whether the slot has other pixels than before.
fn is_modified(before: &Arrangement, after: &Arrangement, slot: u32) -> bool
    requires size { before.now.size ≡ after.now.size }
    requires slot { slot < 32 }
    ensures { result ≡ is_modified before.now.size before.now.windows after.now.windows slot }
{
    one_list_for_a_set();
    !before.region(slot).is_same(after.region(slot))
}

/// Whether the slot has another owner, another origin or other pixels than before.
fn is_changed(before: &Arrangement, after: &Arrangement, slot: u32) -> bool
    requires size { before.now.size ≡ after.now.size }
    requires slot { slot < 32 }
    ensures { result ≡ is_changed before.now.size before.now.windows after.now.windows slot }
{
    owner_of(before.windows(), slot) != owner_of(after.windows(), slot)
        || origin_of(before.windows(), slot) != origin_of(after.windows(), slot)
        || is_modified(before, after, slot)
}

/// The slots, 0 to 31, that have other pixels than before, in ascending order. Both arrangements are of one size.
pub fn modified_slots(
    alloc: Global,
    before: &Arrangement,
    after: &Arrangement,
) -> Result<Vec<u32>, OutOfMemory>
    requires { before.now.size ≡ after.now.size }
    ensures { IfOk result (λ v. v.items ≡ filter (is_modified before.now.size before.now.windows after.now.windows) slots) }
{
    let mut modified = Vec::new(alloc);
    for slot in 0..32 {
        if is_modified(before, after, slot) {
            modified.push(slot)?;
        }
    }
    Ok(modified)
}

/// The slots, 0 to 31, that have another owner, another origin or other pixels than before, in ascending order. Both
/// arrangements are of one size.
pub fn changed_slots(
    alloc: Global,
    before: &Arrangement,
    after: &Arrangement,
) -> Result<Vec<u32>, OutOfMemory>
    requires { before.now.size ≡ after.now.size }
    ensures { IfOk result (λ v. v.items ≡ filter (is_changed before.now.size before.now.windows after.now.windows) slots) }
{
    let mut changed = Vec::new(alloc);
    for slot in 0..32 {
        if is_changed(before, after, slot) {
            changed.push(slot)?;
        }
    }
    Ok(changed)
}

/// The revisions of the 32 slots, each one more where the slot has another owner, another origin or other pixels than before.
/// Both arrangements are of one size, and no revision stands at its last value, 2^64 - 1. It takes no memory.
pub fn risen(revisions: [u64; 32], before: &Arrangement, after: &Arrangement) -> [u64; 32]
    requires size { before.now.size ≡ after.now.size }
    requires room { (slot : ℕ) → slot < 32 → slice_index revisions slot < 2 ^ 64 - 1 }
    ensures { result ≡ map (λ slot. if is_changed before.now.size before.now.windows after.now.windows slot then slice_index revisions slot + 1 else slice_index revisions slot) slots }
{
    let mut risen = revisions;
    for slot in 0..32 {
        if is_changed(before, after, slot) {
            risen[slot as usize] = revisions[slot as usize] + 1;
        }
    }
    risen
}
