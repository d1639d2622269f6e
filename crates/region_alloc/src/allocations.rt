//! Allocations: which pixels belong to which slot.
ghost use Rattle.std.specs.Prelude.{◌≡◌, ◌<◌, length, IfOk};
ghost use Rattle.region_alloc.specs.Allocations.{of_slot, windows_asking, IsAllocation};
ghost use Rattle.region_alloc.specs.Changes.{IsSameOutside};

use crate::sharing::{SLOTS, renewed, share_out, whole_screen};
use band_regions::Region;
use qws_base::{OutOfMemory, Size};
use std::alloc::Global;
use std::marker::Model;
use window_stack::Stack;

/// A region for each of the 32 slots.
#[derive(Debug, Drop)]
pub struct Allocation {
    regions: Vec<Region>,
}

impl Model for Allocation {
    ghost use Rattle.std.specs.Prelude.{List, length, ◌≡◌};
    ghost use Rattle.qws_base.specs.declared.points.Rect.{Rect};

    ghost Value = { List (List Rect) };

    ghost view = { λ a. a.regions.items };

    ghost invariant = { λ a. length a.regions.items ≡ 32 };
}

impl Allocation {
    /// The region of a slot.
    pub fn region(&self, slot: u32) -> &Region
        requires { slot < 32 }
        ensures { result.now ≡ of_slot self.now slot }
    {
        &self.regions[slot as usize]
    }

    /// An equal allocation.
    pub fn copy(&self, alloc: Global) -> Result<Allocation, OutOfMemory>
        ensures { IfOk result (λ copy. copy ≡ self.now) }
    {
        let mut regions = Vec::new(alloc);
        for region in &self.regions {
            regions.push(region.copy(alloc)?)?;
        }
        Ok(Allocation { regions })
    }
}

/// The pixels of the screen, shared out among the windows: each belongs to the first window of the stack whose slot's
/// request holds it. The requests, one a slot, are in coordinates of the screen, and may go beyond it.
pub fn allocate(
    alloc: Global,
    stack: &Stack,
    requests: &[Region],
    screen: Size,
) -> Result<Allocation, OutOfMemory>
    requires { length requests.now ≡ 32 }
    ensures { IfOk result (λ regions. IsAllocation screen (windows_asking requests.now stack.now) regions) }
{
    let ground = whole_screen(alloc, screen)?;
    Ok(Allocation {
        regions: share_out(alloc, stack, requests, ground)?,
    })
}

/// What `allocate` gives, where the allocation before is known, and outside `changed` no pixel changes its owner: there each
/// slot keeps its region, and only the pixels of `changed` are shared out again.
pub fn reallocate(
    alloc: Global,
    old: &Allocation,
    stack: &Stack,
    requests: &[Region],
    changed: &Region,
    screen: Size,
) -> Result<Allocation, OutOfMemory>
    requires requests { length requests.now ≡ 32 }
    requires outside { IsSameOutside screen changed.now old.now (windows_asking requests.now stack.now) }
    ensures { IfOk result (λ regions. IsAllocation screen (windows_asking requests.now stack.now) regions) }
{
    let ground = whole_screen(alloc, screen)?.meet(alloc, changed)?;
    let parts = share_out(alloc, stack, requests, ground)?;
    let mut regions = Vec::new(alloc);
    for slot in 0..SLOTS {
        let region = renewed(alloc, old.region(slot), changed, &parts[slot as usize])?;
        regions.push(region)?;
    }
    Ok(Allocation { regions })
}
