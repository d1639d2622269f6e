//! Windows with their requests, and the pixels that belong to them: a caller of `reallocate` for each kind of change.
ghost use Rattle.std.specs.Prelude.{◌≡◌, ◌<◌, length, IfOk};
ghost use Rattle.qws_base.specs.Stacking.{windows_without};

use crate::server::Stop;
use band_regions::Region;
use qws_base::{OutOfMemory, Rect, Size};
use region_alloc::{Allocation, allocate, others_keep_their_pixels, reallocate};
use std::alloc::Global;
use std::marker::Model;
use window_stack::Stack;

/// A stack of windows, a request for each slot, and the pixels that belong to it.
#[derive(Drop)]
pub struct Arrangement {
    screen: Size,
    stack: Stack,
    requests: Vec<Region>,
    regions: Allocation,
}

impl Model for Arrangement {
    ghost use Rattle.std.specs.Prelude.{◌≡◌, List, length};
    ghost use Rattle.qws_base.specs.declared.windows.WindowView.{WindowView};
    ghost use Rattle.region_alloc.specs.Allocations.{windows_asking, IsAllocation};

    ghost Value = { List WindowView };

    ghost view = { λ a. a.stack };

    ghost invariant = { λ a. (length a.requests.items ≡ 32) × IsAllocation a.screen (windows_asking a.requests.items a.stack) a.regions };
}

// Equal regions.
fn copied(alloc: Global, regions: &[Region]) -> Result<Vec<Region>, OutOfMemory>
    ensures { IfOk result (λ copy. copy.items ≡ regions.now) }
{
    let mut copy = Vec::new(alloc);
    for region in regions {
        copy.push(region.copy(alloc)?)?;
    }
    Ok(copy)
}

// An empty request for each of 32 slots.
fn no_requests(alloc: Global) -> Result<Vec<Region>, OutOfMemory>
    ensures { IfOk result (λ requests. length requests.items ≡ 32) }
{
    let mut requests = Vec::new(alloc);
    for _slot in 0..32_u32 {
        requests.push(Region::of_rects(alloc, &[])?)?;
    }
    Ok(requests)
}

impl Arrangement {
    /// No window.
    pub fn new(alloc: Global, screen: Size) -> Result<Arrangement, Stop> {
        let stack = Stack::new(alloc)?;
        let requests = no_requests(alloc)?;
        let regions = allocate(alloc, &stack, &requests, screen)?;
        Ok(Arrangement {
            screen,
            stack,
            requests,
            regions,
        })
    }

    // The window of one slot comes, goes, or has another place in the stack or another request.
    fn with_change(
        &self,
        alloc: Global,
        stack: Stack,
        slot: u32,
        request: Region,
    ) -> Result<Arrangement, Stop>
        requires slot { slot < 32 }
        requires others { windows_without slot stack ≡ windows_without slot self.now }
    {
        let changed = self.requests[slot as usize].unite(alloc, &request)?;
        let mut requests = copied(alloc, &self.requests)?;
        requests[slot as usize] = request;
        others_keep_their_pixels();
        let regions = reallocate(
            alloc,
            &self.regions,
            &stack,
            &requests,
            &changed,
            self.screen,
        )?;
        Ok(Arrangement {
            screen: self.screen,
            stack,
            requests,
            regions,
        })
    }

    /// A new window, which requests nothing yet.
    pub fn with_window(&self, alloc: Global, owner: u32, layer: u32) -> Result<Arrangement, Stop> {
        let mut stack = self.stack.copy(alloc)?;
        let slot = stack.create(owner, layer)?;
        self.with_change(alloc, stack, slot, Region::of_rects(alloc, &[])?)
    }

    /// Another request of the window of a slot, in coordinates of the screen.
    pub fn with_request(
        &self,
        alloc: Global,
        slot: u32,
        request: Region,
    ) -> Result<Arrangement, Stop> {
        if slot >= 32 {
            return Err(Stop::NoSlot);
        }
        self.with_change(alloc, self.stack.copy(alloc)?, slot, request)
    }

    /// Without the window of a slot.
    pub fn without_window(&self, alloc: Global, slot: u32) -> Result<Arrangement, Stop> {
        if slot >= 32 {
            return Err(Stop::NoSlot);
        }
        let mut stack = self.stack.copy(alloc)?;
        stack.destroy(slot)?;
        self.with_change(alloc, stack, slot, Region::of_rects(alloc, &[])?)
    }

    /// The window of a slot at the front of its layer.
    pub fn with_raised(&self, alloc: Global, slot: u32) -> Result<Arrangement, Stop> {
        if slot >= 32 {
            return Err(Stop::NoSlot);
        }
        let mut stack = self.stack.copy(alloc)?;
        stack.raise(slot)?;
        let request = self.requests[slot as usize].copy(alloc)?;
        self.with_change(alloc, stack, slot, request)
    }

    /// The rectangles of a slot's region.
    pub fn rects(&self, slot: u32) -> &[Rect]
        requires { slot < 32 }
    {
        self.regions.region(slot).rects()
    }

    /// The same shared out from nothing.
    pub fn shared_anew(&self, alloc: Global) -> Result<Allocation, Stop> {
        Ok(allocate(alloc, &self.stack, &self.requests, self.screen)?)
    }
}
