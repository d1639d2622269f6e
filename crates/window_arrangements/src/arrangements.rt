//! Windows with what follows from them: their stack, what they ask for, and which pixels belong to which slot.
ghost use Rattle.std.specs.Prelude.{◌≡◌, ◌≢◌, ◌<◌, ◌≤◌, [], IfOk, IfSome, None, Some, AllPairs, map, is_none};
ghost use Rattle.std.specs.List.{find};
ghost use Rattle.qws_base.specs.Regions.{IsRegionOf};
ghost use Rattle.qws_base.specs.Refusals.{off_screen, bad_region};
ghost use Rattle.qws_base.specs.Windows.{allocated_points, has_slot};
ghost use Rattle.qws_base.specs.Stacking.{free_slot, windows_created, windows_without, windows_raised, windows_lowered, with_region, with_origin};
ghost use Rattle.qws_base.specs.Arranged.{IsWindow};
ghost use Rattle.window_stack.specs.Stacks.{stack_of};
ghost use Rattle.window_arrangements.specs.Arrangements.{IsRequestOf, OthersAsk};

use crate::requests::{no_request, request_of, with_request};
use crate::windows::{new_window, put_behind, with_new_origin, with_new_region, without};
use band_regions::Region;
use qws_base::{OutOfMemory, Point, Rects, Size, WindowView};
use region_alloc::{
    Allocation, allocate, allocation_of_windows, others_keep_their_pixels, reallocate,
};
use std::alloc::Global;
use std::marker::Model;
use window_stack::{Stack, stack_of_windows};

/// The windows of a state from front to back, on a screen of a size, with the pixels that belong to each of the 32 slots. Each
/// change gives another arrangement and leaves this one; want of memory is its only error.
#[derive(Debug, Drop)]
pub struct Arrangement {
    size: Size,
    windows: Vec<WindowView>,
    stack: Stack,
    requests: Vec<Region>,
    allocation: Allocation,
}

impl Model for Arrangement {
    ghost use Rattle.window_arrangements.specs.Arrangements.{ArrangementView, IsKeptFor};

    ghost Value = { ArrangementView };

    ghost view = { λ a. record { size = a.size; windows = a.windows.items } };

    ghost invariant = { λ a. IsKeptFor a.size a.windows.items a.stack a.requests.items a.allocation };
}

impl Arrangement {
    /// No window, on a screen of the size.
    pub fn new(alloc: Global, size: Size) -> Result<Arrangement, OutOfMemory>
        ensures { IfOk result (λ a. a ≡ record { size = size; windows = [] }) }
    {
        let stack = Stack::new(alloc)?;
        let mut requests = Vec::new(alloc);
        while requests.len() < 32 {
            requests.push(no_request(alloc)?)?;
        }
        let allocation = allocate(alloc, &stack, &requests, size)?;
        Ok(Arrangement {
            size,
            windows: Vec::new(alloc),
            stack,
            requests,
            allocation,
        })
    }

    /// The size of the screen, in pixels.
    pub fn size(&self) -> Size
        ensures { result ≡ self.now.size }
    {
        self.size
    }

    /// The windows from front to back.
    pub fn windows(&self) -> &[WindowView]
        ensures { result.now ≡ self.now.windows }
    {
        &self.windows
    }

    /// The pixels of the screen that belong to a slot; none where no window has it.
    pub fn region(&self, slot: u32) -> &Region
        requires { slot < 32 }
        ensures { IsRegionOf result.now (allocated_points self.now.size self.now.windows slot) }
    {
        allocation_of_windows();
        self.allocation.region(slot)
    }

    /// A new window of the client in the least free slot, at the front of its layer, 0 or 1, at (0, 0) and without rectangles;
    /// none where each of the 32 slots has a window.
    pub fn created(
        &self,
        alloc: Global,
        client: u32,
        layer: u32,
    ) -> Result<Option<Created>, OutOfMemory>
        requires { layer ≤ 1 }
        ensures none { IfOk result (λ made. is_none made ≡ is_none (free_slot self.now.windows)) }
        ensures slot { IfOk result (λ made. IfSome made (λ created. free_slot self.now.windows ≡ Some created.slot)) }
        ensures after { IfOk result (λ made. IfSome made (λ created. created.after ≡ record self.now { windows = windows_created client layer self.now.windows })) }
    {
        stack_of_windows();
        let mut stack = self.stack.copy(alloc)?;
        let Ok(slot) = stack.create(client, layer) else {
            return Ok(None);
        };
        let window = new_window(alloc, slot, client, layer);
        let others = without(alloc, self.windows(), slot)?;
        let windows = put_behind(alloc, others, window, layer + 1)?;
        let request = no_request(alloc)?;
        let after = self.rearranged(alloc, slot, windows, stack, request)?;
        Ok(Some(Created { slot, after }))
    }

    /// Without the window of the slot; the same windows where none has it.
    pub fn destroyed(&self, alloc: Global, slot: u32) -> Result<Arrangement, OutOfMemory>
        requires { slot < 32 }
        ensures { IfOk result (λ after. after ≡ record self.now { windows = windows_without slot self.now.windows }) }
    {
        stack_of_windows();
        let mut stack = self.stack.copy(alloc)?;
        let _ = stack.destroy(slot);
        let windows = without(alloc, self.windows(), slot)?;
        let request = no_request(alloc)?;
        let after = self.rearranged(alloc, slot, windows, stack, request)?;
        Ok(after)
    }

    /// With a new origin of the window of the slot, a point of the screen, and new rectangles, in points local to the origin;
    /// the same windows where none has the slot. `off_range` and `bad_place` tell what may not be asked for.
    pub fn with_region(
        &self,
        alloc: Global,
        slot: u32,
        origin: Point,
        rects: &Rects,
    ) -> Result<Arrangement, OutOfMemory>
        requires slot { slot < 32 }
        requires origin { off_screen origin ≡ None }
        requires rects { bad_region rects.now ≡ None }
        ensures { IfOk result (λ after. after ≡ record self.now { windows = map (with_region slot origin rects.now) self.now.windows }) }
    {
        stack_of_windows();
        let stack = self.stack.copy(alloc)?;
        let windows = with_new_region(alloc, self.windows(), slot, origin, rects)?;
        let request = request_of(alloc, origin, rects.as_slice())?;
        let after = self.rearranged(alloc, slot, windows, stack, request)?;
        Ok(after)
    }

    /// With a new origin of the window, a point of the screen; `off_range` tells which may not be asked for. The window is one
    /// of the arrangement's own.
    pub fn with_origin(
        &self,
        alloc: Global,
        window: &WindowView,
        origin: Point,
    ) -> Result<Arrangement, OutOfMemory>
        requires origin { off_screen origin ≡ None }
        requires window { find (has_slot window.now.slot) self.now.windows ≡ Some window.now }
        requires fits { IsWindow window.now }
        requires once { AllPairs (λ v w. v.slot ≢ w.slot) self.now.windows }
        ensures { IfOk result (λ after. after ≡ record self.now { windows = map (with_origin window.now.slot origin) self.now.windows }) }
    {
        stack_of_windows();
        let stack = self.stack.copy(alloc)?;
        let windows = with_new_origin(alloc, self.windows(), window.slot, origin)?;
        let request = request_of(alloc, origin, window.rects.as_slice())?;
        let after = self.rearranged(alloc, window.slot, windows, stack, request)?;
        Ok(after)
    }

    /// With the window, one of the arrangement's own, at the front of its layer.
    pub fn raised(&self, alloc: Global, window: &WindowView) -> Result<Arrangement, OutOfMemory>
        requires window { find (has_slot window.now.slot) self.now.windows ≡ Some window.now }
        requires fits { IsWindow window.now }
        requires once { AllPairs (λ v w. v.slot ≢ w.slot) self.now.windows }
        ensures { IfOk result (λ after. after ≡ record self.now { windows = windows_raised window.now.slot self.now.windows }) }
    {
        stack_of_windows();
        let mut stack = self.stack.copy(alloc)?;
        let _ = stack.raise(window.slot);
        let others = without(alloc, self.windows(), window.slot)?;
        let copy = window.copy(alloc)?;
        let windows = put_behind(alloc, others, copy, window.layer + 1)?;
        let request = self.requests[window.slot as usize].copy(alloc)?;
        let after = self.rearranged(alloc, window.slot, windows, stack, request)?;
        Ok(after)
    }

    /// With the window, one of the arrangement's own, at the back of its layer.
    pub fn lowered(&self, alloc: Global, window: &WindowView) -> Result<Arrangement, OutOfMemory>
        requires window { find (has_slot window.now.slot) self.now.windows ≡ Some window.now }
        requires fits { IsWindow window.now }
        requires once { AllPairs (λ v w. v.slot ≢ w.slot) self.now.windows }
        ensures { IfOk result (λ after. after ≡ record self.now { windows = windows_lowered window.now.slot self.now.windows }) }
    {
        stack_of_windows();
        let mut stack = self.stack.copy(alloc)?;
        let _ = stack.lower(window.slot);
        let others = without(alloc, self.windows(), window.slot)?;
        let copy = window.copy(alloc)?;
        let windows = put_behind(alloc, others, copy, window.layer)?;
        let request = self.requests[window.slot as usize].copy(alloc)?;
        let after = self.rearranged(alloc, window.slot, windows, stack, request)?;
        Ok(after)
    }

    // The arrangement of windows of which that of the slot alone came, went, or has another place or request.
    fn rearranged(
        &self,
        alloc: Global,
        slot: u32,
        windows: Vec<WindowView>,
        stack: Stack,
        request: Region,
    ) -> Result<Arrangement, OutOfMemory>
        requires slot { slot < 32 }
        requires stack { stack ≡ stack_of windows.items }
        requires others { windows_without slot stack ≡ windows_without slot (stack_of self.now.windows) }
        requires asking { OthersAsk self.now.size slot self.now.windows windows.items }
        requires request { IsRequestOf self.now.size slot windows.items request }
        ensures { IfOk result (λ after. after ≡ record self.now { windows = windows.items }) }
    {
        others_keep_their_pixels();
        let changed = self.requests[slot as usize].unite(alloc, &request)?;
        let requests = with_request(alloc, &self.requests, slot, request)?;
        let allocation = reallocate(
            alloc,
            &self.allocation,
            &stack,
            &requests,
            &changed,
            self.size,
        )?;
        Ok(Arrangement {
            size: self.size,
            windows,
            stack,
            requests,
            allocation,
        })
    }
}

/// A new window's slot, and the windows with it.
#[derive(Debug, Drop)]
pub struct Created {
    /// The slot of the new window, 0 to 31.
    pub slot: u32,
    /// The windows with the new one.
    pub after: Arrangement,
}
