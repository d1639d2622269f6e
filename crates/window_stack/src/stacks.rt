//! The stack of windows.
ghost use Rattle.std.specs.Prelude.{◌≡◌, ◌<◌, [], length, slice_get, Some, IfOk, OnOk, OnErr, IfSome, IfNone, is_some, is_none, ◌==◌};
ghost use Rattle.std.specs.Option.{option_map};
ghost use Rattle.std.specs.Result.{result_err};
ghost use Rattle.std.specs.List.{find};
ghost use Rattle.qws_base.specs.Windows.{has_slot, is_live};
ghost use Rattle.qws_base.specs.Stacking.{new_window, free_slot, with_front, with_back, windows_created, windows_without, windows_raised, windows_lowered};
ghost use Rattle.window_stack.specs.Kept.{view_of, CanStand};
ghost use Rattle.window_stack.specs.Stacks.{IsStack};
ghost use Rattle.window_stack.specs.Stops.{create_stop, slot_stop};

use crate::places::{back_of, front_of, least_free, place_of, put_at};
use crate::stacked::StackedWindow;
use crate::stops::StackStop;
use qws_base::OutOfMemory;
use std::alloc::Global;
use std::marker::Model;

/// The windows from front to back, layer 1 before layer 0: at most 32, each with a slot of its own. Contracts see a list of
/// windows with their slot, owner and layer, at (0, 0) and without rectangles.
#[derive(Debug, Drop)]
pub struct Stack {
    windows: Vec<StackedWindow>,
}

impl Model for Stack {
    ghost use Rattle.std.specs.Prelude.{◌≤◌, List, vec_capacity};
    ghost use Rattle.qws_base.specs.declared.windows.WindowView.{WindowView};
    ghost use Rattle.window_stack.specs.Stacks.{IsStack};
    ghost use Rattle.window_stack.specs.Kept.{views_of};

    ghost Value = { List WindowView };

    ghost view = { λ s. views_of s.windows.items };

    ghost invariant = { λ s. IsStack (views_of s.windows.items) × (32 ≤ vec_capacity s.windows) };
}

impl Stack {
    /// No window, with room for 32.
    pub fn new(alloc: Global) -> Result<Stack, OutOfMemory>
        ensures { IfOk result (λ stack. stack ≡ []) }
    {
        Ok(Stack {
            windows: Vec::with_capacity(alloc, 32)?,
        })
    }

    /// An equal stack, with room for 32.
    pub fn copy(&self, alloc: Global) -> Result<Stack, OutOfMemory>
        ensures { IfOk result (λ copy. copy ≡ self.now) }
    {
        let mut windows = Vec::with_capacity(alloc, 32)?;
        windows.extend_from_slice(&self.windows)?;
        Ok(Stack { windows })
    }

    /// The number of windows.
    pub fn len(&self) -> usize
        ensures len { result ≡ length self.now }
        ensures stack { IsStack self.now }
    {
        self.windows.len()
    }

    /// The slot, the owner and the layer of the window at place `k` from the front.
    pub fn at(&self, k: usize) -> (u32, u32, u32)
        requires { k < length self.now }
        ensures window { slice_get self.now k ≡ Some (new_window result.0 result.1 result.2) }
        ensures slot { result.0 < 32 }
    {
        let window = &self.windows[k];
        (window.slot, window.owner, window.layer)
    }

    /// A window of the owner in the least free slot, at the front of its layer. Gives the slot. Refused with `BadLayer`
    /// where the layer is above 1, then with `Full` where there are 32 windows. It takes no memory.
    pub fn create(&mut self, owner: u32, layer: u32) -> Result<u32, StackStop>
        ensures refusal { result_err result ≡ create_stop self.old layer }
        ensures slot { IfOk result (λ slot. free_slot self.old ≡ Some slot) }
        ensures in_range { IfOk result (λ slot. slot < 32) }
        ensures created { OnOk result (self.new ≡ windows_created owner layer self.old) }
        ensures others { IfOk result (λ slot. windows_without slot self.new ≡ windows_without slot self.old) }
        ensures unchanged { OnErr result (self.new ≡ self.old) }
        ensures full { is_none (free_slot self.old) ≡ (length self.old == 32) }
    {
        let windows = &self.windows;
        if layer > 1 {
            return Err(StackStop::BadLayer { layer });
        }
        let Some(slot) = least_free(windows, 32) else {
            return Err(StackStop::Full { held: 32 });
        };
        self.put_front(StackedWindow { slot, owner, layer });
        Ok(slot)
    }

    /// The window goes. Refused with `NoWindow` where no window has the slot.
    pub fn destroy(&mut self, slot: u32) -> Result<(), StackStop>
        ensures refusal { result_err result ≡ slot_stop self.old slot }
        ensures destroyed { self.new ≡ windows_without slot self.old }
        ensures others { windows_without slot self.new ≡ windows_without slot self.old }
        ensures unchanged { OnErr result (self.new ≡ self.old) }
    {
        match self.take_out(slot) {
            Some(_) => Ok(()),
            None => Err(StackStop::NoWindow { slot }),
        }
    }

    /// The window stands at the front of its layer. Refused with `NoWindow` where no window has the slot.
    pub fn raise(&mut self, slot: u32) -> Result<(), StackStop>
        ensures refusal { result_err result ≡ slot_stop self.old slot }
        ensures raised { self.new ≡ windows_raised slot self.old }
        ensures others { windows_without slot self.new ≡ windows_without slot self.old }
        ensures unchanged { OnErr result (self.new ≡ self.old) }
    {
        let Some(window) = self.take_out(slot) else {
            return Err(StackStop::NoWindow { slot });
        };
        self.put_front(window);
        Ok(())
    }

    /// The window stands at the back of its layer. Refused with `NoWindow` where no window has the slot.
    pub fn lower(&mut self, slot: u32) -> Result<(), StackStop>
        ensures refusal { result_err result ≡ slot_stop self.old slot }
        ensures lowered { self.new ≡ windows_lowered slot self.old }
        ensures others { windows_without slot self.new ≡ windows_without slot self.old }
        ensures unchanged { OnErr result (self.new ≡ self.old) }
    {
        let Some(window) = self.take_out(slot) else {
            return Err(StackStop::NoWindow { slot });
        };
        self.put_back(window);
        Ok(())
    }

    // The window of the slot leaves the stack; none where no window has the slot.
    fn take_out(&mut self, slot: u32) -> Option<StackedWindow>
        ensures window { option_map view_of result ≡ find (has_slot slot) self.old }
        ensures live { is_some result ≡ is_live self.old slot }
        ensures unchanged { IfNone result (self.new ≡ self.old) }
        ensures without { self.new ≡ windows_without slot self.old }
        ensures others { windows_without slot self.new ≡ windows_without slot self.old }
        ensures slot { IfSome result (λ w. w.slot ≡ slot) }
        ensures stands { IfSome result (λ w. CanStand (view_of w) self.new) }
    {
        let k = place_of(&self.windows, slot)?;
        Some(self.windows.remove(k))
    }

    // A window whose slot is free stands at the front of its layer.
    fn put_front(&mut self, window: StackedWindow)
        requires { CanStand (view_of window) self.old }
        ensures window { self.new ≡ with_front (view_of window) self.old }
        ensures others { windows_without window.slot self.new ≡ self.old }
    {
        let k = front_of(&self.windows, window.layer);
        put_at(&mut self.windows, k, window);
    }

    // A window whose slot is free stands at the back of its layer.
    fn put_back(&mut self, window: StackedWindow)
        requires { CanStand (view_of window) self.old }
        ensures window { self.new ≡ with_back (view_of window) self.old }
        ensures others { windows_without window.slot self.new ≡ self.old }
    {
        let k = back_of(&self.windows, window.layer);
        put_at(&mut self.windows, k, window);
    }
}
