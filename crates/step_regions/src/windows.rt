//! Windows in a list, by slot.
ghost use Rattle.std.specs.Prelude.{◌≡◌, option_copied};
ghost use Rattle.std.specs.List.{find};
ghost use Rattle.qws_base.specs.Windows.{client_of_slot, has_slot, origin_of};

use qws_base::{Point, WindowView};

// The window of the slot.
fn window_of(windows: &[WindowView], slot: u32) -> Option<&WindowView>
    ensures { option_copied result ≡ find (has_slot slot) windows.now }
{
    windows.iter().find(|w| w.slot == slot)
}

/// The client whose window has the slot; none where no window has it.
pub fn owner_of(windows: &[WindowView], slot: u32) -> Option<u32>
    ensures { result ≡ client_of_slot windows.now slot }
{
    let window = window_of(windows, slot)?;
    Some(window.owner)
}

/// The origin of the window of the slot; (0, 0) where there is none.
pub fn origin_of(windows: &[WindowView], slot: u32) -> Point
    ensures { result ≡ origin_of windows.now slot }
{
    match window_of(windows, slot) {
        Some(window) => window.origin,
        None => Point { x: 0, y: 0 },
    }
}
