//! Places in the stack.
ghost use Rattle.std.specs.Prelude.{◌≡◌, ◌==◌, ◌<◌, ◌≤◌, nat_lt, nat_le, not, length, vec_capacity};
ghost use Rattle.std.specs.List.{filter, find, insert, list_any, position, range_with_len};

use crate::stacked::StackedWindow;

/// The place of the window with the slot; none where no window has it.
pub fn place_of(windows: &[StackedWindow], slot: u32) -> Option<usize>
    ensures { result ≡ position (λ w. w.slot == slot) windows.now }
{
    windows.iter().position(|w| w.slot == slot)
}

/// The place at the front of the layer: behind the windows of higher layers.
pub fn front_of(windows: &[StackedWindow], layer: u32) -> usize
    ensures { result ≡ length (filter (λ w. nat_lt layer w.layer) windows.now) }
{
    windows.iter().filter(|w| w.layer > layer).count()
}

/// The place at the back of the layer: before the windows of lower layers.
pub fn back_of(windows: &[StackedWindow], layer: u32) -> usize
    ensures { result ≡ length (filter (λ w. nat_le layer w.layer) windows.now) }
{
    windows.iter().filter(|w| w.layer >= layer).count()
}

/// Whether a window has the slot.
fn is_taken(windows: &[StackedWindow], slot: u32) -> bool
    ensures { result ≡ list_any (λ w. w.slot == slot) windows.now }
{
    windows.iter().any(|w| w.slot == slot)
}

/// The least of so many slots that no window has; none where each has a window.
pub fn least_free(windows: &[StackedWindow], slots: u32) -> Option<u32>
    ensures { result ≡ find (λ slot. not (list_any (λ w. w.slot == slot) windows.now)) (range_with_len 0 slots) }
{
    (0..slots).find(|slot| !is_taken(windows, *slot))
}

/// Puts a window in at a place. There is room for it, so this takes no memory.
pub fn put_at(windows: &mut Vec<StackedWindow>, k: usize, window: StackedWindow)
    requires place { k ≤ length windows.old.items }
    requires room { length windows.old.items < vec_capacity windows.old }
    ensures items { windows.new.items ≡ insert windows.old.items k window }
    ensures capacity { vec_capacity windows.old ≤ vec_capacity windows.new }
{
    let _ = windows.insert(k, window);
}
