//! The stack of windows: places, slots and refusals.
use crate::server::Stop;
use std::alloc::Global;
use window_stack::{Stack, StackStop};

// Three windows in the slots 0, 1 and 2: the second in layer 1, the others in layer 0.
fn three_windows(alloc: Global) -> Result<Stack, Stop> {
    let mut stack = Stack::new(alloc)?;
    let _ = stack.create(0, 0)?;
    let _ = stack.create(1, 1)?;
    let _ = stack.create(2, 0)?;
    Ok(stack)
}

// The slot of the window at a place; none where there is no such place.
fn slot_at(stack: &Stack, k: usize) -> Option<u32> {
    if k < stack.len() {
        Some(stack.at(k).0)
    } else {
        None
    }
}

// The slots of the first three windows.
fn first_slots(stack: &Stack) -> [Option<u32>; 3] {
    [slot_at(stack, 0), slot_at(stack, 1), slot_at(stack, 2)]
}

#[test]
fn refusals_of_the_stack(rt: HostRuntime) -> Result<(), Stop> {
    let mut stack = Stack::new(rt.alloc())?;
    assert!(rt; stack.create(0, 2) == Err(StackStop::BadLayer { layer: 2 }));
    assert!(rt; stack.create(0, 0) == Ok(0));
    assert!(rt; stack.raise(5) == Err(StackStop::NoWindow { slot: 5 }));
    assert!(rt; stack.lower(5) == Err(StackStop::NoWindow { slot: 5 }));
    assert!(rt; stack.destroy(5) == Err(StackStop::NoWindow { slot: 5 }));
    assert!(rt; stack.len() == 1);
    Ok(())
}

#[test]
fn copy_of_the_stack(rt: HostRuntime) -> Result<(), Stop> {
    let stack = three_windows(rt.alloc())?;
    let mut copy = stack.copy(rt.alloc())?;
    assert!(rt; first_slots(&copy) == [Some(1), Some(2), Some(0)]);
    assert!(rt; copy.create(3, 0) == Ok(3));
    assert!(rt; stack.len() == 3);
    Ok(())
}

#[test]
fn layers_against_raise(rt: HostRuntime) -> Result<(), Stop> {
    let mut stack = three_windows(rt.alloc())?;
    assert!(rt; first_slots(&stack) == [Some(1), Some(2), Some(0)]);
    stack.raise(0)?;
    assert!(rt; first_slots(&stack) == [Some(1), Some(0), Some(2)]);
    stack.lower(0)?;
    assert!(rt; first_slots(&stack) == [Some(1), Some(2), Some(0)]);
    stack.lower(1)?;
    assert!(rt; first_slots(&stack) == [Some(1), Some(2), Some(0)]);
    Ok(())
}

#[test]
fn least_slot_after_a_destroy(rt: HostRuntime) -> Result<(), Stop> {
    let mut stack = three_windows(rt.alloc())?;
    stack.destroy(1)?;
    assert!(rt; first_slots(&stack) == [Some(2), Some(0), None]);
    assert!(rt; stack.create(5, 0) == Ok(1));
    assert!(rt; first_slots(&stack) == [Some(1), Some(2), Some(0)]);
    assert!(rt; stack.create(5, 0) == Ok(3));
    Ok(())
}

#[test]
fn thirty_three_windows(rt: HostRuntime) -> Result<(), Stop> {
    let mut stack = Stack::new(rt.alloc())?;
    for slot in 0..32 {
        assert!(rt; stack.create(0, 0) == Ok(slot));
    }
    assert!(rt; stack.create(0, 0) == Err(StackStop::Full { held: 32 }));
    assert!(rt; stack.create(0, 2) == Err(StackStop::BadLayer { layer: 2 }));
    assert!(rt; stack.len() == 32);
    Ok(())
}
