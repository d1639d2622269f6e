//! Pixels that lose their last owner.
use crate::server::{Stop, call, lost, opened, rect};
use qws_base::{Command, Point, Rect, Rects};
use std::alloc::Global;
use window_core::Core;

// Makes a window of client 0 in a slot, which is the least free one, with one rectangle as its request.
fn window(alloc: Global, core: &mut Core, slot: u32, rect: Rect) -> Result<(), Stop> {
    let _ = call(alloc, core, 0, Command::Create { layer: 0 })?;
    let region = Command::Region {
        slot,
        origin: Point { x: 0, y: 0 },
        rects: Rects::of(vec![in alloc; rect]?),
    };
    let _ = call(alloc, core, 0, region)?;
    Ok(())
}

// A window over the first two of three pixels moves by one: the first pixel is bared.
#[test]
fn a_move_bares_what_it_leaves(rt: HostRuntime) -> Result<(), Stop> {
    let alloc = rt.alloc();
    let mut core = opened(alloc, 3, 1)?;
    window(alloc, &mut core, 0, rect(0, 0, 2, 1))?;
    let to_the_right = Command::Move {
        slot: 0,
        origin: Point { x: 1, y: 0 },
    };
    let bare = lost(alloc, &core, &to_the_right)?;
    assert!(rt; bare.rects() == [rect(0, 0, 1, 1)].as_slice());
    Ok(())
}

// A window of nine pixels with another before its middle: the other's pixel goes to the window behind it.
#[test]
fn a_window_behind_keeps_its_pixels(rt: HostRuntime) -> Result<(), Stop> {
    let alloc = rt.alloc();
    let mut core = opened(alloc, 3, 3)?;
    window(alloc, &mut core, 0, rect(0, 0, 3, 3))?;
    window(alloc, &mut core, 1, rect(1, 1, 1, 1))?;
    let none = lost(alloc, &core, &Command::Destroy { slot: 1 })?;
    assert!(rt; none.rects().len() == 0);
    let around = lost(alloc, &core, &Command::Destroy { slot: 0 })?;
    let rects = [
        rect(0, 0, 3, 1),
        rect(0, 1, 1, 1),
        rect(2, 1, 1, 1),
        rect(0, 2, 3, 1),
    ];
    assert!(rt; around.rects() == rects.as_slice());
    Ok(())
}

// A refused command and one that moves no window bare nothing.
#[test]
fn other_commands_bare_nothing(rt: HostRuntime) -> Result<(), Stop> {
    let alloc = rt.alloc();
    let mut core = opened(alloc, 2, 1)?;
    window(alloc, &mut core, 0, rect(0, 0, 2, 1))?;
    let refused = lost(alloc, &core, &Command::Destroy { slot: 1 })?;
    assert!(rt; refused.rects().len() == 0);
    let raised = lost(alloc, &core, &Command::Raise { slot: 0 })?;
    assert!(rt; raised.rects().len() == 0);
    Ok(())
}
