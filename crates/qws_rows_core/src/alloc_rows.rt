//! Pixels shared out among windows, and shared out again where something changed.
use crate::arrangements::Arrangement;
use crate::server::{Stop, rect};
use band_regions::Region;
use qws_base::{Rect, Size};
use std::alloc::Global;

// The pixels of a rectangle near the top left corner.
fn region(alloc: Global, x: i32, y: i32, w: u32, h: u32) -> Result<Region, Stop> {
    if x < 0 || x > 3 || y < 0 || y > 3 || w > 3 || h > 3 {
        return Err(Stop::NoScreen);
    }
    Ok(Region::of_rects(alloc, &[Rect { x, y, w, h }])?)
}

// Of two windows on a screen of three by three pixels the one behind requests all, and the other the middle.
fn punched(alloc: Global) -> Result<Arrangement, Stop> {
    let screen = Size::new(3, 3).ok_or(Stop::NoScreen)?;
    let none = Arrangement::new(alloc, screen)?;
    let one = none.with_window(alloc, 0, 0)?;
    let whole = region(alloc, 0, 0, 3, 3)?;
    let one = one.with_request(alloc, 0, whole)?;
    let two = one.with_window(alloc, 0, 0)?;
    let middle = region(alloc, 1, 1, 1, 1)?;
    two.with_request(alloc, 1, middle)
}

#[test]
fn punched_window(rt: HostRuntime) -> Result<(), Stop> {
    let alloc = rt.alloc();
    let around = [
        rect(0, 0, 3, 1),
        rect(0, 1, 1, 1),
        rect(2, 1, 1, 1),
        rect(0, 2, 3, 1),
    ];
    let two = punched(alloc)?;
    assert!(rt; two.rects(0) == around.as_slice());
    assert!(rt; two.rects(1) == [rect(1, 1, 1, 1)].as_slice());
    let anew = two.shared_anew(alloc)?;
    let copy = anew.copy(alloc)?;
    assert!(rt; copy.region(0).rects() == around.as_slice());
    assert!(rt; copy.region(1).rects() == [rect(1, 1, 1, 1)].as_slice());
    assert!(rt; copy.region(2).rects().len() == 0);
    Ok(())
}

#[test]
fn hole_closes_again(rt: HostRuntime) -> Result<(), Stop> {
    let alloc = rt.alloc();
    let one = punched(alloc)?.without_window(alloc, 1)?;
    assert!(rt; one.rects(0) == [rect(0, 0, 3, 3)].as_slice());
    assert!(rt; one.rects(1).len() == 0);
    Ok(())
}

#[test]
fn window_behind_comes_to_the_front(rt: HostRuntime) -> Result<(), Stop> {
    let alloc = rt.alloc();
    let two = punched(alloc)?.with_raised(alloc, 0)?;
    assert!(rt; two.rects(0) == [rect(0, 0, 3, 3)].as_slice());
    assert!(rt; two.rects(1).len() == 0);
    Ok(())
}
