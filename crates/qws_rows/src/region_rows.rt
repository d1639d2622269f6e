//! Regions: canonical lists and the operations on them.
use band_regions::{Region, are_in_range};
use gfx_fills::Fill;
use gfx_painters::{Paint, is_on_canvas, paint_plain};
use pixel_model::Canvas;
use qws_base::{Depth, Ink, OutOfMemory, Point, Rect, Rgb, RowBuf, Size};
use std::alloc::{AllocError, AllocFailed, Global};

/// Why a test ends before its end.
#[derive(Debug, Drop)]
enum Stop {
    OutOfRange,
    OutOfMemory,
}

impl From<OutOfMemory> for Stop {
    fn from(_: OutOfMemory) -> Self {
        Stop::OutOfMemory
    }
}

impl From<AllocError> for Stop {
    fn from(_: AllocError) -> Self {
        Stop::OutOfMemory
    }
}

impl<T: Drop> From<AllocFailed<T>> for Stop {
    fn from(_: AllocFailed<T>) -> Self {
        Stop::OutOfMemory
    }
}

const fn rect(x: i32, y: i32, w: u32, h: u32) -> Rect {
    Rect { x, y, w, h }
}

fn region(alloc: Global, rects: &[Rect]) -> Result<Region, Stop> {
    if are_in_range(rects) {
        Ok(Region::of_rects(alloc, rects)?)
    } else {
        Err(Stop::OutOfRange)
    }
}

// Moved by three columns to the right and one row up.
fn shifted(alloc: Global, region: &Region) -> Result<Region, Stop> {
    if region.can_shift(3, -1) {
        Ok(region.shift(alloc, 3, -1)?)
    } else {
        Err(Stop::OutOfRange)
    }
}

#[test]
fn canonical_lists(rt: HostRuntime) -> Result<(), Stop> {
    let cases: [(&[Rect], &[Rect]); 10] = [
        (&[], &[]),
        // none has pixels
        (&[rect(0, 0, 0, 5), rect(3, 3, 2, 0)], &[]),
        (&[rect(0, 0, 0, 5), rect(3, 3, 2, 1)], &[rect(3, 3, 2, 1)]),
        // one over the other
        (
            &[rect(1, 0, 1, 3), rect(0, 1, 3, 1)],
            &[rect(1, 0, 1, 1), rect(0, 1, 3, 1), rect(1, 2, 1, 1)],
        ),
        // equal ones
        (&[rect(0, 0, 2, 2), rect(0, 0, 2, 2)], &[rect(0, 0, 2, 2)]),
        // side by side
        (&[rect(2, 0, 2, 1), rect(0, 0, 2, 1)], &[rect(0, 0, 4, 1)]),
        // bands that touch, with the same spans
        (&[rect(0, 0, 2, 1), rect(0, 1, 2, 1)], &[rect(0, 0, 2, 2)]),
        (
            &[rect(0, 0, 2, 1), rect(0, 2, 2, 1), rect(0, 1, 2, 1)],
            &[rect(0, 0, 2, 3)],
        ),
        // and with others
        (
            &[rect(0, 0, 2, 1), rect(0, 1, 3, 1)],
            &[rect(0, 0, 2, 1), rect(0, 1, 3, 1)],
        ),
        // the corners of the range
        (
            &[rect(-32768, -32768, 65536, 1), rect(32767, 32767, 1, 1)],
            &[rect(-32768, -32768, 65536, 1), rect(32767, 32767, 1, 1)],
        ),
    ];
    for (rects, list) in cases {
        let made = region(rt.alloc(), rects)?;
        assert!(rt; made.rects() == list);
    }
    Ok(())
}

#[test]
fn set_operations(rt: HostRuntime) -> Result<(), Stop> {
    let alloc = rt.alloc();
    let left = region(alloc, &[rect(0, 0, 2, 1)])?;
    let right = region(alloc, &[rect(2, 0, 2, 1)])?;
    let both = left.unite(alloc, &right)?;
    assert!(rt; both.rects() == [rect(0, 0, 4, 1)].as_slice());
    let hole = region(alloc, &[rect(1, 0, 1, 1)])?;
    let rest = both.minus(alloc, &hole)?;
    assert!(rt; rest.rects() == [rect(0, 0, 1, 1), rect(2, 0, 2, 1)].as_slice());
    let tall = region(alloc, &[rect(1, 0, 2, 5)])?;
    let common = both.meet(alloc, &tall)?;
    assert!(rt; common.rects() == [rect(1, 0, 2, 1)].as_slice());
    let square = region(alloc, &[rect(0, 0, 2, 2)])?;
    let away = shifted(alloc, &square)?;
    assert!(rt; away.rects() == [rect(3, -1, 2, 2)].as_slice());
    let copy = away.copy(alloc)?;
    assert!(rt; copy.rects() == away.rects());
    Ok(())
}

#[test]
fn punched_window(rt: HostRuntime) -> Result<(), Stop> {
    let alloc = rt.alloc();
    let window = region(alloc, &[rect(0, 0, 3, 3)])?;
    let hole = region(alloc, &[rect(1, 1, 1, 1)])?;
    let punched = window.minus(alloc, &hole)?;
    let list = [
        rect(0, 0, 3, 1),
        rect(0, 1, 1, 1),
        rect(2, 1, 1, 1),
        rect(0, 2, 3, 1),
    ];
    assert!(rt; punched.rects() == list.as_slice());
    let whole = punched.unite(alloc, &hole)?;
    assert!(rt; whole.rects() == window.rects());
    for (x, y, is_held) in [
        (0, 0, true),
        (1, 1, false),
        (2, 1, true),
        (3, 1, false),
        (1, 3, false),
    ] {
        assert!(rt; punched.holds(Point { x, y }) == is_held, "at {x}, {y}");
    }
    Ok(())
}

#[test]
fn comb(rt: HostRuntime) -> Result<(), Stop> {
    let alloc = rt.alloc();
    let mut teeth = Vec::new(alloc);
    for x in [0, 2, 4, 6, 8, 10, 12, 14, 16, 18, 20, 22, 24, 26, 28, 30] {
        teeth.push(rect(x, 0, 1, 29))?;
    }
    for y in [1, 3, 5, 7, 9, 11, 13, 15, 17, 19, 21, 23, 25, 27] {
        teeth.push(rect(0, y, 31, 1))?;
    }
    assert!(rt; region(alloc, &teeth)?.rects().len() == 254);
    teeth.push(rect(40, 0, 1, 1))?;
    teeth.push(rect(42, 0, 1, 1))?;
    assert!(rt; region(alloc, &teeth)?.rects().len() == 256);
    teeth.truncate(30);
    teeth.push(rect(40, 0, 1, 3))?;
    assert!(rt; region(alloc, &teeth)?.rects().len() == 257);
    Ok(())
}

const WIDE: Rect = Rect {
    x: -5,
    y: -5,
    w: 20,
    h: 20,
};

#[test]
fn a_paint_on_a_region(rt: HostRuntime) -> Result<(), Stop> {
    let alloc = rt.alloc();
    let size = Size::new(3, 2).ok_or(Stop::OutOfRange)?;
    let black = Rgb::new(0).ok_or(Stop::OutOfRange)?;
    let orange = Rgb::new(0xff8000).ok_or(Stop::OutOfRange)?;
    let mut canvas = Canvas::new(alloc, size, Depth::Full, black)?;
    let clip = region(alloc, &[rect(1, 0, 1, 2)])?;
    let fill = Fill::new(WIDE, Ink::Copy { c: orange });
    let mut row = RowBuf::new(alloc)?;
    if !is_on_canvas(&canvas, &clip) {
        return Err(Stop::OutOfRange);
    }
    let origin = Point { x: 1, y: 0 };
    let painted = paint_plain(&mut canvas, &clip, origin, &Paint::Fill { fill }, &mut row);
    assert!(rt; painted == 2);
    let left = [black, orange, black, black, orange, black];
    assert!(rt; canvas.pixels() == left.as_slice());
    Ok(())
}
