//! The plain picture: inks at both depths, paints of windows over one pixel, carried moves, and the cursor above.
use gfx_fills::Fill;
use pixel_model::{Canvas, are_placed, owner_of};
use qws_base::{
    Cursor, Depth, Ink, OutOfMemory, PaintReply, Point, Rect, Rects, Rgb, Size, WindowView, Words,
};
use std::alloc::{AllocError, AllocFailed, Global};
use std::test::Fail;

/// Why a test ends before its end.
#[derive(Debug, Drop)]
enum Stop {
    OutOfRange,
    OutOfMemory,
}

impl From<OutOfMemory> for Stop {
    fn from(_: OutOfMemory) -> Self {
        Stop::OutOfMemory
    }
}

impl From<AllocError> for Stop {
    fn from(_: AllocError) -> Self {
        Stop::OutOfMemory
    }
}

impl<T: Drop> From<AllocFailed<T>> for Stop {
    fn from(_: AllocFailed<T>) -> Self {
        Stop::OutOfMemory
    }
}

fn colour(number: u32) -> Result<Rgb, Stop> {
    Rgb::new(number).ok_or(Stop::OutOfRange)
}

fn canvas(alloc: Global, w: u32, h: u32, depth: Depth, backdrop: u32) -> Result<Canvas, Stop> {
    let size = Size::new(w, h).ok_or(Stop::OutOfRange)?;
    Ok(Canvas::new(alloc, size, depth, colour(backdrop)?)?)
}

// A window of client 0 in layer 0 that asks for one rectangle, of one row, at its origin.
fn window(alloc: Global, slot: u32, x: i32, w: u32) -> Result<WindowView, Stop> {
    let rect = Rect {
        x: 0,
        y: 0,
        w,
        h: 1,
    };
    Ok(WindowView {
        slot,
        owner: 0,
        layer: 0,
        origin: Point { x, y: 0 },
        rects: Rects::of(vec![in alloc; rect]?),
    })
}

// Client 0 fills one column of a window's row.
fn fill(
    canvas: &mut Canvas,
    windows: &[WindowView],
    slot: u32,
    column: bool,
    ink: Ink,
) -> Result<PaintReply, Stop> {
    let x = if column { 1 } else { 0 };
    let picture = Fill::new(
        Rect {
            x,
            y: 0,
            w: 1,
            h: 1,
        },
        ink,
    );
    if are_placed(windows) {
        Ok(canvas.apply_paint(windows, 0, slot, &picture))
    } else {
        Err(Stop::OutOfRange)
    }
}

fn step(
    canvas: &mut Canvas,
    before: &[WindowView],
    after: &[WindowView],
    moved: Option<u32>,
) -> Result<(), Stop> {
    if are_placed(before) && are_placed(after) {
        canvas.apply_step(before, after, moved);
        Ok(())
    } else {
        Err(Stop::OutOfRange)
    }
}

fn show(alloc: Global, canvas: &Canvas, cursor: &Cursor) -> Result<Words, Stop> {
    if cursor.is_shape() {
        Ok(canvas.show(alloc, cursor)?)
    } else {
        Err(Stop::OutOfRange)
    }
}

// The shown picture without a cursor.
fn bare(alloc: Global, canvas: &Canvas) -> Result<Words, Stop> {
    show(alloc, canvas, &Cursor::hidden(alloc))
}

// A shown cursor of two cells by two, or of one cell.
fn cursor(alloc: Global, x: u32, y: u32, side: bool, cell: u32) -> Result<Cursor, Stop> {
    let side = if side { 2u32 } else { 1u32 };
    let cells = vec![in alloc; cell; (side * side) as usize]?;
    Ok(Cursor {
        x,
        y,
        w: side,
        h: side,
        cells: Words::of(cells),
        shown: true,
    })
}

// The scene colour of the one pixel of a canvas after an ink.
fn inked(alloc: Global, depth: Depth, ink: Ink) -> Result<u32, Stop> {
    let mut canvas = canvas(alloc, 1, 1, depth, 0x123456)?;
    if !canvas.has(0) {
        return Err(Stop::OutOfRange);
    }
    canvas.lay(0, ink);
    let laid = canvas.pixel(0).value();
    Ok(laid)
}

#[test]
fn inks_at_both_depths(rt: HostRuntime) -> Result<(), Stop> {
    let c = colour(0x0f0f0f)?;
    let blue = colour(0x0000ff)?;
    let cases = [
        (Ink::Skip, 0x123456, 0x11aa),
        (
            Ink::Copy {
                c: colour(0xff8000)?,
            },
            0xff8000,
            0xfc00,
        ),
        (Ink::Xor { c }, 0x1d3b59, 0x19cb),
        (Ink::And { c }, 0x020406, 0x0020),
        (Ink::Or { c }, 0x1f3f5f, 0x19eb),
        (Ink::Blend { c: blue, a: 128 }, 0x091aab, 0x08d5),
        (Ink::Blend { c: blue, a: 0 }, 0x123456, 0x11aa),
        (Ink::Blend { c: blue, a: 255 }, 0x0000ff, 0x001f),
    ];
    for (ink, full, narrow) in cases {
        assert!(rt; inked(rt.alloc(), Depth::Full, ink)? == full, "{full}");
        assert!(rt;
            inked(rt.alloc(), Depth::Narrow, ink)? == narrow,
            "{narrow}"
        );
    }
    Ok(())
}

#[test]
fn a_narrow_screen(rt: HostRuntime) -> Result<(), Stop> {
    let alloc = rt.alloc();
    let mut canvas = canvas(alloc, 2, 1, Depth::Narrow, 0x123456)?;
    assert!(rt; canvas.depth() == Depth::Narrow);
    let windows = vec![in alloc; window(alloc, 0, 0, 2)?]?;
    let copy = Ink::Copy {
        c: colour(0xff8000)?,
    };
    let painted = fill(&mut canvas, &windows, 0, true, copy)?;
    assert!(rt; painted == PaintReply::Painted { pixels: 1 });
    assert!(rt; bare(alloc, &canvas)?.as_slice() == [0x103452, 0xff8200].as_slice());
    let blend = Ink::Blend {
        c: colour(0x0000ff)?,
        a: 128,
    };
    fill(&mut canvas, &windows, 0, true, blend)?;
    assert!(rt; bare(alloc, &canvas)?.as_slice() == [0x103452, 0x7b4184].as_slice());
    Ok(())
}

#[test]
fn one_pixel_is_laid(rt: HostRuntime) -> Result<(), Stop> {
    let mut canvas = canvas(rt.alloc(), 3, 2, Depth::Full, 0)?;
    assert!(rt; (canvas.size().w(), canvas.size().h()) == (3, 2));
    assert!(rt; canvas.has(4) && !canvas.has(6));
    canvas.lay(4, Ink::Copy { c: colour(7)? });
    let black = colour(0)?;
    let laid = [black, black, black, black, colour(7)?, black];
    assert!(rt; canvas.pixels() == laid.as_slice());
    Ok(())
}

#[test]
fn two_windows_over_one_pixel(rt: HostRuntime) -> Result<(), Stop> {
    let alloc = rt.alloc();
    let mut canvas = canvas(alloc, 2, 1, Depth::Full, 0)?;
    let windows = vec![in alloc; window(alloc, 1, 0, 1)?, window(alloc, 0, 0, 2)?]?;
    assert!(rt; owner_of(&windows, Point { x: 0, y: 0 }) == Some(1));
    assert!(rt; owner_of(&windows, Point { x: 1, y: 0 }) == Some(0));
    assert!(rt; owner_of(&windows, Point { x: 2, y: 0 }) == None);
    let behind = Ink::Copy {
        c: colour(0x0000ff)?,
    };
    let front = Ink::Copy {
        c: colour(0x00ff00)?,
    };
    assert!(rt;
        fill(&mut canvas, &windows, 0, false, behind)? == PaintReply::Painted { pixels: 0 }
    );
    assert!(rt; fill(&mut canvas, &windows, 0, true, behind)? == PaintReply::Painted { pixels: 1 });
    assert!(rt; fill(&mut canvas, &windows, 1, false, front)? == PaintReply::Painted { pixels: 1 });
    assert!(rt; fill(&mut canvas, &windows, 2, false, front)? == PaintReply::Gone);
    assert!(rt; bare(alloc, &canvas)?.as_slice() == [0x00ff00, 0x0000ff].as_slice());
    Ok(())
}

#[test]
fn a_moved_window_carries_its_pixels(rt: HostRuntime) -> Result<(), Stop> {
    let alloc = rt.alloc();
    let mut canvas = canvas(alloc, 3, 1, Depth::Full, 0)?;
    let before = vec![in alloc; window(alloc, 0, 0, 2)?]?;
    let after = vec![in alloc; window(alloc, 0, 1, 2)?]?;
    fill(
        &mut canvas,
        &before,
        0,
        false,
        Ink::Copy {
            c: colour(0xff0000)?,
        },
    )?;
    fill(
        &mut canvas,
        &before,
        0,
        true,
        Ink::Copy {
            c: colour(0x00ff00)?,
        },
    )?;
    step(&mut canvas, &before, &after, Some(0))?;
    let carried = [0x000000, 0xff0000, 0x00ff00];
    assert!(rt; bare(alloc, &canvas)?.as_slice() == carried.as_slice());
    step(&mut canvas, &after, &before, Some(0))?;
    let back = [0xff0000, 0x00ff00, 0x000000];
    assert!(rt; bare(alloc, &canvas)?.as_slice() == back.as_slice());
    Ok(())
}

#[test]
fn a_covered_pixel_is_not_carried(rt: HostRuntime) -> Result<(), Stop> {
    let alloc = rt.alloc();
    let mut canvas = canvas(alloc, 2, 1, Depth::Full, 0)?;
    let alone = vec![in alloc; window(alloc, 0, 0, 1)?]?;
    fill(
        &mut canvas,
        &alone,
        0,
        false,
        Ink::Copy {
            c: colour(0xff0000)?,
        },
    )?;
    let before = vec![in alloc; window(alloc, 1, 0, 1)?, window(alloc, 0, 0, 1)?]?;
    let after = vec![in alloc; window(alloc, 1, 0, 1)?, window(alloc, 0, 1, 1)?]?;
    step(&mut canvas, &alone, &before, None)?;
    step(&mut canvas, &before, &after, Some(0))?;
    assert!(rt; bare(alloc, &canvas)?.as_slice() == [0xff0000, 0x000000].as_slice());
    Ok(())
}

#[test]
fn a_pixel_without_an_owner_is_bare(rt: HostRuntime) -> Result<(), Stop> {
    let alloc = rt.alloc();
    let mut canvas = canvas(alloc, 2, 1, Depth::Full, 0x123456)?;
    let windows = vec![in alloc; window(alloc, 0, 0, 2)?]?;
    fill(
        &mut canvas,
        &windows,
        0,
        false,
        Ink::Copy {
            c: colour(0xff0000)?,
        },
    )?;
    step(&mut canvas, &windows, &[], None)?;
    assert!(rt; bare(alloc, &canvas)?.as_slice() == [0x123456, 0x123456].as_slice());
    Ok(())
}

#[test]
fn a_cursor_above_a_paint(rt: HostRuntime) -> Result<(), Stop> {
    let alloc = rt.alloc();
    let mut canvas = canvas(alloc, 2, 1, Depth::Full, 0)?;
    let windows = vec![in alloc; window(alloc, 0, 0, 2)?]?;
    let white = Ink::Copy {
        c: colour(0xffffff)?,
    };
    fill(&mut canvas, &windows, 0, false, white)?;
    fill(&mut canvas, &windows, 0, true, white)?;
    let at_first = cursor(alloc, 0, 0, false, 0xff00_00ff)?;
    let shown = show(alloc, &canvas, &at_first)?;
    assert!(rt; shown.as_slice() == [0x0000ff, 0xffffff].as_slice());
    let moved = cursor(alloc, 1, 0, false, 0xff00_00ff)?;
    let shown = show(alloc, &canvas, &moved)?;
    assert!(rt; shown.as_slice() == [0xffffff, 0x0000ff].as_slice());
    Ok(())
}

#[test]
fn a_cursor_over_the_edges(rt: HostRuntime) -> Result<(), Stop> {
    let alloc = rt.alloc();
    let canvas = canvas(alloc, 2, 2, Depth::Full, 0)?;
    let corner = cursor(alloc, 1, 1, true, 0xffff_0000)?;
    let shown = show(alloc, &canvas, &corner)?;
    assert!(rt; shown.as_slice() == [0, 0, 0, 0xff0000].as_slice());
    assert!(rt; corner.cell_on(Point { x: 2, y: 1 }) == Some((1, 0)));
    assert!(rt; corner.cell_on(Point { x: 0, y: 1 }) == None);
    Ok(())
}
