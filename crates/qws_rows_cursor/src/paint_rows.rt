//! Shapes and their cells, a full book, and paints into a first table.
use crate::stages::{Stage, played};
use clip_refetch::Clip;
use gfx_fills::Fill;
use qws_base::{Depth, Ink, NoGate, Point, Rect, Rgb, RowBuf, Size};
use qws_rows_painters::turns::session;
use shared_painter::{PaintStop, Painted, try_paint};
use std::alloc::Global;
use std::test::Fail;
use sw_cursor::{Shape, ShapeStop, cell_on};

fn shape_stop(alloc: Global, w: u32, h: u32, cells: &[u32]) -> Option<ShapeStop> {
    Shape::new(alloc, w, h, cells).err()
}

#[test]
fn shapes(rt: HostRuntime) -> Result<(), Fail> {
    let wide = Some(ShapeStop::BadSize { w: 33, h: 1 });
    assert!(rt; shape_stop(rt.alloc(), 33, 1, &[0; 33]) == wide);
    let short = Some(ShapeStop::BadCells { count: 3 });
    assert!(rt; shape_stop(rt.alloc(), 2, 2, &[1, 2, 3]) == short);
    let Ok(shape) = Shape::new(rt.alloc(), 3, 2, &[1, 2, 3, 4, 5, 6]) else {
        panic!(rt; "6 cells")
    };
    let cursor = shape.cursor(5, 7, true);
    assert!(rt; cell_on(&cursor, Point { x: 7, y: 8 }) == Some(5));
    assert!(rt; cell_on(&cursor, Point { x: 8, y: 8 }) == None);
    Ok(())
}

#[test]
fn full_book(rt: HostRuntime) -> Result<(), Fail> {
    let size = Size::new(2, 1).expect(&rt, "the sides are in range");
    let c = Rgb::of_channels(0, 0, 0);
    let (screen, _head, _words, mut pass, _other) = session(rt.alloc(), size, Depth::Full, c, 0)?;
    let mut clip = Clip::new(rt.alloc(), 0)?;
    let mut row = RowBuf::new(rt.alloc())?;
    let rect = Rect {
        x: 0,
        y: 0,
        w: 1,
        h: 1,
    };
    let picture = Fill::new(rect, Ink::Copy { c });
    let answer = try_paint(
        &screen, &mut clip, &mut pass, &mut row, &picture, 0, &NoGate,
    );
    assert!(rt; answer == Err(PaintStop::BookFull { held: 0 }));
    Ok(())
}

#[test]
fn no_windows(rt: HostRuntime) -> Result<(), Fail> {
    let bare = Stage {
        changes: &[],
        pictures: &[],
    };
    let backdrop = Rgb::of_channels(0x12, 0x34, 0x56);
    let ran = played(&rt, rt.alloc(), (2, 1), Depth::Full, backdrop, &[bare]);
    assert!(rt; ran.pixels.as_slice() == [0x12_3456, 0x12_3456].as_slice());
    Ok(())
}

// Client 0's window in slot 0: the column 1 of a screen of two rows.
const COLUMN: [(usize, u64); 4] = [
    (2052, 1),
    (2053, 3),
    (2055, 1),
    (2056, 0x0002_0001_0000_0001),
];

// A paint of two pixels after the first table.
fn two_pixels(fetched: bool) -> Result<Painted, PaintStop> {
    Ok(Painted {
        stamp: 1,
        pixels: 2,
        fetched,
    })
}

#[test]
fn fetches_once(rt: HostRuntime) -> Result<(), Fail> {
    let c = Rgb::of_channels(0x12, 0x34, 0x56);
    let rect = Rect {
        x: -1,
        y: -1,
        w: 9,
        h: 9,
    };
    let picture = Fill::new(rect, Ink::Copy { c });
    let twice = Stage {
        changes: &COLUMN,
        pictures: &[picture, picture],
    };
    let backdrop = Rgb::of_channels(0x10, 0x20, 0x30);
    let ran = played(&rt, rt.alloc(), (3, 2), Depth::Full, backdrop, &[twice]);
    assert!(rt; ran.answers.as_slice() == [two_pixels(true), two_pixels(false)].as_slice());
    let (a, b) = (0x10_2030, 0x12_3456);
    assert!(rt; ran.pixels.as_slice() == [a, b, a, a, b, a].as_slice());
    Ok(())
}
