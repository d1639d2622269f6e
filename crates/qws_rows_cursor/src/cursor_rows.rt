//! Paints under a cursor.
use crate::plain;
use crate::stages::{Stage, played};
use gfx_fills::Fill;
use pixel_model::Canvas;
use qws_base::{Cursor, Depth, Ink, PaintReply, Point, Rect, Rgb, Size};
use shared_painter::Painted;
use std::alloc::Global;
use std::process::Abort;
use std::test::Fail;
use sw_cursor::Shape;

// On a screen of five columns and four rows, client 0's window in slot 0 with its origin at (1, 1): two columns of the
// rows 1 to 3, and the columns 3 and 4 of the rows 0 to 2. A shown cursor of three columns and rows lies at (3, 2), and hangs
// over the right and the lower edge. Its cells that count are alpha 255, 128, 64 and 1.
const UNDER_THE_EDGE: [(usize, u64); 17] = [
    (2, 0x0001_0002_0003),
    (3, 0x0003_0003),
    (4, 0xff11_2233),
    (5, 0x8000_ff00),
    (6, 0xffff_ffff),
    (36, 0x40ff_ff00),
    (37, 0x01ff_ffff),
    (38, 0xffff_ffff),
    (68, 0xffff_ffff),
    (69, 0xffff_ffff),
    (70, 0xffff_ffff),
    (2052, 1),
    (2053, 3),
    (2054, 0x8001_8001),
    (2055, 2),
    (2056, 0x0003_0002_0001_0000),
    (2057, 0x0003_0002_0000_0003),
];

// The cells of that cursor by rows.
const CELLS: [u32; 9] = [
    0xff11_2233,
    0x8000_ff00,
    0xffff_ffff,
    0x40ff_ff00,
    0x01ff_ffff,
    0xffff_ffff,
    0xffff_ffff,
    0xffff_ffff,
    0xffff_ffff,
];

// The rectangles of that window, local to its origin.
const RECTS: [Rect; 2] = [
    Rect {
        x: -1,
        y: 0,
        w: 2,
        h: 3,
    },
    Rect {
        x: 2,
        y: -1,
        w: 2,
        h: 3,
    },
];

// A picture on the whole of the window, one on a part of it, and one on the pixels under the cursor.
fn three_pictures() -> [Fill; 3] {
    let whole = Rect {
        x: -5,
        y: -5,
        w: 20,
        h: 20,
    };
    let part = Rect {
        x: 0,
        y: -1,
        w: 3,
        h: 3,
    };
    let corner = Rect {
        x: 2,
        y: 1,
        w: 9,
        h: 9,
    };
    let copy = Ink::Copy {
        c: Rgb::of_channels(51, 102, 204),
    };
    let blend = Ink::Blend {
        c: Rgb::of_channels(255, 128, 0),
        a: 100,
    };
    let xor = Ink::Xor {
        c: Rgb::of_channels(15, 240, 255),
    };
    [
        Fill::new(whole, copy),
        Fill::new(part, blend),
        Fill::new(corner, xor),
    ]
}

// Compares what is shown after the three pictures, and their replies, with the plain picture at a depth.
fn is_plain(rt: &impl Abort, alloc: Global, depth: Depth) -> Result<(), Fail> {
    let size = Size::new(5, 4).expect(rt, "the sides are in range");
    let backdrop = Rgb::of_channels(16, 32, 48);
    let pictures = three_pictures();
    let stages = [Stage {
        changes: &UNDER_THE_EDGE,
        pictures: &pictures,
    }];
    let ran = played(rt, alloc, (5, 4), depth, backdrop, &stages);
    let window = plain::window(alloc, 0, 0, Point { x: 1, y: 1 }, &RECTS)?;
    let windows = vec![in alloc; window]?;
    let mut canvas = Canvas::new(alloc, size, depth, backdrop)?;
    let replies = plain::paint_all(alloc, &mut canvas, &windows, &pictures)?;
    let shape = Shape::new(alloc, 3, 3, &CELLS).expect(rt, "nine cells");
    let cursor = shape.cursor(3, 2, true);
    let expected = canvas.show(alloc, &cursor)?;
    assert!(rt; ran.pixels.as_slice() == expected.as_slice());
    assert!(rt; [ran.answers.len(), replies.len()] == [3, 3]);
    for (answer, reply) in ran.answers.iter().zip(replies.iter()) {
        let Ok(painted) = answer else {
            panic!(rt; "a paint was stopped")
        };
        assert!(rt;
            PaintReply::Painted {
                pixels: painted.pixels
            } == *reply
        );
    }
    Ok(())
}

#[test]
fn over_the_edge(rt: HostRuntime) -> Result<(), Fail> {
    is_plain(&rt, rt.alloc(), Depth::Full)?;
    is_plain(&rt, rt.alloc(), Depth::Narrow)
}

// On a screen of two columns and one row, client 0's window in slot 0 has both pixels. A shown cursor of one cell lies at
// (0, 0): blue with alpha 128.
const ONE_CELL: [(usize, u64); 8] = [
    (2, 0x0001_0000_0000),
    (3, 0x0001_0001),
    (4, 0x8000_00ff),
    (2052, 1),
    (2053, 2),
    (2054, 0x8000_8000),
    (2055, 1),
    (2056, 0x0001_0002_0000_0000),
];

// A blend of a colour whose red is 255 and whose green is 200, with alpha 128, on both pixels.
fn half_orange() -> Fill {
    let rect = Rect {
        x: 0,
        y: 0,
        w: 2,
        h: 1,
    };
    let c = Rgb::of_channels(255, 200, 0);
    Fill::new(rect, Ink::Blend { c, a: 128 })
}

// After the first blend over black a scene's pixel has red 128 and green 100, since (255 * 128 + 127) div 255 is 128 and
// (200 * 128 + 127) div 255 is 100; after the second red 192 and green 150, since (255 * 128 + 128 * 127 + 127) div 255 is
// 192 and (200 * 128 + 100 * 127 + 127) div 255 is 150. The cell leaves 127 of 255 of them, 96 and 75, and adds blue 128.
#[test]
fn blends_over_the_saved_cell(rt: HostRuntime) -> Result<(), Fail> {
    let black = Rgb::of_channels(0, 0, 0);
    let pictures = [half_orange(), half_orange()];
    let under = Stage {
        changes: &ONE_CELL,
        pictures: &pictures,
    };
    let first = played(&rt, rt.alloc(), (2, 1), Depth::Full, black, &[under]);
    assert!(rt; first.pixels.as_slice() == [0x60_4b80, 0xc0_9600].as_slice());
    let hidden = Stage {
        changes: &[(2, 0)],
        pictures: &[],
    };
    let second = played(
        &rt,
        rt.alloc(),
        (2, 1),
        Depth::Full,
        black,
        &[under, hidden],
    );
    assert!(rt; second.pixels.as_slice() == [0xc0_9600, 0xc0_9600].as_slice());
    Ok(())
}
