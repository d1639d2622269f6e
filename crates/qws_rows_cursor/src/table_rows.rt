//! Paints after changed tables.
use crate::stages::{Stage, played};
use gfx_fills::Fill;
use qws_base::{Depth, Ink, Rect, Rgb};
use shared_painter::{PaintStop, Painted};
use std::test::Fail;

// Client 0's window in slot 0, with revision 2 and its origin at (0, 0): the columns 0 and 1 of a screen of two rows.
const LEFT: [(usize, u64); 5] = [
    (2052, 1),
    (2053, 2),
    (2054, 0x8000_8000),
    (2055, 1),
    (2056, 0x0002_0002_0000_0000),
];

// That window one column further, with revision 3.
const MOVED: [(usize, u64); 3] = [
    (2053, 3),
    (2054, 0x8000_8001),
    (2056, 0x0002_0002_0000_0001),
];

// The same place as client 1's window, with revision 3.
const FOREIGN: [(usize, u64); 2] = [(2052, 2), (2053, 3)];

// The slot without a window, with revision 4.
const NOBODY: [(usize, u64); 3] = [(2052, 0), (2053, 4), (2055, 0)];

// A colour on the first column of a window.
fn column(c: Rgb) -> Fill {
    let rect = Rect {
        x: 0,
        y: 0,
        w: 1,
        h: 2,
    };
    Fill::new(rect, Ink::Copy { c })
}

// A paint of two pixels.
fn two_pixels(stamp: u64, fetched: bool) -> Result<Painted, PaintStop> {
    Ok(Painted {
        stamp,
        pixels: 2,
        fetched,
    })
}

#[test]
fn fetches_a_changed_row(rt: HostRuntime) -> Result<(), Fail> {
    let backdrop = Rgb::of_channels(1, 2, 3);
    let red = column(Rgb::of_channels(255, 0, 0));
    let green = column(Rgb::of_channels(0, 255, 0));
    let stages = [
        Stage {
            changes: &LEFT,
            pictures: &[green, red],
        },
        Stage {
            changes: &MOVED,
            pictures: &[red, green],
        },
        Stage {
            changes: &[(2, 0x0001_0001)],
            pictures: &[green],
        },
    ];
    let ran = played(&rt, rt.alloc(), (4, 2), Depth::Full, backdrop, &stages);
    assert!(rt;
        ran.answers.as_slice()
            == [
                two_pixels(1, true),
                two_pixels(1, false),
                two_pixels(2, true),
                two_pixels(2, false),
                two_pixels(3, false),
            ]
            .as_slice()
    );
    let (r, g, b) = (0xff_0000, 0x00_ff00, 0x01_0203);
    assert!(rt; ran.pixels.as_slice() == [r, g, b, b, r, g, b, b].as_slice());
    Ok(())
}

#[test]
fn foreign_slots_are_gone(rt: HostRuntime) -> Result<(), Fail> {
    let backdrop = Rgb::of_channels(1, 2, 3);
    let red = column(Rgb::of_channels(255, 0, 0));
    let green = column(Rgb::of_channels(0, 255, 0));
    let stages = [
        Stage {
            changes: &LEFT,
            pictures: &[red],
        },
        Stage {
            changes: &FOREIGN,
            pictures: &[green, green],
        },
        Stage {
            changes: &NOBODY,
            pictures: &[green],
        },
    ];
    let ran = played(&rt, rt.alloc(), (3, 2), Depth::Full, backdrop, &stages);
    assert!(rt;
        ran.answers.as_slice()
            == [
                two_pixels(1, true),
                Err(PaintStop::Gone { stamp: 2 }),
                Err(PaintStop::Gone { stamp: 2 }),
                Err(PaintStop::Gone { stamp: 3 }),
            ]
            .as_slice()
    );
    let (r, b) = (0xff_0000, 0x01_0203);
    assert!(rt; ran.pixels.as_slice() == [r, b, b, r, b, b].as_slice());
    Ok(())
}
