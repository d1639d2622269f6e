//! Pictures: what images, fonts and texts answer, and where they paint.
use gfx_fills::{Blit, Fill, Image, ImageStop, Tile};
use gfx_lines::{Line, Polyline};
use gfx_painters::Paint;
use gfx_polygons::Polygon;
use glyph_masks::{Font, GlyphStop, RunStop, TextRun};
use qws_base::{Ink, Picture, Point, Rect, Rgb};
use std::test::Fail;

const CORNER: Point = Point { x: 0, y: 0 };

const LINE: Rect = Rect {
    x: 0,
    y: 0,
    w: 3,
    h: 1,
};

#[test]
fn image_of_too_few_pixels(rt: HostRuntime) {
    let stop = Image::new(rt.alloc(), 2, 2, &[1, 2, 3]).err();
    let found = ImageStop::BadSize {
        w: 2,
        h: 2,
        count: 3,
    };
    assert!(rt; stop == Some(found));
}

#[test]
fn row_of_a_fill(rt: HostRuntime) -> Result<(), Fail> {
    let ink = Ink::Xor {
        c: Rgb::new(1).ok_or("a colour")?,
    };
    let mut out = [Ink::Skip; 4];
    Fill::new(LINE, ink).row(0, -1, &mut out);
    assert!(rt; out == [Ink::Skip, ink, ink, ink]);
    Ok(())
}

#[test]
fn row_of_a_tile(rt: HostRuntime) -> Result<(), Fail> {
    let ink = Ink::Blend {
        c: Rgb::new(1).ok_or("a colour")?,
        a: 255,
    };
    let image = Image::new(rt.alloc(), 2, 1, &[0xff00_0001, 0x0000_0002])?;
    let mut out = [Ink::Skip; 4];
    Tile::new(LINE, &image).row(0, -1, &mut out);
    assert!(rt; out == [Ink::Skip, ink, Ink::Skip, ink]);
    Ok(())
}

#[test]
fn row_of_a_blit(rt: HostRuntime) -> Result<(), Fail> {
    let ink = Ink::Blend {
        c: Rgb::new(1).ok_or("a colour")?,
        a: 128,
    };
    let image = Image::new(rt.alloc(), 2, 1, &[0xff00_0001, 0x0000_0002])?;
    let mut out = [Ink::Skip; 4];
    Blit::new(CORNER, &image, 128).row(0, -1, &mut out);
    assert!(rt; out == [Ink::Skip, ink, Ink::Skip, Ink::Skip]);
    Ok(())
}

#[test]
fn font_refuses(rt: HostRuntime) {
    let mut font = Font::new(rt.alloc(), 3);
    let bad = Err(GlyphStop::BadGlyph { code: 65 });
    assert!(rt; font.add(65, 0, &[2, 7, 5]) == bad);
    assert!(rt; font.add(65, 3, &[2, 7, 5]) == Ok(()));
    let repeated = Err(GlyphStop::Repeated { code: 65 });
    assert!(rt; font.add(65, 3, &[2, 7, 5]) == repeated);
    let stop = TextRun::new(rt.alloc(), &font, CORNER, &[65, 66], Ink::Skip).err();
    assert!(rt; stop == Some(RunStop::NoGlyph { code: 66 }));
}

#[test]
fn text_of_one_glyph(rt: HostRuntime) -> Result<(), Fail> {
    let ink = Ink::Copy {
        c: Rgb::new(1).ok_or("a colour")?,
    };
    let mut font = Font::new(rt.alloc(), 3);
    font.add(65, 3, &[2, 7, 5])?;
    let text = TextRun::new(rt.alloc(), &font, CORNER, &[65], ink)?;
    let mut out = [Ink::Skip; 3];
    text.row(0, 0, &mut out);
    assert!(rt; out == [Ink::Skip, ink, Ink::Skip]);
    text.row(1, 0, &mut out);
    assert!(rt; out == [ink, ink, ink]);
    text.row(2, 0, &mut out);
    assert!(rt; out == [ink, Ink::Skip, ink]);
    Ok(())
}

// How an ink found shows beside the one that was painted.
fn mark(found: Ink, painted: &Ink) -> u8 {
    if found == *painted {
        b'#'
    } else if found == Ink::Skip {
        b'.'
    } else {
        b'?'
    }
}

// Where row 0 of a paint has an ink, from column -1 to column 2.
fn marks(paint: &Paint<'_>, ink: &Ink) -> [u8; 4] {
    let mut inks = [Ink::Skip; 4];
    paint.row(0, -1, &mut inks);
    inks.map(|found| mark(found, ink))
}

#[test]
fn paints_of_rectangles(rt: HostRuntime) -> Result<(), Fail> {
    let c = Rgb::new(1).ok_or("a colour")?;
    let image = Image::new(rt.alloc(), 2, 1, &[0xff00_0001, 0x0000_0002])?;
    let ink = Ink::And { c };
    let fill = Fill::new(LINE, Ink::And { c });
    assert!(rt; marks(&Paint::Fill { fill }, &ink) == *b".###");
    let tile = Tile::new(LINE, &image);
    let ink = Ink::Blend { c, a: 255 };
    assert!(rt; marks(&Paint::Tile { tile }, &ink) == *b".#.#");
    let blit = Blit::new(CORNER, &image, 128);
    let ink = Ink::Blend { c, a: 128 };
    assert!(rt; marks(&Paint::Blit { blit }, &ink) == *b".#..");
    Ok(())
}

const RING: [Point; 4] = [
    Point { x: 0, y: 0 },
    Point { x: 2, y: 0 },
    Point { x: 2, y: 2 },
    Point { x: 0, y: 2 },
];

#[test]
fn paints_of_points(rt: HostRuntime) -> Result<(), Fail> {
    let c = Rgb::new(1).ok_or("a colour")?;
    let ink = Ink::Copy { c };
    let line = Line::new(CORNER, Point { x: 2, y: 1 }, c);
    assert!(rt; marks(&Paint::Line { line }, &ink) == *b".#..");
    let polyline = Polyline::new(rt.alloc(), &RING, c)?;
    assert!(rt; marks(&Paint::Polyline { polyline }, &ink) == *b".###");
    let ink = Ink::Or { c };
    let polygon = Polygon::new(rt.alloc(), &RING, ink)?;
    assert!(rt; marks(&Paint::Polygon { polygon }, &ink) == *b".##.");
    let mut font = Font::new(rt.alloc(), 3);
    font.add(65, 3, &[2, 7, 5])?;
    let text = TextRun::new(rt.alloc(), &font, CORNER, &[65], ink)?;
    assert!(rt; marks(&Paint::Text { text }, &ink) == *b"..#.");
    Ok(())
}
