//! Lines, polylines and polygons: which points they have, and how many points stop them.
ghost use Rattle.std.specs.Prelude.{◌≤ℤ◌, pos, negsuc, IfOk};
ghost use Rattle.std.specs.List.{All};
ghost use Rattle.qws_base.specs.Points.{IsPlaced};

use gfx_lines::{Line, Polyline};
use gfx_polygons::Polygon;
use picture_rows::PointList;
use qws_base::{Ink, Picture, Point, Rgb};
use std::test::Fail;

fn mark(ink: Ink) -> u8 {
    if ink == Ink::Skip { b'.' } else { b'#' }
}

// Where a row of a picture has an ink, from column -1 to column 4.
fn marks<P: Picture>(picture: &P, y: i32) -> [u8; 6]
    requires low { negsuc 8191 ≤ℤ y }
    requires high { y ≤ℤ pos 8191 }
{
    let mut inks = [Ink::Skip; 6];
    picture.row(y, -1, &mut inks);
    inks.map(mark)
}

#[test]
fn points_of_lines(rt: HostRuntime) -> Result<(), Fail> {
    let c = Rgb::new(0xff8000).ok_or("colour")?;
    let down = Line::new(Point { x: 0, y: 0 }, Point { x: 2, y: 1 }, c);
    assert!(rt; marks(&down, -1) == *b"......");
    assert!(rt; marks(&down, 0) == *b".#....");
    assert!(rt; marks(&down, 1) == *b"..##..");
    assert!(rt; marks(&down, 2) == *b"......");
    let up = Line::new(Point { x: 2, y: 1 }, Point { x: 0, y: 0 }, c);
    assert!(rt; marks(&up, 0) == *b".##...");
    assert!(rt; marks(&up, 1) == *b"...#..");
    let dot = Line::new(Point { x: 3, y: 3 }, Point { x: 3, y: 3 }, c);
    assert!(rt; marks(&dot, 2) == *b"......");
    assert!(rt; marks(&dot, 3) == *b"....#.");
    Ok(())
}

#[test]
fn points_of_a_polyline(rt: HostRuntime) -> Result<(), Fail> {
    let c = Rgb::new(0xff8000).ok_or("colour")?;
    let points = [
        Point { x: 0, y: 0 },
        Point { x: 2, y: 1 },
        Point { x: 2, y: 3 },
    ];
    let made = Polyline::new(rt.alloc(), &points, c)?;
    assert!(rt; marks(&made, 0) == *b".#....");
    assert!(rt; marks(&made, 1) == *b"..##..");
    assert!(rt; marks(&made, 2) == *b"...#..");
    assert!(rt; marks(&made, 3) == *b"...#..");
    Ok(())
}

#[test]
fn points_of_polygons(rt: HostRuntime) -> Result<(), Fail> {
    let ink = Ink::Xor {
        c: Rgb::new(0xff8000).ok_or("colour")?,
    };
    let square = [
        Point { x: 0, y: 0 },
        Point { x: 2, y: 0 },
        Point { x: 2, y: 2 },
        Point { x: 0, y: 2 },
    ];
    let square = Polygon::new(rt.alloc(), &square, ink)?;
    assert!(rt; marks(&square, -1) == *b"......");
    assert!(rt; marks(&square, 0) == *b".##...");
    assert!(rt; marks(&square, 1) == *b".##...");
    assert!(rt; marks(&square, 2) == *b"......");
    let triangle = [
        Point { x: 0, y: 0 },
        Point { x: 4, y: 0 },
        Point { x: 0, y: 4 },
    ];
    let triangle = Polygon::new(rt.alloc(), &triangle, ink)?;
    assert!(rt; marks(&triangle, 0) == *b".###..");
    assert!(rt; marks(&triangle, 1) == *b".##...");
    assert!(rt; marks(&triangle, 2) == *b".#....");
    assert!(rt; marks(&triangle, 3) == *b"......");
    Ok(())
}

#[test]
fn too_few_points(rt: HostRuntime) -> Result<(), Fail> {
    let c = Rgb::new(0xff8000).ok_or("colour")?;
    let one = [Point { x: 0, y: 0 }];
    let Err(stop) = Polyline::new(rt.alloc(), &one, c) else {
        return Err(Fail::from("one point is enough"));
    };
    assert!(rt; stop == gfx_lines::PointStop::BadPoints { count: 1 });
    let two = [Point { x: 0, y: 0 }, Point { x: 2, y: 0 }];
    let Err(stop) = Polygon::new(rt.alloc(), &two, Ink::Copy { c }) else {
        return Err(Fail::from("two points are enough"));
    };
    assert!(rt; stop == gfx_polygons::PointStop::BadPoints { count: 2 });
    Ok(())
}

#[test]
fn lists_of_points(rt: HostRuntime) -> Result<(), Fail> {
    let points = [Point { x: 0, y: 0 }, Point { x: 2, y: 1 }];
    let list = PointList::new(rt.alloc(), &points, 2)?;
    assert!(rt; list.as_slice() == points.as_slice());
    Ok(())
}
