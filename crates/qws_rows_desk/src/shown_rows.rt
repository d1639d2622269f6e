//! Sessions of one client, with what the screen shows at their close.
use crate::stages::{Got, Play, Stop, copy, fill, played, region};
use qws_base::{Command, Depth, Event, Ink, Point, Refusal, Reply, Rgb, Words};
use std::alloc::Global;
use std::process::Abort;
use std::test::Fail;

// The answers to a client's calls on a new screen, and what it shows at the close.
fn session(
    rt: &impl Abort,
    alloc: Global,
    sides: (u32, u32),
    depth: Depth,
    backdrop: u32,
    plays: Result<Vec<Play>, Stop>,
) -> (Vec<Got>, Vec<u32>) {
    let plays = plays.expect(rt, "there is memory");
    played(alloc, sides, depth, backdrop, &plays).expect(rt, "it is played")
}

// A window over two pixels, painted white under a cursor of one blue cell, which moves then or stays.
fn white_under_a_cursor(alloc: Global, moves: bool) -> Result<Vec<Play>, Stop> {
    let mut plays = Vec::new(alloc);
    plays.push(Play::Call(Command::Create { layer: 0 }))?;
    plays.push(region(alloc, 0, (0, 0), (0, 0, 2, 1))?)?;
    let mut cells = Vec::new(alloc);
    cells.push(0xff00_00ff)?;
    let cells = Words::of(cells);
    plays.push(Play::Call(Command::CursorShape { w: 1, h: 1, cells }))?;
    plays.push(Play::Call(Command::CursorShow { shown: true }))?;
    plays.push(fill((0, 0, 2, 1), copy(0xff_ffff)?)?)?;
    if moves {
        plays.push(Play::Call(Command::CursorMove { x: 1, y: 0 }))?;
    }
    Ok(plays)
}

#[test]
fn paints_under_the_cursor(rt: HostRuntime) -> Result<(), Fail> {
    let plays = white_under_a_cursor(rt.alloc(), true);
    let (got, shown) = session(&rt, rt.alloc(), (2, 1), Depth::Full, 0, plays);
    assert!(rt; got.len() == 6);
    assert!(rt; got[0] == Got::Replied(1, Reply::Created { slot: 0 }));
    assert!(rt; got[3] == Got::Replied(4, Reply::Done));
    assert!(rt; got[4] == Got::Painted(2));
    assert!(rt; got[5] == Got::Replied(5, Reply::Done));
    assert!(rt; shown.as_slice() == [0xff_ffff, 0x00_00ff].as_slice());
    Ok(())
}

#[test]
fn paints_under_a_cursor_that_stays(rt: HostRuntime) -> Result<(), Fail> {
    let plays = white_under_a_cursor(rt.alloc(), false);
    let (_got, shown) = session(&rt, rt.alloc(), (2, 1), Depth::Full, 0, plays);
    assert!(rt; shown.as_slice() == [0x00_00ff, 0xff_ffff].as_slice());
    Ok(())
}

// A cursor of two by two red cells at the last pixel, which can't go off the screen.
fn corner(alloc: Global) -> Result<Vec<Play>, Stop> {
    let mut plays = Vec::new(alloc);
    let mut cells = Vec::new(alloc);
    for _ in 0..4 {
        cells.push(0xffff_0000)?;
    }
    let cells = Words::of(cells);
    plays.push(Play::Call(Command::CursorShape { w: 2, h: 2, cells }))?;
    plays.push(Play::Call(Command::CursorMove { x: 1, y: 1 }))?;
    plays.push(Play::Call(Command::CursorShow { shown: true }))?;
    plays.push(Play::Call(Command::CursorMove { x: 2, y: 0 }))?;
    Ok(plays)
}

#[test]
fn cursor_in_the_corner(rt: HostRuntime) -> Result<(), Fail> {
    let plays = corner(rt.alloc());
    let (got, shown) = session(&rt, rt.alloc(), (2, 2), Depth::Full, 0, plays);
    assert!(rt; got.len() == 4);
    assert!(rt; got[2] == Got::Replied(3, Reply::Done));
    let cause = Refusal::OffScreen { x: 2, y: 0 };
    assert!(rt; got[3] == Got::Replied(4, Reply::Refused { cause }));
    assert!(rt; shown.as_slice() == [0, 0, 0, 0xff_0000].as_slice());
    Ok(())
}

// A window over one pixel, which is inverted twice.
fn inverted_twice(alloc: Global) -> Result<Vec<Play>, Stop> {
    let Some(c) = Rgb::new(0x0f_0f0f) else {
        return Err(Stop::Range);
    };
    let mut plays = Vec::new(alloc);
    plays.push(Play::Call(Command::Create { layer: 0 }))?;
    plays.push(region(alloc, 0, (0, 0), (0, 0, 1, 1))?)?;
    plays.push(fill((0, 0, 1, 1), Ink::Xor { c })?)?;
    plays.push(fill((0, 0, 1, 1), Ink::Xor { c })?)?;
    Ok(plays)
}

#[test]
fn repetition(rt: HostRuntime) -> Result<(), Fail> {
    let plays = inverted_twice(rt.alloc());
    let (got, shown) = session(&rt, rt.alloc(), (1, 1), Depth::Full, 0x12_3456, plays);
    assert!(rt; got.len() == 4);
    assert!(rt; got[2] == Got::Painted(1));
    assert!(rt; got[3] == Got::Painted(1));
    assert!(rt; shown.as_slice() == [0x12_3456].as_slice());
    Ok(())
}

// A window that is larger than the screen, of which the origin alone moves.
fn origin_moves(alloc: Global) -> Result<Vec<Play>, Stop> {
    let mut plays = Vec::new(alloc);
    plays.push(Play::Call(Command::Create { layer: 0 }))?;
    plays.push(region(alloc, 0, (0, 0), (-10, -10, 100, 100))?)?;
    plays.push(Play::Call(Command::Take))?;
    let origin = Point { x: 1, y: 0 };
    plays.push(Play::Call(Command::Move { slot: 0, origin }))?;
    plays.push(Play::Call(Command::Take))?;
    plays.push(fill((0, 0, 1, 1), copy(0xff_ffff)?)?)?;
    Ok(plays)
}

#[test]
fn move_of_the_origin_alone(rt: HostRuntime) -> Result<(), Fail> {
    let plays = origin_moves(rt.alloc());
    let (got, shown) = session(&rt, rt.alloc(), (2, 1), Depth::Full, 0, plays);
    assert!(rt; got.len() == 6);
    let event = Event::RegionModified { slot: 0 };
    assert!(rt; got[2] == Got::Replied(3, Reply::Event { event }));
    let cause = Refusal::Empty;
    assert!(rt; got[4] == Got::Replied(5, Reply::Refused { cause }));
    assert!(rt; got[5] == Got::Painted(1));
    assert!(rt; shown.as_slice() == [0, 0xff_ffff].as_slice());
    Ok(())
}

// A window of a red and a green pixel, which moves by one column.
fn two_colours_move(alloc: Global) -> Result<Vec<Play>, Stop> {
    let mut plays = Vec::new(alloc);
    plays.push(Play::Call(Command::Create { layer: 0 }))?;
    plays.push(region(alloc, 0, (0, 0), (0, 0, 2, 1))?)?;
    plays.push(fill((0, 0, 1, 1), copy(0xff_0000)?)?)?;
    plays.push(fill((1, 0, 1, 1), copy(0x00_ff00)?)?)?;
    let origin = Point { x: 1, y: 0 };
    plays.push(Play::Call(Command::Move { slot: 0, origin }))?;
    Ok(plays)
}

#[test]
fn move_carries_pixels(rt: HostRuntime) -> Result<(), Fail> {
    let plays = two_colours_move(rt.alloc());
    let (_got, shown) = session(&rt, rt.alloc(), (3, 1), Depth::Full, 0, plays);
    assert!(rt; shown.as_slice() == [0, 0xff_0000, 0x00_ff00].as_slice());
    Ok(())
}

// A red window that another covers, and that moves out from below it.
fn covered_moves(alloc: Global) -> Result<Vec<Play>, Stop> {
    let mut plays = Vec::new(alloc);
    plays.push(Play::Call(Command::Create { layer: 0 }))?;
    plays.push(region(alloc, 0, (0, 0), (0, 0, 1, 1))?)?;
    plays.push(fill((0, 0, 1, 1), copy(0xff_0000)?)?)?;
    plays.push(Play::Call(Command::Create { layer: 0 }))?;
    plays.push(region(alloc, 1, (0, 0), (0, 0, 1, 1))?)?;
    let origin = Point { x: 1, y: 0 };
    plays.push(Play::Call(Command::Move { slot: 0, origin }))?;
    Ok(plays)
}

#[test]
fn covered_pixels_are_not_carried(rt: HostRuntime) -> Result<(), Fail> {
    let plays = covered_moves(rt.alloc());
    let (_got, shown) = session(&rt, rt.alloc(), (2, 1), Depth::Full, 0, plays);
    assert!(rt; shown.as_slice() == [0xff_0000, 0].as_slice());
    Ok(())
}

// A window over the second pixel, filled and blended.
fn blended(alloc: Global, blends: bool) -> Result<Vec<Play>, Stop> {
    let mut plays = Vec::new(alloc);
    plays.push(Play::Call(Command::Create { layer: 0 }))?;
    plays.push(region(alloc, 0, (0, 0), (1, 0, 1, 1))?)?;
    plays.push(fill((1, 0, 1, 1), copy(0xff_8000)?)?)?;
    if blends {
        let Some(c) = Rgb::new(0x00_00ff) else {
            return Err(Stop::Range);
        };
        plays.push(fill((1, 0, 1, 1), Ink::Blend { c, a: 128 })?)?;
    }
    Ok(plays)
}

#[test]
fn sixteen_bits_widened(rt: HostRuntime) -> Result<(), Fail> {
    let plays = blended(rt.alloc(), false);
    let (_got, shown) = session(&rt, rt.alloc(), (2, 1), Depth::Narrow, 0x12_3456, plays);
    assert!(rt; shown.as_slice() == [0x10_3452, 0xff_8200].as_slice());
    Ok(())
}

#[test]
fn sixteen_bits_blended(rt: HostRuntime) -> Result<(), Fail> {
    let plays = blended(rt.alloc(), true);
    let (_got, shown) = session(&rt, rt.alloc(), (2, 1), Depth::Narrow, 0x12_3456, plays);
    assert!(rt; shown.as_slice() == [0x10_3452, 0x7b_4184].as_slice());
    Ok(())
}
