//! The shared words of a new screen, and a row that the server writes and a painter looks at.
use crate::tokens::{end_gone, end_refused, look, read, session, stamp, write_row};
use display_lock::{try_paint_turn, try_server_turn};
use qws_base::{Rgb, Size};
use region_table::{cell_at, pixel_at, row_at, saved_at};
use std::test::Fail;

#[test]
fn opening_words(rt: HostRuntime) -> Result<(), Fail> {
    let size = Size::new(4, 2).expect(&rt, "the sides are in range");
    let backdrop = Rgb::of_channels(0x10, 0x20, 0x30);
    let (screen, mut head, _first, _second) = session(rt.alloc(), size, backdrop, 0)?;
    assert!(rt; screen.announce(&mut head) == 0, "the gate word");
    match try_server_turn(&mut head, &screen) {
        Ok(mut turn) => {
            let stamp_found = read(&mut turn, 1);
            let place = read(&mut turn, 2);
            let shape = read(&mut turn, 3);
            let cell = read(&mut turn, cell_at(1, 2));
            let owner = read(&mut turn, row_at(0));
            let revision = read(&mut turn, row_at(0) + 1);
            let origin = read(&mut turn, row_at(0) + 2);
            let count = read(&mut turn, row_at(0) + 3);
            let rect = read(&mut turn, row_at(0) + 4);
            let saved = read(&mut turn, saved_at(1, 2));
            let pixel = read(&mut turn, pixel_at(7));
            stamp(&mut turn, 1);
            end_refused(turn, 1);
            assert!(rt; [stamp_found, place, shape, cell] == [0, 0, 0, 0]);
            assert!(rt; [owner, revision, origin, count, rect] == [0, 1, 0x8000_8000, 0, 0]);
            assert!(rt; [saved, pixel] == [0, 0x10_2030]);
        }
        Err(busy) => panic!(rt; "busy: {}", busy.found),
    }
    Ok(())
}

#[test]
fn looks_at_a_written_row(rt: HostRuntime) -> Result<(), Fail> {
    let size = Size::new(4, 2).expect(&rt, "the sides are in range");
    let backdrop = Rgb::of_channels(0x10, 0x20, 0x30);
    let (screen, mut head, mut first, _second) = session(rt.alloc(), size, backdrop, 1)?;
    match try_server_turn(&mut head, &screen) {
        Ok(mut turn) => {
            write_row(&mut turn);
            stamp(&mut turn, 1);
            end_refused(turn, 1);
        }
        Err(busy) => panic!(rt; "busy: {}", busy.found),
    }
    match try_paint_turn(&mut first, &screen) {
        Ok(mut turn) => {
            let owner = look(&mut turn, row_at(0));
            let revision = look(&mut turn, row_at(0) + 1);
            let origin = look(&mut turn, row_at(0) + 2);
            let count = look(&mut turn, row_at(0) + 3);
            let rect = look(&mut turn, row_at(0) + 4);
            let stamp = turn.stamp();
            end_gone(turn);
            assert!(rt; stamp == 1);
            assert!(rt;
                [owner, revision, origin, count, rect]
                    == [1, 2, 0x8003_7ffe, 1, 0x0001_0002_0000_0001]
            );
        }
        Err(busy) => panic!(rt; "busy: {}", busy.found),
    }
    Ok(())
}
