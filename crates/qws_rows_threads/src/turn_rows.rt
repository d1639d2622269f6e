//! A turn of one side shuts the other out.
use crate::tokens::{end_gone, end_refused, paint, serve, session, stamp};
use display_lock::{try_paint_turn, try_server_turn, withdraw};
use qws_base::{Rgb, Size};
use std::test::Fail;

#[test]
fn server_turn_shuts_painters_out(rt: HostRuntime) -> Result<(), Fail> {
    let size = Size::new(3, 2).expect(&rt, "the sides are in range");
    let backdrop = Rgb::of_channels(0x10, 0x20, 0x30);
    let (screen, mut head, mut first, mut second) = session(rt.alloc(), size, backdrop, 4)?;
    match try_server_turn(&mut head, &screen) {
        Ok(mut turn) => {
            assert!(rt; paint(&screen, &mut first) == Err(4_294_967_296));
            assert!(rt; paint(&screen, &mut second) == Err(4_294_967_296));
            stamp(&mut turn, 1);
            end_refused(turn, 1);
        }
        Err(busy) => panic!(rt; "busy: {}", busy.found),
    }
    assert!(rt; paint(&screen, &mut first) == Ok(()));
    assert!(rt; first.entries().len() == 1);
    assert!(rt; second.entries().len() == 0);
    Ok(())
}

#[test]
fn paint_turn_shuts_the_server_out(rt: HostRuntime) -> Result<(), Fail> {
    let size = Size::new(3, 2).expect(&rt, "the sides are in range");
    let backdrop = Rgb::of_channels(0x10, 0x20, 0x30);
    let (screen, mut head, mut first, mut second) = session(rt.alloc(), size, backdrop, 4)?;
    match try_paint_turn(&mut first, &screen) {
        Ok(turn) => {
            let Err(found) = serve(&screen, &mut head, 1) else {
                panic!(rt; "the server was let in beside a painter")
            };
            assert!(rt; found == 4_294_967_297);
            assert!(rt; paint(&screen, &mut second) == Err(4_294_967_297));
            withdraw(&screen, &mut head);
            assert!(rt; paint(&screen, &mut second) == Ok(()));
            end_gone(turn);
        }
        Err(busy) => panic!(rt; "busy: {}", busy.found),
    }
    assert!(rt; serve(&screen, &mut head, 1) == Ok(()));
    assert!(rt; first.entries().len() == 1);
    assert!(rt; second.entries().len() == 1);
    Ok(())
}
