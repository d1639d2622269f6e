//! What lines mean.
use gfx_fills::Image;
use qws_base::{Command, Picture, Rect};
use script_grammar::{LineCall, Window};
use script_names::{Call, Slots, meaning};
use std::test::Fail;

const RECT: Rect = Rect {
    x: -4,
    y: 3,
    w: 5,
    h: 6,
};

#[test]
fn raise_of_a_numbered_window(rt: HostRuntime) -> Result<(), Fail> {
    let alloc = rt.alloc();
    let slots = Slots::new(alloc);
    let raise = LineCall::Raise {
        window: Window::Numbered { slot: 3 },
    };
    let raised = Command::Raise { slot: 3 };
    match meaning(alloc, &[], &[], &slots, &raise)? {
        Call::Step { command } => assert!(rt; command == raised),
        Call::Paint { .. } => assert!(rt; false),
    }
    Ok(())
}

#[test]
fn tile_of_an_image(rt: HostRuntime) -> Result<(), Fail> {
    let alloc = rt.alloc();
    let slots = Slots::new(alloc);
    let images = vec![in alloc; Image::new(alloc, 2, 1, &[0xff102030, 0x80405060])?]?;
    let tile = LineCall::Tile {
        window: Window::Numbered { slot: 31 },
        rect: RECT,
        image: 0,
    };
    match meaning(alloc, &[], &images, &slots, &tile)? {
        Call::Paint { slot, paint } => {
            assert!(rt; slot == 31);
            assert!(rt; paint.reach() == RECT);
        }
        Call::Step { .. } => assert!(rt; false),
    }
    Ok(())
}
