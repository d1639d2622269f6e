//! The opening state, plans before they are committed, and the cursor.
use crate::server::{Stop, call, opened, planned, rect};
use qws_base::{Command, Point, Rects, Refusal, Reply, Words};
use std::alloc::Global;
use window_core::Core;

#[test]
fn the_opening_state(rt: HostRuntime) -> Result<(), Stop> {
    let core = opened(rt.alloc(), 3, 2)?;
    assert!(rt; (core.size().w(), core.size().h()) == (3, 2));
    assert!(rt; core.backdrop().value() == 0);
    assert!(rt; core.windows().len() == 0);
    assert!(rt; (core.revision(0), core.revision(31)) == (1, 1));
    let cursor = core.cursor();
    assert!(rt; (cursor.x, cursor.y, cursor.w, cursor.h) == (0, 0, 0, 0));
    assert!(rt; !cursor.shown && cursor.cells.as_slice().is_empty());
    Ok(())
}

// One window of client 0 on a screen of three by one pixels, which requests the first two.
fn two_pixels(alloc: Global) -> Result<Core, Stop> {
    let mut core = opened(alloc, 3, 1)?;
    let _ = call(alloc, &mut core, 0, Command::Create { layer: 0 })?;
    let region = Command::Region {
        slot: 0,
        origin: Point { x: 0, y: 0 },
        rects: Rects::of(vec![in alloc; rect(0, 0, 2, 1)]?),
    };
    let _ = call(alloc, &mut core, 0, region)?;
    Ok(core)
}

const TO_THE_RIGHT: Command = Command::Move {
    slot: 0,
    origin: Point { x: 1, y: 0 },
};

#[test]
fn windows_before_and_after_a_move(rt: HostRuntime) -> Result<(), Stop> {
    let alloc = rt.alloc();
    let core = two_pixels(alloc)?;
    let plan = planned(alloc, &core, 0, &TO_THE_RIGHT)?;
    assert!(rt; (plan.client(), *plan.reply() == Reply::Done) == (0, true));
    let places = (
        plan.windows().first().map(|w| w.origin.x),
        core.windows().first().map(|w| w.origin.x),
    );
    assert!(rt; places == (Some(1), Some(0)));
    assert!(rt; plan.region(0).rects() == [rect(1, 0, 2, 1)].as_slice());
    assert!(rt; core.region(0).rects() == [rect(0, 0, 2, 1)].as_slice());
    assert!(rt; plan.risen() == [0].as_slice());
    assert!(rt; (plan.revision(0), core.revision(0)) == (4, 3));
    Ok(())
}

#[test]
fn a_plan_of_a_refused_command(rt: HostRuntime) -> Result<(), Stop> {
    let alloc = rt.alloc();
    let core = two_pixels(alloc)?;
    let plan = planned(alloc, &core, 1, &TO_THE_RIGHT)?;
    let cause = Refusal::NotYours { slot: 0, owner: 0 };
    assert!(rt; *plan.reply() == Reply::Refused { cause });
    assert!(rt; plan.windows() == core.windows());
    assert!(rt; plan.region(0).rects() == core.region(0).rects());
    assert!(rt; plan.cursor() == core.cursor());
    assert!(rt; (plan.revision(0), plan.risen().len()) == (3, 0));
    Ok(())
}

#[test]
fn a_cursor_in_the_corner(rt: HostRuntime) -> Result<(), Stop> {
    let alloc = rt.alloc();
    let mut core = opened(alloc, 2, 2)?;
    let shape = Command::CursorShape {
        w: 2,
        h: 2,
        cells: Words::of(vec![in alloc; 0xffff_0000; 4]?),
    };
    let _ = call(alloc, &mut core, 0, shape)?;
    let _ = call(alloc, &mut core, 0, Command::CursorMove { x: 1, y: 1 })?;
    let _ = call(alloc, &mut core, 0, Command::CursorShow { shown: true })?;
    let _ = call(alloc, &mut core, 0, Command::CursorMove { x: 2, y: 0 })?;
    let cursor = core.cursor();
    assert!(rt; (cursor.x, cursor.y, cursor.w, cursor.h) == (1, 1, 2, 2));
    assert!(rt; cursor.cells.as_slice() == [0xffff_0000; 4].as_slice());
    assert!(rt; cursor.shown);
    Ok(())
}
