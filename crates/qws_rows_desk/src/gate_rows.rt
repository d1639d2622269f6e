//! A call that finds a painter in its turn closes the gate, until it is let in or withdrawn.
ghost use Rattle.std.specs.Prelude.{◌≡◌, ◌<◌, [], IfOk, length};
ghost use Rattle.fb_words.specs.Clips.{log_in};
ghost use Rattle.fb_words.specs.Views.{books_in};
ghost use Rattle.fb_words.specs.declared.known.Mode.TheVariants.{Idle};
ghost use Rattle.display_lock.specs.Turns.{IsOpen, client_in};

use crate::stages::Stop;
use clip_refetch::Clip;
use display_lock::{PaintTurn, try_paint_turn};
use fb_words::{Pass, Screen};
use gfx_fills::Fill;
use qws_base::{
    BookEntry, Command, Depth, Ink, NoGate, PaintReply, Point, Rect, Rects, Refusal, Reply, Rgb,
    RowBuf, Size,
};
use server_desk::{Answer, CallStop, Desk};
use shared_painter::{PaintStop, Painted, try_paint};
use std::alloc::Global;
use std::test::Fail;

// A slot past the last, in which no client has a window.
const NO_SLOT: u32 = 33;

const PIXEL: Rect = Rect {
    x: 0,
    y: 0,
    w: 1,
    h: 1,
};

// Ends a turn in which no pixel was read or written: the slot has no window.
fn end_gone(turn: PaintTurn)
    requires open { IsOpen turn }
    requires empty { log_in (client_in turn).mode ≡ [] }
    requires room { length (books_in turn.pass.now.client.own) < turn.pass.now.book_limit }
{
    let entry = BookEntry {
        stamp: turn.stamp(),
        slot: NO_SLOT,
        tag: 0,
        reply: PaintReply::Gone,
    };
    turn.end(entry, &nothing());
}

// Makes a command. The desk stays of its screen, and the pass too.
fn ask(
    alloc: Global,
    screen: &Screen,
    desk: &mut Desk,
    pass: Pass,
    command: &Command,
) -> (Pass, Result<Answer, CallStop>)
    requires desk { desk.old.screen ≡ screen.now }
    requires pass { (pass.screen ≡ screen.now) × (pass.client.mode ≡ Idle) }
    ensures desk { desk.new.screen ≡ screen.now }
    ensures pass { (result.0.screen ≡ screen.now) × (result.0.client.mode ≡ Idle) }
{
    let (pass, answer) = desk.try_call(alloc, screen, pass, command);
    match answer {
        Ok(answer) => (pass, Ok(answer)),
        Err(CallStop::Busy { found }) => (pass, Err(CallStop::Busy { found })),
        Err(CallStop::JournalFull { held }) => (pass, Err(CallStop::JournalFull { held })),
        Err(CallStop::OutOfMemory) => (pass, Err(CallStop::OutOfMemory)),
    }
}

// Three clients of a desk, of which client 2 has a window over the one pixel.
fn three(alloc: Global) -> Result<(Screen, Desk, Pass, Pass, Pass), Stop>
    ensures desk { IfOk result (λ made. made.1.screen ≡ made.0) }
    ensures first { IfOk result (λ made. (made.2.screen ≡ made.0) × (made.2.client.mode ≡ Idle) × (length (books_in made.2.client.own) < made.2.book_limit)) }
    ensures second { IfOk result (λ made. (made.3.screen ≡ made.0) × (made.3.client.mode ≡ Idle)) }
    ensures third { IfOk result (λ made. (made.4.screen ≡ made.0) × (made.4.client.mode ≡ Idle)) }
{
    let (Some(size), Some(backdrop)) = (Size::new(1, 1), Rgb::new(0)) else {
        return Err(Stop::Range);
    };
    let (screen, mut desk) = Desk::new(alloc, size, Depth::Full, backdrop)?;
    let first = desk.connect(alloc, &screen, 1, 1)?;
    let second = desk.connect(alloc, &screen, 1, 1)?;
    let third = desk.connect(alloc, &screen, 2, 1)?;
    let create = Command::Create { layer: 0 };
    let (third, _created) = ask(alloc, &screen, &mut desk, third, &create);
    let mut rects = Vec::new(alloc);
    rects.push(PIXEL)?;
    let origin = Point { x: 0, y: 0 };
    let rects = Rects::of(rects);
    let asks = Command::Region {
        slot: 0,
        origin,
        rects,
    };
    let (third, _asked) = ask(alloc, &screen, &mut desk, third, &asks);
    Ok((screen, desk, first, second, third))
}

// A picture without ink.
fn nothing() -> Fill {
    Fill::new(PIXEL, Ink::Skip)
}

#[test]
fn gate_stays_closed_while_a_painter_is_in(rt: HostRuntime) -> Result<(), Fail> {
    let made = three(rt.alloc()).expect(&rt, "there is memory");
    let (screen, mut desk, mut first, second, mut third) = made;
    let mut waits = second;
    let mut clip = Clip::new(rt.alloc(), 0)?;
    let mut row = RowBuf::new(rt.alloc())?;
    match try_paint_turn(&mut first, &screen) {
        Ok(turn) => {
            let (second, answer) = ask(rt.alloc(), &screen, &mut desk, waits, &Command::Take);
            waits = second;
            let found = 4_294_967_297;
            assert!(rt; answer == Err(CallStop::Busy { found }));
            let painted = try_paint(
                &screen,
                &mut clip,
                &mut third,
                &mut row,
                &nothing(),
                0,
                &NoGate,
            );
            assert!(rt; painted == Err(PaintStop::Busy { found }));
            end_gone(turn);
        }
        Err(busy) => panic!(rt; "busy: {}", busy.found),
    }
    let (_second, answer) = ask(rt.alloc(), &screen, &mut desk, waits, &Command::Take);
    let cause = Refusal::Empty;
    let reply = Reply::Refused { cause };
    assert!(rt; answer == Ok(Answer { number: 3, reply }));
    Ok(())
}

#[test]
fn withdrawn_gate_lets_painters_in(rt: HostRuntime) -> Result<(), Fail> {
    let made = three(rt.alloc()).expect(&rt, "there is memory");
    let (screen, mut desk, mut first, second, mut third) = made;
    let mut clip = Clip::new(rt.alloc(), 0)?;
    let mut row = RowBuf::new(rt.alloc())?;
    match try_paint_turn(&mut first, &screen) {
        Ok(turn) => {
            let (_second, answer) = ask(rt.alloc(), &screen, &mut desk, second, &Command::Take);
            let found = 4_294_967_297;
            assert!(rt; answer == Err(CallStop::Busy { found }));
            let refused = try_paint(
                &screen,
                &mut clip,
                &mut third,
                &mut row,
                &nothing(),
                0,
                &NoGate,
            );
            assert!(rt; refused == Err(PaintStop::Busy { found }));
            desk.withdraw(&screen);
            let painted = try_paint(
                &screen,
                &mut clip,
                &mut third,
                &mut row,
                &nothing(),
                0,
                &NoGate,
            );
            let (stamp, pixels, fetched) = (2, 0, true);
            assert!(rt;
                painted
                    == Ok(Painted {
                        stamp,
                        pixels,
                        fetched
                    })
            );
            end_gone(turn);
        }
        Err(busy) => panic!(rt; "busy: {}", busy.found),
    }
    Ok(())
}
