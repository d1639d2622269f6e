//! Refreshes of a clip, twice in one turn.
ghost use Rattle.std.specs.Prelude.{◌≡◌, ◌<◌, [], None, length};
ghost use Rattle.fb_words.specs.Clips.{log_in, slot_in};
ghost use Rattle.fb_words.specs.Views.{books_in};
ghost use Rattle.fb_words.specs.declared.known.Mode.TheVariants.{Idle};
ghost use Rattle.display_lock.specs.Turns.{IsOpen, client_in};

use crate::stages::changed;
use clip_refetch::{Clip, Look};
use display_lock::{PaintTurn, try_paint_turn};
use fb_words::{Pass, Screen};
use gfx_fills::Fill;
use qws_base::{BookEntry, Depth, Ink, PaintReply, Rect, Rgb, Size};
use qws_rows_painters::turns::{ServeStop, serve, session};
use std::alloc::Global;
use std::test::Fail;

// Client 0's window in slot 0, with revision 3: two pixels of column 1.
const COLUMN: [(usize, u64); 5] = [
    (2052, 1),
    (2053, 3),
    (2054, 0x8000_8001),
    (2055, 1),
    (2056, 0x0002_0001_0000_0001),
];

// A slot past the last, in which no client has a window.
const NO_SLOT: u32 = 33;

// Ends a turn in which no pixel was read or written, with the entry of a paint in the slot past the last.
fn end_gone(turn: PaintTurn)
    requires open { IsOpen turn }
    requires empty { log_in (client_in turn).mode ≡ [] }
    requires room { length (books_in (client_in turn).own) < turn.pass.now.book_limit }
{
    let rect = Rect {
        x: 0,
        y: 0,
        w: 1,
        h: 1,
    };
    let entry = BookEntry {
        stamp: turn.stamp(),
        slot: NO_SLOT,
        tag: 0,
        reply: PaintReply::Gone,
    };
    turn.end(entry, &Fill::new(rect, Ink::Skip));
}

// Refreshes a new clip twice in a turn.
fn look_twice(mut turn: PaintTurn, clip: &mut Clip) -> (Look, Look)
    requires open { IsOpen turn }
    requires empty { log_in (client_in turn).mode ≡ [] }
    requires no_slot { slot_in (client_in turn).mode ≡ None }
    requires room { length (books_in (client_in turn).own) < turn.pass.now.book_limit }
    requires new { clip.old.revision ≡ 0 }
{
    let first = clip.refresh(&mut turn);
    let second = clip.refresh(&mut turn);
    end_gone(turn);
    (first, second)
}

// Refreshes a new clip of a slot twice, in a turn of the pass.
fn refreshed(
    alloc: Global,
    screen: &Screen,
    pass: &mut Pass,
    slot: u32,
) -> Result<(Look, Look), ServeStop>
    requires screen { pass.old.screen ≡ screen.now }
    requires idle { pass.old.client.mode ≡ Idle }
    requires slot { slot < 33 }
{
    let mut clip = Clip::new(alloc, slot)?;
    if pass.entries().len() as u64 >= pass.book_limit() {
        return Err(ServeStop::Bad);
    }
    match try_paint_turn(pass, screen) {
        Ok(turn) => Ok(look_twice(turn, &mut clip)),
        Err(busy) => Err(ServeStop::Busy { found: busy.found }),
    }
}

// The answers of two refreshes of client 0's clip of a slot.
fn answers(alloc: Global, size: Size, backdrop: Rgb, slot: u32) -> Result<(Look, Look), ServeStop>
    requires { slot < 33 }
{
    let (screen, mut head, before, mut pass, _other) = session(
        alloc,
        size,
        Depth::Full,
        backdrop,
        1,
    )?;
    let words = changed(alloc, &before, 1, &COLUMN)?;
    serve(alloc, &screen, &mut head, &before, &words, 1)?;
    refreshed(alloc, &screen, &mut pass, slot)
}

#[test]
fn refreshes_twice(rt: HostRuntime) -> Result<(), Fail> {
    let size = Size::new(3, 2).expect(&rt, "the sides are in range");
    let black = Rgb::of_channels(0, 0, 0);
    let own = answers(rt.alloc(), size, black, 0);
    assert!(rt; own == Ok((Look::Fetched { was: 0, now: 3 }, Look::Current)));
    let none = answers(rt.alloc(), size, black, 32);
    let gone = Look::Gone { owner_word: 0 };
    assert!(rt; none == Ok((gone, gone)));
    Ok(())
}
