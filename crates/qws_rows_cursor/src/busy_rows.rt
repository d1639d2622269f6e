//! A paint while a server turn is held, and after its end.
ghost use Rattle.std.specs.Prelude.{◌≡◌, false, length};
ghost use Rattle.qws_base.specs.Shown.{IsShape};
ghost use Rattle.turn_logs.specs.Tables.{table_of, IsTable, Follows};
ghost use Rattle.fb_words.specs.Views.{is_writing};
ghost use Rattle.fb_words.specs.declared.known.Mode.TheVariants.{Idle};
ghost use Rattle.qws_rows_painters.specs.Heads.{IsHead};

use crate::stages::changed;
use clip_refetch::Clip;
use display_lock::try_server_turn;
use fb_words::{Head, Pass, Screen};
use gfx_fills::Fill;
use qws_base::{Cursor, Depth, Ink, NoGate, Rect, Rgb, RowBuf, Size};
use qws_rows_painters::checks::{follow, is_table};
use qws_rows_painters::turns::{ServeStop, cursor_in, finish, prepare, session};
use shared_painter::{PaintStop, Painted, try_paint};
use std::alloc::Global;
use std::test::Fail;

// Client 0's window in slot 0: both pixels of a screen of two columns.
const WHOLE: [(usize, u64); 5] = [
    (2052, 1),
    (2053, 2),
    (2054, 0x8000_8000),
    (2055, 1),
    (2056, 0x0001_0002_0000_0000),
];

// Client 0's paint of a picture on slot 0, whose clip is new.
fn painted(
    alloc: Global,
    screen: &Screen,
    pass: &mut Pass,
    c: Rgb,
) -> Result<Result<Painted, PaintStop>, ServeStop>
    requires screen { pass.old.screen ≡ screen.now }
    requires idle { pass.old.client.mode ≡ Idle }
    ensures screen { pass.new.screen ≡ screen.now }
    ensures idle { pass.new.client.mode ≡ Idle }
{
    let mut clip = Clip::new(alloc, 0)?;
    let mut row = RowBuf::new(alloc)?;
    let rect = Rect {
        x: 0,
        y: 0,
        w: 1,
        h: 1,
    };
    let picture = Fill::new(rect, Ink::Copy { c });
    Ok(try_paint(screen, &mut clip, pass, &mut row, &picture, 0, &NoGate))
}

// The answers of a paint while a server turn that has written words is held, and of one after its end.
fn beside(
    alloc: Global,
    screen: &Screen,
    head: &mut Head,
    pass: &mut Pass,
    before: &[u64],
    words: &[u64],
    cursor: &Cursor,
    c: Rgb,
) -> Result<(Result<Painted, PaintStop>, Result<Painted, PaintStop>), ServeStop>
    requires head { IsHead screen.now 1 before.now head.old }
    requires not_writing { is_writing head.old.server.mode ≡ false }
    requires long { length words.now ≡ 10632 }
    requires cursor { cursor.now ≡ (table_of words.now).cursor }
    requires shape { IsShape cursor.now }
    requires table { IsTable screen.now.setting.size 3 1 words.now }
    requires follows { Follows before.now words.now }
    requires screen { pass.old.screen ≡ screen.now }
    requires idle { pass.old.client.mode ≡ Idle }
{
    match try_server_turn(head, screen) {
        Ok(mut turn) => {
            prepare(&mut turn, before, words, cursor, 1);
            let held = painted(alloc, screen, pass, c);
            finish(turn, before, words, 1);
            let after = painted(alloc, screen, pass, c);
            Ok((held?, after?))
        }
        Err(busy) => Err(ServeStop::Busy { found: busy.found }),
    }
}

// A session in which client 0 paints beside a server turn and after it.
fn two_answers(
    alloc: Global,
    size: Size,
    c: Rgb,
) -> Result<(Result<Painted, PaintStop>, Result<Painted, PaintStop>), ServeStop> {
    let (screen, mut head, before, mut pass, _other) = session(alloc, size, Depth::Full, c, 1)?;
    let size = screen.size();
    let words = changed(alloc, &before, 1, &WHOLE)?;
    if !is_table(size, 3, 1, &words) || !follow(&before, &words) {
        return Err(ServeStop::Bad);
    }
    let cursor = cursor_in(alloc, size, &words)?;
    beside(
        alloc, &screen, &mut head, &mut pass, &before, &words, &cursor, c,
    )
}

#[test]
fn busy_while_a_server_turn_is_held(rt: HostRuntime) -> Result<(), Fail> {
    let size = Size::new(2, 1).expect(&rt, "the sides are in range");
    let answers = two_answers(rt.alloc(), size, Rgb::of_channels(1, 2, 3));
    let found = 4_294_967_296;
    let (stamp, pixels, fetched) = (1, 1, true);
    let after = Painted {
        stamp,
        pixels,
        fetched,
    };
    assert!(rt; answers == Ok((Err(PaintStop::Busy { found }), Ok(after))));
    Ok(())
}
