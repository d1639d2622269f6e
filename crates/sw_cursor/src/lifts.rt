//! Lifting the cursor off the framebuffer, and putting it down there.
ghost use Rattle.std.specs.Prelude.{◌≡◌, ◌+◌, ◌*◌, ◌<◌, ◌≤◌, pos, IfSome};
ghost use Rattle.qws_base.specs.Points.{pixel_at as pixel_on, pixel_count};
ghost use Rattle.turn_logs.specs.Tables.{IsCursorIn, table_of};
ghost use Rattle.turn_logs.specs.Phases.{IsTrueLog};
ghost use Rattle.display_lock.specs.Turns.{IsOpenServer, SameServerTurn};
ghost use Rattle.sw_cursor.specs.Covers.{bare_cursor};
ghost use Rattle.sw_cursor.specs.Lifts.{OnlyLogs, AddsCells, lift_one, Lifts};

use crate::covers::Cover;
use display_lock::ServerTurn;
use fb_words::logs_stay_true;
use qws_base::Size;
use region_table::{pixel_at, saved_at};

// The pixel under a cell of a cursor at a place; none off the screen.
pub(crate) fn pixel_under(size: Size, x: u32, y: u32, column: u32, row: u32) -> Option<u32>
    ensures value { result ≡ pixel_on size (record { x = pos (x + column); y = pos (y + row) }) }
    ensures range { IfSome result (λ p. (p < 307200) × (p < pixel_count size)) }
{
    let at_x = u64::from(x) + u64::from(column);
    let at_y = u64::from(y) + u64::from(row);
    let width = u64::from(size.w());
    if at_x < width && at_y < u64::from(size.h()) {
        Some((at_y * width + at_x) as u32)
    } else {
        None
    }
}

// Lifts a cell.
fn lift_cell(turn: &mut ServerTurn, cover: &Cover, size: Size, column: u32, row: u32)
    requires open { IsOpenServer turn.old }
    requires size { size ≡ turn.old.screen.now.setting.size }
    requires few { (cover.now.w ≤ 32) × (cover.now.h ≤ 32) }
    requires column { column < cover.now.w }
    requires row { row < cover.now.h }
    ensures same { SameServerTurn turn.old turn.new }
    ensures open { IsOpenServer turn.new }
    ensures head { OnlyLogs turn.old.head.now turn.new.head.now }
    ensures log { AddsCells (lift_one size (bare_cursor cover.now)) (row * cover.now.w + column) 1 turn.old.head.now.server.log turn.new.head.now.server.log }
    ensures true_log { IsTrueLog turn.old.head.now.server.log → IsTrueLog turn.new.head.now.server.log }
{
    logs_stay_true();
    if let Some(p) = pixel_under(size, cover.x, cover.y, column, row) {
        let colour = turn.read(saved_at(column, row));
        turn.write(pixel_at(p), colour);
    }
}

// Lifts the cells of a row.
fn lift_row(turn: &mut ServerTurn, cover: &Cover, size: Size, row: u32)
    requires open { IsOpenServer turn.old }
    requires size { size ≡ turn.old.screen.now.setting.size }
    requires few { (cover.now.w ≤ 32) × (cover.now.h ≤ 32) }
    requires row { row < cover.now.h }
    ensures same { SameServerTurn turn.old turn.new }
    ensures open { IsOpenServer turn.new }
    ensures head { OnlyLogs turn.old.head.now turn.new.head.now }
    ensures log { AddsCells (lift_one size (bare_cursor cover.now)) (row * cover.now.w) cover.now.w turn.old.head.now.server.log turn.new.head.now.server.log }
    ensures true_log { IsTrueLog turn.old.head.now.server.log → IsTrueLog turn.new.head.now.server.log }
{
    for column in 0..cover.w {
        lift_cell(turn, cover, size, column, row);
    }
}

// Lifts all cells.
fn lift_cells(turn: &mut ServerTurn, cover: &Cover, size: Size)
    requires open { IsOpenServer turn.old }
    requires size { size ≡ turn.old.screen.now.setting.size }
    requires few { (cover.now.w ≤ 32) × (cover.now.h ≤ 32) }
    ensures same { SameServerTurn turn.old turn.new }
    ensures open { IsOpenServer turn.new }
    ensures head { OnlyLogs turn.old.head.now turn.new.head.now }
    ensures log { AddsCells (lift_one size (bare_cursor cover.now)) 0 (cover.now.w * cover.now.h) turn.old.head.now.server.log turn.new.head.now.server.log }
    ensures true_log { IsTrueLog turn.old.head.now.server.log → IsTrueLog turn.new.head.now.server.log }
{
    for row in 0..cover.h {
        lift_row(turn, cover, size, row);
    }
}

/// Lifts the cursor of the present table off the framebuffer: for each shown cell on a pixel its saved word is read, and the
/// colour that is found there put on the pixel. It writes no table word, and takes no memory.
pub fn lift(turn: &mut ServerTurn)
    requires open { IsOpenServer turn.old }
    requires cursor { IsCursorIn turn.old.screen.now.setting.size turn.old.head.now.server.present }
    ensures same { SameServerTurn turn.old turn.new }
    ensures open { IsOpenServer turn.new }
    ensures head { OnlyLogs turn.old.head.now turn.new.head.now }
    ensures log { Lifts turn.old.screen.now.setting.size (table_of turn.old.head.now.server.present).cursor turn.old.head.now.server.log turn.new.head.now.server.log }
    ensures true_log { IsTrueLog turn.old.head.now.server.log → IsTrueLog turn.new.head.now.server.log }
{
    let size = turn.screen().size();
    let cover = Cover::read(turn);
    if cover.shown {
        lift_cells(turn, &cover, size);
    }
}
