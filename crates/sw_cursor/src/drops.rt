//! Putting the cursor down on the framebuffer.
ghost use Rattle.std.specs.Prelude.{◌≡◌, ◌+◌, ◌*◌, ◌<◌, ◌≤◌};
ghost use Rattle.qws_base.specs.Shown.{IsShape};
ghost use Rattle.turn_logs.specs.Phases.{IsTrueLog};
ghost use Rattle.display_lock.specs.Turns.{IsOpenServer, SameServerTurn};
ghost use Rattle.sw_cursor.specs.Lifts.{OnlyLogs, AddsCells, drop_one, Drops};

use crate::cells::scene_colour;
use crate::lifts::pixel_under;
use display_lock::ServerTurn;
use fb_words::logs_stay_true;
use qws_base::{Cursor, Ink, Size, after_at};
use region_table::{pixel_at, saved_at};

// Puts a cell down.
fn drop_cell(turn: &mut ServerTurn, cursor: &Cursor, size: Size, column: u32, row: u32)
    requires open { IsOpenServer turn.old }
    requires size { size ≡ turn.old.screen.now.setting.size }
    requires shape { IsShape cursor.now }
    requires column { column < cursor.now.w }
    requires row { row < cursor.now.h }
    ensures same { SameServerTurn turn.old turn.new }
    ensures open { IsOpenServer turn.new }
    ensures head { OnlyLogs turn.old.head.now turn.new.head.now }
    ensures log { AddsCells (drop_one turn.old.screen.now.setting.depth size cursor.now) (row * cursor.now.w + column) 1 turn.old.head.now.server.log turn.new.head.now.server.log }
    ensures true_log { IsTrueLog turn.old.head.now.server.log → IsTrueLog turn.new.head.now.server.log }
{
    logs_stay_true();
    if let Some(p) = pixel_under(size, cursor.x, cursor.y, column, row) {
        let depth = turn.screen().depth();
        let word = pixel_at(p);
        let colour = scene_colour(depth, turn.read(word));
        turn.write(saved_at(column, row), u64::from(colour.value()));
        let cell = Ink::of_cell(cursor.cell(column, row));
        turn.write(word, u64::from(after_at(depth, cell, colour).value()));
    }
}

// Puts the cells of a row down.
fn drop_row(turn: &mut ServerTurn, cursor: &Cursor, size: Size, row: u32)
    requires open { IsOpenServer turn.old }
    requires size { size ≡ turn.old.screen.now.setting.size }
    requires shape { IsShape cursor.now }
    requires row { row < cursor.now.h }
    ensures same { SameServerTurn turn.old turn.new }
    ensures open { IsOpenServer turn.new }
    ensures head { OnlyLogs turn.old.head.now turn.new.head.now }
    ensures log { AddsCells (drop_one turn.old.screen.now.setting.depth size cursor.now) (row * cursor.now.w) cursor.now.w turn.old.head.now.server.log turn.new.head.now.server.log }
    ensures true_log { IsTrueLog turn.old.head.now.server.log → IsTrueLog turn.new.head.now.server.log }
{
    for column in 0..cursor.w {
        drop_cell(turn, cursor, size, column, row);
    }
}

// Puts all cells down.
fn drop_cells(turn: &mut ServerTurn, cursor: &Cursor, size: Size)
    requires open { IsOpenServer turn.old }
    requires size { size ≡ turn.old.screen.now.setting.size }
    requires shape { IsShape cursor.now }
    ensures same { SameServerTurn turn.old turn.new }
    ensures open { IsOpenServer turn.new }
    ensures head { OnlyLogs turn.old.head.now turn.new.head.now }
    ensures log { AddsCells (drop_one turn.old.screen.now.setting.depth size cursor.now) 0 (cursor.now.w * cursor.now.h) turn.old.head.now.server.log turn.new.head.now.server.log }
    ensures true_log { IsTrueLog turn.old.head.now.server.log → IsTrueLog turn.new.head.now.server.log }
{
    for row in 0..cursor.h {
        drop_row(turn, cursor, size, row);
    }
}

/// Puts a cursor down on the framebuffer: for each of its shown cells on a pixel the framebuffer word is read, the colour that is
/// found there put on the saved word, and the cell's blend over it on the framebuffer word. It writes no table word, and takes
/// no memory.
pub fn drop_at(turn: &mut ServerTurn, cursor: &Cursor)
    requires open { IsOpenServer turn.old }
    requires shape { IsShape cursor.now }
    ensures same { SameServerTurn turn.old turn.new }
    ensures open { IsOpenServer turn.new }
    ensures head { OnlyLogs turn.old.head.now turn.new.head.now }
    ensures log { Drops turn.old.screen.now.setting.depth turn.old.screen.now.setting.size cursor.now turn.old.head.now.server.log turn.new.head.now.server.log }
    ensures true_log { IsTrueLog turn.old.head.now.server.log → IsTrueLog turn.new.head.now.server.log }
{
    let size = turn.screen().size();
    if cursor.shown {
        drop_cells(turn, cursor, size);
    }
}
