//! The cursor.
ghost use Rattle.std.specs.Prelude.{◌≡◌, ◌*◌, ◌/◌, ◌%◌, ◌≤◌, length};
ghost use Rattle.region_table.specs.Numbers.{first_pixel, place_at, shape_at, first_cell};
ghost use Rattle.region_table.specs.Tables.{IsCursor, place_word, shape_word, cell_value};
ghost use Rattle.display_lock.specs.Turns.{IsOpenServer, SameServerTurn};
ghost use Rattle.table_turns.specs.Writes.{OnlyTable, Sets, SetsShape, nth_cell};

use crate::words::write_word;
use display_lock::ServerTurn;
use qws_base::Cursor;
use region_table::{FIRST_CELL, PLACE, SHAPE, place_word, shape_word};

/// Writes the cursor's place, and whether it is shown. It takes no memory.
pub fn write_place(turn: &mut ServerTurn, cursor: &Cursor)
    requires open { IsOpenServer turn.old }
    requires wide { length turn.old.head.now.server.present ≡ first_pixel }
    requires cursor { IsCursor cursor.now }
    ensures same { SameServerTurn turn.old turn.new }
    ensures open { IsOpenServer turn.new }
    ensures head { OnlyTable turn.old.head.now turn.new.head.now }
    ensures words { Sets place_at 1 (λ k. place_word cursor.now) turn.old.head.now.server.present turn.new.head.now.server.present }
{
    write_word(turn, PLACE, place_word(cursor));
}

// The value of a cell, counted by rows of 32; 0 outside the shape.
fn nth_cell(cursor: &Cursor, k: u32) -> u64
    requires { IsCursor cursor.now }
    ensures { result ≡ nth_cell cursor.now k }
{
    let column = k % 32;
    let row = k / 32;
    if column < cursor.w && row < cursor.h {
        u64::from(cursor.cell(column, row))
    } else {
        0
    }
}

// Writes the cells of the first rows, 0 outside the shape.
fn write_cells(turn: &mut ServerTurn, cursor: &Cursor, rows: u32)
    requires open { IsOpenServer turn.old }
    requires wide { length turn.old.head.now.server.present ≡ first_pixel }
    requires cursor { IsCursor cursor.now }
    requires rows { rows ≤ 32 }
    ensures same { SameServerTurn turn.old turn.new }
    ensures open { IsOpenServer turn.new }
    ensures head { OnlyTable turn.old.head.now turn.new.head.now }
    ensures words { Sets first_cell (32 * rows) (nth_cell cursor.now) turn.old.head.now.server.present turn.new.head.now.server.present }
{
    for k in 0..32 * rows {
        let cell = nth_cell(cursor, k);
        write_word(turn, FIRST_CELL + u64::from(k), cell);
    }
}

/// Writes the sides of the cursor's shape and its cells. `rows` is how many rows the shape before had; cells of it that
/// aren't of this one are cleared. It takes no memory.
pub fn write_shape(turn: &mut ServerTurn, cursor: &Cursor, rows: u32)
    requires open { IsOpenServer turn.old }
    requires wide { length turn.old.head.now.server.present ≡ first_pixel }
    requires cursor { IsCursor cursor.now }
    requires rows { rows ≤ 32 }
    ensures same { SameServerTurn turn.old turn.new }
    ensures open { IsOpenServer turn.new }
    ensures head { OnlyTable turn.old.head.now turn.new.head.now }
    ensures words { SetsShape cursor.now rows turn.old.head.now.server.present turn.new.head.now.server.present }
{
    write_word(turn, SHAPE, shape_word(cursor));
    let most = if cursor.h < rows { rows } else { cursor.h };
    write_cells(turn, cursor, most);
}
