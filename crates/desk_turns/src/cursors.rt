//! The cursor that a planned step changes.
ghost use Rattle.std.specs.Prelude.{◌≡◌, true, length, IsTrue};
ghost use Rattle.region_table.specs.Numbers.{first_pixel};
ghost use Rattle.region_table.specs.Tables.{IsCursor};
ghost use Rattle.display_lock.specs.Turns.{IsOpenServer, SameServerTurn};
ghost use Rattle.table_turns.specs.Writes.{OnlyTable};
ghost use Rattle.desk_turns.specs.Cursors.{SamePlace, SameShape, Respells, at_place_of};

use display_lock::ServerTurn;
use qws_base::Cursor;
use table_turns::{tables_are_written, write_place, write_shape};

// Whether two cursors have the same place, and are both shown or both hidden.
fn is_same_place(before: &Cursor, after: &Cursor) -> bool
    ensures { IsTrue result → SamePlace before.now after.now }
{
    before.x == after.x && before.y == after.y && before.shown == after.shown
}

// Whether two cursors have the same shape.
fn is_same_shape(before: &Cursor, after: &Cursor) -> bool
    ensures { IsTrue result → SameShape before.now after.now }
{
    before.w == after.w && before.h == after.h && before.cells == after.cells
}

// Writes the place of a cursor where it is another than before.
fn write_new_place(turn: &mut ServerTurn, before: &Cursor, after: &Cursor)
    requires open { IsOpenServer turn.old }
    requires wide { length turn.old.head.now.server.present ≡ first_pixel }
    requires after { IsCursor after.now }
    ensures same { SameServerTurn turn.old turn.new }
    ensures open { IsOpenServer turn.new }
    ensures head { OnlyTable turn.old.head.now turn.new.head.now }
    ensures words { Respells before.now (at_place_of before.now after.now) turn.old.head.now.server.present turn.new.head.now.server.present }
{
    tables_are_written();
    if !is_same_place(before, after) {
        write_place(turn, after);
    }
}

// Writes the shape of a cursor at its new place where it is another than before.
fn write_new_shape(turn: &mut ServerTurn, before: &Cursor, after: &Cursor)
    requires open { IsOpenServer turn.old }
    requires wide { length turn.old.head.now.server.present ≡ first_pixel }
    requires before { IsCursor before.now }
    requires after { IsCursor after.now }
    ensures same { SameServerTurn turn.old turn.new }
    ensures open { IsOpenServer turn.new }
    ensures head { OnlyTable turn.old.head.now turn.new.head.now }
    ensures words { Respells (at_place_of before.now after.now) after.now turn.old.head.now.server.present turn.new.head.now.server.present }
{
    tables_are_written();
    if !is_same_shape(before, after) {
        write_shape(turn, after, before.h);
    }
}

/// Writes the words of the cursor that differ from one before: its place, or its shape with the cells. It takes no memory.
pub fn write_cursor(turn: &mut ServerTurn, before: &Cursor, after: &Cursor)
    requires open { IsOpenServer turn.old }
    requires wide { length turn.old.head.now.server.present ≡ first_pixel }
    requires before { IsCursor before.now }
    requires after { IsCursor after.now }
    ensures same { SameServerTurn turn.old turn.new }
    ensures open { IsOpenServer turn.new }
    ensures head { OnlyTable turn.old.head.now turn.new.head.now }
    ensures words { Respells before.now after.now turn.old.head.now.server.present turn.new.head.now.server.present }
{
    write_new_place(turn, before, after);
    write_new_shape(turn, before, after);
}
