//! The row of a slot.
ghost use Rattle.std.specs.Prelude.{◌≡◌, ◌+◌, ◌<◌, ◌≤◌, All, length, map, slice_index};
ghost use Rattle.region_table.specs.Numbers.{first_pixel, row_word};
ghost use Rattle.region_table.specs.Packing.{IsPackable, packed};
ghost use Rattle.region_table.specs.Tables.{IsSpellableRow, row_word_of};
ghost use Rattle.display_lock.specs.Turns.{IsOpenServer, SameServerTurn};
ghost use Rattle.table_turns.specs.Writes.{OnlyTable, Sets, made_row, head_words};
ghost use Rattle.qws_base.specs.Points.{IsPlaced};

use crate::words::write_word;
use display_lock::ServerTurn;
use qws_base::{Point, Rect};
use region_table::{origin_word, owner_word, pack, row_at};

// Writes the rectangles of a row.
fn write_rects(turn: &mut ServerTurn, slot: u32, rects: &[Rect])
    requires open { IsOpenServer turn.old }
    requires wide { length turn.old.head.now.server.present ≡ first_pixel }
    requires slot { slot < 33 }
    requires few { length rects.now ≤ 256 }
    requires packable { All IsPackable rects.now }
    ensures same { SameServerTurn turn.old turn.new }
    ensures open { IsOpenServer turn.new }
    ensures head { OnlyTable turn.old.head.now turn.new.head.now }
    ensures words { Sets (row_word slot + 4) (length rects.now) (slice_index (map packed rects.now)) turn.old.head.now.server.present turn.new.head.now.server.present }
{
    let first = row_at(slot) + 4;
    for j in 0..rects.len() {
        write_word(turn, first + j as u64, pack(rects[j]));
    }
}

// Writes the words of a row before its rectangles.
fn write_head(
    turn: &mut ServerTurn,
    slot: u32,
    owner: Option<u32>,
    revision: u64,
    origin: Point,
    count: u64,
)
    requires open { IsOpenServer turn.old }
    requires wide { length turn.old.head.now.server.present ≡ first_pixel }
    requires slot { slot < 33 }
    requires placed { IsPlaced origin }
    ensures same { SameServerTurn turn.old turn.new }
    ensures open { IsOpenServer turn.new }
    ensures head { OnlyTable turn.old.head.now turn.new.head.now }
    ensures words { Sets (row_word slot) 4 (head_words owner revision origin count) turn.old.head.now.server.present turn.new.head.now.server.present }
{
    let first = row_at(slot);
    write_word(turn, first, owner_word(owner));
    write_word(turn, first + 1, revision);
    write_word(turn, first + 2, origin_word(origin));
    write_word(turn, first + 3, count);
}

/// Writes the row of a slot: its owner, revision and origin, and its rectangles. The words past the last rectangle stay. It
/// takes no memory.
pub fn write_row(
    turn: &mut ServerTurn,
    slot: u32,
    owner: Option<u32>,
    revision: u64,
    origin: Point,
    rects: &[Rect],
)
    requires open { IsOpenServer turn.old }
    requires wide { length turn.old.head.now.server.present ≡ first_pixel }
    requires slot { slot < 33 }
    requires row { IsSpellableRow (made_row owner revision origin rects.now) }
    ensures same { SameServerTurn turn.old turn.new }
    ensures open { IsOpenServer turn.new }
    ensures head { OnlyTable turn.old.head.now turn.new.head.now }
    ensures words { Sets (row_word slot) (4 + length rects.now) (row_word_of (made_row owner revision origin rects.now)) turn.old.head.now.server.present turn.new.head.now.server.present }
{
    write_head(turn, slot, owner, revision, origin, rects.len() as u64);
    write_rects(turn, slot, rects);
}
