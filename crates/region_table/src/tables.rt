//! A published table, as plain data.
ghost use Rattle.std.specs.Prelude.{◌≡◌};

use qws_base::{Cursor, Point, Rects};
use std::marker::Model;

/// What the table tells of a slot: the client whose window has it, none where no window has; its revision; the place of
/// the window's origin on the screen; and the pixels that belong to it, as rectangles on the screen.
#[derive(Debug, Drop)]
pub struct Row {
    pub owner: Option<u32>,
    pub revision: u64,
    pub origin: Point,
    pub rects: Rects,
}

/// The rows of a table, by slot. Contracts see a list.
#[derive(Debug, Drop)]
pub struct Rows {
    items: Vec<Row>,
}

impl Model for Rows {
    ghost use Rattle.std.specs.Prelude.{List};
    ghost use Rattle.region_table.specs.declared.tables.Row.{Row};

    ghost Value = { List Row };

    ghost view = { λ r. r.items.items };
}

impl Rows {
    /// The rows of a vector. It takes no memory.
    pub fn of(v: Vec<Row>) -> Self
        ensures { result ≡ v.items }
    {
        Rows { items: v }
    }

    /// The rows, by slot.
    pub fn as_slice(&self) -> &[Row]
        ensures { result.now ≡ self.now }
    {
        self.items.as_slice()
    }
}

/// What the server publishes: how many server turns are closed; the cursor; and a row for each of the slots 0 to 32. Slot
/// 32 is the one that no window ever has.
#[derive(Debug, Drop)]
pub struct Table {
    pub stamp: u64,
    pub cursor: Cursor,
    pub rows: Rows,
}
