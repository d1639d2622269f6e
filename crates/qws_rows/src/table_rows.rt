//! Words of a table, and their numbers.
ghost use Rattle.std.specs.Prelude.{◌≡◌, IfOk, All, length};
ghost use Rattle.region_table.specs.Tables.{IsSpellableRow, IsSpellable};

use qws_base::{Cursor, OutOfMemory, Point, Rect, Rects, Words};
use region_table::{Row, Rows, Table, cell_at, pack, pixel_at, row_at, saved_at, unpack, word_of};
use std::alloc::Global;
use std::test::Fail;

// A row with one rectangle for slot 0, and a row of a slot without a window for each other.
fn row(alloc: Global, slot: u32) -> Result<Row, OutOfMemory>
    ensures { IfOk result (λ row. IsSpellableRow row) }
{
    let mut rects = Vec::new(alloc);
    if slot == 0 {
        rects.push(Rect {
            x: 1,
            y: 2,
            w: 3,
            h: 4,
        })?;
        return Ok(Row {
            owner: Some(1),
            revision: 5,
            origin: Point { x: -2, y: 3 },
            rects: Rects::of(rects),
        });
    }
    Ok(Row {
        owner: None,
        revision: 1,
        origin: Point { x: 0, y: 0 },
        rects: Rects::of(rects),
    })
}

fn rows(alloc: Global) -> Result<Rows, OutOfMemory>
    ensures whole { IfOk result (λ rows. length rows ≡ 33) }
    ensures rows { IfOk result (λ rows. All IsSpellableRow rows) }
{
    let mut rows = Vec::new(alloc);
    for slot in 0..33 {
        rows.push(row(alloc, slot)?)?;
    }
    Ok(Rows::of(rows))
}

fn table(alloc: Global) -> Result<Table, OutOfMemory>
    ensures { IfOk result (λ table. IsSpellable table) }
{
    let mut cells = Vec::new(alloc);
    cells.push(0xff00_aabb)?;
    cells.push(0x8011_2233)?;
    let cursor = Cursor {
        x: 3,
        y: 2,
        w: 2,
        h: 1,
        cells: Words::of(cells),
        shown: true,
    };
    Ok(Table {
        stamp: 7,
        cursor,
        rows: rows(alloc)?,
    })
}

#[test]
fn packs_a_rectangle(rt: HostRuntime) {
    let rect = Rect {
        x: 1,
        y: 2,
        w: 3,
        h: 4,
    };
    assert!(rt; pack(rect) == 0x0004_0003_0002_0001);
    assert!(rt; unpack(0x0004_0003_0002_0001) == rect);
}

#[test]
fn numbers_the_words(rt: HostRuntime) {
    assert!(rt; row_at(0) == 2052);
    assert!(rt; row_at(32) == 10372);
    assert!(rt; pixel_at(5) == 10637);
    assert!(rt; cell_at(1, 2) == 69);
    assert!(rt; saved_at(1, 2) == 1093);
}

#[test]
fn spells_a_table(rt: HostRuntime) -> Result<(), Fail> {
    let table = table(rt.alloc())?;
    let head = [
        word_of(&table, 1),
        word_of(&table, 2),
        word_of(&table, 3),
        word_of(&table, 4),
        word_of(&table, 5),
        word_of(&table, 6),
        word_of(&table, 36),
    ];
    assert!(rt; head == [7, 0x1_0002_0003, 0x1_0002, 0xff00_aabb, 0x8011_2233, 0, 0]);
    let first = [
        word_of(&table, 2052),
        word_of(&table, 2053),
        word_of(&table, 2054),
        word_of(&table, 2055),
        word_of(&table, 2056),
        word_of(&table, 2057),
    ];
    assert!(rt; first == [2, 5, 0x8003_7ffe, 1, 0x0004_0003_0002_0001, 0]);
    let last = [
        word_of(&table, 10372),
        word_of(&table, 10373),
        word_of(&table, 10374),
        word_of(&table, 10375),
    ];
    assert!(rt; last == [0, 1, 0x8000_8000, 0]);
    Ok(())
}
