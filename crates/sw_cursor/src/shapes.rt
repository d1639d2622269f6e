//! Shapes of a cursor.
ghost use Rattle.std.specs.Prelude.{◌≡◌, ◌*◌, ◌↔◌, ◌⊎◌, IsTrue, length, IfOk, IfErr};
ghost use Rattle.qws_base.specs.Shown.{IsShape};
ghost use Rattle.sw_cursor.specs.Shapes.{AreSides, cursor_of};

use qws_base::{Cursor, Words};
use std::alloc::Global;
use std::marker::Model;

/// Why there is no shape.
#[derive(Clone, Copy, Debug, PartialEq, Eq)]
pub enum ShapeStop {
    /// The width or the height is not in 1 to 32.
    BadSize { w: u32, h: u32 },
    /// The number of cells is not the width times the height.
    BadCells { count: u64 },
    OutOfMemory,
}

/// The shape of a cursor: 1 to 32 columns and rows, with a cell for each place, by rows. A cell is
/// `alpha * 2^24 + colour`, with the alpha from 0 for transparent to 255 for opaque.
#[derive(Debug, Drop)]
pub struct Shape {
    w: u32,
    h: u32,
    cells: Vec<u32>,
}

impl Model for Shape {
    ghost use Rattle.std.specs.Prelude.{◌≡◌, ◌*◌, length};
    ghost use Rattle.sw_cursor.specs.Shapes.{ShapeView, AreSides};

    ghost Value = { ShapeView };

    ghost view = { λ s. record { w = s.w; h = s.h; cells = s.cells.items } };

    ghost invariant = { λ s. AreSides s.w s.h × (length s.cells.items ≡ s.w * s.h) };
}

// Whether a shape can have so many columns and rows.
fn are_sides(w: u32, h: u32) -> bool
    ensures { IsTrue result ↔ AreSides w h }
{
    1 <= w && w <= 32 && 1 <= h && h <= 32
}

impl Shape {
    /// A shape of those cells, which it copies.
    pub fn new(alloc: Global, w: u32, h: u32, cells: &[u32]) -> Result<Shape, ShapeStop>
        ensures made { IfOk result (λ shape. shape ≡ record { w = w; h = h; cells = cells.now }) }
        ensures good { IfOk result (λ _. AreSides w h × (length cells.now ≡ w * h)) }
        ensures bad_size { (result ≡ Err (ShapeStop.BadSize w h)) ↔ ¬ AreSides w h }
        ensures bad_cells { (result ≡ Err (ShapeStop.BadCells (length cells.now))) ↔ (AreSides w h × (length cells.now ≡ w * h → ⊥)) }
        ensures no_other { IfErr result (λ stop. (stop ≡ ShapeStop.BadSize w h) ⊎ (stop ≡ ShapeStop.BadCells (length cells.now)) ⊎ (stop ≡ ShapeStop.OutOfMemory)) }
    {
        if !are_sides(w, h) {
            return Err(ShapeStop::BadSize { w, h });
        }
        let count = cells.len() as u64;
        if count != u64::from(w) * u64::from(h) {
            return Err(ShapeStop::BadCells { count });
        }
        match cells.to_vec(alloc) {
            Ok(cells) => Ok(Shape { w, h, cells }),
            Err(_) => Err(ShapeStop::OutOfMemory),
        }
    }

    /// The cursor of the shape at a place. It takes no memory.
    pub fn cursor(self, x: u32, y: u32, shown: bool) -> Cursor
        ensures cursor { result ≡ cursor_of self x y shown }
        ensures shape { IsShape result }
    {
        let Shape { w, h, cells } = self;
        Cursor {
            x,
            y,
            w,
            h,
            cells: Words::of(cells),
            shown,
        }
    }
}
