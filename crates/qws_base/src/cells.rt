//! The cells of a shown cursor, and what a pixel shows under them.
ghost use Rattle.std.specs.Prelude.{◌≡◌, ◌<◌, pos, ◌-ℤ◌, nat_abs, Some, None, IfSome, if◌then◌else◌};
ghost use Rattle.qws_base.specs.Colours.{IsSceneColour};
ghost use Rattle.qws_base.specs.Points.{spans};
ghost use Rattle.qws_base.specs.Shown.{IsShape, cell_on, cell_at, under_cursor};

use crate::colours::{Depth, Rgb};
use crate::inks::{Ink, after_at};
use crate::points::Point;
use crate::windows::Cursor;

/// How far a place is from the start of a side that is `len` long; none exactly where the side doesn't reach it.
pub fn offset_in(start: u32, len: u32, at: i32) -> Option<u32>
    ensures value { result ≡ (if spans (pos start) len at then Some (nat_abs (at -ℤ pos start)) else None) }
    ensures range { IfSome result (λ n. n < len) }
{
    let offset = i64::from(at) - i64::from(start);
    if 0 <= offset && offset < i64::from(len) {
        Some(offset as u32)
    } else {
        None
    }
}

impl Cursor {
    /// The column and the row of the cell that lies on a point of the screen; none exactly where the cursor is hidden or its
    /// shape doesn't reach the point.
    pub fn cell_on(&self, p: Point) -> Option<(u32, u32)>
        ensures value { result ≡ cell_on self.now p }
        ensures range { IfSome result (λ at. (at.0 < self.now.w) × (at.1 < self.now.h)) }
    {
        if !self.shown {
            return None;
        }
        let column = offset_in(self.x, self.w, p.x)?;
        let row = offset_in(self.y, self.h, p.y)?;
        Some((column, row))
    }

    /// The cell in a column and a row of the shape: `alpha * 2^24 + colour`.
    pub fn cell(&self, column: u32, row: u32) -> u32
        requires shape { IsShape self.now }
        requires column { column < self.now.w }
        requires row { row < self.now.h }
        ensures { result ≡ cell_at self.now (column, row) }
    {
        let cells = self.cells.as_slice();
        cells[(row * self.w + column) as usize]
    }

    /// What a scene colour at a point of the screen shows with the cursor above it: the blend of the cell that lies there,
    /// and the scene colour itself where none does. Both are scene colours of the depth.
    pub fn above(&self, depth: Depth, p: Point, v: Rgb) -> Rgb
        requires shape { IsShape self.now }
        requires colour { IsSceneColour depth v }
        ensures value { result ≡ under_cursor depth self.now p v }
        ensures range { IsSceneColour depth result }
    {
        match self.cell_on(p) {
            Some((column, row)) => after_at(depth, Ink::of_cell(self.cell(column, row)), v),
            None => v,
        }
    }
}
