//! Windows and the cursor, as plain data.
ghost use Rattle.std.specs.Prelude.{◌≡◌, ◌↔◌, IsTrue, IfOk};
ghost use Rattle.qws_base.specs.Shown.{IsShape};
ghost use Rattle.qws_base.specs.States.{opening_cursor};

use crate::lists::{OutOfMemory, Rects, Words};
use crate::points::Point;
use std::alloc::Global;

/// A window: its slot, 0 to 31; its owner, a client number; its layer, 0 or 1; the place of its origin on the screen; and
/// the rectangles that it asks for, local to its origin.
#[derive(Debug, PartialEq, Eq, Drop)]
pub struct WindowView {
    pub slot: u32,
    pub owner: u32,
    pub layer: u32,
    pub origin: Point,
    pub rects: Rects,
}

/// The cursor: the place of its top left cell on the screen; the width and height of its shape, both 0 without one; its
/// cells by rows, each `alpha * 2^24 + colour`; and whether it is shown.
#[derive(Debug, PartialEq, Eq, Drop)]
pub struct Cursor {
    pub x: u32,
    pub y: u32,
    pub w: u32,
    pub h: u32,
    pub cells: Words,
    pub shown: bool,
}

impl WindowView {
    /// An equal window.
    pub fn copy(&self, alloc: Global) -> Result<Self, OutOfMemory>
        ensures { IfOk result (λ copy. copy ≡ self.now) }
    {
        Ok(WindowView {
            slot: self.slot,
            owner: self.owner,
            layer: self.layer,
            origin: self.origin,
            rects: self.rects.copy(alloc)?,
        })
    }
}

impl Cursor {
    /// The cursor of a new screen: hidden, at (0, 0), without cells. It takes no memory.
    pub fn hidden(alloc: Global) -> Self
        ensures { result ≡ opening_cursor }
    {
        Cursor {
            x: 0,
            y: 0,
            w: 0,
            h: 0,
            cells: Words::of(Vec::new(alloc)),
            shown: false,
        }
    }

    /// Whether its sides are both in 1 to 32, or both 0, and it has a cell for each place.
    pub fn is_shape(&self) -> bool
        ensures { IsTrue result ↔ IsShape self.now }
    {
        let has_sides = 1 <= self.w && self.w <= 32 && 1 <= self.h && self.h <= 32;
        let has_none = self.w == 0 && self.h == 0;
        (has_sides || has_none) && self.cells.as_slice().len() == (self.w * self.h) as usize
    }

    /// An equal cursor.
    pub fn copy(&self, alloc: Global) -> Result<Self, OutOfMemory>
        ensures { IfOk result (λ copy. copy ≡ self.now) }
    {
        Ok(Cursor {
            x: self.x,
            y: self.y,
            w: self.w,
            h: self.h,
            cells: self.cells.copy(alloc)?,
            shown: self.shown,
        })
    }
}
