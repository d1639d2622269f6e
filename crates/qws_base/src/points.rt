//! Points, rectangles and the size of a screen, in pixels.
ghost use Rattle.std.specs.Prelude.{◌≡◌, ◌↔◌, IsTrue, SomeIff};
ghost use Rattle.qws_base.specs.Sides.{IsScreen};
ghost use Rattle.qws_base.specs.Points.{IsOnLargest, IsPlaced};

use std::marker::Model;

/// A point: columns to the right, rows down.
#[derive(Clone, Copy, Debug, PartialEq, Eq)]
pub struct Point {
    pub x: i32,
    pub y: i32,
}

impl Point {
    /// Whether both coordinates are in -4,096 to 4,095, as those of a window's origin are.
    pub fn is_placed(&self) -> bool
        ensures { IsTrue result ↔ IsPlaced self.now }
    {
        -4096 <= self.x && self.x <= 4095 && -4096 <= self.y && self.y <= 4095
    }

    /// Whether it is a pixel of the largest screen, of 640 columns and 480 rows.
    pub fn is_on_largest(&self) -> bool
        ensures { IsTrue result ↔ IsOnLargest self.now }
    {
        0 <= self.x && self.x <= 639 && 0 <= self.y && self.y <= 479
    }
}

/// A rectangle: its top left point, its width and its height. It holds `w * h` points.
#[derive(Clone, Copy, Debug, PartialEq, Eq)]
pub struct Rect {
    pub x: i32,
    pub y: i32,
    pub w: u32,
    pub h: u32,
}

/// The size of a screen: 1 to 640 columns and 1 to 480 rows.
#[derive(Clone, Copy, Debug, PartialEq, Eq)]
pub struct Size {
    w: u32,
    h: u32,
}

impl Model for Size {
    ghost use Rattle.qws_base.specs.Sides.{Sides, IsScreen};

    ghost Value = { Sides };

    ghost view = { λ s. record { w = s.w; h = s.h } };

    ghost invariant = { λ s. IsScreen (record { w = s.w; h = s.h }) };

    ghost inverse = { λ s. record { w = s.w; h = s.h } };
}

impl Size {
    /// The size with that width and height; none exactly where one is out of range.
    pub fn new(w: u32, h: u32) -> Option<Size>
        ensures { SomeIff result (IsScreen (record { w = w; h = h })) (record { w = w; h = h }) }
    {
        if 0 < w && w <= 640 && 0 < h && h <= 480 {
            Some(Size { w, h })
        } else {
            None
        }
    }

    /// The number of columns.
    pub fn w(&self) -> u32
        ensures value { result ≡ self.now.w }
        ensures is_screen { IsScreen self.now }
    {
        self.w
    }

    /// The number of rows.
    pub fn h(&self) -> u32
        ensures value { result ≡ self.now.h }
        ensures is_screen { IsScreen self.now }
    {
        self.h
    }
}
