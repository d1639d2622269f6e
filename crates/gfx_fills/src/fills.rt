//! Fills: one ink on a rectangle.
ghost use Rattle.std.specs.Prelude.{◌≡◌};

use picture_rows::{fill_run, part};
use qws_base::{Ink, Picture, Rect};
use std::marker::Model;

/// One ink at the points of a rectangle. Contracts see the rectangle and the ink.
#[derive(Clone, Copy, Debug, PartialEq, Eq)]
pub struct Fill {
    rect: Rect,
    ink: Ink,
}

impl Model for Fill {
    ghost use Rattle.gfx_fills.specs.Fills.{FillView};
    ghost use Rattle.gfx_fills.specs.Parts.{IsPlacedRect};

    ghost Value = { FillView };

    ghost view = { λ f. record { rect = f.rect; ink = f.ink } };

    ghost invariant = { λ f. IsPlacedRect f.rect };

    ghost inverse = { λ v. record { rect = v.rect; ink = v.ink } };
}

impl Fill {
    ghost use Rattle.gfx_fills.specs.Parts.{IsPlacedRect};

    /// The ink at the points of a rectangle of 1 to 4,096 columns and rows, whose corner's coordinates are in -4,096 to
    /// 4,095.
    pub fn new(rect: Rect, ink: Ink) -> Fill
        requires { IsPlacedRect rect }
        ensures { result ≡ record { rect = rect; ink = ink } }
    {
        Fill { rect, ink }
    }

    /// The rectangle.
    pub fn rect(&self) -> Rect
        ensures value { result ≡ self.now.rect }
        ensures placed { IsPlacedRect result }
    {
        self.rect
    }

    /// The ink.
    pub fn ink(&self) -> Ink
        ensures { result ≡ self.now.ink }
    {
        self.ink
    }
}

impl Picture for Fill {
    ghost use Rattle.gfx_fills.specs.Fills.{fill_sheet};

    ghost sheet = { λ f. fill_sheet f.rect f.ink };

    fn reach(&self) -> Rect {
        self.rect
    }

    fn row(&self, y: i32, x: i32, out: &mut [Ink]) {
        let (from, to) = part(self.rect, y, x, out.len());
        fill_run(from, to, &self.ink, out);
    }
}
