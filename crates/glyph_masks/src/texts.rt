//! Texts: glyphs of a font side by side.
ghost use Rattle.std.specs.Prelude.{◌≡◌, ◌≤◌, ◌↔◌, ℕ, Some, length, IsTrue, IfOk};
ghost use Rattle.qws_base.specs.Points.{IsPlaced, holds};
ghost use Rattle.glyph_masks.specs.Texts.{first_missing, spelled, width_of, IsInOneCell, any_set, cells, text_rect};

use crate::fonts::{Font, Glyph};
use crate::rows::text_inks;
use picture_rows::{part, places_after, skip_around};
use qws_base::{Ink, Picture, Point, Rect};
use std::alloc::Global;
use std::marker::Model;

/// Why there is no text.
#[derive(Clone, Copy, Debug, PartialEq, Eq)]
pub enum RunStop {
    /// The first code of which the font has no glyph.
    NoGlyph { code: u32 },
    OutOfMemory,
}

// How many columns glyphs take.
fn width_of(glyphs: &[Glyph<'_>]) -> u32
    requires { length glyphs.now ≤ 256 }
    ensures { result ≡ width_of glyphs.now }
{
    let mut width = 0;
    for glyph in glyphs {
        width += glyph.width();
    }
    width
}

/// Glyphs of a font side by side, each bit that is set with one ink. Contracts see the top left point, the ink, the height of
/// the font and the glyphs from the left.
#[derive(Debug, Drop)]
pub struct TextRun<'a> {
    at: Point,
    ink: Ink,
    height: u32,
    width: u32,
    glyphs: Vec<Glyph<'a>>,
}

impl<'a> Model for TextRun<'a> {
    ghost use Rattle.glyph_masks.specs.Texts.{TextView, IsText};

    ghost Value = { TextView };

    ghost view = { λ t. record { at = t.at; ink = t.ink; height = t.height; glyphs = t.glyphs.items } };

    ghost invariant = { λ t. IsText t.at t.height t.width (t.glyphs.items) };
}

impl<'a> TextRun<'a> {
    /// The text of some codes in an ink, with its top left corner at a point whose coordinates are in -4,096 to 4,095. It has
    /// at most 256 codes, and may have none.
    pub fn new(
        alloc: Global,
        font: &'a Font,
        at: Point,
        codes: &[u32],
        ink: Ink,
    ) -> Result<TextRun<'a>, RunStop>
        requires placed { IsPlaced at }
        requires few { length codes.now ≤ 256 }
        ensures made { IfOk result (λ run. run ≡ record { at = at; ink = ink; height = font.now.height; glyphs = spelled font.now codes.now }) }
        ensures no_glyph { (code : ℕ) → (result ≡ Err (RunStop.NoGlyph code)) ↔ (first_missing font.now codes.now ≡ Some code) }
    {
        if let Some(code) = font.first_missing(codes) {
            return Err(RunStop::NoGlyph { code });
        }
        let Ok(glyphs) = font.spelled(alloc, codes) else {
            return Err(RunStop::OutOfMemory);
        };
        Ok(TextRun {
            at,
            ink,
            height: font.height(),
            width: width_of(&glyphs),
            glyphs,
        })
    }
}

impl<'a> TextRun<'a> {
    ghost use Rattle.qws_base.specs.Sheets.{row_of};
    ghost use Rattle.picture_rows.specs.Runs.{IsInside};
    ghost use Rattle.glyph_masks.specs.Texts.{text_rect, text_sheet};

    // The rectangle of its cells.
    fn rect(&self) -> Rect
        ensures { result ≡ text_rect self.now }
    {
        Rect {
            x: self.at.x,
            y: self.at.y,
            w: self.width,
            h: self.height,
        }
    }

    // The inks of points of a row that are in the rectangle.
    fn text_inside(&self, y: i32, x: i32, out: &mut [Ink])
        requires { IsInside (text_rect self.now) y x (length out.old) }
        ensures { out.new ≡ row_of (text_sheet self.now) y x (length out.old) }
    {
        if out.is_empty() {
            return;
        }
        let row = places_after(self.at.y, self.height, y);
        let column = places_after(self.at.x, self.width, x);
        text_inks(&self.ink, &self.glyphs, row as usize, column as usize, out);
    }
}

impl<'a> Picture for TextRun<'a> {
    ghost use Rattle.glyph_masks.specs.Texts.{text_sheet};

    ghost sheet = { text_sheet };

    fn reach(&self) -> Rect {
        self.rect()
    }

    fn row(&self, y: i32, x: i32, out: &mut [Ink]) {
        let (from, to) = part(self.rect(), y, x, out.len());
        skip_around(from, to, out);
        self.text_inside(y, x + from as i32, &mut out[from..to]);
    }
}

/// No two cells of a text share a point.
pub fn no_shared_points(text: &TextRun<'_>, p: Point)
    ensures { IsInOneCell text.now p }
{
    let _ = text;
    let _ = p;
}

/// Each point whose bit is set lies in the rectangle of the text's cells.
pub fn bits_within(text: &TextRun<'_>, p: Point)
    ensures { IsTrue (any_set (cells text.now) p) → IsTrue (holds (text_rect text.now) p) }
{
    let _ = text;
    let _ = p;
}
