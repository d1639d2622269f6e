//! Fonts: glyphs of one height, found by their codes.
ghost use Rattle.std.specs.Prelude.{◌≡◌, ◌<◌, ◌≤◌, ◌++◌, ◌∷◌, [], ◌↔◌, ◌⊎◌, ◌^◌, false, length, IsTrue, OnOk, OnErr, IfOk, IfErr, is_ok, if◌then◌else◌};
ghost use Rattle.std.specs.List.{All};
ghost use Rattle.glyph_masks.specs.Glyphs.{IsGlyph, has_code, glyph_of};
ghost use Rattle.glyph_masks.specs.Texts.{first_missing, spelled};

use indexmap::IndexMap;
use std::alloc::{AllocError, Global};
use std::marker::Model;

/// Why a glyph was not added.
#[derive(Clone, Copy, Debug, PartialEq, Eq)]
pub enum GlyphStop {
    /// The width is not in 1 to 32, the number of rows is not the font's height, or a row has a bit beyond the width.
    BadGlyph { code: u32 },
    /// The font has the code.
    Repeated { code: u32 },
    OutOfMemory,
}

/// A mask of bits by rows from the top. The leftmost column is the bit `width - 1`.
#[derive(Debug, Drop)]
pub(crate) struct Glyph<'a> {
    code: u32,
    width: u32,
    rows: &'a [u32],
}

impl<'a> Model for Glyph<'a> {
    ghost use Rattle.glyph_masks.specs.Glyphs.{GlyphView, IsGlyph};
    ghost use Rattle.std.specs.Prelude.{length};

    ghost Value = { GlyphView };

    ghost view = { λ g. record { code = g.code; width = g.width; rows = g.rows.now } };

    ghost invariant = { λ g. IsGlyph (length g.rows.now) g.width g.rows.now };
}

impl<'a> Glyph<'a> {
    /// The number of columns.
    pub(crate) fn width(&self) -> u32
        ensures value { result ≡ self.now.width }
        ensures is_glyph { IsGlyph (length self.now.rows) self.now.width self.now.rows }
    {
        self.width
    }

    /// The bits of the rows.
    pub(crate) fn rows(&self) -> &[u32]
        ensures value { result.now ≡ self.now.rows }
        ensures is_glyph { IsGlyph (length self.now.rows) self.now.width self.now.rows }
    {
        self.rows
    }
}

// Whether a font of a height takes a glyph.
fn is_glyph(height: u32, width: u32, rows: &[u32]) -> bool
    ensures { IsTrue result ↔ IsGlyph height width rows.now }
{
    0 < width
        && width <= 32
        && rows.len() as u64 == u64::from(height)
        && rows.iter().all(|row| u64::from(*row) < 1 << width)
}

// Appends the rows of a glyph. Where room is missing, a quarter more of it is taken, so that little is left unused.
fn append(all: &mut Vec<u32>, rows: &[u32]) -> Result<(), AllocError>
    ensures { all.new.items ≡ (if is_ok result then all.old.items ++ rows.now else all.old.items) }
{
    let len = all.len();
    if all.capacity() - len < rows.len() {
        all.reserve_exact(rows.len().max(len / 4))?;
    }
    all.extend_from_slice(rows)
}

/// Glyphs of one height, each with a code of its own, by which it is found without going through the others. Contracts see
/// the height and the glyphs in the order in which they were added.
#[derive(Debug, Drop)]
pub struct Font {
    height: u32,
    widths: IndexMap<u32, u8>,
    rows: Vec<u32>,
}

impl Model for Font {
    ghost use Rattle.glyph_masks.specs.Glyphs.{FontView};
    ghost use Rattle.glyph_masks.specs.Places.{placed, ArePlaced};

    ghost Value = { FontView };

    ghost view = { λ f. record { height = f.height; glyphs = placed f.height f.widths.entries f.rows.items } };

    ghost invariant = { λ f. ArePlaced f.height f.widths.entries f.rows.items };
}

impl Font {
    /// A font of so many rows, 1 to 32, with no glyphs. Its glyphs take memory from `alloc`.
    pub fn new(alloc: Global, height: u32) -> Font
        requires some_height { 0 < height }
        requires most_height { height ≤ 32 }
        ensures { result ≡ record { height = height; glyphs = [] } }
    {
        Font {
            height,
            widths: IndexMap::new(alloc),
            rows: Vec::new(alloc),
        }
    }

    /// The number of rows of each glyph.
    pub fn height(&self) -> u32
        ensures value { result ≡ self.now.height }
        ensures some_height { 0 < result }
        ensures most_height { result ≤ 32 }
        ensures rows { All (λ g. length g.rows ≡ result) self.now.glyphs }
    {
        self.height
    }

    /// Whether the font has a glyph of that code.
    pub fn has(&self, code: u32) -> bool
        ensures { result ≡ has_code self.now code }
    {
        self.widths.contains_key(&code)
    }

    // The glyph of a code.
    fn glyph(&self, code: u32) -> Option<Glyph<'_>>
        ensures { result ≡ glyph_of self.now code }
    {
        let (index, _, width) = self.widths.get_full(&code)?;
        let height = self.height as usize;
        let start = index * height;
        Some(Glyph {
            code,
            width: u32::from(*width),
            rows: &self.rows[start..start + height],
        })
    }

    /// The first code of which the font has no glyph.
    pub(crate) fn first_missing(&self, codes: &[u32]) -> Option<u32>
        ensures { result ≡ first_missing self.now codes.now }
    {
        codes.iter().copied().find(|code| !self.has(*code))
    }

    /// The glyphs of codes.
    pub(crate) fn spelled(&self, alloc: Global, codes: &[u32]) -> Result<Vec<Glyph<'_>>, AllocError>
        ensures { IfOk result (λ glyphs. glyphs.items ≡ spelled self.now codes.now) }
    {
        let mut glyphs = Vec::new(alloc);
        for code in codes {
            if let Some(glyph) = self.glyph(*code) {
                glyphs.push(glyph)?;
            }
        }
        Ok(glyphs)
    }

    /// Adds a glyph of 1 to 32 columns with a row of bits for each row of the font, from the top. The leftmost column is the
    /// bit `width - 1`. An Ok tells that the glyph is good and its code new.
    pub fn add(&mut self, code: u32, width: u32, rows: &[u32]) -> Result<(), GlyphStop>
        ensures added { OnOk result (self.new ≡ record self.old { glyphs = self.old.glyphs ++ record { code = code; width = width; rows = rows.now } ∷ [] }) }
        ensures unchanged { OnErr result (self.new ≡ self.old) }
        ensures good { OnOk result (IsGlyph self.old.height width rows.now) }
        ensures new_code { OnOk result (has_code self.old code ≡ false) }
        ensures bad_glyph { (result ≡ Err (GlyphStop.BadGlyph code)) ↔ ¬ IsGlyph self.old.height width rows.now }
        ensures repeated { (result ≡ Err (GlyphStop.Repeated code)) ↔ IsGlyph self.old.height width rows.now × IsTrue (has_code self.old code) }
        ensures no_other { IfErr result (λ stop. (stop ≡ GlyphStop.BadGlyph code) ⊎ ((stop ≡ GlyphStop.Repeated code) ⊎ (stop ≡ GlyphStop.OutOfMemory))) }
    {
        if !is_glyph(self.height, width, rows) {
            return Err(GlyphStop::BadGlyph { code });
        }
        if self.has(code) {
            return Err(GlyphStop::Repeated { code });
        }
        let kept = self.rows.len();
        if append(&mut self.rows, rows).is_err() {
            return Err(GlyphStop::OutOfMemory);
        }
        match self.widths.insert(code, width as u8) {
            Ok(_) => Ok(()),
            Err(_) => {
                self.rows.truncate(kept);
                Err(GlyphStop::OutOfMemory)
            }
        }
    }
}
