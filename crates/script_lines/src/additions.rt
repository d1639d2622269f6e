//! Fonts, glyphs and images behind others.
ghost use Rattle.std.specs.Prelude.{◌≡◌, ◌<◌, ◌≤◌, ◌∷◌, ◌++◌, [], length, OnOk};
ghost use Rattle.script_grammar.specs.Limits.{IsNewGlyph};
ghost use Rattle.script_grammar.specs.Session.{latest, with_glyph};

use crate::glyphs::GlyphRows;
use glyph_masks::{Font, GlyphStop};
use qws_base::OutOfMemory;
use std::alloc::Global;

/// A font of so many rows behind the others.
pub(crate) fn add_font(alloc: Global, fonts: &mut Vec<Font>, height: u32) -> Result<(), OutOfMemory>
    requires some { 1 ≤ height }
    requires most { height ≤ 32 }
    ensures { OnOk result (fonts.new.items ≡ fonts.old.items ++ record { height = height; glyphs = [] } ∷ []) }
{
    fonts.push(Font::new(alloc, height))?;
    Ok(())
}

// A glyph for a font, which takes it.
fn add_to(font: &mut Font, glyph: &GlyphRows) -> Result<(), OutOfMemory>
    requires { IsNewGlyph font.old glyph.now }
    ensures { OnOk result (font.new ≡ record font.old { glyphs = font.old.glyphs ++ glyph.now ∷ [] }) }
{
    match font.add(glyph.code(), glyph.width(), glyph.rows()) {
        Ok(()) => Ok(()),
        Err(GlyphStop::OutOfMemory) => Err(OutOfMemory),
        Err(GlyphStop::BadGlyph { .. }) => unreachable!(),
        Err(GlyphStop::Repeated { .. }) => unreachable!(),
    }
}

/// A glyph for the latest font.
pub(crate) fn add_glyph(fonts: &mut Vec<Font>, glyph: &GlyphRows) -> Result<(), OutOfMemory>
    requires some { 0 < length fonts.old.items }
    requires new { IsNewGlyph (latest fonts.old.items) glyph.now }
    ensures { OnOk result (fonts.new.items ≡ with_glyph fonts.old.items glyph.now) }
{
    let last = fonts.len() - 1;
    add_to(&mut fonts[last], glyph)?;
    Ok(())
}
