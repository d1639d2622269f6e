//! The lines of glyphs.
ghost use Rattle.std.specs.Prelude.{◌≡◌, ◌<◌, ◌^◌, map, true, false, IfOk, MatchOption, if◌then◌else◌};
ghost use Rattle.std.specs.List.{list_all};
ghost use Rattle.script_grammar.specs.Session.{GlyphLine, latest};
ghost use Rattle.script_grammar.specs.Lines.{glyph_read};
ghost use Rattle.script_grammar.specs.Words.{ranged};
ghost use Rattle.script_grammar.specs.declared.lines.Cause.TheVariants.{Number, Range};
ghost use Rattle.script_lines.specs.Parts.{rows_read, glyph_parts, is_glyph_line};
ghost use Rattle.script_words.specs.Judged.{seen, joined};
ghost use Rattle.script_words.specs.Rows.{is_row_text};

use crate::Judged;
use glyph_masks::Font;
use qws_base::Words;
use script_grammar::Cause;
use script_words::{is, is_row_text, join3, number, ranged, rows, short};
use std::alloc::Global;
use std::marker::Model;

/// A glyph as a line says it: its code, its number of columns and the bits of its rows. Contracts see a glyph.
#[derive(Debug, Drop)]
pub(crate) struct GlyphRows {
    code: u32,
    width: u32,
    rows: Words,
}

impl Model for GlyphRows {
    ghost use Rattle.glyph_masks.specs.Glyphs.{GlyphView};

    ghost Value = { GlyphView };

    ghost view = { λ g. record { code = g.code; width = g.width; rows = g.rows } };
}

impl GlyphRows {
    /// The code.
    pub(crate) fn code(&self) -> u32
        ensures { result ≡ self.now.code }
    {
        self.code
    }

    /// The number of columns.
    pub(crate) fn width(&self) -> u32
        ensures { result ≡ self.now.width }
    {
        self.width
    }

    /// The bits of the rows.
    pub(crate) fn rows(&self) -> &[u32]
        ensures { result.now ≡ self.now.rows }
    {
        self.rows.as_slice()
    }
}

// Whether each word has the digits of a row of so many columns.
fn are_row_texts(width: u32, words: &[&[u8]]) -> bool
    requires { width < 10 ^ 5 }
    ensures { result ≡ list_all (λ w. is_row_text width w.now) words.now }
{
    words.iter().all(|word| is_row_text(width, word))
}

// The cause of rows beside a width out of its range.
fn wide_cause(width: u32, words: &[&[u8]]) -> Cause
    requires { width < 10 ^ 5 }
    ensures { result ≡ (if list_all (λ w. is_row_text width w.now) words.now then Range else Number) }
{
    if are_row_texts(width, words) {
        Cause::Range
    } else {
        Cause::Number
    }
}

// The rows of a glyph, to be judged beside its width: of a width out of its range only their digits are judged.
fn glyph_rows(alloc: Global, width: &[u8], words: &[&[u8]]) -> Judged<Words>
    ensures { IfOk result (λ read. joined (ranged 1 32 width.now) read ≡ joined (ranged 1 32 width.now) (rows_read width.now (map (λ w. w.now) words.now))) }
{
    let n = match number(width) {
        Ok(n) => n,
        Err(cause) => return Ok(Err(cause)),
    };
    if n > 32 {
        return Ok(Err(wide_cause(n, words)));
    }
    let read = rows(alloc, n, words)?;
    Ok(read)
}

// The glyph that these words make.
fn glyph(alloc: Global, code: &[u8], width: &[u8], words: &[&[u8]]) -> Judged<GlyphRows>
    ensures { IfOk result (λ read. read ≡ glyph_parts code.now width.now (map (λ w. w.now) words.now)) }
{
    let rows = glyph_rows(alloc, width, words)?;
    match join3(short(code), ranged(1, 32, width), rows) {
        Ok((code, width, rows)) => Ok(Ok(GlyphRows { code, width, rows })),
        Err(cause) => Ok(Err(cause)),
    }
}

// The latest font, where the line may be one of its glyphs, with so many rows.
fn font_of<'a>(fonts: &'a [Font], kind: &[u8], rows: usize) -> Option<&'a Font>
    ensures { MatchOption result (is_glyph_line fonts.now kind.now rows ≡ false) (λ font. (is_glyph_line fonts.now kind.now rows ≡ true) × (font.now ≡ latest fonts.now)) }
{
    if fonts.is_empty() {
        return None;
    }
    let font = &fonts[fonts.len() - 1];
    if is(kind, b"glyph") && rows as u64 == u64::from(font.height()) {
        Some(font)
    } else {
        None
    }
}

/// `glyph CODE WIDTH ROW ROW ..` behind these fonts, a row for each of the latest font's height.
#[tactic(auto, unfolding(script_grammar::specs::Lines::glyph_read))]
pub(crate) fn glyph_line(alloc: Global, fonts: &[Font], words: &[&[u8]]) -> Judged<GlyphRows>
    ensures { IfOk result (λ read. seen GlyphLine read ≡ glyph_read fonts.now (map (λ w. w.now) words.now)) }
{
    let [kind, code, width, row_words @ ..] = words else {
        return Ok(Err(Cause::Form));
    };
    let Some(font) = font_of(fonts, kind, row_words.len()) else {
        return Ok(Err(Cause::Form));
    };
    match glyph(alloc, code, width, row_words)? {
        Err(cause) => Ok(Err(cause)),
        Ok(glyph) => {
            if font.has(glyph.code()) {
                Ok(Err(Cause::Repeated))
            } else {
                Ok(Ok(glyph))
            }
        }
    }
}
