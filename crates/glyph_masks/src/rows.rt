//! Rows of glyphs as inks.
ghost use Rattle.std.specs.Prelude.{◌≡◌, ◌+◌, ◌<◌, ◌≤◌, length};
ghost use Rattle.std.specs.List.{All};
ghost use Rattle.glyph_masks.specs.Texts.{column_bit};
ghost use Rattle.glyph_masks.specs.Columns.{bit_ink, glyph_inks, text_inks};

use crate::fonts::Glyph;
use picture_rows::lay;
use qws_base::Ink;

// The ink of a column of a row of bits.
fn bit_ink(ink: &Ink, width: u32, row: u32, column: u32) -> Ink
    requires within { column < width }
    requires most { width ≤ 32 }
    ensures { result ≡ bit_ink ink.now (column_bit width row column) }
{
    if (row >> (width - 1 - column)) % 2 == 1 {
        *ink
    } else {
        Ink::Skip
    }
}

// The inks of columns of a row of bits, from one of them on.
fn glyph_inks(ink: &Ink, width: u32, row: u32, first: u32, out: &mut [Ink])
    requires within { first + length out.old ≤ width }
    requires most { width ≤ 32 }
    ensures { out.new ≡ glyph_inks ink.now width row first (length out.old) }
{
    for j in 0..out.len() {
        out[j] = bit_ink(ink, width, row, first + j as u32);
    }
}

/// The inks of columns of a row of glyphs side by side, from one of them on.
pub(crate) fn text_inks(ink: &Ink, glyphs: &[Glyph<'_>], row: usize, first: usize, out: &mut [Ink])
    requires { All (λ g. row < length g.rows) glyphs.now }
    ensures { out.new ≡ text_inks ink.now glyphs.now row first (length out.old) }
{
    let mut at = 0;
    let mut column = first;
    for glyph in glyphs {
        if at == out.len() {
            return;
        }
        let width = glyph.width();
        if column >= width as usize {
            column -= width as usize;
        } else {
            let end = out.len().min(at + (width as usize - column));
            glyph_inks(
                ink,
                width,
                glyph.rows()[row],
                column as u32,
                &mut out[at..end],
            );
            at = end;
            column = 0;
        }
    }
    let end = out.len();
    lay(at, end, &Ink::Skip, out);
}
