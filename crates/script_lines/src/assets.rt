//! The line of a font, a glyph or an image behind others.
ghost use Rattle.std.specs.Prelude.{◌≡◌, map, IfOk};
ghost use Rattle.script_grammar.specs.Judging.{◌or_else◌};
ghost use Rattle.script_grammar.specs.Lines.{glyph_read, image_read};
ghost use Rattle.script_lines.specs.Stock.{is_form, stock_read, IsSomeStock, AddedBy};

use crate::additions::{add_font, add_glyph};
use crate::fonts::font_line;
use crate::glyphs::glyph_line;
use crate::images::image_line;
use gfx_fills::Image;
use glyph_masks::Font;
use qws_base::OutOfMemory;
use script_grammar::Cause;
use std::alloc::Global;

fn is_form(cause: Cause) -> bool
    ensures { result ≡ is_form cause }
{
    match cause {
        Cause::Form => true,
        Cause::Number => false,
        Cause::Range => false,
        Cause::Unknown => false,
        Cause::Repeated => false,
        Cause::Missing => false,
        Cause::Many => false,
        Cause::End => false,
    }
}

// A line of an image, where it is neither a font nor a glyph.
fn next_image(
    alloc: Global,
    fonts: &mut Vec<Font>,
    images: &mut Vec<Image>,
    words: &[&[u8]],
) -> Result<Result<(), Cause>, OutOfMemory>
    ensures { IfOk result (λ read. AddedBy (image_read images.old.items (map (λ w. w.now) words.now)) fonts.old.items images.old.items fonts.new.items images.new.items read) }
{
    let _fonts = fonts.len();
    let read = image_line(alloc, images, words)?;
    match read {
        Ok(image) => {
            images.push(image)?;
            Ok(Ok(()))
        }
        Err(cause) => Ok(Err(cause)),
    }
}

// A line of a glyph or an image, where it is no font.
fn next_glyph(
    alloc: Global,
    fonts: &mut Vec<Font>,
    images: &mut Vec<Image>,
    words: &[&[u8]],
) -> Result<Result<(), Cause>, OutOfMemory>
    requires { IsSomeStock fonts.old.items images.old.items }
    ensures { IfOk result (λ read. AddedBy (glyph_read fonts.old.items (map (λ w. w.now) words.now) or_else image_read images.old.items (map (λ w. w.now) words.now)) fonts.old.items images.old.items fonts.new.items images.new.items read) }
{
    let read = glyph_line(alloc, fonts, words)?;
    match read {
        Ok(glyph) => {
            add_glyph(fonts, &glyph)?;
            Ok(Ok(()))
        }
        Err(cause) => {
            if is_form(cause) {
                next_image(alloc, fonts, images, words)
            } else {
                Ok(Err(cause))
            }
        }
    }
}

/// A line of a font, a glyph or an image behind those that made these fonts and images: it adds to them, or its first cause is
/// told and nothing is added.
pub fn next_asset(
    alloc: Global,
    fonts: &mut Vec<Font>,
    images: &mut Vec<Image>,
    words: &[&[u8]],
) -> Result<Result<(), Cause>, OutOfMemory>
    requires { IsSomeStock fonts.old.items images.old.items }
    ensures { IfOk result (λ read. AddedBy (stock_read fonts.old.items images.old.items (map (λ w. w.now) words.now)) fonts.old.items images.old.items fonts.new.items images.new.items read) }
{
    let read = font_line(fonts, words);
    match read {
        Ok(height) => {
            add_font(alloc, fonts, height)?;
            Ok(Ok(()))
        }
        Err(cause) => {
            if is_form(cause) {
                next_glyph(alloc, fonts, images, words)
            } else {
                Ok(Err(cause))
            }
        }
    }
}
