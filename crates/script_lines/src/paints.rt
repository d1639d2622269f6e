//! The lines of paints, behind the client and the kind.
ghost use Rattle.std.specs.Prelude.{◌≡◌, map, IfOk};
ghost use Rattle.script_grammar.specs.Limits.{has_all};
ghost use Rattle.script_grammar.specs.Judging.{each_of};
ghost use Rattle.script_grammar.specs.Words.{short_read, ranged, in_count, points_read};
ghost use Rattle.script_grammar.specs.Lines.{fill_read, tile_read, blit_read, stroke_read, polyline_read, polygon_read, written_read, text_read};

use crate::Judged;
use glyph_masks::Font;
use qws_base::Words;
use script_grammar::{Cause, LineCall, Points};
use script_words::{
    colour, declared, ink, ink_words, join, join3, join4, placed_point, placed_rect, points,
    ranged, shorts, window,
};
use std::alloc::Global;

/// `fill WIN X Y W H INK`
#[tactic(auto, unfolding(script_grammar::specs::Lines::fill_read))]
pub(crate) fn fill(alloc: Global, words: &[&[u8]]) -> Judged<LineCall>
    ensures { IfOk result (λ read. read ≡ fill_read (map (λ w. w.now) words.now)) }
{
    let [window_word, x, y, w, h, kind @ ..] = words else {
        return Ok(Err(Cause::Form));
    };
    let window = window(alloc, window_word)?;
    match join3(window, placed_rect(x, y, w, h), ink(kind)) {
        Ok((window, rect, ink)) => Ok(Ok(LineCall::Fill { window, rect, ink })),
        Err(cause) => Ok(Err(cause)),
    }
}

/// `tile WIN X Y W H IMAGE`
#[tactic(auto, unfolding(script_grammar::specs::Lines::tile_read))]
pub(crate) fn tile(alloc: Global, images: usize, words: &[&[u8]]) -> Judged<LineCall>
    ensures { IfOk result (λ read. read ≡ tile_read images (map (λ w. w.now) words.now)) }
{
    let [window_word, x, y, w, h, image] = words else {
        return Ok(Err(Cause::Form));
    };
    let window = window(alloc, window_word)?;
    match join3(window, placed_rect(x, y, w, h), declared(images, image)) {
        Ok((window, rect, image)) => Ok(Ok(LineCall::Tile {
            window,
            rect,
            image,
        })),
        Err(cause) => Ok(Err(cause)),
    }
}

/// `blit WIN X Y IMAGE ALPHA`
#[tactic(auto, unfolding(script_grammar::specs::Lines::blit_read))]
pub(crate) fn blit(alloc: Global, images: usize, words: &[&[u8]]) -> Judged<LineCall>
    ensures { IfOk result (λ read. read ≡ blit_read images (map (λ w. w.now) words.now)) }
{
    let [window_word, x, y, image, alpha] = words else {
        return Ok(Err(Cause::Form));
    };
    let window = window(alloc, window_word)?;
    let at = placed_point(x, y);
    match join4(window, at, declared(images, image), opacity(alpha)) {
        Ok((window, at, image, alpha)) => Ok(Ok(LineCall::Blit {
            window,
            at,
            image,
            alpha,
        })),
        Err(cause) => Ok(Err(cause)),
    }
}

// ALPHA, as a byte.
fn opacity(word: &[u8]) -> Result<u8, Cause>
    ensures { result ≡ ranged 0 255 word.now }
{
    let alpha = ranged(0, 255, word)?;
    Ok(alpha as u8)
}

/// `line WIN X0 Y0 X1 Y1 COLOUR`
#[tactic(auto, unfolding(script_grammar::specs::Lines::stroke_read))]
pub(crate) fn stroke(alloc: Global, words: &[&[u8]]) -> Judged<LineCall>
    ensures { IfOk result (λ read. read ≡ stroke_read (map (λ w. w.now) words.now)) }
{
    let [window_word, x0, y0, x1, y1, colour_word] = words else {
        return Ok(Err(Cause::Form));
    };
    let window = window(alloc, window_word)?;
    let from = placed_point(x0, y0);
    let to = placed_point(x1, y1);
    match join4(window, from, to, colour(colour_word)) {
        Ok((window, from, to, colour)) => Ok(Ok(LineCall::Line {
            window,
            from,
            to,
            colour,
        })),
        Err(cause) => Ok(Err(cause)),
    }
}

// So many points, of two words each.
fn counted_points(alloc: Global, least: usize, words: &[&[u8]]) -> Judged<Points>
    ensures { IfOk result (λ read. read ≡ in_count least 128 (map (λ w. w.now) words.now) (points_read (map (λ w. w.now) words.now))) }
{
    if words.len() < least || words.len() > 128 {
        return Ok(Err(Cause::Form));
    }
    points(alloc, words)
}

/// `polyline WIN COLOUR` and 2 to 64 points `X Y`
#[tactic(auto, unfolding(script_grammar::specs::Lines::polyline_read))]
pub(crate) fn polyline(alloc: Global, words: &[&[u8]]) -> Judged<LineCall>
    ensures { IfOk result (λ read. read ≡ polyline_read (map (λ w. w.now) words.now)) }
{
    let [window_word, colour_word, point_words @ ..] = words else {
        return Ok(Err(Cause::Form));
    };
    let window = window(alloc, window_word)?;
    let points = counted_points(alloc, 4, point_words)?;
    match join3(window, colour(colour_word), points) {
        Ok((window, colour, points)) => Ok(Ok(LineCall::Polyline {
            window,
            colour,
            points,
        })),
        Err(cause) => Ok(Err(cause)),
    }
}

/// `polygon WIN INK` and 3 to 64 points `X Y`
#[tactic(auto, unfolding(script_grammar::specs::Lines::polygon_read))]
pub(crate) fn polygon(alloc: Global, words: &[&[u8]]) -> Judged<LineCall>
    ensures { IfOk result (λ read. read ≡ polygon_read (map (λ w. w.now) words.now)) }
{
    let [window_word, kind @ ..] = words else {
        return Ok(Err(Cause::Form));
    };
    let (ink, point_words) = ink_words(kind);
    let window = window(alloc, window_word)?;
    match join3(window, ink, counted_points(alloc, 6, point_words)?) {
        Ok((window, ink, points)) => Ok(Ok(LineCall::Polygon {
            window,
            ink,
            points,
        })),
        Err(cause) => Ok(Err(cause)),
    }
}

// Whether a font has all codes.
fn has_all(font: &Font, codes: &[u32]) -> bool
    ensures { result ≡ has_all font.now codes.now }
{
    codes.iter().all(|code| font.has(*code))
}

// 1 to 256 codes.
fn counted_codes(alloc: Global, words: &[&[u8]]) -> Judged<Words>
    ensures { IfOk result (λ read. read ≡ in_count 1 256 (map (λ w. w.now) words.now) (each_of short_read (map (λ w. w.now) words.now))) }
{
    if words.is_empty() || words.len() > 256 {
        return Ok(Err(Cause::Form));
    }
    shorts(alloc, words)
}

// A font, and codes that it has.
#[tactic(auto, unfolding(script_grammar::specs::Lines::written_read), using(script_words::proofs::Joins::two_err))]
fn written(alloc: Global, fonts: &[Font], font_word: &[u8], words: &[&[u8]]) -> Judged<(u32, Words)>
    ensures { IfOk result (λ read. read ≡ written_read fonts.now font_word.now (map (λ w. w.now) words.now)) }
{
    let font = declared(fonts.len(), font_word);
    match join(font, counted_codes(alloc, words)?) {
        Ok((font, codes)) if has_all(&fonts[font as usize], codes.as_slice()) => {
            Ok(Ok((font, codes)))
        }
        Ok(_) => Ok(Err(Cause::Missing)),
        Err(cause) => Ok(Err(cause)),
    }
}

/// `text WIN FONT X Y INK` and codes
#[tactic(auto, unfolding(script_grammar::specs::Lines::text_read))]
pub(crate) fn text(alloc: Global, fonts: &[Font], words: &[&[u8]]) -> Judged<LineCall>
    ensures { IfOk result (λ read. read ≡ text_read fonts.now (map (λ w. w.now) words.now)) }
{
    let [window_word, font_word, x, y, kind @ ..] = words else {
        return Ok(Err(Cause::Form));
    };
    let (ink, code_words) = ink_words(kind);
    let window = window(alloc, window_word)?;
    let text = written(alloc, fonts, font_word, code_words)?;
    match join4(window, placed_point(x, y), ink, text) {
        Ok((window, at, ink, (font, codes))) => Ok(Ok(LineCall::Text {
            window,
            font,
            at,
            ink,
            codes,
        })),
        Err(cause) => Ok(Err(cause)),
    }
}
