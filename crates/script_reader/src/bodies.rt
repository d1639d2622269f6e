//! The lines behind the head.
ghost use Rattle.std.specs.Prelude.{◌≡◌, ◌≤◌, length, map, IfOk};
ghost use Rattle.script_grammar.specs.Session.{is_paint};
ghost use Rattle.script_lines.specs.Stock.{IsSomeStock};
ghost use Rattle.script_reader.specs.Bodies.{IsSameBody, is_end_line, JudgesLine, call_by_words, unended_by_words, line_by_words, line_by_text};

use crate::heads::Head;
use crate::places::LinePlace;
use crate::words::line_words;
use gfx_fills::Image;
use glyph_masks::Font;
use qws_base::OutOfMemory;
use script_grammar::{Cause, LineCall};
use script_lines::{Counts, next_asset, next_call};
use std::alloc::Global;

/// What was found behind the head: the fonts and images, how many calls each client has, and the places of all calls.
#[derive(Debug, Drop)]
pub struct Body {
    pub fonts: Vec<Font>,
    pub images: Vec<Image>,
    pub counts: Counts,
    pub places: Vec<LinePlace>,
}

// Whether a call paints.
fn paints(call: &LineCall) -> bool
    ensures { result ≡ is_paint call.now }
{
    matches!(
        call,
        LineCall::Fill { .. }
            | LineCall::Tile { .. }
            | LineCall::Blit { .. }
            | LineCall::Line { .. }
            | LineCall::Polyline { .. }
            | LineCall::Polygon { .. }
            | LineCall::Text { .. }
    )
}

// The line of a call with these words, behind what is kept and so many bytes: it is counted and its place is kept, or its first
// cause is told.
fn body_call(
    alloc: Global,
    head: &Head,
    body: &mut Body,
    start: usize,
    words: &[&[u8]],
) -> Result<Result<bool, Cause>, OutOfMemory>
    requires { head.now.clients ≤ 16 }
    ensures { IfOk result (λ read. JudgesLine (call_by_words (map (λ w. w.now) words.now)) head.now start body.old body.new read) }
{
    let images = body.images.len();
    let read = next_call(
        alloc,
        head.clients,
        &body.fonts,
        images,
        &mut body.counts,
        words,
    )?;
    match read {
        Err(cause) => Ok(Err(cause)),
        Ok(line) => {
            let paints = paints(&line.call);
            let client = line.client;
            drop(line);
            body.places.push(LinePlace {
                start,
                client,
                paints,
            })?;
            Ok(Ok(false))
        }
    }
}

/// Room for the calls that may follow the first one in so many bytes, each of at least seven. It is taken at once, so that no
/// more is taken than they need.
pub(crate) fn make_room(body: &mut Body, left: usize) -> Result<(), OutOfMemory>
    ensures { IsSameBody body.old body.new }
{
    if body.places.len() == 1 {
        body.places.reserve_exact(left / 7)?;
    }
    Ok(())
}

// Whether the line is `end`.
fn is_end(words: &[&[u8]]) -> bool
    ensures { result ≡ is_end_line (map (λ w. w.now) words.now) }
{
    match words {
        [word] => *word == b"end".as_slice(),
        _ => false,
    }
}

// A line with these words before any call, behind what is kept and so many bytes, where it isn't the line `end`: it adds a font,
// a glyph or an image; or it is a call.
fn first_words(
    alloc: Global,
    head: &Head,
    body: &mut Body,
    start: usize,
    words: &[&[u8]],
) -> Result<Result<bool, Cause>, OutOfMemory>
    requires clients { head.now.clients ≤ 16 }
    requires stock { IsSomeStock body.old.fonts.items body.old.images.items }
    requires no_calls { length body.old.places.items ≡ 0 }
    ensures { IfOk result (λ read. JudgesLine (unended_by_words (map (λ w. w.now) words.now)) head.now start body.old body.new read) }
{
    let read = next_asset(alloc, &mut body.fonts, &mut body.images, words)?;
    match read {
        Ok(()) => Ok(Ok(false)),
        Err(cause) => match cause {
            Cause::Form => body_call(alloc, head, body, start, words),
            _ => Ok(Err(cause)),
        },
    }
}

// A line with these words, behind what is kept and so many bytes: whether it is the line `end`, and then nothing more is kept;
// or its first cause.
fn body_words(
    alloc: Global,
    head: &Head,
    body: &mut Body,
    start: usize,
    words: &[&[u8]],
) -> Result<Result<bool, Cause>, OutOfMemory>
    requires clients { head.now.clients ≤ 16 }
    requires stock { IsSomeStock body.old.fonts.items body.old.images.items }
    ensures { IfOk result (λ read. JudgesLine (line_by_words (map (λ w. w.now) words.now)) head.now start body.old body.new read) }
{
    if is_end(words) {
        return Ok(Ok(true));
    }
    if body.places.is_empty() {
        return first_words(alloc, head, body, start, words);
    }
    body_call(alloc, head, body, start, words)
}

/// A line behind what is kept and so many bytes: whether it is the line `end`, and then nothing more is kept; or its first cause.
pub(crate) fn body_text(
    alloc: Global,
    head: &Head,
    body: &mut Body,
    start: usize,
    text: &[u8],
) -> Result<Result<bool, Cause>, OutOfMemory>
    requires clients { head.now.clients ≤ 16 }
    requires stock { IsSomeStock body.old.fonts.items body.old.images.items }
    ensures { IfOk result (λ read. JudgesLine (line_by_text text.now) head.now start body.old body.new read) }
{
    let _places = body.places.len();
    match line_words(alloc, text)? {
        None => Ok(Err(Cause::Form)),
        Some(words) => body_words(alloc, head, body, start, &words),
    }
}
