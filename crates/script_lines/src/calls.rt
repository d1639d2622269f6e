//! A line of a call: its client, its kind and the words behind these.
ghost use Rattle.std.specs.Prelude.{◌≡◌, map, IfOk};
ghost use Rattle.script_grammar.specs.Lines.{call_by};
ghost use Rattle.script_lines.specs.Kinds.{all_forms, cursor_forms, channel_forms, paint_forms, call_line_read};

use crate::Judged;
use crate::commands::{
    create, cursor, destroy, joining, known, leave, lower, raise, region, relocation, send, shape,
    show, take,
};
use crate::paints::{blit, fill, polygon, polyline, stroke, text, tile};
use glyph_masks::Font;
use script_grammar::{CallLine, Cause, LineCall};
use script_words::{declared, is, join};
use std::alloc::Global;

// The call of a kind of paint.
fn paint(
    alloc: Global,
    fonts: &[Font],
    images: usize,
    kind: &[u8],
    words: &[&[u8]],
) -> Judged<LineCall>
    ensures { IfOk result (λ read. read ≡ call_by (paint_forms fonts.now images) kind.now (map (λ w. w.now) words.now)) }
{
    if is(kind, b"fill") {
        fill(alloc, words)
    } else if is(kind, b"tile") {
        tile(alloc, images, words)
    } else if is(kind, b"blit") {
        blit(alloc, images, words)
    } else if is(kind, b"line") {
        stroke(alloc, words)
    } else if is(kind, b"polyline") {
        polyline(alloc, words)
    } else if is(kind, b"polygon") {
        polygon(alloc, words)
    } else if is(kind, b"text") {
        text(alloc, fonts, words)
    } else {
        Ok(Err(Cause::Form))
    }
}

// The call of a kind that is about channels, or a paint.
fn channel_call(
    alloc: Global,
    fonts: &[Font],
    images: usize,
    kind: &[u8],
    words: &[&[u8]],
) -> Judged<LineCall>
    ensures { IfOk result (λ read. read ≡ call_by (channel_forms fonts.now images) kind.now (map (λ w. w.now) words.now)) }
{
    if is(kind, b"join") {
        joining(alloc, words)
    } else if is(kind, b"leave") {
        leave(alloc, words)
    } else if is(kind, b"send") {
        send(alloc, words)
    } else if is(kind, b"take") {
        Ok(take(words))
    } else if is(kind, b"known") {
        known(alloc, words)
    } else {
        paint(alloc, fonts, images, kind, words)
    }
}

// The call of a kind that is about the cursor or channels, or a paint.
fn cursor_call(
    alloc: Global,
    fonts: &[Font],
    images: usize,
    kind: &[u8],
    words: &[&[u8]],
) -> Judged<LineCall>
    ensures { IfOk result (λ read. read ≡ call_by (cursor_forms fonts.now images) kind.now (map (λ w. w.now) words.now)) }
{
    if is(kind, b"shape") {
        shape(alloc, words)
    } else if is(kind, b"cursor") {
        Ok(cursor(words))
    } else if is(kind, b"show") {
        Ok(show(words))
    } else {
        channel_call(alloc, fonts, images, kind, words)
    }
}

// The call of a kind.
fn call(
    alloc: Global,
    fonts: &[Font],
    images: usize,
    kind: &[u8],
    words: &[&[u8]],
) -> Judged<LineCall>
    ensures { IfOk result (λ read. read ≡ call_by (all_forms fonts.now images) kind.now (map (λ w. w.now) words.now)) }
{
    if is(kind, b"create") {
        create(alloc, words)
    } else if is(kind, b"destroy") {
        destroy(alloc, words)
    } else if is(kind, b"region") {
        region(alloc, words)
    } else if is(kind, b"move") {
        relocation(alloc, words)
    } else if is(kind, b"raise") {
        raise(alloc, words)
    } else if is(kind, b"lower") {
        lower(alloc, words)
    } else {
        cursor_call(alloc, fonts, images, kind, words)
    }
}

/// The line of a call that words make with so many clients, these fonts and so many images; how many calls the client has made
/// isn't looked at.
pub fn call_line(
    alloc: Global,
    clients: u32,
    fonts: &[Font],
    images: usize,
    words: &[&[u8]],
) -> Judged<CallLine>
    ensures { IfOk result (λ read. read ≡ call_line_read clients fonts.now images (map (λ w. w.now) words.now)) }
{
    let [client_word, kind, rest @ ..] = words else {
        return Ok(Err(Cause::Form));
    };
    let client = declared(clients as usize, client_word);
    match join(client, call(alloc, fonts, images, kind, rest)?) {
        Ok((client, call)) => Ok(Ok(CallLine { client, call })),
        Err(cause) => Ok(Err(cause)),
    }
}
