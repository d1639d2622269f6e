//! Lists of words: points, rectangles, codes and rows.
ghost use Rattle.std.specs.Prelude.{◌≡◌, ◌≤◌, map, IfOk};
ghost use Rattle.script_grammar.specs.Judging.{each_of};
ghost use Rattle.script_grammar.specs.Words.{short_read, row_read, rects_read, points_read};

use crate::causes::push;
use crate::groups::{placed_point, signed_rect};
use crate::hex::row;
use crate::numbers::short;
use qws_base::{OutOfMemory, Rects, Words};
use script_grammar::{Cause, Points};
use std::alloc::Global;

/// Groups `X Y W H` of a command.
pub fn rects(alloc: Global, words: &[&[u8]]) -> Result<Result<Rects, Cause>, OutOfMemory>
    ensures { IfOk result (λ read. read ≡ rects_read (map (λ w. w.now) words.now)) }
{
    let mut all = Ok(Vec::new(alloc));
    let mut rest = words;
    while let [x, y, w, h, after @ ..] = rest {
        all = push(all, signed_rect(x, y, w, h))?;
        rest = after;
    }
    if !rest.is_empty() {
        return Ok(Err(Cause::Form));
    }
    match all {
        Ok(all) => Ok(Ok(Rects::of(all))),
        Err(cause) => Ok(Err(cause)),
    }
}

/// Points `X Y` of a paint.
pub fn points(alloc: Global, words: &[&[u8]]) -> Result<Result<Points, Cause>, OutOfMemory>
    ensures { IfOk result (λ read. read ≡ points_read (map (λ w. w.now) words.now)) }
{
    let mut all = Ok(Vec::new(alloc));
    let mut rest = words;
    while let [x, y, after @ ..] = rest {
        all = push(all, placed_point(x, y))?;
        rest = after;
    }
    if !rest.is_empty() {
        return Ok(Err(Cause::Form));
    }
    match all {
        Ok(all) => Ok(Ok(Points::of(all))),
        Err(cause) => Ok(Err(cause)),
    }
}

/// Numbers, as the codes of a text.
pub fn shorts(alloc: Global, words: &[&[u8]]) -> Result<Result<Words, Cause>, OutOfMemory>
    ensures { IfOk result (λ read. read ≡ each_of short_read (map (λ w. w.now) words.now)) }
{
    let mut all = Ok(Vec::new(alloc));
    let mut rest = words;
    while let [word, after @ ..] = rest {
        all = push(all, short(word))?;
        rest = after;
    }
    match all {
        Ok(all) => Ok(Ok(Words::of(all))),
        Err(cause) => Ok(Err(cause)),
    }
}

/// The rows of a glyph of so many columns.
pub fn rows(alloc: Global, width: u32, words: &[&[u8]]) -> Result<Result<Words, Cause>, OutOfMemory>
    requires { width ≤ 32 }
    ensures { IfOk result (λ read. read ≡ each_of (row_read width) (map (λ w. w.now) words.now)) }
{
    let mut all = Ok(Vec::new(alloc));
    let mut rest = words;
    while let [word, after @ ..] = rest {
        all = push(all, row(width, word))?;
        rest = after;
    }
    match all {
        Ok(all) => Ok(Ok(Words::of(all))),
        Err(cause) => Ok(Err(cause)),
    }
}
