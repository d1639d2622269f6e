//! The lines of commands, behind the client and the kind.
ghost use Rattle.std.specs.Prelude.{◌≡◌, map, IfOk};
ghost use Rattle.script_grammar.specs.Words.{in_count, rects_read};
ghost use Rattle.script_grammar.specs.Lines.{create_read, destroy_read, region_read, move_read, raise_read, lower_read, shape_read, cursor_read, show_read, join_read, leave_read, send_read, take_read, known_read};

use crate::Judged;
use qws_base::Rects;
use script_grammar::{Cause, LineCall};
use script_words::{
    cells, channel, is, join, join3, name, rects, sent_bytes, short, signed_point, window,
};
use std::alloc::Global;

/// `create NAME LAYER`
#[tactic(auto, unfolding(script_grammar::specs::Lines::create_read))]
pub(crate) fn create(alloc: Global, words: &[&[u8]]) -> Judged<LineCall>
    ensures { IfOk result (λ read. read ≡ create_read (map (λ w. w.now) words.now)) }
{
    let [name_word, layer] = words else {
        return Ok(Err(Cause::Form));
    };
    match join(name(alloc, name_word)?, short(layer)) {
        Ok((name, layer)) => Ok(Ok(LineCall::Create { name, layer })),
        Err(cause) => Ok(Err(cause)),
    }
}

/// `destroy WIN`
#[tactic(auto, unfolding(script_grammar::specs::Lines::destroy_read))]
pub(crate) fn destroy(alloc: Global, words: &[&[u8]]) -> Judged<LineCall>
    ensures { IfOk result (λ read. read ≡ destroy_read (map (λ w. w.now) words.now)) }
{
    let [window_word] = words else {
        return Ok(Err(Cause::Form));
    };
    match window(alloc, window_word)? {
        Ok(window) => Ok(Ok(LineCall::Destroy { window })),
        Err(cause) => Ok(Err(cause)),
    }
}

// 0 to 64 groups `X Y W H`.
fn groups(alloc: Global, words: &[&[u8]]) -> Judged<Rects>
    ensures { IfOk result (λ read. read ≡ in_count 0 256 (map (λ w. w.now) words.now) (rects_read (map (λ w. w.now) words.now))) }
{
    if words.len() > 256 {
        return Ok(Err(Cause::Form));
    }
    rects(alloc, words)
}

/// `region WIN OX OY` and 0 to 64 groups `X Y W H`
#[tactic(auto, unfolding(script_grammar::specs::Lines::region_read))]
pub(crate) fn region(alloc: Global, words: &[&[u8]]) -> Judged<LineCall>
    ensures { IfOk result (λ read. read ≡ region_read (map (λ w. w.now) words.now)) }
{
    let [window_word, x, y, group_words @ ..] = words else {
        return Ok(Err(Cause::Form));
    };
    let window = window(alloc, window_word)?;
    match join3(window, signed_point(x, y), groups(alloc, group_words)?) {
        Ok((window, origin, rects)) => Ok(Ok(LineCall::Region {
            window,
            origin,
            rects,
        })),
        Err(cause) => Ok(Err(cause)),
    }
}

/// `move WIN OX OY`
#[tactic(auto, unfolding(script_grammar::specs::Lines::move_read))]
pub(crate) fn relocation(alloc: Global, words: &[&[u8]]) -> Judged<LineCall>
    ensures { IfOk result (λ read. read ≡ move_read (map (λ w. w.now) words.now)) }
{
    let [window_word, x, y] = words else {
        return Ok(Err(Cause::Form));
    };
    match join(window(alloc, window_word)?, signed_point(x, y)) {
        Ok((window, origin)) => Ok(Ok(LineCall::Move { window, origin })),
        Err(cause) => Ok(Err(cause)),
    }
}

/// `raise WIN`
#[tactic(auto, unfolding(script_grammar::specs::Lines::raise_read))]
pub(crate) fn raise(alloc: Global, words: &[&[u8]]) -> Judged<LineCall>
    ensures { IfOk result (λ read. read ≡ raise_read (map (λ w. w.now) words.now)) }
{
    let [window_word] = words else {
        return Ok(Err(Cause::Form));
    };
    match window(alloc, window_word)? {
        Ok(window) => Ok(Ok(LineCall::Raise { window })),
        Err(cause) => Ok(Err(cause)),
    }
}

/// `lower WIN`
#[tactic(auto, unfolding(script_grammar::specs::Lines::lower_read))]
pub(crate) fn lower(alloc: Global, words: &[&[u8]]) -> Judged<LineCall>
    ensures { IfOk result (λ read. read ≡ lower_read (map (λ w. w.now) words.now)) }
{
    let [window_word] = words else {
        return Ok(Err(Cause::Form));
    };
    match window(alloc, window_word)? {
        Ok(window) => Ok(Ok(LineCall::Lower { window })),
        Err(cause) => Ok(Err(cause)),
    }
}

/// `shape W H CELLS`
#[tactic(auto, unfolding(script_grammar::specs::Lines::shape_read))]
pub(crate) fn shape(alloc: Global, words: &[&[u8]]) -> Judged<LineCall>
    ensures { IfOk result (λ read. read ≡ shape_read (map (λ w. w.now) words.now)) }
{
    let [w, h, cells_word] = words else {
        return Ok(Err(Cause::Form));
    };
    match join3(short(w), short(h), cells(alloc, cells_word)?) {
        Ok((w, h, cells)) => Ok(Ok(LineCall::Shape { w, h, cells })),
        Err(cause) => Ok(Err(cause)),
    }
}

/// `cursor X Y`
#[tactic(auto, unfolding(script_grammar::specs::Lines::cursor_read))]
pub(crate) fn cursor(words: &[&[u8]]) -> Result<LineCall, Cause>
    ensures { result ≡ cursor_read (map (λ w. w.now) words.now) }
{
    let [x, y] = words else {
        return Err(Cause::Form);
    };
    match signed_point(x, y) {
        Ok(at) => Ok(LineCall::Cursor { at }),
        Err(cause) => Err(cause),
    }
}

/// `show 0` or `show 1`
#[tactic(auto, unfolding(script_grammar::specs::Lines::show_read))]
pub(crate) fn show(words: &[&[u8]]) -> Result<LineCall, Cause>
    ensures { result ≡ show_read (map (λ w. w.now) words.now) }
{
    let [shown] = words else {
        return Err(Cause::Form);
    };
    if is(shown, b"0") {
        Ok(LineCall::Show { shown: false })
    } else if is(shown, b"1") {
        Ok(LineCall::Show { shown: true })
    } else {
        Err(Cause::Form)
    }
}

/// `join WORD`
#[tactic(auto, unfolding(script_grammar::specs::Lines::join_read))]
pub(crate) fn joining(alloc: Global, words: &[&[u8]]) -> Judged<LineCall>
    ensures { IfOk result (λ read. read ≡ join_read (map (λ w. w.now) words.now)) }
{
    let [channel_word] = words else {
        return Ok(Err(Cause::Form));
    };
    match channel(alloc, channel_word)? {
        Ok(channel) => Ok(Ok(LineCall::Join { channel })),
        Err(cause) => Ok(Err(cause)),
    }
}

/// `leave WORD`
#[tactic(auto, unfolding(script_grammar::specs::Lines::leave_read))]
pub(crate) fn leave(alloc: Global, words: &[&[u8]]) -> Judged<LineCall>
    ensures { IfOk result (λ read. read ≡ leave_read (map (λ w. w.now) words.now)) }
{
    let [channel_word] = words else {
        return Ok(Err(Cause::Form));
    };
    match channel(alloc, channel_word)? {
        Ok(channel) => Ok(Ok(LineCall::Leave { channel })),
        Err(cause) => Ok(Err(cause)),
    }
}

/// `send WORD WORD HEX`
#[tactic(auto, unfolding(script_grammar::specs::Lines::send_read))]
pub(crate) fn send(alloc: Global, words: &[&[u8]]) -> Judged<LineCall>
    ensures { IfOk result (λ read. read ≡ send_read (map (λ w. w.now) words.now)) }
{
    let [channel_word, message_word, payload_word] = words else {
        return Ok(Err(Cause::Form));
    };
    let name = channel(alloc, channel_word)?;
    let message = channel(alloc, message_word)?;
    match join3(name, message, sent_bytes(alloc, payload_word)?) {
        Ok((channel, message, payload)) => Ok(Ok(LineCall::Send {
            channel,
            message,
            payload,
        })),
        Err(cause) => Ok(Err(cause)),
    }
}

/// `take`
#[tactic(auto, unfolding(script_grammar::specs::Lines::take_read))]
pub(crate) fn take(words: &[&[u8]]) -> Result<LineCall, Cause>
    ensures { result ≡ take_read (map (λ w. w.now) words.now) }
{
    match words {
        [] => Ok(LineCall::Take),
        _ => Err(Cause::Form),
    }
}

/// `known WORD`
#[tactic(auto, unfolding(script_grammar::specs::Lines::known_read))]
pub(crate) fn known(alloc: Global, words: &[&[u8]]) -> Judged<LineCall>
    ensures { IfOk result (λ read. read ≡ known_read (map (λ w. w.now) words.now)) }
{
    let [channel_word] = words else {
        return Ok(Err(Cause::Form));
    };
    match channel(alloc, channel_word)? {
        Ok(channel) => Ok(Ok(LineCall::Known { channel })),
        Err(cause) => Ok(Err(cause)),
    }
}
