//! Inks, whose first word says how many words they have.
ghost use Rattle.std.specs.Prelude.{◌≡◌, map};
ghost use Rattle.std.specs.Str.{bytes_eq};
ghost use Rattle.script_grammar.specs.Words.{coloured, blended, ink_then, and_no_more};
ghost use Rattle.script_words.specs.Inks.{plain_of, plain_ink, blend_of};

use crate::causes::join;
use crate::hex::colour;
use crate::numbers::ranged;
use qws_base::{Ink, Rgb};
use script_grammar::Cause;

/// Whether a word is that text.
pub fn is(word: &[u8], text: &[u8]) -> bool
    ensures { result ≡ bytes_eq word.now text.now }
{
    word == text
}

/// The inks that have one colour and no more.
#[derive(Clone, Copy, Debug, PartialEq, Eq)]
pub(crate) enum Plain {
    Copied,
    Xored,
    Anded,
    Ored,
}

fn plain_kind(word: &[u8]) -> Option<Plain>
    ensures { result ≡ plain_of word.now }
{
    if is(word, b"copy") {
        Some(Plain::Copied)
    } else if is(word, b"xor") {
        Some(Plain::Xored)
    } else if is(word, b"and") {
        Some(Plain::Anded)
    } else if is(word, b"or") {
        Some(Plain::Ored)
    } else {
        None
    }
}

fn plain_ink(kind: Plain, c: Rgb) -> Ink
    ensures { result ≡ plain_ink kind c }
{
    match kind {
        Plain::Copied => Ink::Copy { c },
        Plain::Xored => Ink::Xor { c },
        Plain::Anded => Ink::And { c },
        Plain::Ored => Ink::Or { c },
    }
}

// An ink of one colour behind its kind, and the words behind it.
fn coloured<'a, 'b>(kind: Plain, words: &'b [&'a [u8]]) -> (Result<Ink, Cause>, &'b [&'a [u8]])
    ensures ink { result.0 ≡ (coloured (plain_ink kind) (map (λ w. w.now) words.now)).0 }
    ensures rest { map (λ w. w.now) result.1.now ≡ (coloured (plain_ink kind) (map (λ w. w.now) words.now)).1 }
{
    match words {
        [] => (Err(Cause::Form), words),
        [c, rest @ ..] => match colour(c) {
            Ok(c) => (Ok(plain_ink(kind, c)), rest),
            Err(cause) => (Err(cause), rest),
        },
    }
}

// A blend of an alpha and a colour.
fn blend(a: &[u8], c: &[u8]) -> Result<Ink, Cause>
    ensures { result ≡ blend_of a.now c.now }
{
    let (a, c) = join(ranged(0, 255, a), colour(c))?;
    Ok(Ink::Blend { c, a: a as u8 })
}

// A blend behind its first word, and the words behind it.
fn blended<'a, 'b>(words: &'b [&'a [u8]]) -> (Result<Ink, Cause>, &'b [&'a [u8]])
    ensures ink { result.0 ≡ (blended (map (λ w. w.now) words.now)).0 }
    ensures rest { map (λ w. w.now) result.1.now ≡ (blended (map (λ w. w.now) words.now)).1 }
{
    match words {
        [a, c, rest @ ..] => (blend(a, c), rest),
        _ => (Err(Cause::Form), &words[..0]),
    }
}

/// The ink in front of more words, and these.
#[tactic(auto, unfolding(script_grammar::specs::Words::ink_then))]
pub fn ink_words<'a, 'b>(words: &'b [&'a [u8]]) -> (Result<Ink, Cause>, &'b [&'a [u8]])
    ensures ink { result.0 ≡ (ink_then (map (λ w. w.now) words.now)).0 }
    ensures rest { map (λ w. w.now) result.1.now ≡ (ink_then (map (λ w. w.now) words.now)).1 }
{
    let [kind, rest @ ..] = words else {
        return (Err(Cause::Form), words);
    };
    match plain_kind(kind) {
        Some(kind) => coloured(kind, rest),
        None if is(kind, b"blend") => blended(rest),
        None => (Err(Cause::Form), rest),
    }
}

/// The ink that all these words make.
pub fn ink(words: &[&[u8]]) -> Result<Ink, Cause>
    ensures { result ≡ and_no_more (ink_then (map (λ w. w.now) words.now)) }
{
    let (ink, rest) = ink_words(words);
    if rest.is_empty() {
        ink
    } else {
        Err(Cause::Form)
    }
}
