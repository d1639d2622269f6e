//! Names, windows and the words of channels.
ghost use Rattle.std.specs.Prelude.{◌≡◌, IfOk};
ghost use Rattle.std.specs.List.{list_all};
ghost use Rattle.script_grammar.specs.Spelling.{is_name_byte, is_name_word, name_read};
ghost use Rattle.script_grammar.specs.Words.{window_read, is_word_byte, is_text_word, text_word_read};

use crate::numbers::ranged;
use qws_base::{Bytes, OutOfMemory};
use script_grammar::{Cause, Window};
use std::alloc::Global;

fn is_name_text(word: &[u8]) -> bool
    ensures { result ≡ list_all is_name_byte word.now }
{
    word.iter()
        .all(|c| b'a' <= *c && *c <= b'z' || b'0' <= *c && *c <= b'9')
}

fn is_name(word: &[u8]) -> bool
    ensures { result ≡ is_name_word word.now }
{
    if word.is_empty() || word.len() > 16 || !is_name_text(word) {
        return false;
    }
    b'a' <= word[0] && word[0] <= b'z'
}

/// A name.
#[tactic(auto, unfolding(script_grammar::specs::Spelling::name_read))]
pub fn name(alloc: Global, word: &[u8]) -> Result<Result<Bytes, Cause>, OutOfMemory>
    ensures { IfOk result (λ read. read ≡ name_read word.now) }
{
    if !is_name(word) {
        return Ok(Err(Cause::Number));
    }
    Ok(Ok(Bytes::of(word.to_vec(alloc)?)))
}

/// What names a window: a name, or `#` and a slot.
#[tactic(auto, unfolding(script_grammar::specs::Words::window_read))]
pub fn window(alloc: Global, word: &[u8]) -> Result<Result<Window, Cause>, OutOfMemory>
    ensures { IfOk result (λ read. read ≡ window_read word.now) }
{
    match word {
        [] => Ok(Err(Cause::Number)),
        [b'#', digits @ ..] => match ranged(0, 32, digits) {
            Ok(slot) => Ok(Ok(Window::Numbered { slot })),
            Err(cause) => Ok(Err(cause)),
        },
        _ => match name(alloc, word)? {
            Ok(name) => Ok(Ok(Window::Named { name })),
            Err(cause) => Ok(Err(cause)),
        },
    }
}

fn is_channel_text(word: &[u8]) -> bool
    ensures { result ≡ list_all is_word_byte word.now }
{
    word.iter().all(|c| b'!' <= *c && *c <= b'~')
}

fn is_channel(word: &[u8]) -> bool
    ensures { result ≡ is_text_word word.now }
{
    !word.is_empty() && word.len() <= 128 && is_channel_text(word)
}

/// A channel or a message.
#[tactic(auto, unfolding(script_grammar::specs::Words::text_word_read))]
pub fn channel(alloc: Global, word: &[u8]) -> Result<Result<Bytes, Cause>, OutOfMemory>
    ensures { IfOk result (λ read. read ≡ text_word_read word.now) }
{
    if !is_channel(word) {
        return Ok(Err(Cause::Number));
    }
    Ok(Ok(Bytes::of(word.to_vec(alloc)?)))
}
