//! Hexadecimal digits: colours, bytes, cells, pixels and the rows of glyphs.
ghost use Rattle.std.specs.Prelude.{◌≡◌, ◌<◌, ◌≤◌, ◌^◌, ◌∷◌, [], length, IfOk, true};
ghost use Rattle.std.specs.List.{list_all};
ghost use Rattle.std.specs.Str.Parse.{digits_value};
ghost use Rattle.std.specs.Char.{digit_value};
ghost use Rattle.script_grammar.specs.Spelling.{is_hex, colour_read};
ghost use Rattle.script_grammar.specs.Words.{hex_read, pairs_read, eights_read, bytes_read, cells_read, pixels_read, within_width, row_read};
ghost use Rattle.script_grammar.specs.Printing.{row_digits};
ghost use Rattle.script_words.specs.Judged.{seen};
ghost use Rattle.script_words.specs.Rows.{is_row_text};

use crate::inks::is;
use qws_base::{Bytes, OutOfMemory, Rgb, Words};
use script_grammar::Cause;
use std::alloc::{AllocFailed, Global};

fn is_hex_text(word: &[u8]) -> bool
    ensures { result ≡ list_all is_hex word.now }
{
    word.iter()
        .all(|c| b'0' <= *c && *c <= b'9' || b'a' <= *c && *c <= b'f')
}

fn hex_digit(c: u8) -> u8
    requires { is_hex c ≡ true }
    ensures value { result ≡ digit_value c }
    ensures range { result < 16 }
{
    if c <= b'9' { c - b'0' } else { c - b'a' + 10 }
}

// The number that hexadecimal digits stand for.
fn hex_value(digits: &[u8]) -> u32
    requires few { length digits.now ≤ 8 }
    requires each { list_all is_hex digits.now ≡ true }
    ensures value { result ≡ digits_value 16 digits.now }
    ensures range { result < 16 ^ length digits.now }
{
    let mut n = 0;
    let mut rest = digits;
    while let [c, after @ ..] = rest {
        n = n * 16 + u32::from(hex_digit(*c));
        rest = after;
    }
    n
}

// Six digits make a colour.
fn colour_from(digits: &[u8]) -> Result<Rgb, Cause>
    requires six { length digits.now ≡ 6 }
    requires each { list_all is_hex digits.now ≡ true }
    ensures { result ≡ Ok (digits_value 16 digits.now) }
{
    Rgb::new(hex_value(digits)).ok_or(Cause::Number)
}

/// A colour.
#[tactic(auto, unfolding(script_grammar::specs::Spelling::colour_read))]
pub fn colour(word: &[u8]) -> Result<Rgb, Cause>
    ensures { result ≡ colour_read word.now }
{
    if word.len() == 6 && is_hex_text(word) {
        colour_from(word)
    } else {
        Err(Cause::Number)
    }
}

// A number of up to eight digits.
#[tactic(auto, unfolding(script_grammar::specs::Words::hex_read))]
fn hex(digits: &[u8]) -> Result<u32, Cause>
    requires { length digits.now ≤ 8 }
    ensures value { result ≡ hex_read digits.now }
    ensures range { IfOk result (λ n. n < 16 ^ length digits.now) }
{
    if is_hex_text(digits) {
        Ok(hex_value(digits))
    } else {
        Err(Cause::Number)
    }
}

// Two digits make a byte.
fn pair(a: u8, b: u8) -> Result<u8, Cause>
    ensures { result ≡ hex_read (a ∷ b ∷ []) }
{
    let n = hex(&[a, b])?;
    Ok(n as u8)
}

// Two digits for each.
fn pairs(alloc: Global, word: &[u8]) -> Result<Result<Vec<u8>, Cause>, AllocFailed<u8>>
    ensures { IfOk result (λ read. seen (λ v. v.items) read ≡ pairs_read word.now) }
{
    let mut all = Vec::new(alloc);
    let mut rest = word;
    while let [a, b, after @ ..] = rest {
        match pair(*a, *b) {
            Ok(x) => all.push(x)?,
            Err(cause) => return Ok(Err(cause)),
        }
        rest = after;
    }
    if rest.is_empty() {
        Ok(Ok(all))
    } else {
        Ok(Err(Cause::Number))
    }
}

// Eight digits for each.
fn eights(alloc: Global, word: &[u8]) -> Result<Result<Vec<u32>, Cause>, AllocFailed<u32>>
    ensures { IfOk result (λ read. seen (λ v. v.items) read ≡ eights_read word.now) }
{
    let mut all = Vec::new(alloc);
    let mut rest = word;
    while let [a, b, c, d, e, f, g, h, after @ ..] = rest {
        match hex(&[*a, *b, *c, *d, *e, *f, *g, *h]) {
            Ok(x) => all.push(x)?,
            Err(cause) => return Ok(Err(cause)),
        }
        rest = after;
    }
    if rest.is_empty() {
        Ok(Ok(all))
    } else {
        Ok(Err(Cause::Number))
    }
}

/// HEX: a minus for none, or two digits for each of at most 65,000 bytes.
#[tactic(auto, unfolding(script_grammar::specs::Words::bytes_read))]
pub fn sent_bytes(alloc: Global, word: &[u8]) -> Result<Result<Bytes, Cause>, OutOfMemory>
    ensures { IfOk result (λ read. read ≡ bytes_read word.now) }
{
    if is(word, b"-") {
        return Ok(Ok(Bytes::of(Vec::new(alloc))));
    }
    if word.is_empty() {
        return Ok(Err(Cause::Number));
    }
    match pairs(alloc, word)? {
        Ok(all) if all.len() <= 65000 => Ok(Ok(Bytes::of(all))),
        Ok(_) => Ok(Err(Cause::Range)),
        Err(cause) => Ok(Err(cause)),
    }
}

/// CELLS: a minus for none, or eight digits for each of at most 16,384.
#[tactic(auto, unfolding(script_grammar::specs::Words::cells_read))]
pub fn cells(alloc: Global, word: &[u8]) -> Result<Result<Words, Cause>, OutOfMemory>
    ensures { IfOk result (λ read. read ≡ cells_read word.now) }
{
    if is(word, b"-") {
        return Ok(Ok(Words::of(Vec::new(alloc))));
    }
    if word.is_empty() {
        return Ok(Err(Cause::Number));
    }
    match eights(alloc, word)? {
        Ok(all) if all.len() <= 16384 => Ok(Ok(Words::of(all))),
        Ok(_) => Ok(Err(Cause::Range)),
        Err(cause) => Ok(Err(cause)),
    }
}

/// PIXELS: eight digits for each.
#[tactic(auto, unfolding(script_grammar::specs::Words::pixels_read))]
pub fn pixels(alloc: Global, word: &[u8]) -> Result<Result<Words, Cause>, OutOfMemory>
    ensures { IfOk result (λ read. read ≡ pixels_read word.now) }
{
    if word.is_empty() {
        return Ok(Err(Cause::Number));
    }
    match eights(alloc, word)? {
        Ok(all) => Ok(Ok(Words::of(all))),
        Err(cause) => Ok(Err(cause)),
    }
}

/// Whether a word has the digits of a row of so many columns.
pub fn is_row_text(width: u32, word: &[u8]) -> bool
    requires { width < 10 ^ 5 }
    ensures { result ≡ is_row_text width word.now }
{
    word.len() == (width as usize + 3) / 4 && is_hex_text(word)
}

/// ROW: a digit for each four columns, of at most 32, and no bit beyond these.
#[tactic(auto, unfolding(script_grammar::specs::Words::row_read))]
pub fn row(width: u32, word: &[u8]) -> Result<u32, Cause>
    requires { width ≤ 32 }
    ensures { result ≡ row_read width word.now }
{
    if word.len() != (width as usize + 3) / 4 {
        return Err(Cause::Number);
    }
    let bits = hex(word)?;
    if u64::from(bits) < 1 << width {
        Ok(bits)
    } else {
        Err(Cause::Range)
    }
}
