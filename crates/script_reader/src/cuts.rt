//! Where bytes are cut: into lines and words, and behind a script.
ghost use Rattle.std.specs.Prelude.{◌≡◌, ◌+◌, ◌==◌, ◌≤◌, ◌∷◌, [], length, take, drop, MatchOption};
ghost use lib.Chars.{codes};
ghost use Rattle.std.specs.List.{position, slice_split};
ghost use Rattle.std.specs.Str.{bytes_eq};
ghost use Rattle.script_grammar.specs.Reading.{text_lines};
ghost use Rattle.script_reader.specs.Cuts.{through_end};

// The first place of a byte.
fn place_of(bytes: &[u8], byte: u8) -> Option<usize>
    ensures { result ≡ position (λ c. c == byte) bytes.now }
{
    bytes.iter().position(|c| *c == byte)
}

/// What stands before the first such byte, and what stands behind it. None where there is no such byte.
pub fn cut_at(bytes: &[u8], byte: u8) -> Option<(&[u8], &[u8])>
    ensures { MatchOption result (slice_split (λ c. c == byte) bytes.now ≡ bytes.now ∷ [])
        (λ parts. (slice_split (λ c. c == byte) bytes.now ≡ parts.0.now ∷ slice_split (λ c. c == byte) parts.1.now) × (length bytes.now ≡ length parts.0.now + 1 + length parts.1.now)) }
{
    match place_of(bytes, byte) {
        None => None,
        Some(i) => Some((&bytes[..i], &bytes[i + 1..])),
    }
}

fn is_end(text: &[u8]) -> bool
    ensures { result ≡ bytes_eq text.now (codes "end") }
{
    text == b"end".as_slice()
}

// How many bytes stand up to and with the first line `end`.
fn script_len(bytes: &[u8]) -> usize
    ensures value { result ≡ through_end (text_lines bytes.now) }
    ensures within { result ≤ length bytes.now }
{
    let mut len = 0;
    let mut rest = bytes;
    while let Some((text, after)) = cut_at(rest, b'\n') {
        len += text.len() + 1;
        if is_end(text) {
            return len;
        }
        rest = after;
    }
    len + rest.len()
}

/// The bytes up to and with the first line `end`, and the rest. Without such a line the first part is all.
pub fn split(bytes: &[u8]) -> (&[u8], &[u8])
    ensures script { result.0.now ≡ take (through_end (text_lines bytes.now)) bytes.now }
    ensures rest { result.1.now ≡ drop (through_end (text_lines bytes.now)) bytes.now }
{
    bytes.split_at(script_len(bytes))
}
