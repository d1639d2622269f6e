//! Words of generated lines.
ghost use Rattle.std.specs.Prelude.{◌≡◌, ◌++◌, ◌<◌, ◌≤◌, ◌^◌, OnOk, IfOk, string_bytes};
ghost use Rattle.script_grammar.specs.Printing.{hex_digit, hex, colour};
ghost use Rattle.session_maker.specs.Kinds.{name};

use qws_base::OutOfMemory;
use std::alloc::{AllocError, Global};

// A hexadecimal digit in lower case.
fn hex_digit(n: u32) -> char
    requires { n < 16 }
    ensures { result ≡ hex_digit n }
{
    if n < 10 {
        char::from(b'0' + n as u8)
    } else {
        char::from(b'a' - 10 + n as u8)
    }
}

// Adds the last digits of a number, so many.
fn push_hex(text: &mut String, count: u32, n: u32) -> Result<(), AllocError>
    ensures { OnOk result (string_bytes text.new ≡ string_bytes text.old ++ hex count n) }
{
    if count > 0 {
        push_hex(text, count - 1, n / 16)?;
        text.push(hex_digit(n % 16))?;
    }
    Ok(())
}

/// A colour as six hexadecimal digits.
pub fn colour_word(alloc: Global, c: u32) -> Result<String, OutOfMemory>
    ensures { IfOk result (λ text. string_bytes text ≡ colour c) }
{
    let mut text = String::new(alloc);
    push_hex(&mut text, 6, c)?;
    Ok(text)
}

/// The name of a client's window.
pub fn window_name(window: u32) -> &'static str
    requires { window < 3 }
    ensures { result.now ≡ name window }
{
    match window {
        0 => "a",
        1 => "b",
        _ => "c",
    }
}
