//! The lines of text that the program writes.
ghost use Rattle.std.specs.Prelude.{◌≡◌, IfOk, string_bytes};
ghost use Rattle.program_outputs.specs.Texts.{cause_word, bad_line_text, bad_byte_text, verdict_text, verdict_status, tried_text};

use crate::outputs::Output;
use qws_base::OutOfMemory;
use session_replay::Verdict;
use session_script::Cause;
use std::alloc::Global;

// The bytes of a text.
fn bytes_of(alloc: Global, text: &String) -> Result<Vec<u8>, OutOfMemory>
    ensures { IfOk result (λ bytes. bytes.items ≡ string_bytes text.now) }
{
    let bytes = text.as_bytes().to_vec(alloc)?;
    Ok(bytes)
}

// The word of a cause.
fn cause_word(cause: Cause) -> &'static str
    ensures { result.now ≡ cause_word cause }
{
    match cause {
        Cause::Form => "form",
        Cause::Number => "number",
        Cause::Range => "range",
        Cause::Unknown => "unknown",
        Cause::Repeated => "repeated",
        Cause::Missing => "missing",
        Cause::Many => "many",
        Cause::End => "end",
    }
}

/// The first bad line of a script, counted from 1, and its cause.
pub fn bad_line(alloc: Global, line: u64, cause: Cause) -> Result<Output, OutOfMemory>
    ensures status { IfOk result (λ output. output.status ≡ 1) }
    ensures text { IfOk result (λ output. output.text.items ≡ bad_line_text line cause) }
{
    let word = cause_word(cause);
    let text = format!(in alloc; "bad line {line} {word}\n")?;
    let text = bytes_of(alloc, &text)?;
    Ok(Output { status: 1, text })
}

/// The place at which bytes stop being a file.
pub fn bad_byte(alloc: Global, at: usize) -> Result<Output, OutOfMemory>
    ensures status { IfOk result (λ output. output.status ≡ 1) }
    ensures text { IfOk result (λ output. output.text.items ≡ bad_byte_text at) }
{
    let text = format!(in alloc; "bad byte {at}\n")?;
    let text = bytes_of(alloc, &text)?;
    Ok(Output { status: 1, text })
}

// The line of a verdict on a file with so many entries.
fn verdict_line(alloc: Global, entries: usize, verdict: Verdict) -> Result<String, OutOfMemory>
    ensures { IfOk result (λ text. string_bytes text ≡ verdict_text entries verdict) }
{
    let text = match verdict {
        Verdict::Holds => format!(in alloc; "holds {entries}\n")?,
        Verdict::BadScreen { w, h } => format!(in alloc; "bad screen {w} {h}\n")?,
        Verdict::BadEntry { line } => format!(in alloc; "bad entry {line}\n")?,
        Verdict::BadPixel { index } => format!(in alloc; "bad pixel {index}\n")?,
    };
    Ok(text)
}

// The status of a verdict.
fn verdict_status(verdict: Verdict) -> u8
    ensures { result ≡ verdict_status verdict }
{
    match verdict {
        Verdict::Holds => 0,
        Verdict::BadScreen { w: _, h: _ } => 7,
        Verdict::BadEntry { line: _ } => 7,
        Verdict::BadPixel { index: _ } => 7,
    }
}

/// The verdict on a file with so many entries.
pub fn judged(alloc: Global, entries: usize, verdict: Verdict) -> Result<Output, OutOfMemory>
    ensures status { IfOk result (λ output. output.status ≡ verdict_status verdict) }
    ensures text { IfOk result (λ output. output.text.items ≡ verdict_text entries verdict) }
{
    let line = verdict_line(alloc, entries, verdict)?;
    let text = bytes_of(alloc, &line)?;
    Ok(Output {
        status: verdict_status(verdict),
        text,
    })
}

/// A session of so many clients and calls was run, and its file holds.
pub fn tried(alloc: Global, clients: u32, calls: u32) -> Result<Output, OutOfMemory>
    ensures status { IfOk result (λ output. output.status ≡ 0) }
    ensures text { IfOk result (λ output. output.text.items ≡ tried_text clients calls) }
{
    let text = format!(in alloc; "clients {clients} calls {calls} holds\n")?;
    let text = bytes_of(alloc, &text)?;
    Ok(Output { status: 0, text })
}
