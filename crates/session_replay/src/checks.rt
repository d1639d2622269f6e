//! A file, held against the script that it is said to be of.
ghost use Rattle.std.specs.Prelude.{◌≡◌, ◌≤◌, ◌<◌, ◌+◌, ◌*◌, ◌↔◌, [], take, length, true, false, IsTrue, OnOk, IfOk, MatchOption};
ghost use Rattle.std.specs.Str.{bytes_eq};
ghost use Rattle.qws_base.specs.Points.{pixel_count};
ghost use Rattle.session_journal.specs.Texts.{colour_bytes};
ghost use Rattle.session_journal.specs.Commented.{commented_client};
ghost use Rattle.script_grammar.specs.Limits.{IsSession};
ghost use Rattle.session_replay.specs.Files.{named_by};
ghost use Rattle.session_replay.specs.Steps.{IsReplay, HasLeft, HasNone, AreAllMade};
ghost use Rattle.session_replay.specs.Verdicts.{IsDue, AreDue, IsFirstUndue, ArePixelsOf, IsFirstOther, IsVerdict};

use crate::callers::Caller;
use crate::replays::{Replay, call_next, opening, shown};
use crate::steps::push_comment;
use crate::verdicts::Verdict;
use qws_base::{Bytes, OutOfMemory, Size};
use session_journal::{File, client_named};
use session_script::Script;
use std::alloc::Global;

// The client that a comment names, if it is one of these and has a call left.
fn next_caller(callers: &[Caller], line: &[u8]) -> Option<u32>
    requires { length callers.now ≤ 16 }
    ensures { MatchOption result (HasNone callers.now (commented_client line.now))
        (λ client. (client ≡ commented_client line.now) × HasLeft callers.now client) }
{
    let client = client_named(line, callers.len() as u32)?;
    let caller = &callers[client as usize];
    if caller.made < caller.calls {
        Some(client)
    } else {
        None
    }
}

// Whether the line at a place is the text of the next call of the client that it names. If it is, the call has been made.
fn is_due(
    alloc: Global,
    script: &Script,
    replay: &mut Replay,
    text: &mut Vec<u8>,
    lines: &[Bytes],
    k: usize,
) -> Result<bool, OutOfMemory>
    requires below { k < length lines.now }
    requires session { IsSession script.now }
    requires replay { IsReplay script.now (named_by script.now (take k lines.now)) replay.old }
    ensures due { IfOk result (λ due. due ≡ true → IsDue script.now lines.now k) }
    ensures undue { IfOk result (λ due. due ≡ false → ¬ IsDue script.now lines.now k) }
    ensures replay { IfOk result (λ due. due ≡ true → IsReplay script.now (named_by script.now (take (k + 1) lines.now)) replay.new) }
{
    let line = lines[k].as_slice();
    let Some(client) = next_caller(&replay.callers, line) else {
        return Ok(false);
    };
    let number = replay.callers[client as usize].made;
    let answer = call_next(alloc, script, replay, client)?;
    text.clear();
    push_comment(alloc, text, client, number, &answer)?;
    Ok(text.as_slice() == line)
}

// The place of the first line that isn't due; none where all are, and then their calls have been made.
fn first_undue(
    alloc: Global,
    script: &Script,
    replay: &mut Replay,
    lines: &[Bytes],
) -> Result<Option<usize>, OutOfMemory>
    requires session { IsSession script.now }
    requires replay { IsReplay script.now [] replay.old }
    ensures { IfOk result (λ found. MatchOption found (AreDue script.now lines.now × IsReplay script.now (named_by script.now lines.now) replay.new) (IsFirstUndue script.now lines.now)) }
{
    let mut text = Vec::new(alloc);
    for k in 0..lines.len() {
        if !is_due(alloc, script, replay, &mut text, lines, k)? {
            return Ok(Some(k));
        }
    }
    Ok(None)
}

// Whether no client has a call left.
fn all_made(callers: &[Caller]) -> bool
    ensures { IsTrue result ↔ AreAllMade callers.now }
{
    callers.iter().all(|caller| caller.made == caller.calls)
}

// Whether three bytes are a colour's red, green and blue.
fn is_colour(bytes: &[u8], c: u32) -> bool
    ensures { result ≡ bytes_eq bytes.now (colour_bytes c) }
{
    let red = (c / 65536 % 256) as u8;
    let green = (c / 256 % 256) as u8;
    let blue = (c % 256) as u8;
    bytes == [red, green, blue].as_slice()
}

// The first pixel of a raster that isn't the shown one.
fn first_other(shown: &[u32], raster: &[u8]) -> Option<usize>
    requires { length raster.now ≡ 3 * length shown.now }
    ensures { MatchOption result (ArePixelsOf shown.now raster.now) (IsFirstOther shown.now raster.now) }
{
    for (p, c) in shown.iter().enumerate() {
        if !is_colour(&raster[3 * p..3 * p + 3], *c) {
            return Some(p);
        }
    }
    None
}

fn is_same(a: Size, b: Size) -> bool
    ensures { IsTrue result ↔ (a ≡ b) }
{
    a == b
}

/// Whether a file is that of a history of the script's calls, or what is wrong with it first: its size; the first comment
/// line that isn't the text of the next call of the client that it names, with the reply due there; calls that are left;
/// the first pixel that isn't the shown one. Its raster has three bytes for each pixel, as every file's that was read.
pub fn check(alloc: Global, script: &Script, file: &File) -> Result<Verdict, OutOfMemory>
    requires { length file.now.raster ≡ 3 * pixel_count file.now.size }
    ensures { IfOk result (IsVerdict script.now file.now) }
{
    let _clients = script.clients();
    if !is_same(file.size, script.size()) {
        return Ok(Verdict::BadScreen {
            w: file.size.w(),
            h: file.size.h(),
        });
    }
    let lines = file.lines.as_slice();
    let mut replay = opening(alloc, script)?;
    if let Some(k) = first_undue(alloc, script, &mut replay, lines)? {
        return Ok(Verdict::BadEntry { line: k as u64 + 1 });
    }
    if !all_made(&replay.callers) {
        return Ok(Verdict::BadEntry {
            line: lines.len() as u64 + 1,
        });
    }
    let picture = shown(alloc, &replay)?;
    match first_other(picture.as_slice(), file.raster.as_slice()) {
        Some(p) => Ok(Verdict::BadPixel { index: p as u64 }),
        None => Ok(Verdict::Holds),
    }
}
