//! A whole script.
ghost use Rattle.std.specs.Prelude.{◌≡◌, ◌≤◌, ◌<◌, Err, [], length, IfOk};
ghost use Rattle.std.specs.Result.{MatchResult};
ghost use Rattle.script_grammar.specs.Reading.{script_of};
ghost use Rattle.script_grammar.specs.declared.lines.Cause.TheVariants.{End};
ghost use Rattle.script_lines.specs.Stock.{IsSomeStock};
ghost use Rattle.script_reader.specs.ReadTo.{headed, IsReadTo};
ghost use Rattle.script_reader.specs.Bodies.{IsBodyOf, IsFound, JudgesLast};

use crate::bodies::{Body, body_text, make_room};
use crate::cuts::cut_at;
use crate::heads::Head;
use crate::openings::opening;
use qws_base::OutOfMemory;
use script_grammar::Cause;
use script_lines::Counts;
use std::alloc::Global;

// What is found in a head alone.
fn nothing(alloc: Global, head: &Head) -> Result<Body, OutOfMemory>
    ensures { IfOk result (λ body. IsBodyOf head.now body (headed head.now)) }
{
    let _clients = head.clients;
    Ok(Body {
        fonts: Vec::new(alloc),
        images: Vec::new(alloc),
        counts: Counts::new(alloc)?,
        places: Vec::new(alloc),
    })
}

// The first cause of the last line, which isn't ended, behind what is kept and so many bytes.
fn last_cause(
    alloc: Global,
    head: &Head,
    body: &mut Body,
    start: usize,
    rest: &[u8],
) -> Result<Cause, OutOfMemory>
    requires clients { head.now.clients ≤ 16 }
    requires stock { IsSomeStock body.old.fonts.items body.old.images.items }
    ensures { IfOk result (λ cause. JudgesLast head.now start rest.now body.old cause) }
{
    if rest.is_empty() {
        return Ok(Cause::End);
    }
    match body_text(alloc, head, body, start, rest)? {
        Err(cause) => Ok(cause),
        Ok(_) => Ok(Cause::End),
    }
}

// What is behind the line `end`: nothing, or the line that isn't to be there.
fn ended(number: u64, after: &[u8]) -> Result<(), (u64, Cause)>
    ensures { MatchResult result (λ _. after.now ≡ []) (λ bad. (bad ≡ (number, End)) × (0 < length after.now)) }
{
    if after.is_empty() {
        Ok(())
    } else {
        Err((number, Cause::End))
    }
}

// Keeps what is found behind the head, from line `number` and `rest` on; or tells the first bad line and its first cause.
fn keep_lines(
    alloc: Global,
    head: &Head,
    body: &mut Body,
    bytes: &[u8],
    number: u64,
    rest: &[u8],
) -> Result<Result<(), (u64, Cause)>, OutOfMemory>
    requires behind { IsReadTo bytes.now (headed head.now) number rest.now }
    requires nothing { IsBodyOf head.now body.old (headed head.now) }
    ensures { IfOk result (λ read. MatchResult read (λ _. IsFound bytes.now head.now body.new) (λ bad. script_of bytes.now ≡ Err bad)) }
{
    let mut number = number;
    let mut rest = rest;
    while let Some((text, after)) = cut_at(rest, b'\n') {
        make_room(body, rest.len())?;
        let start = bytes.len() - rest.len();
        match body_text(alloc, head, body, start, text)? {
            Err(cause) => return Ok(Err((number, cause))),
            Ok(true) => return Ok(ended(number + 1, after)),
            Ok(false) => {}
        }
        number += 1;
        rest = after;
    }
    let start = bytes.len() - rest.len();
    let cause = last_cause(alloc, head, body, start, rest)?;
    Ok(Err((number, cause)))
}

// What is found behind a head, from line `number` and `rest` on.
fn found_behind(
    alloc: Global,
    head: Head,
    bytes: &[u8],
    number: u64,
    rest: &[u8],
) -> Result<Result<(Head, Body), (u64, Cause)>, OutOfMemory>
    requires { IsReadTo bytes.now (headed head) number rest.now }
    ensures { IfOk result (λ read. MatchResult read (λ found. IsFound bytes.now found.0 found.1) (λ bad. script_of bytes.now ≡ Err bad)) }
{
    let mut body = nothing(alloc, &head)?;
    match keep_lines(alloc, &head, &mut body, bytes, number, rest)? {
        Err(bad) => Ok(Err(bad)),
        Ok(()) => Ok(Ok((head, body))),
    }
}

/// What is found in the bytes of a script: its head, and the fonts, images and calls behind it. Or the number of the first bad
/// line, counted from 1, and its first cause.
pub fn found(alloc: Global, bytes: &[u8]) -> Result<Result<(Head, Body), (u64, Cause)>, OutOfMemory>
    ensures { IfOk result (λ read. MatchResult read (λ found. IsFound bytes.now found.0 found.1) (λ bad. script_of bytes.now ≡ Err bad)) }
{
    match opening(alloc, bytes) {
        Err(stop) => Err(stop),
        Ok(Err(bad)) => Ok(Err(bad)),
        Ok(Ok((head, number, rest))) => found_behind(alloc, head, bytes, number, rest),
    }
}
