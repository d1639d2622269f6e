//! The head of a script.
ghost use Rattle.std.specs.Prelude.{◌≡◌, Err, IfOk};
ghost use Rattle.std.specs.Result.{MatchResult};
ghost use Rattle.script_grammar.specs.Reading.{text_in, last_in, script_of};
ghost use Rattle.script_words.specs.Judged.{seen};
ghost use Rattle.script_reader.specs.Stages.{stage_before, next_before};
ghost use Rattle.script_reader.specs.ReadTo.{headed, IsReadTo};

use crate::cuts::cut_at;
use crate::heads::{Head, HeadStage, Next, head_words};
use crate::words::line_words;
use qws_base::OutOfMemory;
use script_grammar::Cause;
use std::alloc::Global;

// What stands behind a line of the head, or the first cause why it may not stand there.
fn head_text(
    alloc: Global,
    stage: HeadStage,
    text: &[u8],
) -> Result<Result<Next, Cause>, OutOfMemory>
    ensures { IfOk result (λ read. seen next_before read ≡ text_in (stage_before stage) text.now) }
{
    match line_words(alloc, text)? {
        None => Ok(Err(Cause::Form)),
        Some(words) => Ok(head_words(stage, &words)),
    }
}

// The cause of the last line, which isn't ended, within the head.
fn last_cause(alloc: Global, stage: HeadStage, rest: &[u8]) -> Result<Cause, OutOfMemory>
    ensures { IfOk result (λ cause. last_in (stage_before stage) rest.now ≡ Err cause) }
{
    if rest.is_empty() {
        return Ok(Cause::End);
    }
    match head_text(alloc, stage, rest)? {
        Err(cause) => Ok(cause),
        Ok(_) => Ok(Cause::End),
    }
}

/// The head, the number of the line behind it and the bytes from that line on; or the first bad line and its first cause,
/// where the bytes are bad within the head.
pub(crate) fn opening(
    alloc: Global,
    bytes: &[u8],
) -> Result<Result<(Head, u64, &[u8]), (u64, Cause)>, OutOfMemory>
    ensures { IfOk result (λ read. MatchResult read (λ found. IsReadTo bytes.now (headed found.0) found.1 found.2.now) (λ bad. script_of bytes.now ≡ Err bad)) }
{
    let mut stage = HeadStage::Start;
    let mut number = 1;
    let mut rest = bytes;
    while let Some((text, after)) = cut_at(rest, b'\n') {
        match head_text(alloc, stage, text)? {
            Err(cause) => return Ok(Err((number, cause))),
            Ok(Next::Whole { head }) => return Ok(Ok((head, number + 1, after))),
            Ok(Next::Part { stage: next }) => stage = next,
        }
        number += 1;
        rest = after;
    }
    let cause = last_cause(alloc, stage, rest)?;
    Ok(Err((number, cause)))
}
