//! A line of a call behind others.
ghost use Rattle.std.specs.Prelude.{◌≤◌, map, IfOk};
ghost use Rattle.script_lines.specs.Counted.{NextCall};

use crate::calls::call_line;
use crate::counts::Counts;
use glyph_masks::Font;
use qws_base::OutOfMemory;
use script_grammar::{CallLine, Cause};
use std::alloc::Global;

/// The line of a call that words make behind the calls that were counted, with so many clients, these fonts and so many images.
/// Where it is one, it is counted.
pub fn next_call(
    alloc: Global,
    clients: u32,
    fonts: &[Font],
    images: usize,
    counts: &mut Counts,
    words: &[&[u8]],
) -> Result<Result<CallLine, Cause>, OutOfMemory>
    requires { clients ≤ 16 }
    ensures { IfOk result (λ read. NextCall clients fonts.now images counts.old counts.new read (map (λ w. w.now) words.now)) }
{
    let read = call_line(alloc, clients, fonts, images, words)?;
    match read {
        Err(cause) => Ok(Err(cause)),
        Ok(line) => {
            if counts.add(line.client) {
                Ok(Ok(line))
            } else {
                drop(line);
                Ok(Err(Cause::Many))
            }
        }
    }
}
