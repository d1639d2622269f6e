//! A line of a script that is kept, read again.
ghost use Rattle.std.specs.Prelude.{◌≡◌, ◌<◌, Some, length, map, IfOk};
ghost use Rattle.script_grammar.specs.Session.{lines_by, call_line, fonts_of, images_of};
ghost use Rattle.script_grammar.specs.Limits.{IsCall};
ghost use Rattle.script_grammar.specs.Spelling.{words_of};

use crate::script::Script;
use qws_base::OutOfMemory;
use script_grammar::CallLine;
use script_lines::call_line;
use std::alloc::{AllocError, Global};

// The words of a line.
fn words(alloc: Global, line: &[u8]) -> Result<Vec<&[u8]>, AllocError>
    ensures { IfOk result (λ words. map (λ w. w.now) words.items ≡ words_of line.now) }
{
    line.split(|c| *c == b' ').collect(alloc)
}

/// A client's call `k`, counted from 0, from the bytes of its line alone.
pub(crate) fn line_of(
    alloc: Global,
    script: &Script,
    client: u32,
    k: u64,
) -> Result<CallLine, OutOfMemory>
    requires { k < length (lines_by client script.now.calls) }
    ensures line { IfOk result (λ line. call_line script.now client k ≡ Some line) }
    ensures call { IfOk result (λ line. IsCall (fonts_of script.now.assets) (length (images_of script.now.assets)) line.call) }
{
    let clients = script.clients();
    let images = script.images().len();
    let text = script.line(client, k);
    let words = words(alloc, text)?;
    match call_line(alloc, clients, script.fonts(), images, &words)? {
        Ok(line) => Ok(line),
        Err(_) => unreachable!(),
    }
}
