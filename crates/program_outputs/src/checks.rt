//! A script and a file are compared.
ghost use Rattle.std.specs.Prelude.{◌≡◌, ◌⊎◌, IfOk};
ghost use Rattle.script_grammar.specs.Reading.{script_of};
ghost use Rattle.program_outputs.specs.Outputs.{script_part, file_part, IsNoFile, IsJudged, IsCheckOutput};

use crate::outputs::Output;
use crate::texts::{bad_byte, bad_line, judged};
use qws_base::OutOfMemory;
use session_journal::{File, FileStop, read_file};
use session_replay::{check, holds_for_runs, one_verdict};
use session_script::{Script, ScriptStop, split};
use std::alloc::Global;

// The verdict on the file that some bytes are, or where they are none.
fn file_output(alloc: Global, script: &Script, bytes: &[u8]) -> Result<Output, OutOfMemory>
    ensures { IfOk result (λ output. IsNoFile bytes.now output.status output.text.items ⊎ IsJudged script.now bytes.now output.status output.text.items) }
{
    one_verdict(script);
    holds_for_runs(script);
    match read_file(alloc, bytes) {
        Ok(file) => {
            let verdict = check(alloc, script, &file)?;
            judged(alloc, file.lines.as_slice().len(), verdict)
        }
        Err(FileStop::Bad { at }) => bad_byte(alloc, at),
        Err(FileStop::OutOfMemory) => Err(OutOfMemory),
    }
}

/// What `check` writes for the bytes that it read, which are a script and a file behind its line `end`: `holds` and the number
/// of entries, with status 0; the first bad line of the script, or the place where the rest stops being a file, with status 1;
/// or what is wrong with the file first, with status 7.
pub fn check_output(alloc: Global, bytes: &[u8]) -> Result<Output, OutOfMemory>
    ensures { IfOk result (λ output. IsCheckOutput (script_of (script_part bytes.now)) (file_part bytes.now) output.status output.text.items) }
{
    let (front, rest) = split(bytes);
    match Script::read(alloc, front) {
        Ok(script) => file_output(alloc, &script, rest),
        Err(ScriptStop::Bad { line, cause }) => bad_line(alloc, line, cause),
        Err(ScriptStop::OutOfMemory) => Err(OutOfMemory),
    }
}
