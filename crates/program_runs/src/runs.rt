//! A script becomes its file.
ghost use Rattle.std.specs.Prelude.{◌≡◌, IfOk};
ghost use Rattle.script_grammar.specs.Reading.{script_of};
ghost use Rattle.program_runs.specs.Runs.{IsRan};

use program_outputs::{Output, bad_line};
use qws_base::{Gate, OutOfMemory};
use server_desk::Closed;
use session_run::run_session;
use session_script::{Script, ScriptStop};
use std::alloc::Global;
use std::sync::Wait;
use std::thread::Threads;

/// What `run` comes to: what is written, and the closed session of the script that was run.
#[derive(Drop)]
pub struct Ran {
    pub output: Output,
    pub closed: Option<Closed>,
}

/// What `run` writes for the bytes that it read: the file of a run of the script, with status 0 and the closed session of that
/// run; or the first bad line and its cause, with status 1 and no session. The script's clients run in threads, so the call
/// waits, and may not return.
pub fn run_output<R: Threads + Wait + Sync, G: Gate + Sync>(
    rt: &R,
    alloc: Global,
    bytes: &[u8],
    gate: &G,
) -> Result<Ran, OutOfMemory>
    ensures { IfOk result (λ ran. IsRan (script_of bytes.now) ran.output.status ran.output.text.items ran.closed) }
{
    match Script::read(alloc, bytes) {
        Ok(script) => {
            let (text, closed) = run_session(rt, alloc, &script, gate)?;
            Ok(Ran {
                output: Output { status: 0, text },
                closed: Some(closed),
            })
        }
        Err(ScriptStop::Bad { line, cause }) => {
            let output = bad_line(alloc, line, cause)?;
            Ok(Ran {
                output,
                closed: None,
            })
        }
        Err(ScriptStop::OutOfMemory) => Err(OutOfMemory),
    }
}
