//! Sessions that are made from a load, run and checked.
ghost use Rattle.std.specs.Prelude.{◌≡◌, IfOk};
ghost use Rattle.session_maker.specs.Laws.{IsLoad};
ghost use Rattle.session_run.specs.Sessions.{IsClosedRun};
ghost use Rattle.program_outputs.specs.Outputs.{load_session, trial_text};
ghost use Rattle.program_runs.specs.Runs.{IsHolding};

use program_outputs::{Output, tried};
use program_words::Load;
use qws_base::{Gate, OutOfMemory};
use script_grammar::reads_as_printed;
use server_desk::Closed;
use session_journal::{FileStop, read_file};
use session_maker::{make_script, makes_sessions};
use session_replay::{Verdict, check, holds_for_runs, one_verdict};
use session_run::run_session;
use session_script::{Script, ScriptStop};
use std::alloc::Global;
use std::sync::Wait;
use std::thread::Threads;

// The script of a load, read.
fn made_script(alloc: Global, load: Load) -> Result<Script, OutOfMemory>
    requires { IsLoad load.clients load.calls }
    ensures { IfOk result (λ script. script ≡ load_session load) }
{
    makes_sessions();
    reads_as_printed();
    let text = make_script(alloc, u64::from(load.seed), load.clients, load.calls)?;
    match Script::read(alloc, &text) {
        Ok(script) => Ok(script),
        Err(ScriptStop::Bad { line: _, cause: _ }) => unreachable!(),
        Err(ScriptStop::OutOfMemory) => Err(OutOfMemory),
    }
}

// Reads the file of a run of a script, and finds that it holds.
fn holds(alloc: Global, script: &Script, text: &[u8]) -> Result<(), OutOfMemory>
    requires { IsHolding script.now text.now }
{
    holds_for_runs(script);
    one_verdict(script);
    let file = match read_file(alloc, text) {
        Ok(file) => file,
        Err(FileStop::Bad { at: _ }) => unreachable!(),
        Err(FileStop::OutOfMemory) => return Err(OutOfMemory),
    };
    match check(alloc, script, &file)? {
        Verdict::Holds => Ok(()),
        Verdict::BadScreen { w: _, h: _ } => unreachable!(),
        Verdict::BadEntry { line: _ } => unreachable!(),
        Verdict::BadPixel { index: _ } => unreachable!(),
    }
}

/// What `trial` writes: the script of the load is made and run, its file is checked and holds, and that is told with the
/// numbers of clients and of all calls, with status 0; and the closed session of that run. The clients run in threads, so the
/// call waits, and may not return.
pub fn trial_output<R: Threads + Wait + Sync, G: Gate + Sync>(
    rt: &R,
    alloc: Global,
    load: Load,
    gate: &G,
) -> Result<(Output, Closed), OutOfMemory>
    requires { IsLoad load.clients load.calls }
    ensures status { IfOk result (λ made. made.0.status ≡ 0) }
    ensures text { IfOk result (λ made. made.0.text.items ≡ trial_text load) }
    ensures closed { IfOk result (λ made. IsClosedRun (load_session load) made.1) }
{
    let script = made_script(alloc, load)?;
    let (text, closed) = run_session(rt, alloc, &script, gate)?;
    holds(alloc, &script, &text)?;
    let output = tried(alloc, load.clients, load.clients * load.calls)?;
    Ok((output, closed))
}
