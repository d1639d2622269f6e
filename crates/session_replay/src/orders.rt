//! The calls of a session in the order of their lines.
ghost use Rattle.std.specs.Prelude.{◌≡◌, ◌<◌, ◌+◌, take, map, length, IfOk, OnOk};
ghost use Rattle.session_journal.specs.Texts.{file_bytes};
ghost use Rattle.session_journal.specs.Grammar.{IsFile};
ghost use Rattle.script_grammar.specs.Limits.{IsSession};
ghost use Rattle.session_replay.specs.Runs.{named, in_order};
ghost use Rattle.session_replay.specs.Files.{file_of};
ghost use Rattle.session_replay.specs.Steps.{IsReplay, IsCommented};

use crate::replays::{Replay, call_next, opening, shown};
use crate::steps::push_line;
use qws_base::OutOfMemory;
use session_journal::push_picture;
use session_script::Script;
use std::alloc::Global;

// The clients of the lines, in order.
fn clients_of(alloc: Global, script: &Script) -> Result<Vec<u32>, OutOfMemory>
    ensures { IfOk result (λ order. order.items ≡ map (λ line. line.client) script.now.calls) }
{
    let mut order = Vec::new(alloc);
    for j in 0..script.calls() {
        order.push(script.client_of(j))?;
    }
    Ok(order)
}

// A replay, and the text of the file as far as its comments.
#[derive(Drop)]
struct Run {
    replay: Replay,
    text: Vec<u8>,
}

// The call of the line at a place, and its comment.
fn run_line(
    alloc: Global,
    script: &Script,
    run: &mut Run,
    order: &[u32],
    j: usize,
) -> Result<(), OutOfMemory>
    requires below { j < length order.now }
    requires order { order.now ≡ map (λ line. line.client) script.now.calls }
    requires session { IsSession script.now }
    requires replay { IsReplay script.now (named script.now (take j order.now)) run.old.replay }
    requires text { IsCommented (named script.now (take j order.now)) run.old.text.items }
    ensures replay { OnOk result (IsReplay script.now (named script.now (take (j + 1) order.now)) run.new.replay) }
    ensures text { OnOk result (IsCommented (named script.now (take (j + 1) order.now)) run.new.text.items) }
{
    let client = order[j];
    let number = run.replay.callers[client as usize].made;
    let answer = call_next(alloc, script, &mut run.replay, client)?;
    push_line(alloc, &mut run.text, client, number, &answer)?;
    Ok(())
}

// A run behind the last line.
fn run_lines(alloc: Global, script: &Script, order: &[u32]) -> Result<Run, OutOfMemory>
    requires order { order.now ≡ map (λ line. line.client) script.now.calls }
    requires session { IsSession script.now }
    ensures replay { IfOk result (λ run. IsReplay script.now (in_order script.now) run.replay) }
    ensures text { IfOk result (λ run. IsCommented (in_order script.now) run.text.items) }
{
    let replay = opening(alloc, script)?;
    let text = b"P6\n".to_vec(alloc)?;
    let mut run = Run { replay, text };
    for j in 0..order.len() {
        run_line(alloc, script, &mut run, order, j)?;
    }
    Ok(run)
}

// Adds the picture of a run to its comments.
fn finish(alloc: Global, script: &Script, run: Run) -> Result<Vec<u8>, OutOfMemory>
    requires session { IsSession script.now }
    requires replay { IsReplay script.now (in_order script.now) run.replay }
    requires text { IsCommented (in_order script.now) run.text.items }
    ensures text { IfOk result (λ bytes. bytes.items ≡ file_bytes (file_of script.now (in_order script.now))) }
    ensures file { IfOk result (λ bytes. IsFile bytes.items (file_of script.now (in_order script.now))) }
{
    let Run { replay, mut text } = run;
    let picture = shown(alloc, &replay)?;
    push_picture(alloc, &mut text, script.size(), picture.as_slice())?;
    Ok(text)
}

/// The file of the history in which the calls stand in the order of the script's lines. It is in the grammar of files.
pub fn in_order(alloc: Global, script: &Script) -> Result<Vec<u8>, OutOfMemory>
    ensures text { IfOk result (λ bytes. bytes.items ≡ file_bytes (file_of script.now (in_order script.now))) }
    ensures file { IfOk result (λ bytes. IsFile bytes.items (file_of script.now (in_order script.now))) }
{
    let _clients = script.clients();
    let order = clients_of(alloc, script)?;
    let run = run_lines(alloc, script, &order)?;
    let bytes = finish(alloc, script, run)?;
    Ok(bytes)
}
