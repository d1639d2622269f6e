//! A replay: the state, the picture and the clients behind a history.
ghost use Rattle.std.specs.Prelude.{◌≡◌, [], IfOk};
ghost use Rattle.qws_base.specs.Scenes.{Setting};
ghost use Rattle.qws_base.specs.Shown.{shown_picture};
ghost use Rattle.session_replay.specs.Steps.{caller_at, IsCaller, AreCallers, IsReplay, IsReady, GoesOn};

use crate::answers::Answer;
use crate::callers::Caller;
use crate::steps::{learn, make_call};
use pixel_model::Canvas;
use qws_base::{OutOfMemory, RowBuf, Words};
use session_script::{Names, Script};
use std::alloc::Global;
use window_core::Core;

/// What a replay holds: the state of the server, the plain picture, room for a row of inks, and the clients by number.
#[derive(Drop)]
pub struct Replay {
    pub core: Core,
    pub canvas: Canvas,
    pub row: RowBuf,
    pub callers: Vec<Caller>,
}

// A client before its first call.
fn new_caller(alloc: Global, script: &Script, client: u32) -> Result<Caller, OutOfMemory>
    ensures { IfOk result (IsCaller script.now [] client) }
{
    let _all = script.calls();
    let names = Names::new(alloc, client)?;
    let calls = script.steps(client) + script.paints(client);
    Ok(Caller {
        names,
        made: 0,
        calls,
    })
}

// The clients before their first calls.
fn new_callers(alloc: Global, script: &Script) -> Result<Vec<Caller>, OutOfMemory>
    ensures { IfOk result (λ callers. AreCallers script.now [] callers.items) }
{
    let mut callers = Vec::new(alloc);
    for client in 0..script.clients() {
        let caller = new_caller(alloc, script, client)?;
        callers.push(caller)?;
    }
    Ok(callers)
}

/// A replay before the first call.
pub fn opening(alloc: Global, script: &Script) -> Result<Replay, OutOfMemory>
    ensures { IfOk result (IsReplay script.now []) }
{
    let size = script.size();
    let core = Core::new(alloc, size, script.backdrop())?;
    let canvas = Canvas::new(alloc, size, script.depth(), script.backdrop())?;
    let row = RowBuf::new(alloc)?;
    let callers = new_callers(alloc, script)?;
    Ok(Replay {
        core,
        canvas,
        row,
        callers,
    })
}

/// Makes the next call of a client.
pub fn call_next(
    alloc: Global,
    script: &Script,
    replay: &mut Replay,
    client: u32,
) -> Result<Answer, OutOfMemory>
    requires { IsReady script.now client replay.old (caller_at replay.old client) }
    ensures { IfOk result (GoesOn script.now client replay.old replay.new) }
{
    let caller = &replay.callers[client as usize];
    let call = caller.names.call(alloc, script, caller.made)?;
    let answer = make_call(
        alloc,
        &mut replay.core,
        &mut replay.canvas,
        &mut replay.row,
        client,
        &call,
    )?;
    learn(alloc, script, &mut replay.callers[client as usize], &answer)?;
    Ok(answer)
}

/// The colours of the shown picture, by rows.
pub fn shown(alloc: Global, replay: &Replay) -> Result<Words, OutOfMemory>
    ensures { IfOk result (λ shown. shown ≡ shown_picture replay.now.canvas.setting replay.now.core.state.cursor replay.now.canvas.scene) }
{
    let _windows = replay.core.windows();
    replay.canvas.show(alloc, replay.core.cursor())
}
