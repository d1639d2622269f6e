//! The calls of a session, one at a time, over a core and a canvas.
ghost use Rattle.std.specs.Prelude.{◌≡◌, ◌++◌, ◌+◌, ◌^◌, ℕ, Some, ◌<◌, IfOk, OnOk, length};
ghost use Rattle.std.specs.Option.{option_map};
ghost use Rattle.qws_base.specs.Steps.{step};
ghost use Rattle.qws_base.specs.Scenes.{setting_of};
ghost use Rattle.qws_base.specs.Windows.{layout_of};
ghost use Rattle.qws_base.specs.Histories.{World, scene_after};
ghost use Rattle.turn_logs.specs.Carries.{IsBare};
ghost use Rattle.window_core.specs.CoreViews.{CanRise};
ghost use Rattle.session_journal.specs.Texts.{comment, line_text};
ghost use Rattle.session_journal.specs.Grammar.{IsComment};
ghost use Rattle.script_grammar.specs.Session.{lines_by, call_line};
ghost use Rattle.script_names.specs.Naming.{naming};
ghost use Rattle.session_replay.specs.Runs.{entry_in};
ghost use Rattle.session_replay.specs.Steps.{answer_of, answer_words, learned_by_answer, IsNextWorld};

use crate::answers::Answer;
use crate::callers::Caller;
use crate::paints::make_paint;
use canvas_steps::show_step;
use pixel_model::Canvas;
use qws_base::{Command, OutOfMemory, Reply, RowBuf};
use session_journal::{push_paint_comment, push_step_comment};
use session_script::{Call, Names, Script};
use std::alloc::Global;
use window_core::Core;

// A command of a client.
fn make_step(
    alloc: Global,
    core: &mut Core,
    canvas: &mut Canvas,
    client: u32,
    command: &Command,
) -> Result<Reply, OutOfMemory>
    requires client { client < 16 }
    requires room { CanRise core.old.state }
    requires screen { canvas.old.setting ≡ setting_of core.old.size canvas.old.setting.depth core.old.backdrop }
    requires bare { IsBare canvas.old.setting (layout_of core.old.size core.old.state.windows) canvas.old.scene }
    ensures size { core.new.size ≡ core.old.size }
    ensures backdrop { core.new.backdrop ≡ core.old.backdrop }
    ensures setting { canvas.new.setting ≡ canvas.old.setting }
    ensures state { OnOk result (core.new.state ≡ (step core.old.size core.old.state client command.now).0) }
    ensures scene { let world : World = record { state = core.old.state; scene = canvas.old.scene } in
        OnOk result (canvas.new.scene ≡ scene_after canvas.old.setting world command.now (step core.old.size core.old.state client command.now)) }
    ensures reply { IfOk result (λ reply. reply ≡ (step core.old.size core.old.state client command.now).1) }
{
    let plan = core.plan(alloc, client, command)?;
    show_step(alloc, core, canvas, command, &plan)?;
    let (_, reply) = core.commit(plan);
    Ok(reply)
}

/// Makes a call of a client: the core and the canvas are the world after it, and the answer is the world's.
pub fn make_call(
    alloc: Global,
    core: &mut Core,
    canvas: &mut Canvas,
    row: &mut RowBuf,
    client: u32,
    call: &Call<'_>,
) -> Result<Answer, OutOfMemory>
    requires client { client < 16 }
    requires room { CanRise core.old.state }
    requires screen { canvas.old.setting ≡ setting_of core.old.size canvas.old.setting.depth core.old.backdrop }
    requires bare { IsBare canvas.old.setting (layout_of core.old.size core.old.state.windows) canvas.old.scene }
    ensures size { core.new.size ≡ core.old.size }
    ensures backdrop { core.new.backdrop ≡ core.old.backdrop }
    ensures setting { canvas.new.setting ≡ canvas.old.setting }
    ensures world { let world : World = record { state = core.old.state; scene = canvas.old.scene } in
        OnOk result ((k : ℕ) → IsNextWorld canvas.old.setting world (entry_in canvas.old.setting world client k call.now) core.new.state canvas.new.scene) }
    ensures answer { let world : World = record { state = core.old.state; scene = canvas.old.scene } in
        IfOk result (λ answer. (k : ℕ) → answer ≡ answer_of (entry_in canvas.old.setting world client k call.now)) }
{
    match call {
        Call::Step { command } => {
            let reply = make_step(alloc, core, canvas, client, command)?;
            Ok(Answer::Step { reply })
        }
        Call::Paint { slot, paint } => {
            let reply = make_paint(core, canvas, row, client, *slot, paint);
            Ok(Answer::Paint { reply })
        }
    }
}

/// Adds the comment of a call, from behind its `#` on.
pub fn push_comment(
    alloc: Global,
    text: &mut Vec<u8>,
    client: u32,
    number: u64,
    answer: &Answer,
) -> Result<(), OutOfMemory>
    ensures text { OnOk result (text.new.items ≡ text.old.items ++ comment client number (answer_words answer.now)) }
    ensures line { OnOk result (number < 2 ^ 32 → IsComment (comment client number (answer_words answer.now))) }
{
    match answer {
        Answer::Step { reply } => push_step_comment(alloc, text, client, number, reply),
        Answer::Paint { reply } => push_paint_comment(alloc, text, client, number, *reply),
    }
}

/// Adds the comment line of a call.
pub fn push_line(
    alloc: Global,
    text: &mut Vec<u8>,
    client: u32,
    number: u64,
    answer: &Answer,
) -> Result<(), OutOfMemory>
    ensures text { OnOk result (text.new.items ≡ text.old.items ++ line_text (comment client number (answer_words answer.now))) }
    ensures line { OnOk result (number < 2 ^ 32 → IsComment (comment client number (answer_words answer.now))) }
{
    text.push(b'#')?;
    push_comment(alloc, text, client, number, answer)?;
    text.push(b'\n')?;
    Ok(())
}

// What the answer to a client's call `k` teaches.
fn learn_names(
    alloc: Global,
    script: &Script,
    names: &mut Names,
    k: u64,
    answer: &Answer,
) -> Result<(), OutOfMemory>
    requires { k < length (lines_by names.old.client script.now.calls) }
    ensures client { names.new.client ≡ names.old.client }
    ensures slots { OnOk result (option_map (λ line. learned_by_answer (naming names.old.slots) line.call answer.now) (call_line script.now names.old.client k) ≡ Some (naming names.new.slots)) }
{
    match answer {
        Answer::Step { reply } => names.learn(alloc, script, k, reply),
        Answer::Paint { reply: _ } => Ok(()),
    }
}

/// A client learns what its next call was answered.
pub fn learn(
    alloc: Global,
    script: &Script,
    caller: &mut Caller,
    answer: &Answer,
) -> Result<(), OutOfMemory>
    requires call { caller.old.made < length (lines_by caller.old.names.client script.now.calls) }
    requires few { caller.old.made + 1 < 2 ^ 64 }
    ensures client { caller.new.names.client ≡ caller.old.names.client }
    ensures calls { caller.new.calls ≡ caller.old.calls }
    ensures made { OnOk result (caller.new.made ≡ caller.old.made + 1) }
    ensures slots { OnOk result (option_map (λ line. learned_by_answer (naming caller.old.names.slots) line.call answer.now) (call_line script.now caller.old.names.client caller.old.made) ≡ Some (naming caller.new.names.slots)) }
{
    let made = caller.made;
    learn_names(alloc, script, &mut caller.names, made, answer)?;
    caller.made = made + 1;
    Ok(())
}
