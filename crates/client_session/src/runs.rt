//! A client's run.
ghost use Rattle.std.specs.Prelude.{◌≡◌, ◌<◌, ◌≤◌, ◌+◌, [], IfOk, OnOk, OnErr};
ghost use Rattle.fb_words.specs.declared.known.Mode.TheVariants.{Idle};
ghost use Rattle.fb_words.specs.Views.{paints_in};
ghost use Rattle.script_grammar.specs.Session.{step_count, paint_count};
ghost use Rattle.session_script.specs.Calls.{IsFront, IsWhole};
ghost use Rattle.shared_desk.specs.Leases.{IsOf};
ghost use Rattle.shared_painter.specs.Answers.{IsBack};
ghost use Rattle.client_session.specs.Looking.{FetchesOnce};
ghost use Rattle.client_session.specs.Runs.{own_entries, IsRunning, IsWithinLimits};

use crate::paints::make_paint;
use crate::spaces::Workspace;
use crate::steps::make_step;
use fb_words::Screen;
use qws_base::{Gate, OutOfMemory, Place};
use script_grammar::keeps_limits;
use session_script::{Call, Script};
use shared_desk::{Caller, SharedDesk};
use std::alloc::Global;
use std::sync::Wait;

/// How many calls a client has made.
#[derive(Clone, Copy, Debug, PartialEq, Eq)]
pub struct Done {
    /// Commands.
    pub steps: u64,
    /// Paints.
    pub paints: u64,
}

// Makes the client's call `k`.
fn make_call<R: Wait, G: Gate>(
    rt: &R,
    alloc: Global,
    screen: &Screen,
    desk: &SharedDesk,
    script: &Script,
    space: &mut Workspace,
    k: u64,
    caller: Caller,
    gate: &G,
) -> (Caller, Result<(), OutOfMemory>)
    requires of { IsOf desk.now caller.lease }
    requires desk { desk.now.desk.screen ≡ screen.now }
    requires pass { caller.pass.screen ≡ screen.now }
    requires running { IsRunning script.now caller.pass k space.old }
    requires more { k < step_count script.now caller.pass.client.number + paint_count script.now caller.pass.client.number }
    ensures lease { result.0.lease ≡ caller.lease }
    ensures back { IsBack caller.pass result.0.pass }
    ensures running { OnOk result.1 (IsRunning script.now result.0.pass (k + 1) space.new) }
    ensures front { OnErr result.1 (IsFront script.now (own_entries result.0.pass.client) caller.pass.client.number) }
    ensures once { FetchesOnce (paints_in result.0.pass.client.own) }
{
    let mut caller = caller;
    let call = match space.names.call(alloc, script, k) {
        Ok(call) => call,
        Err(OutOfMemory) => return (caller, Err(OutOfMemory)),
    };
    match call {
        Call::Step { command } => make_step(
            rt,
            alloc,
            screen,
            desk,
            script,
            &mut space.names,
            k,
            caller,
            &command,
        ),
        Call::Paint { slot, paint } => {
            let made = make_paint(
                rt,
                alloc,
                screen,
                script,
                space,
                k,
                &mut caller.pass,
                slot,
                &paint,
                gate,
            );
            (caller, made)
        }
    }
}

/// Makes a client's calls in their order: its commands through the shared desk, its paints on the shared words. A paint that is
/// busy is tried again; its tag is its call number. There is one clip a slot, from the first paint there on. The gate is called
/// after each call. The pass that comes back has made the client's whole list of calls, and nothing else; after OutOfMemory
/// it has made the first of them. It waits, and may not return.
pub fn run_client<R: Wait, G: Gate>(
    rt: &R,
    alloc: Global,
    screen: &Screen,
    desk: &SharedDesk,
    script: &Script,
    client: u32,
    caller: Caller,
    gate: &G,
) -> (Caller, Result<Done, OutOfMemory>)
    requires of { IsOf desk.now caller.lease }
    requires desk { desk.now.desk.screen ≡ screen.now }
    requires pass { caller.pass.screen ≡ screen.now }
    requires idle { caller.pass.client.mode ≡ Idle }
    requires client { caller.pass.client.number ≡ client }
    requires fresh { caller.pass.client.own ≡ [] }
    requires limits { IsWithinLimits script.now caller.pass }
    ensures lease { result.0.lease ≡ caller.lease }
    ensures back { IsBack caller.pass result.0.pass }
    ensures whole { OnOk result.1 (IsWhole script.now (own_entries result.0.pass.client) client) }
    ensures done { IfOk result.1 (λ done. (done.steps ≡ step_count script.now client) × (done.paints ≡ paint_count script.now client)) }
    ensures front { OnErr result.1 (IsFront script.now (own_entries result.0.pass.client) client) }
    ensures once { FetchesOnce (paints_in result.0.pass.client.own) }
{
    keeps_limits();
    let _calls = script.calls();
    let mut space = match Workspace::new(alloc, client) {
        Ok(space) => space,
        Err(OutOfMemory) => return (caller, Err(OutOfMemory)),
    };
    let steps = script.steps(client);
    let paints = script.paints(client);
    let mut caller = caller;
    for k in 0..steps + paints {
        let (back, made) = make_call(rt, alloc, screen, desk, script, &mut space, k, caller, gate);
        caller = back;
        if made.is_err() {
            return (caller, Err(OutOfMemory));
        }
        gate.at(client, Place::AfterTurn);
    }
    (caller, Ok(Done { steps, paints }))
}
