//! A client's commands.
ghost use Rattle.std.specs.Prelude.{◌≡◌, ◌<◌, ◌+◌, OnOk, OnErr};
ghost use Rattle.fb_words.specs.declared.known.Mode.TheVariants.{Idle};
ghost use Rattle.fb_words.specs.Views.{paints_in};
ghost use Rattle.fb_words.specs.Clips.{KeepsClips};
ghost use Rattle.script_names.specs.declared.calls.Call.TheVariants.{Step};
ghost use Rattle.session_script.specs.Calls.{IsFront};
ghost use Rattle.shared_desk.specs.Leases.{IsOf};
ghost use Rattle.shared_painter.specs.Answers.{IsBack};
ghost use Rattle.client_session.specs.Runs.{own_entries, IsAt, IsWithinLimits, MeansNow};

use fb_words::Screen;
use qws_base::{Command, OutOfMemory};
use session_script::{Names, Script};
use shared_desk::{Caller, SharedDesk, SharedStop};
use std::alloc::Global;
use std::sync::Wait;

/// Makes the client's call `k`, which is a command, and takes in its reply.
pub(crate) fn make_step<R: Wait>(
    rt: &R,
    alloc: Global,
    screen: &Screen,
    desk: &SharedDesk,
    script: &Script,
    names: &mut Names,
    k: u64,
    caller: Caller,
    command: &Command,
) -> (Caller, Result<(), OutOfMemory>)
    requires of { IsOf desk.now caller.lease }
    requires desk { desk.now.desk.screen ≡ screen.now }
    requires pass { caller.pass.screen ≡ screen.now }
    requires idle { caller.pass.client.mode ≡ Idle }
    requires limits { IsWithinLimits script.now caller.pass }
    requires at { IsAt script.now caller.pass.client k names.old }
    requires call { MeansNow script.now names.old k (Step command.now) }
    ensures lease { result.0.lease ≡ caller.lease }
    ensures back { IsBack caller.pass result.0.pass }
    ensures at { OnOk result.1 (IsAt script.now result.0.pass.client (k + 1) names.new) }
    ensures front { OnErr result.1 (IsFront script.now (own_entries result.0.pass.client) caller.pass.client.number) }
    ensures paints { paints_in result.0.pass.client.own ≡ paints_in caller.pass.client.own }
    ensures clips { KeepsClips caller.pass.client result.0.pass.client }
{
    let (caller, answer) = desk.call(rt, alloc, screen, caller, command);
    let answer = match answer {
        Ok(answer) => answer,
        Err(stop) => match stop {
            SharedStop::OutOfMemory => return (caller, Err(OutOfMemory)),
            SharedStop::JournalFull { .. } => unreachable!(),
        },
    };
    let learned = names.learn(alloc, script, k, &answer.reply);
    (caller, learned)
}
