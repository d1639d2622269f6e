//! A session, from the first client's pass to the file.
ghost use Rattle.std.specs.Prelude.{◌≡◌, length, IfOk};
ghost use Rattle.fb_words.specs.Views.{opening_server};
ghost use Rattle.server_desk.specs.DeskViews.{connected};
ghost use Rattle.script_grammar.specs.Session.{session_setting};
ghost use Rattle.session_run.specs.Clients.{AreFresh};
ghost use Rattle.session_run.specs.Sessions.{IsClosedRun, IsRunFile};

use crate::clients::run_all;
use fb_words::{Pass, Screen};
use qws_base::{Gate, OutOfMemory};
use server_desk::{CloseStop, Closed, ConnectStop, Desk};
use session_journal::{merge, write_file};
use session_replay::{one_run_in_order, runs_are_named};
use session_script::Script;
use shared_desk::SharedDesk;
use std::alloc::Global;
use std::sync::Wait;
use std::thread::Threads;

// A pass for each client.
fn connect_all(
    alloc: Global,
    screen: &Screen,
    desk: &mut Desk,
    script: &Script,
) -> Result<Vec<Pass>, OutOfMemory>
    requires screen { desk.old.screen ≡ screen.now }
    requires empty { connected desk.old ≡ 0 }
    ensures screen { IfOk result (λ _. desk.new.screen ≡ desk.old.screen) }
    ensures connected { IfOk result (λ _. connected desk.new ≡ script.now.clients) }
    ensures many { IfOk result (λ passes. length passes.items ≡ script.now.clients) }
    ensures fresh { IfOk result (λ passes. AreFresh screen.now desk.old.server.setting script.now passes.items) }
{
    let clients = script.clients();
    let mut passes = Vec::with_capacity(alloc, clients as usize)?;
    for client in 0..clients {
        let (steps, paints) = (script.steps(client), script.paints(client));
        match desk.connect(alloc, screen, steps, paints) {
            Ok(pass) => passes.push_reserved(pass),
            Err(ConnectStop::OutOfMemory) => return Err(OutOfMemory),
            Err(ConnectStop::TooManyClients { .. }) => unreachable!(),
        }
    }
    Ok(passes)
}

// The closed session.
fn close_run<R: Threads + Wait + Sync, G: Gate + Sync>(
    rt: &R,
    alloc: Global,
    script: &Script,
    gate: &G,
) -> Result<Closed, OutOfMemory>
    ensures { IfOk result (λ closed. IsClosedRun script.now closed) }
{
    let (screen, mut desk) = Desk::new(alloc, script.size(), script.depth(), script.backdrop())?;
    let passes = connect_all(alloc, &screen, &mut desk, script)?;
    let Ok((shared, callers)) = SharedDesk::new(alloc, desk, passes) else {
        return Err(OutOfMemory);
    };
    let callers = run_all(rt, alloc, &screen, &shared, script, callers, gate)?;
    let (desk, passes) = shared.into_parts(alloc, callers)?;
    match desk.close(alloc, screen, passes) {
        Ok(closed) => Ok(closed),
        Err((_, _, _, CloseStop::OutOfMemory)) => Err(OutOfMemory),
        Err((_, _, _, CloseStop::Missing { .. })) => unreachable!(),
    }
}

/// Runs a script: its clients make their calls, each in a thread of its own, over one screen and one shared desk; then the
/// session is closed, and its journal and books are merged and written. The bytes are the file of a run of the script, and
/// the closed session is that run's. The gate is handed to the clients. It waits, and may not return.
pub fn run_session<R: Threads + Wait + Sync, G: Gate + Sync>(
    rt: &R,
    alloc: Global,
    script: &Script,
    gate: &G,
) -> Result<(Vec<u8>, Closed), OutOfMemory>
    ensures { IfOk result (λ made. IsRunFile script.now made.0.items made.1) }
{
    runs_are_named(script);
    one_run_in_order(script);
    let closed = close_run(rt, alloc, script, gate)?;
    let history = merge(alloc, closed.journal(), closed.books())?;
    let bytes = write_file(alloc, closed.size(), &history, closed.shown())?;
    Ok((bytes, closed))
}
