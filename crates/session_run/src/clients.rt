//! Clients in threads.
ghost use Rattle.std.specs.Prelude.{◌≡◌, ◌<◌, ℕ, All, length, map, slice_index_or, IfOk};
ghost use Rattle.shared_desk.specs.Together.{AreAll};
ghost use Rattle.session_run.specs.Clients.{IsReady, HasRun, AllRan};

use client_session::run_client;
use fb_words::Screen;
use qws_base::{Gate, OutOfMemory};
use session_script::Script;
use shared_desk::{Caller, SharedDesk};
use std::alloc::Global;
use std::sync::Wait;
use std::thread;
use std::thread::Threads;

// One client's run.
fn run_one<R: Wait, G: Gate>(
    rt: &R,
    alloc: Global,
    screen: &Screen,
    shared: &SharedDesk,
    script: &Script,
    caller: Caller,
    gate: &G,
) -> Result<Caller, OutOfMemory>
    requires desk { shared.now.desk.screen ≡ screen.now }
    requires ready { IsReady screen.now shared.now script.now caller }
    ensures { IfOk result (λ back. HasRun script.now caller back) }
{
    let client = caller.pass.client();
    let (caller, done) = run_client(rt, alloc, screen, shared, script, client, caller, gate);
    done?;
    Ok(caller)
}

// All clients, each in a thread.
fn run_each<R: Threads + Wait + Sync, G: Gate + Sync>(
    rt: &R,
    alloc: Global,
    screen: &Screen,
    shared: &SharedDesk,
    script: &Script,
    callers: Vec<Caller>,
    gate: &G,
) -> Result<Vec<Result<Caller, OutOfMemory>>, OutOfMemory>
    requires desk { shared.now.desk.screen ≡ screen.now }
    requires ready { All (λ c. IsReady screen.now shared.now script.now c) callers.items }
    ensures many { IfOk result (λ v. length v.items ≡ length callers.items) }
    ensures each { IfOk result (λ v. (k : ℕ) (c : _) → k < length callers.items → IfOk (slice_index_or v.items k c) (λ back. (d : _) → HasRun script.now (slice_index_or callers.items k d) back)) }
{
    Ok(thread::map_vec(
        rt,
        callers,
        &|caller| { run_one(rt, alloc, screen, shared, script, caller, gate) },
    )?)
}

// The callers, where no client stopped.
fn finished(
    alloc: Global,
    answers: Vec<Result<Caller, OutOfMemory>>,
) -> Result<Vec<Caller>, OutOfMemory>
    ensures { IfOk result (λ back. answers.items ≡ map (λ c. Ok c) back.items) }
{
    let mut back = Vec::with_capacity(alloc, answers.len())?;
    for answer in answers {
        back.push_reserved(answer?);
    }
    Ok(back)
}

/// Runs all clients, each in a thread of its own. The callers come back in order, where no client stopped.
pub(crate) fn run_all<R: Threads + Wait + Sync, G: Gate + Sync>(
    rt: &R,
    alloc: Global,
    screen: &Screen,
    shared: &SharedDesk,
    script: &Script,
    callers: Vec<Caller>,
    gate: &G,
) -> Result<Vec<Caller>, OutOfMemory>
    requires desk { shared.now.desk.screen ≡ screen.now }
    requires ready { All (λ c. IsReady screen.now shared.now script.now c) callers.items }
    requires all { AreAll shared.now callers.items }
    ensures all { IfOk result (λ back. AreAll shared.now back.items) }
    ensures ran { IfOk result (λ back. AllRan script.now callers.items back.items) }
{
    let answers = run_each(rt, alloc, screen, shared, script, callers, gate)?;
    finished(alloc, answers)
}
