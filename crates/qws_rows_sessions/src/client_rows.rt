//! A client that makes its calls alone.
ghost use Rattle.std.specs.Prelude.{◌≡◌, IfOk};
ghost use Rattle.session_run.specs.Clients.{IsReady};

use client_session::{Done, run_client};
use fb_words::Screen;
use qws_base::NoGate;
use server_desk::Desk;
use session_script::Script;
use shared_desk::{Caller, SharedDesk};
use std::alloc::Global;
use std::test::Fail;

// A shared desk, with the one caller that has made none of its calls.
fn open(alloc: Global, script: &Script) -> Result<(Screen, SharedDesk, Caller), Fail>
    ensures desk { IfOk result (λ made. made.1.desk.screen ≡ made.0) }
    ensures ready { IfOk result (λ made. IsReady made.0 made.1 script.now made.2) }
{
    let (screen, mut desk) = Desk::new(alloc, script.size(), script.depth(), script.backdrop())?;
    let (steps, paints) = (script.steps(0), script.paints(0));
    let pass = desk.connect(alloc, &screen, steps, paints)?;
    let passes = vec![in alloc; pass]?;
    let Ok((shared, mut callers)) = SharedDesk::new(alloc, desk, passes) else {
        return Err(Fail::new("no memory for a shared desk"));
    };
    let Some(caller) = callers.pop() else {
        return Err(Fail::new("no caller"));
    };
    Ok((screen, shared, caller))
}

const CLIPPING: &[u8] =
    b"screen 3 2 000000\nclients 1\n0 create a 0\n0 region a 1 0 0 0 1 2\n0 fill a -5 -5 20 20 copy ff8000\nend\n";

#[test]
fn a_client_makes_its_calls(rt: HostRuntime) -> Result<(), Fail> {
    let alloc = rt.alloc();
    let script = Script::read(alloc, CLIPPING)?;
    let (screen, shared, caller) = open(alloc, &script)?;
    let client = caller.pass.client();
    let (caller, done) = run_client(
        &rt, alloc, &screen, &shared, &script, client, caller, &NoGate,
    );
    assert!(rt; client == 0);
    assert!(rt;
        done == Ok(Done {
            steps: 2,
            paints: 1
        })
    );
    assert!(rt; caller.pass.entries().len() == 1);
    Ok(())
}
