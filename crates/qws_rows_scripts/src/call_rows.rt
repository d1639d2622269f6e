//! What a client's calls mean after the replies to those before them.
ghost use Rattle.std.specs.Prelude.{◌≡◌, ◌+◌, ◌<◌, length, IsTrue, IfOk};
ghost use Rattle.script_grammar.specs.Session.{lines_by};

use gfx_painters::Paint;
use qws_base::{Bytes, Command, OutOfMemory, Point, Rect, Rects, Refusal, Reply, Words};
use session_script::{Call, Names, Script};
use std::alloc::Global;
use std::process::Abort;
use std::test::Fail;

/// Whether a client gives so many commands and paints so often.
pub(crate) fn has_calls(script: &Script, client: u32, steps: u64, paints: u64) -> bool
    ensures { IsTrue result → length (lines_by client script.now.calls) ≡ steps + paints }
{
    script.steps(client) == steps && script.paints(client) == paints
}

// One client creates 33 windows, paints in the last and raises it.
fn crowded(alloc: Global) -> Result<String, OutOfMemory> {
    let mut text = String::new(alloc);
    text.push_str("screen 1 1 ffffff\nclients 1\n")?;
    for i in 0..32 {
        text.push_str(format!(in alloc; "0 create w{i} 0\n")?.as_str())?;
    }
    text.push_str("0 create x 0\n0 fill x 0 0 1 1 copy ffffff\n0 raise x\n0 raise w31\nend\n")?;
    Ok(text)
}

// The names of client 0 after the replies to the creates.
fn after_creates(alloc: Global, script: &Script) -> Result<Names, OutOfMemory>
    requires { length (lines_by 0 script.now.calls) ≡ 36 }
    ensures { IfOk result (λ names. names.client ≡ 0) }
{
    let mut names = Names::new(alloc, 0)?;
    for k in 0u32..32 {
        let created = Reply::Created { slot: k };
        names.learn(alloc, script, u64::from(k), &created)?;
    }
    let refused = Reply::Refused {
        cause: Refusal::NoSlot,
    };
    names.learn(alloc, script, 32, &refused)?;
    Ok(names)
}

#[test]
fn names_after_the_33rd_create(rt: HostRuntime) -> Result<(), Fail> {
    let alloc = rt.alloc();
    let text = crowded(alloc)?;
    let script = Script::read(alloc, text.as_bytes())?;
    assert!(rt; has_calls(&script, 0, 35, 1));
    let names = after_creates(alloc, &script)?;
    match names.call(alloc, &script, 33)? {
        Call::Paint { slot, paint: _ } => assert!(rt; slot == 32),
        Call::Step { .. } => assert!(rt; false),
    }
    for (k, slot) in [(34, 32), (35, 31)] {
        match names.call(alloc, &script, k)? {
            Call::Step { command } => assert!(rt; command == Command::Raise { slot }),
            Call::Paint { .. } => assert!(rt; false),
        }
    }
    Ok(())
}
