//! What a call of each kind means.
ghost use Rattle.std.specs.Prelude.{◌≡◌, ◌+◌, ◌<◌, length, IfOk};
ghost use Rattle.script_grammar.specs.Session.{lines_by};

use crate::call_rows::has_calls;
use qws_base::{Bytes, Command, OutOfMemory, Picture, Point, Rect, Rects, Words};
use session_script::{Call, Names, Script};
use std::alloc::Global;
use std::test::Fail;

const KINDS: &[u8] = b"screen 1 1 000000
clients 1
font 1
glyph 65 1 1
image 2 1 ff102030800f0f0f
0 create a 1
0 destroy #3
0 region #4 1 -2 3 4 5 6
0 move #31 -1 0
0 raise #0
0 lower #32
0 shape 1 2 ff0000ff000000ff
0 cursor 1 -1
0 show 1
0 join c
0 leave c!
0 send c m 00ff
0 take
0 known c
0 fill #0 1 2 3 4 copy ff8000
0 tile #1 1 2 3 4 0
0 blit #2 1 2 0 128
0 line #3 0 0 9 -9 00ff00
0 polyline #4 00ff00 0 0 9 -9 9 9
0 polygon #5 copy 00ff00 0 0 9 -9 9 9
0 text #6 0 1 2 xor 00ff00 65
end
";

fn bytes(alloc: Global, text: &[u8]) -> Result<Bytes, OutOfMemory> {
    Ok(Bytes::of(text.to_vec(alloc)?))
}

// The commands of the first seven calls.
fn window_commands(alloc: Global) -> Result<Vec<Command>, OutOfMemory>
    ensures { IfOk result (λ commands. length commands.items ≡ 7) }
{
    let rect = Rect {
        x: 3,
        y: 4,
        w: 5,
        h: 6,
    };
    let rects = Rects::of(vec![in alloc; rect]?);
    let cells = Words::of(vec![in alloc; 0xff0000ff, 0xff]?);
    Ok(vec![in alloc;
        Command::Create { layer: 1 },
        Command::Destroy { slot: 3 },
        Command::Region {
            slot: 4,
            origin: Point { x: 1, y: -2 },
            rects
        },
        Command::Move {
            slot: 31,
            origin: Point { x: -1, y: 0 }
        },
        Command::Raise { slot: 0 },
        Command::Lower { slot: 32 },
        Command::CursorShape { w: 1, h: 2, cells },
    ]?)
}

// Those of the seven calls behind them.
fn other_commands(alloc: Global) -> Result<Vec<Command>, OutOfMemory>
    ensures { IfOk result (λ commands. length commands.items ≡ 7) }
{
    let joined = bytes(alloc, b"c")?;
    let left = bytes(alloc, b"c!")?;
    let channel = bytes(alloc, b"c")?;
    let message = bytes(alloc, b"m")?;
    let payload = bytes(alloc, &[0x00, 0xff])?;
    let known = bytes(alloc, b"c")?;
    Ok(vec![in alloc;
        Command::CursorMove { x: 1, y: -1 },
        Command::CursorShow { shown: true },
        Command::Join { channel: joined },
        Command::Leave { channel: left },
        Command::Send {
            channel,
            message,
            payload
        },
        Command::Take,
        Command::IsRegistered { channel: known },
    ]?)
}

// The command of call `k`, before any reply; none where it paints.
fn command_of(alloc: Global, script: &Script, k: u64) -> Result<Option<Command>, OutOfMemory>
    requires { k < length (lines_by 0 script.now.calls) }
{
    let names = Names::new(alloc, 0)?;
    match names.call(alloc, script, k)? {
        Call::Step { command } => Ok(Some(command)),
        Call::Paint { .. } => Ok(None),
    }
}

// The slot and the reach of what call `k` paints; none where it is a command.
fn paint_of(alloc: Global, script: &Script, k: u64) -> Result<Option<(u32, Rect)>, OutOfMemory>
    requires { k < length (lines_by 0 script.now.calls) }
{
    let names = Names::new(alloc, 0)?;
    match names.call(alloc, script, k)? {
        Call::Paint { slot, paint } => Ok(Some((slot, paint.reach()))),
        Call::Step { .. } => Ok(None),
    }
}

#[test]
fn commands_of_each_kind(rt: HostRuntime) -> Result<(), Fail> {
    let alloc = rt.alloc();
    let script = Script::read(alloc, KINDS)?;
    assert!(rt; has_calls(&script, 0, 14, 7));
    let first = window_commands(alloc)?;
    let second = other_commands(alloc)?;
    for k in 0..7 {
        let found = command_of(alloc, &script, k as u64)?;
        assert!(rt; found.as_ref() == Some(&first[k]), "{k}");
        let found = command_of(alloc, &script, k as u64 + 7)?;
        assert!(rt; found.as_ref() == Some(&second[k]), "{k}");
    }
    Ok(())
}

#[test]
fn paints_of_each_kind(rt: HostRuntime) -> Result<(), Fail> {
    let alloc = rt.alloc();
    let script = Script::read(alloc, KINDS)?;
    assert!(rt; has_calls(&script, 0, 14, 7));
    for i in 0u32..7 {
        match paint_of(alloc, &script, u64::from(i) + 14)? {
            Some((slot, _)) => assert!(rt; slot == i),
            None => assert!(rt; false, "{i}"),
        }
    }
    for (k, w, h) in [(14, 3, 4), (15, 3, 4), (16, 2, 1)] {
        match paint_of(alloc, &script, k)? {
            Some((_, reach)) => assert!(rt; reach == Rect { x: 1, y: 2, w, h }),
            None => assert!(rt; false, "{k}"),
        }
    }
    Ok(())
}
