//! What scripts say, and their bytes again.
use qws_base::Depth;
use session_script::{Script, ScriptStop};
use std::alloc::Global;
use std::process::Abort;
use std::test::Fail;

const CLIPPING: &[u8] =
    b"screen 3 2 000000\nclients 1\n0 create a 0\n0 region a 1 0 0 0 1 2\n0 fill a -5 -5 20 20 copy ff8000\nend\n";

// Every form of a line.
const FORMS: &[u8] = b"depth 16
screen 640 480 0a0b0c
clients 16
font 3
glyph 65 3 2 7 5
glyph 0 32 ffffffff 00000000 80000001
font 1
image 2 1 ff102030800f0f0f
0 create a 0
15 region #3 -32768 32767 -1 -2 0 65535 3 4 5 6
0 destroy a
0 move a -1 0
0 raise #0
0 lower #32
0 shape 1 2 ff0000ff000000ff
0 shape 0 0 -
0 cursor 1 -1
0 show 0
0 show 1
0 join c!
0 leave c
0 send c m 00ff
0 send c m -
0 take
0 known c
0 fill a -4096 4095 1 4096 copy ff8000
0 tile a 0 0 3 4 0
0 blit a -5 6 0 128
0 line a 0 0 9 -9 00ff00
0 polyline a 00ff00 0 0 9 -9 9 9
0 polygon a blend 7 00ff00 0 0 9 -9 9 9
0 text a 0 1 2 xor 00ff00 65 0 65
end
";

fn prints_again(rt: &impl Abort, alloc: Global, bytes: &[u8]) -> Result<(), ScriptStop> {
    let script = Script::read(alloc, bytes)?;
    let printed = script.print(alloc)?;
    assert!(rt; printed.as_slice() == bytes);
    Ok(())
}

#[test]
fn scripts_are_printed_as_they_were_read(rt: HostRuntime) -> Result<(), Fail> {
    prints_again(&rt, rt.alloc(), b"screen 2 1 102030\nclients 0\nend\n")?;
    prints_again(&rt, rt.alloc(), CLIPPING)?;
    prints_again(&rt, rt.alloc(), FORMS)?;
    Ok(())
}

#[test]
fn what_a_script_says(rt: HostRuntime) -> Result<(), Fail> {
    let script = Script::read(rt.alloc(), FORMS)?;
    assert!(rt; script.depth() == Depth::Narrow);
    assert!(rt; (script.size().w(), script.size().h()) == (640, 480));
    assert!(rt; script.backdrop().value() == 0x0a0b0c);
    assert!(rt; script.clients() == 16);
    assert!(rt; (script.steps(0), script.paints(0)) == (16, 7));
    assert!(rt; (script.steps(15), script.paints(15)) == (1, 0));
    assert!(rt; (script.steps(1), script.paints(1)) == (0, 0));
    assert!(rt; (script.steps(16), script.paints(16)) == (0, 0));
    Ok(())
}

#[test]
fn whose_each_line_is(rt: HostRuntime) -> Result<(), Fail> {
    let script = Script::read(rt.alloc(), FORMS)?;
    assert!(rt; script.calls() == 24);
    for j in 0..script.calls() {
        let client = if j == 1 { 15 } else { 0 };
        assert!(rt; script.client_of(j) == client, "{j}");
    }
    Ok(())
}

#[test]
fn full_depth_where_none_is_said(rt: HostRuntime) -> Result<(), Fail> {
    let script = Script::read(rt.alloc(), CLIPPING)?;
    assert!(rt; script.depth() == Depth::Full);
    assert!(rt; (script.steps(0), script.paints(0)) == (2, 1));
    Ok(())
}
