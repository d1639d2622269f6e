//! Sessions on threads, and their files.

use qws_base::NoGate;
use session_journal::read_file;
use session_replay::{Verdict, check};
use session_run::run_session;
use session_script::Script;
use std::alloc::Global;
use std::sync::Wait;
use std::test::Fail;
use std::thread::Threads;

/// The file of a script that was run on threads.
fn written<R: Threads + Wait + Sync>(rt: &R, alloc: Global, text: &[u8]) -> Result<Vec<u8>, Fail> {
    let script = Script::read(alloc, text)?;
    let (bytes, _closed) = run_session(rt, alloc, &script, &NoGate)?;
    Ok(bytes)
}

const EMPTY: (&[u8], &[u8]) = (
    b"screen 2 1 102030\nclients 0\nend\n",
    b"P6\n2 1\n255\n\x10\x20\x30\x10\x20\x30",
);

const CLIPPING: (&[u8], &[u8]) = (
    b"screen 3 2 000000\nclients 1\n0 create a 0\n0 region a 1 0 0 0 1 2\n0 fill a -5 -5 20 20 copy ff8000\nend\n",
    b"P6\n# 0 0 created 0\n# 0 1 done\n# 0 2 painted 2\n3 2\n255\n\x00\x00\x00\xff\x80\x00\x00\x00\x00\x00\x00\x00\xff\x80\x00\x00\x00\x00",
);

const LAYERS_AGAINST_RAISE: (&[u8], &[u8]) = (
    b"screen 1 1 000000\nclients 1\n0 create a 1\n0 create b 0\n0 region a 0 0 0 0 1 1\n0 region b 0 0 0 0 1 1\n0 raise b\n0 fill b 0 0 1 1 copy 111111\n0 fill a 0 0 1 1 copy 222222\nend\n",
    b"P6\n# 0 0 created 0\n# 0 1 created 1\n# 0 2 done\n# 0 3 done\n# 0 4 done\n# 0 5 painted 0\n# 0 6 painted 1\n1 1\n255\n\x22\x22\x22",
);

const UNDER_THE_CURSOR: (&[u8], &[u8]) = (
    b"screen 2 1 000000\nclients 1\n0 create a 0\n0 region a 0 0 0 0 2 1\n0 shape 1 1 ff0000ff\n0 show 1\n0 fill a 0 0 2 1 copy ffffff\n0 cursor 1 0\nend\n",
    b"P6\n# 0 0 created 0\n# 0 1 done\n# 0 2 done\n# 0 3 done\n# 0 4 painted 2\n# 0 5 done\n2 1\n255\n\xff\xff\xff\x00\x00\xff",
);

const ORIGIN_ALONE: (&[u8], &[u8]) = (
    b"screen 2 1 000000\nclients 1\n0 create a 0\n0 region a 0 0 -10 -10 100 100\n0 take\n0 move a 1 0\n0 take\n0 fill a 0 0 1 1 copy ffffff\nend\n",
    b"P6\n# 0 0 created 0\n# 0 1 done\n# 0 2 modified 0\n# 0 3 done\n# 0 4 refused 16\n# 0 5 painted 1\n2 1\n255\n\x00\x00\x00\xff\xff\xff",
);

const CARRIED_MOVE: (&[u8], &[u8]) = (
    b"screen 3 1 000000\nclients 1\n0 create a 0\n0 region a 0 0 0 0 2 1\n0 fill a 0 0 1 1 copy ff0000\n0 fill a 1 0 1 1 copy 00ff00\n0 move a 1 0\nend\n",
    b"P6\n# 0 0 created 0\n# 0 1 done\n# 0 2 painted 1\n# 0 3 painted 1\n# 0 4 done\n3 1\n255\n\x00\x00\x00\xff\x00\x00\x00\xff\x00",
);

#[test]
fn files_of_at_most_one_client(rt: HostRuntime) -> Result<(), Fail> {
    let cases = [
        EMPTY,
        CLIPPING,
        LAYERS_AGAINST_RAISE,
        UNDER_THE_CURSOR,
        ORIGIN_ALONE,
        CARRIED_MOVE,
    ];
    for (script, file) in cases {
        assert!(rt; written(&rt, rt.alloc(), script)?.as_slice() == file);
    }
    Ok(())
}

// Two clients whose windows overlap, and one that paints where they are.
const CROWD: &[u8] =
    b"screen 4 4 102030\nclients 3\n0 create a 0\n1 create b 0\n0 region a 0 0 0 0 3 3\n1 region b 1 1 0 0 3 3\n0 fill a 0 0 3 3 copy ff0000\n1 fill b 0 0 3 3 xor 00ff00\n2 fill #0 0 0 4 4 copy ffffff\n0 move a 1 1\n1 raise b\n0 fill a 0 0 3 3 or 0f0f0f\n1 destroy b\nend\n";

// How often they are run.
const RUNS: u32 = 40;

#[test]
fn crowds_hold(rt: HostRuntime) -> Result<(), Fail> {
    let script = Script::read(rt.alloc(), CROWD)?;
    for _run in 0..RUNS {
        let file = read_file(rt.alloc(), &written(&rt, rt.alloc(), CROWD)?)?;
        assert!(rt; file.lines.as_slice().len() == 11);
        assert!(rt; check(rt.alloc(), &script, &file)? == Verdict::Holds);
    }
    Ok(())
}
