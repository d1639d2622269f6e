//! Files of sessions in the order of their lines, each held by its check.

use session_journal::read_file;
use session_replay::{
    Verdict, check, file_names_run, holds_for_runs, in_order, one_run_in_order, one_verdict,
    runs_are_named,
};
use session_script::Script;
use std::alloc::Global;
use std::test::Fail;

/// What a check tells of these bytes, as the file of that script.
pub fn verdict(alloc: Global, script: &[u8], file: &[u8]) -> Result<Verdict, Fail> {
    let script = Script::read(alloc, script)?;
    let file = read_file(alloc, file)?;
    Ok(check(alloc, &script, &file)?)
}

/// The file of a script in the order of its lines.
pub fn written(alloc: Global, script: &[u8]) -> Result<Vec<u8>, Fail> {
    let script = Script::read(alloc, script)?;
    Ok(in_order(alloc, &script)?)
}

const EMPTY: (&[u8], &[u8]) = (
    b"screen 2 1 102030\nclients 0\nend\n",
    b"P6\n2 1\n255\n\x10\x20\x30\x10\x20\x30",
);

const CLIPPING: (&[u8], &[u8]) = (
    b"screen 3 2 000000\nclients 1\n0 create a 0\n0 region a 1 0 0 0 1 2\n0 fill a -5 -5 20 20 copy ff8000\nend\n",
    b"P6\n# 0 0 created 0\n# 0 1 done\n# 0 2 painted 2\n3 2\n255\n\x00\x00\x00\xff\x80\x00\x00\x00\x00\x00\x00\x00\xff\x80\x00\x00\x00\x00",
);

const SAME_REQUEST_OF_TWO: (&[u8], &[u8]) = (
    b"screen 2 1 000000\nclients 2\n0 create a 0\n0 region a 0 0 0 0 2 1\n1 create a 0\n1 region a 0 0 0 0 2 1\n0 fill a 0 0 2 1 copy 0000ff\n1 fill a 0 0 2 1 copy 00ff00\nend\n",
    b"P6\n# 0 0 created 0\n# 0 1 done\n# 1 0 created 1\n# 1 1 done\n# 0 2 painted 0\n# 1 2 painted 2\n2 1\n255\n\x00\xff\x00\x00\xff\x00",
);

const LAYERS_AGAINST_RAISE: (&[u8], &[u8]) = (
    b"screen 1 1 000000\nclients 1\n0 create a 1\n0 create b 0\n0 region a 0 0 0 0 1 1\n0 region b 0 0 0 0 1 1\n0 raise b\n0 fill b 0 0 1 1 copy 111111\n0 fill a 0 0 1 1 copy 222222\nend\n",
    b"P6\n# 0 0 created 0\n# 0 1 created 1\n# 0 2 done\n# 0 3 done\n# 0 4 done\n# 0 5 painted 0\n# 0 6 painted 1\n1 1\n255\n\x22\x22\x22",
);

const FOREIGN_WINDOW: (&[u8], &[u8]) = (
    b"screen 1 1 000000\nclients 2\n0 create a 0\n1 raise #0\nend\n",
    b"P6\n# 0 0 created 0\n# 1 0 refused 2 0 0\n1 1\n255\n\x00\x00\x00",
);

const REPETITION: (&[u8], &[u8]) = (
    b"screen 1 1 123456\nclients 1\n0 create a 0\n0 region a 0 0 0 0 1 1\n0 fill a 0 0 1 1 xor 0f0f0f\n0 fill a 0 0 1 1 xor 0f0f0f\nend\n",
    b"P6\n# 0 0 created 0\n# 0 1 done\n# 0 2 painted 1\n# 0 3 painted 1\n1 1\n255\n\x12\x34\x56",
);

const UNDER_THE_CURSOR: (&[u8], &[u8]) = (
    b"screen 2 1 000000\nclients 1\n0 create a 0\n0 region a 0 0 0 0 2 1\n0 shape 1 1 ff0000ff\n0 show 1\n0 fill a 0 0 2 1 copy ffffff\n0 cursor 1 0\nend\n",
    b"P6\n# 0 0 created 0\n# 0 1 done\n# 0 2 done\n# 0 3 done\n# 0 4 painted 2\n# 0 5 done\n2 1\n255\n\xff\xff\xff\x00\x00\xff",
);

const CORNER: (&[u8], &[u8]) = (
    b"screen 2 2 000000\nclients 1\n0 shape 2 2 ffff0000ffff0000ffff0000ffff0000\n0 cursor 1 1\n0 show 1\n0 cursor 2 0\nend\n",
    b"P6\n# 0 0 done\n# 0 1 done\n# 0 2 done\n# 0 3 refused 7 2 0\n2 2\n255\n\x00\x00\x00\x00\x00\x00\x00\x00\x00\xff\x00\x00",
);

const SLOT_USED_AGAIN: (&[u8], &[u8]) = (
    b"screen 1 1 000000\nclients 2\n0 create a 0\n0 region a 0 0 0 0 1 1\n0 fill a 0 0 1 1 copy ff0000\n0 destroy a\n1 create b 0\n1 region b 0 0 0 0 1 1\n0 fill a 0 0 1 1 copy 00ff00\n1 fill b 0 0 1 1 copy 0000ff\nend\n",
    b"P6\n# 0 0 created 0\n# 0 1 done\n# 0 2 painted 1\n# 0 3 done\n# 1 0 created 0\n# 1 1 done\n# 0 4 gone\n# 1 2 painted 1\n1 1\n255\n\x00\x00\xff",
);

const ORIGIN_ALONE: (&[u8], &[u8]) = (
    b"screen 2 1 000000\nclients 1\n0 create a 0\n0 region a 0 0 -10 -10 100 100\n0 take\n0 move a 1 0\n0 take\n0 fill a 0 0 1 1 copy ffffff\nend\n",
    b"P6\n# 0 0 created 0\n# 0 1 done\n# 0 2 modified 0\n# 0 3 done\n# 0 4 refused 16\n# 0 5 painted 1\n2 1\n255\n\x00\x00\x00\xff\xff\xff",
);

const NARROW: (&[u8], &[u8]) = (
    b"depth 16\nscreen 2 1 123456\nclients 1\n0 create a 0\n0 region a 0 0 1 0 1 1\n0 fill a 1 0 1 1 copy ff8000\nend\n",
    b"P6\n# 0 0 created 0\n# 0 1 done\n# 0 2 painted 1\n2 1\n255\n\x10\x34\x52\xff\x82\x00",
);

const NARROW_BLEND: (&[u8], &[u8]) = (
    b"depth 16\nscreen 2 1 123456\nclients 1\n0 create a 0\n0 region a 0 0 1 0 1 1\n0 fill a 1 0 1 1 copy ff8000\n0 fill a 1 0 1 1 blend 128 0000ff\nend\n",
    b"P6\n# 0 0 created 0\n# 0 1 done\n# 0 2 painted 1\n# 0 3 painted 1\n2 1\n255\n\x10\x34\x52\x7b\x41\x84",
);

const CARRIED_MOVE: (&[u8], &[u8]) = (
    b"screen 3 1 000000\nclients 1\n0 create a 0\n0 region a 0 0 0 0 2 1\n0 fill a 0 0 1 1 copy ff0000\n0 fill a 1 0 1 1 copy 00ff00\n0 move a 1 0\nend\n",
    b"P6\n# 0 0 created 0\n# 0 1 done\n# 0 2 painted 1\n# 0 3 painted 1\n# 0 4 done\n3 1\n255\n\x00\x00\x00\xff\x00\x00\x00\xff\x00",
);

const MOVE_FROM_UNDER: (&[u8], &[u8]) = (
    b"screen 2 1 000000\nclients 1\n0 create a 0\n0 region a 0 0 0 0 1 1\n0 fill a 0 0 1 1 copy ff0000\n0 create b 0\n0 region b 0 0 0 0 1 1\n0 move a 1 0\nend\n",
    b"P6\n# 0 0 created 0\n# 0 1 done\n# 0 2 painted 1\n# 0 3 created 1\n# 0 4 done\n# 0 5 done\n2 1\n255\n\xff\x00\x00\x00\x00\x00",
);

#[test]
fn files_in_the_order_of_the_lines(rt: HostRuntime) -> Result<(), Fail> {
    let alloc = rt.alloc();
    let cases = [
        EMPTY,
        CLIPPING,
        SAME_REQUEST_OF_TWO,
        LAYERS_AGAINST_RAISE,
        FOREIGN_WINDOW,
        REPETITION,
        UNDER_THE_CURSOR,
        CORNER,
        SLOT_USED_AGAIN,
        ORIGIN_ALONE,
        NARROW,
        NARROW_BLEND,
        CARRIED_MOVE,
        MOVE_FROM_UNDER,
    ];
    for (script, file) in cases {
        assert!(rt; written(alloc, script)?.as_slice() == file);
        assert!(rt; verdict(alloc, script, file)? == Verdict::Holds);
    }
    Ok(())
}

// The laws are called, and the comment lines of a written file read back.
#[test]
fn comments_are_read_back(rt: HostRuntime) -> Result<(), Fail> {
    let alloc = rt.alloc();
    let script = Script::read(alloc, CLIPPING.0)?;
    file_names_run(&script);
    one_run_in_order(&script);
    runs_are_named(&script);
    one_verdict(&script);
    holds_for_runs(&script);
    let bytes = in_order(alloc, &script)?;
    let file = read_file(alloc, bytes.as_slice())?;
    let lines = file.lines.as_slice();
    assert!(rt; lines.len() == 3);
    assert!(rt; lines[0].as_slice() == b" 0 0 created 0".as_slice());
    assert!(rt; lines[2].as_slice() == b" 0 2 painted 2".as_slice());
    Ok(())
}
