//! Bytes that are no script: the first bad line and its first cause.
use session_script::{Cause, Script, ScriptStop};
use std::alloc::Global;
use std::test::Fail;

/// The first bad line and its cause; none where the bytes are a script.
pub(crate) fn found_bad(alloc: Global, bytes: &[u8]) -> Result<Option<(u64, Cause)>, ScriptStop> {
    match Script::read(alloc, bytes) {
        Ok(_) => Ok(None),
        Err(ScriptStop::Bad { line, cause }) => Ok(Some((line, cause))),
        Err(stop) => Err(stop),
    }
}

#[test]
fn first_lines(rt: HostRuntime) -> Result<(), Fail> {
    let rows: [(&[u8], u64, Cause); 14] = [
        (b"", 1, Cause::End),
        (b"screen 2 1 102030", 1, Cause::End),
        (b"screen 0 1 102030\nclients 0\nend\n", 1, Cause::Range),
        (b"screen 2 1 10203G\nclients 0\nend\n", 1, Cause::Number),
        (b"screen 641 1 102030\nclients 0\nend\n", 1, Cause::Range),
        (b"screen 1 481 102030\nclients 0\nend\n", 1, Cause::Range),
        (b"screen 2 1\nclients 0\nend\n", 1, Cause::Form),
        (b"screen  2 1 102030\nclients 0\nend\n", 1, Cause::Form),
        (b"\nscreen 2 1 102030\nclients 0\nend\n", 1, Cause::Form),
        (
            b"depth 15\nscreen 2 1 102030\nclients 0\nend\n",
            1,
            Cause::Range,
        ),
        (b"depth 16\ndepth 16\nclients 0\nend\n", 2, Cause::Form),
        (b"screen 2 1 102030\ndepth 16\nend\n", 2, Cause::Form),
        (b"screen 2 1 102030\nclients 17\nend\n", 2, Cause::Range),
        (b"screen 2 1 102030\nend\n", 2, Cause::Form),
    ];
    for (bytes, line, cause) in rows {
        let found = found_bad(rt.alloc(), bytes)?;
        assert!(rt; found == Some((line, cause)), "{bytes:?}");
    }
    Ok(())
}

#[test]
fn lines_behind_the_head(rt: HostRuntime) -> Result<(), Fail> {
    let rows: [(&[u8], u64, Cause); 14] = [
        (
            b"screen 2 1 102030\nclients 0\n0 take\nend\n",
            3,
            Cause::Unknown,
        ),
        (
            b"screen 3 2 000000\nclients 1\n0 create a 0\n0 region a 1 0 0 0 1 2\n0 paint a\nend\n",
            5,
            Cause::Form,
        ),
        (
            b"screen 2 1 102030\nclients 1\n0 take\nfont 1\nend\n",
            4,
            Cause::Form,
        ),
        (
            b"screen 2 1 102030\nclients 1\nglyph 65 1 1\nend\n",
            3,
            Cause::Form,
        ),
        (
            b"screen 2 1 102030\nclients 1\nfont 1\nglyph 65 1 1\nglyph 65 1 0\nend\n",
            5,
            Cause::Repeated,
        ),
        (
            b"screen 2 1 102030\nclients 1\nfont 1\nglyph 65 1 1\n0 text a 0 0 0 copy ffffff 65 66\nend\n",
            5,
            Cause::Missing,
        ),
        (
            b"screen 2 1 102030\nclients 1\n0 text a 0 0 0 copy ffffff 65\nend\n",
            3,
            Cause::Unknown,
        ),
        (
            b"screen 2 1 102030\nclients 1\nimage 1 1 ff00\nend\n",
            3,
            Cause::Number,
        ),
        (
            b"screen 2 1 102030\nclients 1\nimage 2 1 ff000000\nend\n",
            3,
            Cause::Range,
        ),
        (
            b"screen 2 1 102030\nclients 1\nimage take\nend\n",
            3,
            Cause::Number,
        ),
        (
            b"screen 2 1 102030\nclients 1\n0 take\n\nend\n",
            4,
            Cause::Form,
        ),
        (
            b"screen 2 1 102030\nclients 1\n0 take \nend\n",
            3,
            Cause::Form,
        ),
        (
            b"screen 2 1 102030\nclients 1\n9 create A 70000\nend\n",
            3,
            Cause::Number,
        ),
        (
            b"screen 2 1 102030\nclients 1\n9 create a 70000\nend\n",
            3,
            Cause::Range,
        ),
    ];
    for (bytes, line, cause) in rows {
        let found = found_bad(rt.alloc(), bytes)?;
        assert!(rt; found == Some((line, cause)), "{bytes:?}");
    }
    Ok(())
}

// A last line that isn't ended is judged first; a line behind `end` is not.
#[test]
fn last_lines(rt: HostRuntime) -> Result<(), Fail> {
    let rows: [(&[u8], u64, Cause); 10] = [
        (b"\n", 1, Cause::Form),
        (b"screen 0 1 102030", 1, Cause::Range),
        (b"screen 2 1 102030\n", 2, Cause::End),
        (b"screen 2 1 102030\nclients 0\n", 3, Cause::End),
        (b"screen 2 1 102030\nclients 0\nend", 3, Cause::End),
        (b"screen 2 1 102030\nclients 0\nends", 3, Cause::Form),
        (b"screen 2 1 102030\nclients 1\n0 take", 3, Cause::End),
        (b"screen 2 1 102030\nclients 0\nend\nx", 4, Cause::End),
        (b"screen 2 1 102030\nclients 0\nend\n\n", 4, Cause::End),
        (
            b"screen 2 1 102030\nclients 0\nend\n0 take\nend\n",
            4,
            Cause::End,
        ),
    ];
    for (bytes, line, cause) in rows {
        let found = found_bad(rt.alloc(), bytes)?;
        assert!(rt; found == Some((line, cause)), "{bytes:?}");
    }
    Ok(())
}

const CLIPPING: &[u8] =
    b"screen 3 2 000000\nclients 1\n0 create a 0\n0 region a 1 0 0 0 1 2\n0 fill a -5 -5 20 20 copy ff8000\nend\n";

#[test]
fn no_front_of_a_script_is_one(rt: HostRuntime) -> Result<(), Fail> {
    let whole = found_bad(rt.alloc(), CLIPPING)?;
    assert!(rt; whole == None);
    for len in 0..CLIPPING.len() {
        let found = found_bad(rt.alloc(), &CLIPPING[..len])?;
        assert!(rt; found.is_some(), "{len}");
    }
    Ok(())
}
