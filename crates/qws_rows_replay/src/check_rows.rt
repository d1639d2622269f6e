//! Files that aren't those of their script: what a check tells of each.

use crate::replay_rows::verdict;
use session_replay::Verdict;
use std::test::Fail;

// Two clients, whose calls may stand in any order.
const SCRIPT: &[u8] =
    b"screen 2 1 000000\nclients 2\n0 create a 0\n0 region a 0 0 0 0 2 1\n0 fill a 0 0 1 1 copy ff0000\n1 take\nend\n";

const IN_ORDER: &[u8] =
    b"P6\n# 0 0 created 0\n# 0 1 done\n# 0 2 painted 1\n# 1 0 refused 16\n2 1\n255\n\xff\x00\x00\x00\x00\x00";

const OTHER_ORDER: &[u8] =
    b"P6\n# 1 0 refused 16\n# 0 0 created 0\n# 0 1 done\n# 0 2 painted 1\n2 1\n255\n\xff\x00\x00\x00\x00\x00";

// The file in another order than the lines.
#[test]
fn holds_in_each_order(rt: HostRuntime) -> Result<(), Fail> {
    let alloc = rt.alloc();
    for file in [IN_ORDER, OTHER_ORDER] {
        assert!(rt; verdict(alloc, SCRIPT, file)? == Verdict::Holds);
    }
    Ok(())
}

#[test]
fn files_of_other_sessions(rt: HostRuntime) -> Result<(), Fail> {
    let alloc = rt.alloc();
    let cases: [(&[u8], Verdict); 12] = [
        // one row more
        (
            b"P6\n# 0 0 created 0\n# 0 1 done\n# 0 2 painted 1\n# 1 0 refused 16\n2 2\n255\n\xff\x00\x00\x00\x00\x00\x00\x00\x00\x00\x00\x00",
            Verdict::BadScreen { w: 2, h: 2 },
        ),
        // a digit of a reply
        (
            b"P6\n# 0 0 created 0\n# 0 1 done\n# 0 2 painted 2\n# 1 0 refused 16\n2 1\n255\n\xff\x00\x00\x00\x00\x00",
            Verdict::BadEntry { line: 3 },
        ),
        // a digit of the client, that has another call next
        (
            b"P6\n# 1 0 created 0\n# 0 1 done\n# 0 2 painted 1\n# 1 0 refused 16\n2 1\n255\n\xff\x00\x00\x00\x00\x00",
            Verdict::BadEntry { line: 1 },
        ),
        // a number of the call
        (
            b"P6\n# 0 0 created 0\n# 0 2 done\n# 0 2 painted 1\n# 1 0 refused 16\n2 1\n255\n\xff\x00\x00\x00\x00\x00",
            Verdict::BadEntry { line: 2 },
        ),
        // a zero before the client
        (
            b"P6\n# 00 0 created 0\n# 0 1 done\n# 0 2 painted 1\n# 1 0 refused 16\n2 1\n255\n\xff\x00\x00\x00\x00\x00",
            Verdict::BadEntry { line: 1 },
        ),
        // no client of the script
        (
            b"P6\n# 0 0 created 0\n# 2 0 done\n# 0 2 painted 1\n# 1 0 refused 16\n2 1\n255\n\xff\x00\x00\x00\x00\x00",
            Verdict::BadEntry { line: 2 },
        ),
        // a comment without words
        (
            b"P6\n#\n# 0 0 created 0\n# 0 1 done\n# 0 2 painted 1\n# 1 0 refused 16\n2 1\n255\n\xff\x00\x00\x00\x00\x00",
            Verdict::BadEntry { line: 1 },
        ),
        // a comment left out
        (
            b"P6\n# 0 0 created 0\n# 0 2 painted 1\n# 1 0 refused 16\n2 1\n255\n\xff\x00\x00\x00\x00\x00",
            Verdict::BadEntry { line: 2 },
        ),
        // the last client's call left out
        (
            b"P6\n# 0 0 created 0\n# 0 1 done\n# 0 2 painted 1\n2 1\n255\n\xff\x00\x00\x00\x00\x00",
            Verdict::BadEntry { line: 4 },
        ),
        // a call more than the client has
        (
            b"P6\n# 0 0 created 0\n# 0 1 done\n# 0 2 painted 1\n# 1 0 refused 16\n# 1 1 refused 16\n2 1\n255\n\xff\x00\x00\x00\x00\x00",
            Verdict::BadEntry { line: 5 },
        ),
        // the first pixel
        (
            b"P6\n# 0 0 created 0\n# 0 1 done\n# 0 2 painted 1\n# 1 0 refused 16\n2 1\n255\n\xff\x01\x00\x00\x00\x00",
            Verdict::BadPixel { index: 0 },
        ),
        // the last byte
        (
            b"P6\n# 0 0 created 0\n# 0 1 done\n# 0 2 painted 1\n# 1 0 refused 16\n2 1\n255\n\xff\x00\x00\x00\x00\x01",
            Verdict::BadPixel { index: 1 },
        ),
    ];
    for (file, told) in cases {
        assert!(rt; verdict(alloc, SCRIPT, file)? == told, "{told:?}");
    }
    Ok(())
}

const CLIPPING: &[u8] =
    b"screen 3 2 000000\nclients 1\n0 create a 0\n0 region a 1 0 0 0 1 2\n0 fill a -5 -5 20 20 copy ff8000\nend\n";

// The clipped fill: the file itself, its second pixel changed, and its third comment left out.
#[test]
fn checks_of_the_clipped_fill(rt: HostRuntime) -> Result<(), Fail> {
    let alloc = rt.alloc();
    let cases: [(&[u8], Verdict); 3] = [
        (
            b"P6\n# 0 0 created 0\n# 0 1 done\n# 0 2 painted 2\n3 2\n255\n\x00\x00\x00\xff\x80\x00\x00\x00\x00\x00\x00\x00\xff\x80\x00\x00\x00\x00",
            Verdict::Holds,
        ),
        (
            b"P6\n# 0 0 created 0\n# 0 1 done\n# 0 2 painted 2\n3 2\n255\n\x00\x00\x00\xff\x80\x01\x00\x00\x00\x00\x00\x00\xff\x80\x00\x00\x00\x00",
            Verdict::BadPixel { index: 1 },
        ),
        (
            b"P6\n# 0 0 created 0\n# 0 1 done\n3 2\n255\n\x00\x00\x00\xff\x80\x00\x00\x00\x00\x00\x00\x00\xff\x80\x00\x00\x00\x00",
            Verdict::BadEntry { line: 3 },
        ),
    ];
    for (file, told) in cases {
        assert!(rt; verdict(alloc, CLIPPING, file)? == told, "{told:?}");
    }
    Ok(())
}
