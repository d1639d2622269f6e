//! Where a script ends.
use script_reader::{cut_at, split};
use std::process::Abort;
use std::test::Fail;

// The first part has that many bytes, and the second has the rest.
fn splits_at(rt: &impl Abort, bytes: &[u8], len: usize) {
    let (script, rest) = split(bytes);
    assert!(rt; script.len() == len);
    assert!(rt; script.len() + rest.len() == bytes.len());
    let start = bytes.get(..len).unwrap_or(bytes);
    assert!(rt; script == start);
}

#[test]
fn scripts_end_with_their_first_line_end(rt: HostRuntime) -> Result<(), Fail> {
    for (bytes, len) in [
        (b"".as_slice(), 0),
        (b"end\n", 4),
        (b"end", 3),
        (b"screen 2 1 102030\nclients 0\nend\nP6\n", 32),
        (b"end\nend\n", 4),
        (b"bend\nends\n end\nend \nEND\n", 24),
        (b"\nend\n\n", 5),
        (b"a\r\nend\nP6\nend\n", 7),
    ] {
        splits_at(&rt, bytes, len);
    }
    Ok(())
}

#[test]
fn lines_are_cut_at_their_line_feed(rt: HostRuntime) -> Result<(), Fail> {
    assert!(rt;
        cut_at(b"screen 2 1\nend\n", b'\n') == Some((b"screen 2 1".as_slice(), b"end\n".as_slice()))
    );
    assert!(rt; cut_at(b"\n\n", b'\n') == Some((b"".as_slice(), b"\n".as_slice())));
    assert!(rt; cut_at(b"end", b'\n') == None);
    assert!(rt; cut_at(b"", b'\n') == None);
    Ok(())
}
