//! Sessions with many calls of one kind.

use crate::replay_rows::{verdict, written};
use session_replay::Verdict;
use std::alloc::{AllocError, Global};
use std::test::Fail;

// The same line that many times.
fn push_times(text: &mut Vec<u8>, line: &[u8], times: usize) -> Result<(), AllocError> {
    for _ in 0..times {
        text.extend_from_slice(line)?;
    }
    Ok(())
}

// The comments of a client's calls from that number on, with the same reply.
fn push_comments(
    alloc: Global,
    text: &mut Vec<u8>,
    client: u32,
    from: u32,
    to: u32,
    reply: &str,
) -> Result<(), AllocError> {
    for number in from..to {
        let line = format!(in alloc; "# {client} {number} {reply}\n")?;
        text.extend_from_slice(line.as_bytes())?;
    }
    Ok(())
}

// A mailbox holds 256 messages, and what a region's change tells besides.
#[test]
fn full_mailbox(rt: HostRuntime) -> Result<(), Fail> {
    let alloc = rt.alloc();
    let mut script = b"screen 1 1 000000\nclients 2\n1 join c\n".to_vec(alloc)?;
    push_times(&mut script, b"0 send c m -\n", 257)?;
    script.extend_from_slice(b"1 create a 0\n1 region a 0 0 0 0 1 1\n")?;
    push_times(&mut script, b"1 take\n", 258)?;
    script.extend_from_slice(b"end\n")?;
    let mut file = b"P6\n# 1 0 done\n".to_vec(alloc)?;
    push_comments(alloc, &mut file, 0, 0, 256, "sent 1")?;
    push_comments(alloc, &mut file, 0, 256, 257, "refused 14 1")?;
    push_comments(alloc, &mut file, 1, 1, 2, "created 0")?;
    push_comments(alloc, &mut file, 1, 2, 3, "done")?;
    push_comments(alloc, &mut file, 1, 3, 259, "message 0 0")?;
    push_comments(alloc, &mut file, 1, 259, 260, "modified 0")?;
    push_comments(alloc, &mut file, 1, 260, 261, "refused 16")?;
    file.extend_from_slice(b"1 1\n255\n\x00\x00\x00")?;
    assert!(rt; written(alloc, script.as_slice())?.as_slice() == file.as_slice());
    assert!(rt; verdict(alloc, script.as_slice(), file.as_slice())? == Verdict::Holds);
    Ok(())
}
