//! From bytes to a file.
ghost use Rattle.std.specs.Prelude.{◌≡◌, ◌≤◌, ◌++◌, length, [], OnOk, IfOk, IfErr};
ghost use Rattle.session_journal.specs.Grammar.{IsFile, IsOnlyFile, Stops};
ghost use Rattle.session_journal.specs.Places.{IsPlace, Leads, lines_after, line_after};

use crate::files::{File, FileStop, Lines};
use crate::places::{Stage, place_after};
use qws_base::{Bytes, Size};
use std::alloc::Global;

// The comments, and the comment so far, behind a byte.
fn keep(
    alloc: Global,
    place: Stage,
    byte: u8,
    lines: &mut Vec<Bytes>,
    line: &mut Vec<u8>,
) -> Result<(), FileStop>
    ensures lines { OnOk result (lines.new.items ≡ lines_after place byte lines.old.items line.old.items) }
    ensures line { OnOk result (line.new.items ≡ line_after place byte line.old.items) }
    ensures stop { IfErr result (λ stop. stop ≡ FileStop.OutOfMemory) }
{
    match place {
        Stage::Comment if byte == b'\n' => {
            lines.push(Bytes::of(line.as_slice().to_vec(alloc)?))?;
            line.clear();
        }
        Stage::Comment => line.push(byte)?,
        _ => {}
    }
    Ok(())
}

// The file of these lines and sides, whose raster stands from that place to the end.
fn with_raster(
    alloc: Global,
    bytes: &[u8],
    at: usize,
    lines: Vec<Bytes>,
    w: u32,
    h: u32,
) -> Result<File, FileStop>
    requires within { at ≤ length bytes.now }
    requires place { IsPlace (Stage.Raster w h) [] }
    requires leads { Leads bytes.now at (Stage.Raster w h) lines.items [] }
    ensures ok { IfOk result (IsFile bytes.now) }
    ensures one { IfOk result (IsOnlyFile bytes.now) }
    ensures stop { IfErr result (Stops bytes.now) }
{
    let Some(size) = Size::new(w, h) else {
        unreachable!();
    };
    let wanted = 3 * (w as usize * h as usize);
    let raster = &bytes[at..];
    if raster.len() < wanted {
        return Err(FileStop::Bad { at: bytes.len() });
    }
    if raster.len() > wanted {
        return Err(FileStop::Bad { at: at + wanted });
    }
    Ok(File {
        size,
        lines: Lines::of(lines),
        raster: Bytes::of(raster.to_vec(alloc)?),
    })
}

/// The file that the bytes are. `Bad` comes exactly where they are none; its `at` is the length of the longest prefix of
/// them with which some file begins.
pub fn read_file(alloc: Global, bytes: &[u8]) -> Result<File, FileStop>
    ensures ok { IfOk result (IsFile bytes.now) }
    ensures one { IfOk result (IsOnlyFile bytes.now) }
    ensures stop { IfErr result (Stops bytes.now) }
{
    let mut place = Stage::Magic { read: 0 };
    let mut lines = Vec::new(alloc);
    let mut line = Vec::new(alloc);
    for (at, byte) in bytes.iter().enumerate() {
        if let Stage::Raster { w, h } = place {
            return with_raster(alloc, bytes, at, lines, w, h);
        }
        let Some(next) = place_after(place, line.len(), *byte) else {
            return Err(FileStop::Bad { at });
        };
        keep(alloc, place, *byte, &mut lines, &mut line)?;
        place = next;
    }
    Err(FileStop::Bad { at: bytes.len() })
}
