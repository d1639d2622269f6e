//! The forms of lines, and the spellings of their words.
use crate::bad_rows::found_bad;
use qws_base::OutOfMemory;
use session_script::{Cause, ScriptStop};
use std::alloc::Global;
use std::process::Abort;
use std::test::Fail;

const GOOD: Option<Cause> = None;

const FORM: Option<Cause> = Some(Cause::Form);

const NUMBER: Option<Cause> = Some(Cause::Number);

const RANGE: Option<Cause> = Some(Cause::Range);

const UNKNOWN: Option<Cause> = Some(Cause::Unknown);

const MISSING: Option<Cause> = Some(Cause::Missing);

/// The cause of a line behind a head of one client, a font with one glyph, and an image. Where another line is bad, the test
/// that calls it fails.
pub(crate) fn cause_of(alloc: Global, line: &str) -> Result<Option<Cause>, ScriptStop> {
    let text = format!(in alloc;
        "screen 1 1 ffffff\nclients 1\nfont 2\nglyph 65 4 f 0\nimage 1 1 ff102030\n{line}\nend\n"
    )?;
    match found_bad(alloc, text.as_bytes())? {
        None => Ok(None),
        Some((6, cause)) => Ok(Some(cause)),
        Some((_, _)) => Ok(Some(Cause::End)),
    }
}

fn judges(
    rt: &impl Abort,
    alloc: Global,
    rows: &[(&str, Option<Cause>)],
) -> Result<(), ScriptStop> {
    for row in rows {
        let (line, cause) = *row;
        let found = cause_of(alloc, line)?;
        assert!(rt; found == cause, "{line}");
    }
    Ok(())
}

#[test]
fn window_commands(rt: HostRuntime) -> Result<(), Fail> {
    let rows = [
        ("0 create a 0", GOOD),
        ("0 create abcdefghij012345 65535", GOOD),
        ("0 create abcdefghij0123456 0", NUMBER),
        ("0 create a 100000", NUMBER),
        ("0 create a 00", NUMBER),
        ("0 create 1a 0", NUMBER),
        ("0 create A 0", NUMBER),
        ("0 create a", FORM),
        ("0 create a 0 0", FORM),
        ("1 create a 0", UNKNOWN),
        ("65536 create a 0", RANGE),
        ("00 create a 0", NUMBER),
        ("0 creates a 0", FORM),
        ("0 destroy a", GOOD),
        ("0 destroy #", NUMBER),
        ("0 destroy #01", NUMBER),
        ("0 destroy", FORM),
        ("0 move a -0 0", NUMBER),
        ("0 move a 0", FORM),
        ("0 lower a", GOOD),
        ("0 lower a a", FORM),
    ];
    judges(&rt, rt.alloc(), &rows)?;
    Ok(())
}

#[test]
fn region_commands(rt: HostRuntime) -> Result<(), Fail> {
    let rows = [
        ("0 region a 0 0 -32768 32767 0 65535", GOOD),
        ("0 region a 0 0 32767 -32768 65535 0", GOOD),
        ("0 region a 0 0 0 0 1", FORM),
        ("0 region a 0", FORM),
        ("0 region a 0 0 0 0 1 1 1", FORM),
    ];
    judges(&rt, rt.alloc(), &rows)?;
    Ok(())
}

#[test]
fn cursor_and_channel_commands(rt: HostRuntime) -> Result<(), Fail> {
    let rows = [
        ("0 shape 0 0 -", GOOD),
        ("0 shape 65535 65535 00000000ffffffff", GOOD),
        ("0 shape 1 1 ff00000", NUMBER),
        ("0 shape 1 1 FF000000", NUMBER),
        ("0 shape 1 1", FORM),
        ("0 show 0", GOOD),
        ("0 show 1", GOOD),
        ("0 show 2", FORM),
        ("0 show 00", FORM),
        ("0 show", FORM),
        ("0 join !", GOOD),
        ("0 join ~", GOOD),
        ("0 join \u{7f}", NUMBER),
        ("0 join \t", NUMBER),
        ("0 join a b", FORM),
        ("0 leave #0", GOOD),
        ("0 leave \u{7f}", NUMBER),
        ("0 known a", GOOD),
        ("0 known \u{7f}", NUMBER),
        ("0 known", FORM),
        ("0 send a b -", GOOD),
        ("0 send a b 00ff", GOOD),
        ("0 send a b 0", NUMBER),
        ("0 send a b FF", NUMBER),
        ("0 send a \u{7f} -", NUMBER),
        ("0 send \u{7f} b -", NUMBER),
        ("0 send a b", FORM),
        ("0 take", GOOD),
        ("0 take 1", FORM),
        ("1 take", UNKNOWN),
        ("0", FORM),
    ];
    judges(&rt, rt.alloc(), &rows)?;
    Ok(())
}

#[test]
fn fills_and_tiles(rt: HostRuntime) -> Result<(), Fail> {
    let rows = [
        ("0 fill a -4096 4095 4096 1 copy 000000", GOOD),
        ("0 fill a 4095 -4096 1 4096 xor ffffff", GOOD),
        ("0 fill a 0 0 1 1 and 0f0f0f", GOOD),
        ("0 fill a 0 0 1 1 or 0f0f0f", GOOD),
        ("0 fill a 0 0 1 1 blend ffffff", FORM),
        ("0 fill a 0 0 1 1 copy 0 ffffff", FORM),
        ("0 fill a 0 0 1 1 paint ffffff", FORM),
        ("0 fill a 0 0 1 1 copy fffff", NUMBER),
        ("0 fill a 0 0 1 1 copy fffffg", NUMBER),
        ("0 fill a 0 0 1 1 copy FFFFFF", NUMBER),
        ("0 fill a 0 0 1 1", FORM),
        ("0 tile a 0 0 1 1 1", UNKNOWN),
        ("0 tile a 0 0 1 1 65535", UNKNOWN),
        ("0 tile a 0 0 1 1 65536", RANGE),
        ("0 blit a 0 0 1 255", UNKNOWN),
        ("0 blit a 0 0 0", FORM),
    ];
    judges(&rt, rt.alloc(), &rows)?;
    Ok(())
}

#[test]
fn lines_and_texts(rt: HostRuntime) -> Result<(), Fail> {
    let rows = [
        ("0 line a -4096 4095 4095 -4096 ffffff", GOOD),
        ("0 line a 0 0 0 0", FORM),
        ("0 polyline a ffffff -4096 4095 4095 -4096", GOOD),
        ("0 polyline a ffffff 0 0", FORM),
        ("0 polyline a ffffff 0 0 1", FORM),
        ("0 polygon a copy ffffff 0 0 4095 0 0 -4096", GOOD),
        ("0 polygon a copy ffffff 0 0 1 0", FORM),
        ("0 polygon a copy ffffff 0 0 1 0 0", FORM),
        ("0 text a 0 -4096 4095 copy ffffff 65", GOOD),
        ("0 text a 0 4095 -4096 blend 0 ffffff 65 65", GOOD),
        ("0 text a 1 0 0 copy ffffff 65", UNKNOWN),
        ("0 text a 0 0 0 copy ffffff 66", MISSING),
        ("0 text a 0 0 0 copy ffffff 65535", MISSING),
        ("0 text a 0 0 0 copy ffffff 65536", RANGE),
        ("0 text a 0 0 0 copy ffffff", FORM),
    ];
    judges(&rt, rt.alloc(), &rows)?;
    Ok(())
}

#[test]
fn fonts_and_images(rt: HostRuntime) -> Result<(), Fail> {
    let rows = [
        ("font", FORM),
        ("glyph 0 1 1 0", GOOD),
        ("glyph 65535 32 ffffffff 00000000", GOOD),
        ("glyph 66 33 000000000 000000000", RANGE),
        ("glyph 66 0 0 0", NUMBER),
        ("glyph 66 3 7 8", RANGE),
        ("glyph 66 5 1f 1", NUMBER),
        ("glyph 66 4 F 0", NUMBER),
        ("glyph 66 4 f", FORM),
        ("glyph 66 4 f 0 0", FORM),
        ("glyph 65 4 f 0", Some(Cause::Repeated)),
        ("image 1 1 00000000", GOOD),
        ("image 0 1 00000000", RANGE),
        ("image 1 0 00000000", RANGE),
        ("image 257 1 00000000", RANGE),
        ("image 1 257 00000000", RANGE),
        ("image 1 1 0000000000000000", RANGE),
        ("image 1 1 -", NUMBER),
        ("image 1 1", FORM),
    ];
    judges(&rt, rt.alloc(), &rows)?;
    Ok(())
}

// A line that ends with a piece so many times.
fn ending(alloc: Global, front: &str, piece: &str, count: u32) -> Result<String, OutOfMemory> {
    let mut line = String::new(alloc);
    line.push_str(front)?;
    for _ in 0..count {
        line.push_str(piece)?;
    }
    Ok(line)
}

// How long lines may be: each is good with so many pieces, and has a cause with one more.
#[test]
fn longest_lines(rt: HostRuntime) -> Result<(), Fail> {
    let rows = [
        ("0 region a 0 0", " 0 0 1 1", 64, FORM),
        ("0 shape 1 1 ", "ff000000", 16384, RANGE),
        ("0 join ", "a", 128, NUMBER),
        ("0 send a b ", "0f", 65000, RANGE),
        ("0 polyline a ffffff", " 0 0", 64, FORM),
        ("0 polygon a copy ffffff", " 0 0", 64, FORM),
        ("0 text a 0 0 0 copy ffffff", " 65", 256, FORM),
        ("image 256 256 ", "ff000000", 65536, RANGE),
    ];
    for (front, piece, most, cause) in rows {
        let longest = ending(rt.alloc(), front, piece, most)?;
        let found = cause_of(rt.alloc(), longest.as_str())?;
        assert!(rt; found == GOOD, "{front}");
        let longer = ending(rt.alloc(), front, piece, most + 1)?;
        let found = cause_of(rt.alloc(), longer.as_str())?;
        assert!(rt; found == cause, "{front}");
    }
    Ok(())
}

// How many lines of a kind there may be: so many, and one more is bad for its number.
#[test]
fn most_lines(rt: HostRuntime) -> Result<(), Fail> {
    let rows = [
        ("font 1\n", 8),
        ("image 1 1 ff000000\n", 64),
        ("0 take\n", 65536),
    ];
    for (line, most) in rows {
        let front = ending(rt.alloc(), "screen 1 1 ffffff\nclients 1\n", line, most)?;
        let whole = ending(rt.alloc(), front.as_str(), "end\n", 1)?;
        let found = found_bad(rt.alloc(), whole.as_bytes())?;
        assert!(rt; found == None, "{line}");
        let longer = ending(rt.alloc(), front.as_str(), line, 1)?;
        let found = found_bad(rt.alloc(), longer.as_bytes())?;
        let bad = (u64::from(most) + 3, Cause::Many);
        assert!(rt; found == Some(bad), "{line}");
    }
    Ok(())
}
