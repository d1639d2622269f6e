//! Each number of each line's form: its least and its greatest value, and one past both.
use crate::bad_rows::found_bad;
use crate::form_rows::cause_of;
use session_script::{Cause, ScriptStop};
use std::alloc::Global;
use std::process::Abort;
use std::test::Fail;

// The cause of the number below the least one: a minus stands before no unsigned number.
fn cause_below(least: i32) -> Cause {
    if least == 0 {
        Cause::Number
    } else {
        Cause::Range
    }
}

// The four numbers around the ends, each with the cause of a line that has it.
fn around(least: i32, most: i32) -> [(i32, Option<Cause>); 4] {
    [
        (least.saturating_sub(1), Some(cause_below(least))),
        (least, None),
        (most, None),
        (most.saturating_add(1), Some(Cause::Range)),
    ]
}

// Lines with a number between these parts.
fn ends(
    rt: &impl Abort,
    alloc: Global,
    least: i32,
    most: i32,
    parts: &[(&str, &str)],
) -> Result<(), ScriptStop> {
    for part in parts {
        let (front, back) = *part;
        for (number, cause) in around(least, most) {
            let line = format!(in alloc; "{front}{number}{back}")?;
            let found = cause_of(alloc, line.as_str())?;
            assert_eq!(rt; found, cause, "{line}");
        }
    }
    Ok(())
}

#[test]
fn ends_of_the_head(rt: HostRuntime) -> Result<(), Fail> {
    let rows = [
        (1, "screen ", " 1 ffffff\nclients 0\nend\n", 1, 640),
        (1, "screen 1 ", " ffffff\nclients 0\nend\n", 1, 480),
        (2, "screen 1 1 ffffff\nclients ", "\nend\n", 0, 16),
    ];
    for (line, front, back, least, most) in rows {
        for (number, cause) in around(least, most) {
            let text = format!(in rt.alloc(); "{front}{number}{back}")?;
            let found = found_bad(rt.alloc(), text.as_bytes())?;
            let wanted = cause.map(|cause| (line, cause));
            assert_eq!(rt; found, wanted, "{text}");
        }
    }
    Ok(())
}

#[test]
fn ends_of_windows(rt: HostRuntime) -> Result<(), Fail> {
    let parts = [
        ("0 destroy #", ""),
        ("0 raise #", ""),
        ("0 lower #", ""),
        ("0 region #", " 0 0"),
        ("0 move #", " 0 0"),
        ("0 fill #", " 0 0 1 1 copy ffffff"),
        ("0 tile #", " 0 0 1 1 0"),
        ("0 blit #", " 0 0 0 0"),
        ("0 line #", " 0 0 0 0 ffffff"),
        ("0 polyline #", " ffffff 0 0 0 0"),
        ("0 polygon #", " copy ffffff 0 0 0 0 0 0"),
        ("0 text #", " 0 0 0 copy ffffff 65"),
    ];
    ends(&rt, rt.alloc(), 0, 32, &parts)?;
    Ok(())
}

#[test]
fn ends_of_commands(rt: HostRuntime) -> Result<(), Fail> {
    let signed = [
        ("0 region a ", " 0"),
        ("0 region a 0 ", ""),
        ("0 region a 0 0 ", " 0 1 1"),
        ("0 region a 0 0 0 ", " 1 1"),
        ("0 move a ", " 0"),
        ("0 move a 0 ", ""),
        ("0 cursor ", " 0"),
        ("0 cursor 0 ", ""),
    ];
    ends(&rt, rt.alloc(), -32768, 32767, &signed)?;
    let unsigned = [
        ("0 create a ", ""),
        ("0 region a 0 0 0 0 ", " 1"),
        ("0 region a 0 0 0 0 1 ", ""),
        ("0 shape ", " 0 -"),
        ("0 shape 0 ", " -"),
        ("glyph ", " 1 0 0"),
    ];
    ends(&rt, rt.alloc(), 0, 65535, &unsigned)?;
    ends(&rt, rt.alloc(), 1, 32, &[("font ", "")])?;
    Ok(())
}

#[test]
fn ends_of_points(rt: HostRuntime) -> Result<(), Fail> {
    let parts = [
        ("0 fill a ", " 0 1 1 copy ffffff"),
        ("0 fill a 0 ", " 1 1 copy ffffff"),
        ("0 tile a ", " 0 1 1 0"),
        ("0 tile a 0 ", " 1 1 0"),
        ("0 blit a ", " 0 0 0"),
        ("0 blit a 0 ", " 0 0"),
        ("0 line a ", " 0 0 0 ffffff"),
        ("0 line a 0 ", " 0 0 ffffff"),
        ("0 line a 0 0 ", " 0 ffffff"),
        ("0 line a 0 0 0 ", " ffffff"),
        ("0 polyline a ffffff ", " 0 0 0"),
        ("0 polyline a ffffff 0 0 0 ", ""),
        ("0 polygon a copy ffffff ", " 0 0 0 0 0"),
        ("0 polygon a copy ffffff 0 0 0 0 0 ", ""),
        ("0 text a 0 ", " 0 copy ffffff 65"),
        ("0 text a 0 0 ", " copy ffffff 65"),
    ];
    ends(&rt, rt.alloc(), -4096, 4095, &parts)?;
    Ok(())
}

#[test]
fn ends_of_sides_and_alphas(rt: HostRuntime) -> Result<(), Fail> {
    let sides = [
        ("0 fill a 0 0 ", " 1 copy ffffff"),
        ("0 fill a 0 0 1 ", " copy ffffff"),
        ("0 tile a 0 0 ", " 1 0"),
        ("0 tile a 0 0 1 ", " 0"),
    ];
    ends(&rt, rt.alloc(), 1, 4096, &sides)?;
    let alphas = [
        ("0 fill a 0 0 1 1 blend ", " ffffff"),
        ("0 blit a 0 0 0 ", ""),
        ("0 polygon a blend ", " ffffff 0 0 0 0 0 0"),
        ("0 text a 0 0 0 blend ", " ffffff 65"),
    ];
    ends(&rt, rt.alloc(), 0, 255, &alphas)?;
    Ok(())
}
