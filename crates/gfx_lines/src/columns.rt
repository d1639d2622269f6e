//! The columns of a row that a line has. Of a flat line they are a run of steps, which two divisions give.
ghost use Rattle.std.specs.Prelude.{ℕ, ◌≡◌, ◌+◌, ◌<◌, ◌≤◌, ◌≤ℤ◌, pos, negsuc};
ghost use Rattle.std.specs.Int.{int_max, int_min};
ghost use Rattle.qws_base.specs.Points.{IsPlaced};
ghost use Rattle.gfx_lines.specs.Lines.{apart, toward, aside};
ghost use Rattle.gfx_lines.specs.Columns.{AreStepsGone, AreStepColumns, AreColumns};

use qws_base::Point;

// So many steps from a coordinate toward another.
fn toward(from: i32, to: i32, k: u32) -> i32
    requires from_low { negsuc 4095 ≤ℤ from }
    requires from_high { from ≤ℤ pos 4095 }
    requires to_low { negsuc 4095 ≤ℤ to }
    requires to_high { to ≤ℤ pos 4095 }
    requires few { k ≤ apart from to }
    ensures value { result ≡ toward from to k }
    ensures low { negsuc 4095 ≤ℤ result }
    ensures high { result ≤ℤ pos 4095 }
{
    if from <= to {
        from + k as i32
    } else {
        from - k as i32
    }
}

// How far a line has gone along its shorter side after k of the steps along the longer one.
fn aside(long: u32, short: u32, k: u32) -> u32
    requires some { 0 < long }
    requires long { long ≤ 8191 }
    requires short { short ≤ long }
    requires step { k ≤ long }
    ensures value { result ≡ aside long short k }
    ensures within { result ≤ short }
{
    (2 * k * short + long) / (2 * long)
}

// The first step at which a line has gone so far along its shorter side: where it is nearest so far, halves up.
fn first_step(long: u32, short: u32, gone: u32) -> u32
    requires some { 0 < long }
    requires long { long ≤ 8191 }
    requires short { 0 < short }
    requires within { short ≤ 8191 }
    requires gone { gone ≤ 8192 }
    ensures reached { (k : ℕ) → result ≤ k → gone ≤ aside long short k }
    ensures before { (k : ℕ) → k < result → aside long short k < gone }
{
    if gone == 0 {
        return 0;
    }
    ((2 * gone - 1) * long + 2 * short - 1) / (2 * short)
}

// The steps at which a line has gone just so far along its shorter side: from the first up to the second.
fn steps_gone(long: u32, short: u32, gone: u32) -> (u32, u32)
    requires some { 0 < long }
    requires long { long ≤ 8191 }
    requires short { short ≤ 8191 }
    requires gone { gone ≤ short }
    ensures { AreStepsGone long short gone result.0 result.1 }
{
    if short == 0 {
        return (0, long + 1);
    }
    (
        first_step(long, short, gone),
        first_step(long, short, gone + 1).min(long + 1),
    )
}

// The columns of the steps from the first up to the second: from the least one, so many.
fn step_columns(from: i32, to: i32, first: u32, end: u32) -> (i32, u32)
    requires from_low { negsuc 4095 ≤ℤ from }
    requires from_high { from ≤ℤ pos 4095 }
    requires to_low { negsuc 4095 ≤ℤ to }
    requires to_high { to ≤ℤ pos 4095 }
    requires ordered { first ≤ end }
    requires within { end ≤ apart from to + 1 }
    ensures { AreStepColumns from to first end result.0 result.1 }
{
    if from <= to {
        (from + first as i32, end - first)
    } else {
        (from + 1 - end as i32, end - first)
    }
}

// The same of a line of as many columns as rows or more, in a row from its first to its last.
fn flat_columns(from: Point, to: Point, y: i32) -> (i32, u32)
    requires from { IsPlaced from }
    requires to { IsPlaced to }
    requires some { 0 < apart from.x to.x }
    requires flat { apart from.y to.y ≤ apart from.x to.x }
    requires top { int_min from.y to.y ≤ℤ y }
    requires bottom { y ≤ℤ int_max from.y to.y }
    ensures { AreColumns from to y result.0 result.1 }
{
    let columns = from.x.abs_diff(to.x);
    let rows = from.y.abs_diff(to.y);
    let (first, end) = steps_gone(columns, rows, from.y.abs_diff(y));
    step_columns(from.x, to.x, first, end)
}

// The same of any line, in such a row.
fn columns_between(from: Point, to: Point, y: i32) -> (i32, u32)
    requires from { IsPlaced from }
    requires to { IsPlaced to }
    requires top { int_min from.y to.y ≤ℤ y }
    requires bottom { y ≤ℤ int_max from.y to.y }
    ensures { AreColumns from to y result.0 result.1 }
{
    let columns = from.x.abs_diff(to.x);
    let rows = from.y.abs_diff(to.y);
    if columns < rows {
        let gone = aside(rows, columns, from.y.abs_diff(y));
        (toward(from.x, to.x, gone), 1)
    } else if 0 < columns {
        flat_columns(from, to, y)
    } else {
        (from.x, 1)
    }
}

/// The columns of a row that a line has: from the least one, so many.
pub(crate) fn line_columns(from: Point, to: Point, y: i32) -> (i32, u32)
    requires from { IsPlaced from }
    requires to { IsPlaced to }
    ensures { AreColumns from to y result.0 result.1 }
{
    if from.y.min(to.y) <= y && y <= from.y.max(to.y) {
        columns_between(from, to, y)
    } else {
        (0, 0)
    }
}
