//! The lines of the generated calls, each with its numbers drawn.
ghost use Rattle.std.specs.Prelude.{◌≡◌, ◌++◌, ◌<◌, ◌%◌, ◌*◌, IfOk, OnOk, string_bytes};
ghost use Rattle.session_maker.specs.Kinds.{create_drawn, region_drawn, move_drawn, cursor_drawn, fill_drawn, blend_drawn, line_drawn, polygon_drawn, text_drawn, tile_drawn, kind_drawn, first_drawn, later_drawn, call_drawn};
ghost use Rattle.session_maker.specs.Made.{call_text};

use crate::draws::Draws;
use crate::texts::{
    blend_text, codes_text, create_text, cursor_text, fill_text, lower_text, move_text,
    polygon_text, raise_text, region_text, stroke_text, take_text, tile_text,
};
use crate::words::window_name;
use qws_base::OutOfMemory;
use std::alloc::Global;

// `create` of a window.
fn create_line(
    alloc: Global,
    draws: &mut Draws,
    client: u32,
    window: u32,
) -> Result<String, OutOfMemory>
    requires { window < 3 }
    ensures text { IfOk result (λ text. string_bytes text ≡ call_text client (create_drawn window draws.old.state)) }
    ensures state { draws.new.state ≡ (create_drawn window draws.old.state).state }
{
    let layer = draws.draw(2);
    create_text(alloc, client, window_name(window), layer)
}

// `region` of a window.
fn region_line(
    alloc: Global,
    draws: &mut Draws,
    client: u32,
    window: u32,
) -> Result<String, OutOfMemory>
    requires { window < 3 }
    ensures text { IfOk result (λ text. string_bytes text ≡ call_text client (region_drawn window draws.old.state)) }
    ensures state { draws.new.state ≡ (region_drawn window draws.old.state).state }
{
    let origin = draws.place(280, 200);
    let w = 20 + draws.draw(100);
    let h = 20 + draws.draw(80);
    region_text(alloc, client, window_name(window), origin, w, h)
}

// `move` of a window.
fn move_line(
    alloc: Global,
    draws: &mut Draws,
    client: u32,
    window: u32,
) -> Result<String, OutOfMemory>
    requires { window < 3 }
    ensures text { IfOk result (λ text. string_bytes text ≡ call_text client (move_drawn window draws.old.state)) }
    ensures state { draws.new.state ≡ (move_drawn window draws.old.state).state }
{
    let origin = draws.place(280, 200);
    move_text(alloc, client, window_name(window), origin)
}

// `cursor`.
fn cursor_line(alloc: Global, draws: &mut Draws, client: u32) -> Result<String, OutOfMemory>
    ensures text { IfOk result (λ text. string_bytes text ≡ call_text client (cursor_drawn draws.old.state)) }
    ensures state { draws.new.state ≡ (cursor_drawn draws.old.state).state }
{
    let at = draws.place(320, 240);
    cursor_text(alloc, client, at)
}

// `fill` of a window with a colour.
fn fill_line(
    alloc: Global,
    draws: &mut Draws,
    client: u32,
    window: u32,
) -> Result<String, OutOfMemory>
    requires { window < 3 }
    ensures text { IfOk result (λ text. string_bytes text ≡ call_text client (fill_drawn window draws.old.state)) }
    ensures state { draws.new.state ≡ (fill_drawn window draws.old.state).state }
{
    let area = draws.area();
    let c = draws.colour();
    fill_text(alloc, client, window_name(window), area, c)
}

// `fill` of a window with a blend.
fn blend_line(
    alloc: Global,
    draws: &mut Draws,
    client: u32,
    window: u32,
) -> Result<String, OutOfMemory>
    requires { window < 3 }
    ensures text { IfOk result (λ text. string_bytes text ≡ call_text client (blend_drawn window draws.old.state)) }
    ensures state { draws.new.state ≡ (blend_drawn window draws.old.state).state }
{
    let area = draws.area();
    let alpha = draws.draw(256);
    let c = draws.colour();
    blend_text(alloc, client, window_name(window), area, alpha, c)
}

// `line` in a window.
fn stroke_line(
    alloc: Global,
    draws: &mut Draws,
    client: u32,
    window: u32,
) -> Result<String, OutOfMemory>
    requires { window < 3 }
    ensures text { IfOk result (λ text. string_bytes text ≡ call_text client (line_drawn window draws.old.state)) }
    ensures state { draws.new.state ≡ (line_drawn window draws.old.state).state }
{
    let from = draws.place(120, 100);
    let to = draws.place(120, 100);
    let c = draws.colour();
    stroke_text(alloc, client, window_name(window), from, to, c)
}

// `polygon` in a window.
fn polygon_line(
    alloc: Global,
    draws: &mut Draws,
    client: u32,
    window: u32,
) -> Result<String, OutOfMemory>
    requires { window < 3 }
    ensures text { IfOk result (λ text. string_bytes text ≡ call_text client (polygon_drawn window draws.old.state)) }
    ensures state { draws.new.state ≡ (polygon_drawn window draws.old.state).state }
{
    let c = draws.colour();
    let corners = draws.corners();
    polygon_text(alloc, client, window_name(window), c, corners)
}

// `text` in a window.
fn codes_line(
    alloc: Global,
    draws: &mut Draws,
    client: u32,
    window: u32,
) -> Result<String, OutOfMemory>
    requires { window < 3 }
    ensures text { IfOk result (λ text. string_bytes text ≡ call_text client (text_drawn window draws.old.state)) }
    ensures state { draws.new.state ≡ (text_drawn window draws.old.state).state }
{
    let at = draws.place(100, 80);
    let c = draws.colour();
    codes_text(alloc, client, window_name(window), at, c)
}

// `tile` of a window.
fn tile_line(
    alloc: Global,
    draws: &mut Draws,
    client: u32,
    window: u32,
) -> Result<String, OutOfMemory>
    requires { window < 3 }
    ensures text { IfOk result (λ text. string_bytes text ≡ call_text client (tile_drawn window draws.old.state)) }
    ensures state { draws.new.state ≡ (tile_drawn window draws.old.state).state }
{
    let area = draws.area();
    tile_text(alloc, client, window_name(window), area)
}

// A call of a kind, 0 to 11.
fn kind_line(
    alloc: Global,
    draws: &mut Draws,
    client: u32,
    kind: u32,
    window: u32,
) -> Result<String, OutOfMemory>
    requires kind { kind < 12 }
    requires window { window < 3 }
    ensures text { IfOk result (λ text. string_bytes text ≡ call_text client (kind_drawn kind window draws.old.state)) }
    ensures state { draws.new.state ≡ (kind_drawn kind window draws.old.state).state }
{
    match kind {
        0 => move_line(alloc, draws, client, window),
        1 => raise_text(alloc, client, window_name(window)),
        2 => lower_text(alloc, client, window_name(window)),
        3 => cursor_line(alloc, draws, client),
        4 => fill_line(alloc, draws, client, window),
        5 => fill_line(alloc, draws, client, window),
        6 => blend_line(alloc, draws, client, window),
        7 => stroke_line(alloc, draws, client, window),
        8 => polygon_line(alloc, draws, client, window),
        9 => codes_line(alloc, draws, client, window),
        10 => tile_line(alloc, draws, client, window),
        _ => take_text(alloc, client),
    }
}

// One of a client's first calls: two for each window.
fn first_line(alloc: Global, draws: &mut Draws, client: u32, k: u32) -> Result<String, OutOfMemory>
    requires { k < 6 }
    ensures text { IfOk result (λ text. string_bytes text ≡ call_text client (first_drawn k draws.old.state)) }
    ensures state { draws.new.state ≡ (first_drawn k draws.old.state).state }
{
    if k % 2 == 0 {
        create_line(alloc, draws, client, k / 2)
    } else {
        region_line(alloc, draws, client, (k - 1) / 2)
    }
}

// A later call: window and kind are drawn first.
fn later_line(alloc: Global, draws: &mut Draws, client: u32) -> Result<String, OutOfMemory>
    ensures text { IfOk result (λ text. string_bytes text ≡ call_text client (later_drawn client draws.old.state)) }
    ensures state { draws.new.state ≡ (later_drawn client draws.old.state).state }
{
    let window = draws.draw(2 + client % 2);
    let kind = draws.draw(12);
    kind_line(alloc, draws, client, kind, window)
}

/// Adds the line of a client's call, counted from 0.
pub fn push_call(
    alloc: Global,
    out: &mut Vec<u8>,
    draws: &mut Draws,
    client: u32,
    k: u32,
) -> Result<(), OutOfMemory>
    ensures text { OnOk result (out.new.items ≡ out.old.items ++ call_text client (call_drawn client k draws.old.state)) }
    ensures state { draws.new.state ≡ (call_drawn client k draws.old.state).state }
{
    let line = if k < 2 * (2 + client % 2) {
        first_line(alloc, draws, client, k)
    } else {
        later_line(alloc, draws, client)
    };
    out.extend_from_slice(line?.as_bytes())?;
    Ok(())
}
