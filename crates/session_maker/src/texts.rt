//! The lines of calls, each with its end.
ghost use Rattle.std.specs.Prelude.{◌≡◌, pos, [], ◌∷◌, IfOk, string_bytes};
ghost use Rattle.qws_base.specs.declared.inks.Ink.TheVariants.{Copy, Xor, Blend};
ghost use Rattle.script_grammar.specs.declared.lines.Window.TheVariants.{Named};
ghost use Rattle.script_grammar.specs.declared.lines.LineCall.TheVariants.{Create, Region, Move, Raise, Lower, Cursor, Take, Fill, Tile, Line, Polygon, Text};
ghost use Rattle.session_maker.specs.Places.{point_of, rect_of, points_of};
ghost use Rattle.session_maker.specs.Made.{line_text};

use crate::draws::{Area, Corners, Place};
use crate::words::colour_word;
use qws_base::OutOfMemory;
use std::alloc::Global;

/// `create` of a window.
pub fn create_text(
    alloc: Global,
    client: u32,
    name: &str,
    layer: u32,
) -> Result<String, OutOfMemory>
    ensures { IfOk result (λ text. string_bytes text ≡ line_text client (Create name.now layer)) }
{
    let text = format!(in alloc; "{client} create {name} {layer}\n")?;
    Ok(text)
}

/// `region` of a window, with a rectangle at the origin.
pub fn region_text(
    alloc: Global,
    client: u32,
    name: &str,
    origin: Place,
    w: u32,
    h: u32,
) -> Result<String, OutOfMemory>
    ensures { IfOk result (λ text. string_bytes text ≡ line_text client (Region (Named name.now) (point_of origin) (record { x = pos 0; y = pos 0; w = w; h = h } ∷ []))) }
{
    let Place { x, y } = origin;
    let text = format!(in alloc; "{client} region {name} {x} {y} 0 0 {w} {h}\n")?;
    Ok(text)
}

/// `move` of a window.
pub fn move_text(
    alloc: Global,
    client: u32,
    name: &str,
    origin: Place,
) -> Result<String, OutOfMemory>
    ensures { IfOk result (λ text. string_bytes text ≡ line_text client (Move (Named name.now) (point_of origin))) }
{
    let Place { x, y } = origin;
    let text = format!(in alloc; "{client} move {name} {x} {y}\n")?;
    Ok(text)
}

/// `raise` of a window.
pub fn raise_text(alloc: Global, client: u32, name: &str) -> Result<String, OutOfMemory>
    ensures { IfOk result (λ text. string_bytes text ≡ line_text client (Raise (Named name.now))) }
{
    let text = format!(in alloc; "{client} raise {name}\n")?;
    Ok(text)
}

/// `lower` of a window.
pub fn lower_text(alloc: Global, client: u32, name: &str) -> Result<String, OutOfMemory>
    ensures { IfOk result (λ text. string_bytes text ≡ line_text client (Lower (Named name.now))) }
{
    let text = format!(in alloc; "{client} lower {name}\n")?;
    Ok(text)
}

/// `cursor`.
pub fn cursor_text(alloc: Global, client: u32, at: Place) -> Result<String, OutOfMemory>
    ensures { IfOk result (λ text. string_bytes text ≡ line_text client (Cursor (point_of at))) }
{
    let Place { x, y } = at;
    let text = format!(in alloc; "{client} cursor {x} {y}\n")?;
    Ok(text)
}

/// `fill` of a window with a colour.
pub fn fill_text(
    alloc: Global,
    client: u32,
    name: &str,
    area: Area,
    c: u32,
) -> Result<String, OutOfMemory>
    ensures { IfOk result (λ text. string_bytes text ≡ line_text client (Fill (Named name.now) (rect_of area) (Copy c))) }
{
    let Area { x, y, w, h } = area;
    let colour = colour_word(alloc, c)?;
    let text = format!(in alloc; "{client} fill {name} {x} {y} {w} {h} copy {colour}\n")?;
    Ok(text)
}

/// `fill` of a window with a blend.
pub fn blend_text(
    alloc: Global,
    client: u32,
    name: &str,
    area: Area,
    alpha: u32,
    c: u32,
) -> Result<String, OutOfMemory>
    ensures { IfOk result (λ text. string_bytes text ≡ line_text client (Fill (Named name.now) (rect_of area) (Blend c alpha))) }
{
    let Area { x, y, w, h } = area;
    let colour = colour_word(alloc, c)?;
    let text = format!(in alloc; "{client} fill {name} {x} {y} {w} {h} blend {alpha} {colour}\n")?;
    Ok(text)
}

/// `line` in a window.
pub fn stroke_text(
    alloc: Global,
    client: u32,
    name: &str,
    from: Place,
    to: Place,
    c: u32,
) -> Result<String, OutOfMemory>
    ensures { IfOk result (λ text. string_bytes text ≡ line_text client (Line (Named name.now) (point_of from) (point_of to) c)) }
{
    let Place { x: x0, y: y0 } = from;
    let Place { x: x1, y: y1 } = to;
    let colour = colour_word(alloc, c)?;
    let text = format!(in alloc; "{client} line {name} {x0} {y0} {x1} {y1} {colour}\n")?;
    Ok(text)
}

/// `polygon` of three points in a window.
pub fn polygon_text(
    alloc: Global,
    client: u32,
    name: &str,
    c: u32,
    corners: Corners,
) -> Result<String, OutOfMemory>
    ensures { IfOk result (λ text. string_bytes text ≡ line_text client (Polygon (Named name.now) (Xor c) (points_of corners))) }
{
    let Corners {
        first,
        second,
        third,
    } = corners;
    let Place { x: x0, y: y0 } = first;
    let Place { x: x1, y: y1 } = second;
    let Place { x: x2, y: y2 } = third;
    let colour = colour_word(alloc, c)?;
    let text = format!(in alloc;
        "{client} polygon {name} xor {colour} {x0} {y0} {x1} {y1} {x2} {y2}\n"
    )?;
    Ok(text)
}

/// `text` of two codes in a window, in font 0.
pub fn codes_text(
    alloc: Global,
    client: u32,
    name: &str,
    at: Place,
    c: u32,
) -> Result<String, OutOfMemory>
    ensures { IfOk result (λ text. string_bytes text ≡ line_text client (Text (Named name.now) 0 (point_of at) (Copy c) (65 ∷ 65 ∷ []))) }
{
    let Place { x, y } = at;
    let colour = colour_word(alloc, c)?;
    let text = format!(in alloc; "{client} text {name} 0 {x} {y} copy {colour} 65 65\n")?;
    Ok(text)
}

/// `tile` of a window with image 0.
pub fn tile_text(alloc: Global, client: u32, name: &str, area: Area) -> Result<String, OutOfMemory>
    ensures { IfOk result (λ text. string_bytes text ≡ line_text client (Tile (Named name.now) (rect_of area) 0)) }
{
    let Area { x, y, w, h } = area;
    let text = format!(in alloc; "{client} tile {name} {x} {y} {w} {h} 0\n")?;
    Ok(text)
}

/// `take`.
pub fn take_text(alloc: Global, client: u32) -> Result<String, OutOfMemory>
    ensures { IfOk result (λ text. string_bytes text ≡ line_text client Take) }
{
    let text = format!(in alloc; "{client} take\n")?;
    Ok(text)
}
