//! What a line means: a command, or a paint of a window.
ghost use Rattle.std.specs.Prelude.{◌≡◌, List, true, false, length, IfOk, MatchOption};
ghost use Rattle.glyph_masks.specs.Glyphs.{FontView};
ghost use Rattle.gfx_fills.specs.Images.{ImageView};
ghost use Rattle.script_grammar.specs.Limits.{IsCall};
ghost use Rattle.script_grammar.specs.Session.{is_paint};
ghost use Rattle.script_names.specs.Meaning.{meaning_with};
ghost use Rattle.script_names.specs.Naming.{naming};
ghost use Rattle.script_names.specs.declared.calls.Call.TheVariants.{Step as step, Paint as paint};

use crate::making::{blit, polygon, polyline, text, tile};
use crate::slots::Slots;
use gfx_fills::{Fill, Image};
use gfx_lines::Line;
use gfx_painters::Paint;
use glyph_masks::Font;
use qws_base::{Command, OutOfMemory};
use script_grammar::LineCall;
use std::alloc::Global;

/// What a client calls: a command, or a paint of the window in a slot. A paint may borrow images and fonts of the script for
/// `'a`.
#[derive(Debug, Drop)]
pub enum Call<'a> {
    /// A command to the server.
    Step { command: Command },
    /// A picture to paint, local to the origin of the window in the slot. Slot 32 stands for no window.
    Paint { slot: u32, paint: Paint<'a> },
}

// The slot and the paint of a line that paints.
fn paint_of<'a>(
    alloc: Global,
    fonts: &'a [Font],
    images: &'a [Image],
    slots: &Slots,
    call: &LineCall,
) -> Result<Option<(u32, Paint<'a>)>, OutOfMemory>
    requires { IsCall fonts.now (length images.now) call.now }
    ensures { IfOk result (λ found. MatchOption found (is_paint call.now ≡ false) (λ p. (is_paint call.now ≡ true) × (meaning_with fonts.now images.now (naming slots.now) call.now ≡ paint p.0 p.1))) }
{
    let (window, paint) = match call {
        LineCall::Fill { window, rect, ink } => (
            window,
            Paint::Fill {
                fill: Fill::new(*rect, *ink),
            },
        ),
        LineCall::Tile {
            window,
            rect,
            image,
        } => (window, tile(images, *rect, *image)),
        LineCall::Blit {
            window,
            at,
            image,
            alpha,
        } => (window, blit(images, *at, *image, *alpha)),
        LineCall::Line {
            window,
            from,
            to,
            colour,
        } => (
            window,
            Paint::Line {
                line: Line::new(*from, *to, *colour),
            },
        ),
        LineCall::Polyline {
            window,
            colour,
            points,
        } => (window, polyline(alloc, points.as_slice(), *colour)?),
        LineCall::Polygon {
            window,
            ink,
            points,
        } => (window, polygon(alloc, points.as_slice(), *ink)?),
        LineCall::Text {
            window,
            font,
            at,
            ink,
            codes,
        } => (
            window,
            text(alloc, fonts, *font, *at, *ink, codes.as_slice())?,
        ),
        _ => return Ok(None),
    };
    Ok(Some((slots.of_window(window), paint)))
}

// The command of a line that gives one.
fn command_of(alloc: Global, slots: &Slots, call: &LineCall) -> Result<Option<Command>, OutOfMemory>
    ensures { IfOk result (λ found. MatchOption found (is_paint call.now ≡ true) (λ c. (fonts : List FontView) (images : List ImageView) → meaning_with fonts images (naming slots.now) call.now ≡ step c)) }
{
    Ok(Some(match call {
        LineCall::Create { name: _, layer } => Command::Create { layer: *layer },
        LineCall::Destroy { window } => Command::Destroy {
            slot: slots.of_window(window),
        },
        LineCall::Region {
            window,
            origin,
            rects,
        } => Command::Region {
            slot: slots.of_window(window),
            origin: *origin,
            rects: rects.copy(alloc)?,
        },
        LineCall::Move { window, origin } => Command::Move {
            slot: slots.of_window(window),
            origin: *origin,
        },
        LineCall::Raise { window } => Command::Raise {
            slot: slots.of_window(window),
        },
        LineCall::Lower { window } => Command::Lower {
            slot: slots.of_window(window),
        },
        LineCall::Shape { w, h, cells } => Command::CursorShape {
            w: *w,
            h: *h,
            cells: cells.copy(alloc)?,
        },
        LineCall::Cursor { at } => Command::CursorMove { x: at.x, y: at.y },
        LineCall::Show { shown } => Command::CursorShow { shown: *shown },
        LineCall::Join { channel } => Command::Join {
            channel: channel.copy(alloc)?,
        },
        LineCall::Leave { channel } => Command::Leave {
            channel: channel.copy(alloc)?,
        },
        LineCall::Send {
            channel,
            message,
            payload,
        } => Command::Send {
            channel: channel.copy(alloc)?,
            message: message.copy(alloc)?,
            payload: payload.copy(alloc)?,
        },
        LineCall::Take => Command::Take,
        LineCall::Known { channel } => Command::IsRegistered {
            channel: channel.copy(alloc)?,
        },
        LineCall::Fill { .. }
        | LineCall::Tile { .. }
        | LineCall::Blit { .. }
        | LineCall::Line { .. }
        | LineCall::Polyline { .. }
        | LineCall::Polygon { .. }
        | LineCall::Text { .. } => return Ok(None),
    }))
}

/// What a line means, with these fonts and images of the script and the names that its client has given so far. A paint
/// borrows the font or the image that it needs.
pub fn meaning<'a>(
    alloc: Global,
    fonts: &'a [Font],
    images: &'a [Image],
    slots: &Slots,
    call: &LineCall,
) -> Result<Call<'a>, OutOfMemory>
    requires { IsCall fonts.now (length images.now) call.now }
    ensures { IfOk result (λ made. made ≡ meaning_with fonts.now images.now (naming slots.now) call.now) }
{
    if let Some((slot, paint)) = paint_of(alloc, fonts, images, slots, call)? {
        return Ok(Call::Paint { slot, paint });
    }
    match command_of(alloc, slots, call)? {
        Some(command) => Ok(Call::Step { command }),
        None => unreachable!(),
    }
}
