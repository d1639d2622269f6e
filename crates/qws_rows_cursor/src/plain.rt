//! The plain picture of the same paints.
ghost use Rattle.std.specs.Prelude.{◌≡◌, All, IfOk};

use gfx_fills::Fill;
use pixel_model::{Canvas, are_placed};
use qws_base::{OutOfMemory, PaintReply, Point, Rect, Rects, WindowView};
use std::alloc::Global;

/// A window in a slot, with rectangles local to its origin.
pub fn window(
    alloc: Global,
    slot: u32,
    owner: u32,
    origin: Point,
    rects: &[Rect],
) -> Result<WindowView, OutOfMemory> {
    Ok(WindowView {
        slot,
        owner,
        layer: 0,
        origin,
        rects: Rects::of(rects.to_vec(alloc)?),
    })
}

/// The replies of the plain picture where client 0 paints pictures on slot 0. Windows that aren't placed get none.
pub fn paint_all(
    alloc: Global,
    canvas: &mut Canvas,
    windows: &[WindowView],
    pictures: &[Fill],
) -> Result<Vec<PaintReply>, OutOfMemory> {
    let mut replies = Vec::new(alloc);
    if !are_placed(windows) {
        return Ok(replies);
    }
    for picture in pictures {
        replies.push(canvas.apply_paint(windows, 0, 0, picture))?;
    }
    Ok(replies)
}
