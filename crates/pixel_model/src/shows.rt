//! The picture that is shown: the cells with the cursor above them, in colours of 24 bits.
ghost use Rattle.std.specs.Prelude.{◌≡◌, ◌<◌, length, IfOk};
ghost use Rattle.qws_base.specs.Points.{pixel_count};
ghost use Rattle.qws_base.specs.Scenes.{Setting};
ghost use Rattle.qws_base.specs.Shown.{IsShape, shown_pixel, shown_picture};
ghost use Rattle.pixel_model.specs.Drawn.{AllSceneColours};

use crate::owners::pixel_point;
use qws_base::{Cursor, Depth, OutOfMemory, Rgb, Size};
use std::alloc::Global;

// The shown colour of a pixel.
fn shown_colour_at(size: Size, depth: Depth, cells: &[Rgb], cursor: &Cursor, p: u32) -> u32
    requires shape { IsShape cursor.now }
    requires pixels { length cells.now ≡ pixel_count size }
    requires colours { AllSceneColours depth cells.now }
    requires range { p < pixel_count size }
    ensures { let setting : Setting = record { size = size; depth = depth; backdrop = 0 } in
        result ≡ shown_pixel setting cursor.now cells.now p }
{
    let at = pixel_point(size.w(), p);
    let above = cursor.above(depth, at, cells[p as usize]);
    depth.shown(above).value()
}

/// The shown colours of all pixels, by rows.
pub fn show(
    alloc: Global,
    size: Size,
    depth: Depth,
    cells: &[Rgb],
    cursor: &Cursor,
) -> Result<Vec<u32>, OutOfMemory>
    requires shape { IsShape cursor.now }
    requires pixels { length cells.now ≡ pixel_count size }
    requires colours { AllSceneColours depth cells.now }
    ensures { let setting : Setting = record { size = size; depth = depth; backdrop = 0 } in
        IfOk result (λ shown. shown.items ≡ shown_picture setting cursor.now cells.now) }
{
    let mut shown = Vec::with_capacity(alloc, cells.len())?;
    for p in 0..cells.len() {
        let colour = shown_colour_at(size, depth, cells, cursor, p as u32);
        shown.push(colour)?;
    }
    Ok(shown)
}
