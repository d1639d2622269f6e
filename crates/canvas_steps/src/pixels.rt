//! The pixels of a region on the screen.
ghost use Rattle.std.specs.Prelude.{◌≡◌, ◌+◌, ◌<◌, ◌≤◌, ◌++◌, All, IfOk, OnOk};
ghost use Rattle.std.specs.List.{range_with_len};
ghost use Rattle.qws_base.specs.Regions.{HasPixels};
ghost use Rattle.qws_base.specs.RectPixels.{IsWithin, rect_pixels, rects_pixels};

use band_regions::Region;
use qws_base::{OutOfMemory, Rect, Size};
use std::alloc::Global;

// Adds pixels side by side.
fn push_stretch(pixels: &mut Vec<u32>, first: u32, count: u32) -> Result<(), OutOfMemory>
    requires { first + count ≤ 307200 }
    ensures { OnOk result (pixels.new.items ≡ pixels.old.items ++ range_with_len first count) }
{
    for j in 0..count {
        pixels.push(first + j)?;
    }
    Ok(())
}

// Adds the pixels of a rectangle on the screen, by rows.
fn push_rect(pixels: &mut Vec<u32>, size: Size, rect: Rect) -> Result<(), OutOfMemory>
    requires on_screen { IsWithin size rect }
    requires some_pixels { HasPixels rect }
    ensures { OnOk result (pixels.new.items ≡ pixels.old.items ++ rect_pixels size.w rect) }
{
    let width = size.w();
    let _height = size.h();
    for i in 0..rect.h {
        let first = (rect.y as u32 + i) * width + rect.x as u32;
        push_stretch(pixels, first, rect.w)?;
    }
    Ok(())
}

// Adds the pixels of rectangles on the screen, one rectangle after another.
fn push_rects(pixels: &mut Vec<u32>, size: Size, rects: &[Rect]) -> Result<(), OutOfMemory>
    requires on_screen { All (IsWithin size) rects.now }
    requires some_pixels { All HasPixels rects.now }
    ensures { OnOk result (pixels.new.items ≡ pixels.old.items ++ rects_pixels size.w rects.now) }
{
    for rect in rects {
        push_rect(pixels, size, *rect)?;
    }
    Ok(())
}

/// The pixels of a region on the screen, rectangle by rectangle, and each of these by rows.
pub(crate) fn pixels_of(alloc: Global, size: Size, region: &Region) -> Result<Vec<u32>, OutOfMemory>
    requires { All (IsWithin size) region.now }
    ensures { IfOk result (λ pixels. pixels.items ≡ rects_pixels size.w region.now) }
{
    let mut pixels = Vec::new(alloc);
    push_rects(&mut pixels, size, region.rects())?;
    Ok(pixels)
}
