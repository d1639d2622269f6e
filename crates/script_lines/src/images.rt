//! The lines of images.
ghost use Rattle.std.specs.Prelude.{◌≡◌, ◌≤◌, map, IfOk};
ghost use Rattle.script_grammar.specs.Session.{ImageLine};
ghost use Rattle.script_grammar.specs.Lines.{whole_image, image_read};
ghost use Rattle.script_lines.specs.Parts.{image_parts};
ghost use Rattle.script_words.specs.Judged.{seen};

use crate::Judged;
use gfx_fills::{Image, ImageStop};
use qws_base::{OutOfMemory, Words};
use script_grammar::Cause;
use script_words::{is, join3, pixels, ranged};
use std::alloc::Global;

// The image of sides within their range, where there is a pixel for each place.
fn whole(alloc: Global, w: u32, h: u32, pixels: &Words) -> Judged<Image>
    requires some_w { 1 ≤ w }
    requires most_w { w ≤ 256 }
    requires some_h { 1 ≤ h }
    requires most_h { h ≤ 256 }
    ensures { IfOk result (λ read. read ≡ whole_image (record { w = w; h = h; pixels = pixels.now })) }
{
    let items = pixels.as_slice();
    if items.len() as u64 != u64::from(w) * u64::from(h) {
        return Ok(Err(Cause::Range));
    }
    match Image::new(alloc, w, h, items) {
        Ok(image) => Ok(Ok(image)),
        Err(ImageStop::BadSize { .. }) => unreachable!(),
        Err(ImageStop::OutOfMemory) => Err(OutOfMemory),
    }
}

// The image that these words make.
fn image(alloc: Global, w: &[u8], h: &[u8], pixel_word: &[u8]) -> Judged<Image>
    ensures { IfOk result (λ read. read ≡ image_parts w.now h.now pixel_word.now) }
{
    match join3(
        ranged(1, 256, w),
        ranged(1, 256, h),
        pixels(alloc, pixel_word)?,
    ) {
        Ok((w, h, pixels)) => whole(alloc, w, h, &pixels),
        Err(cause) => Ok(Err(cause)),
    }
}

/// `image W H PIXELS` behind these images.
#[tactic(auto, unfolding(script_grammar::specs::Lines::image_read))]
pub(crate) fn image_line(alloc: Global, images: &[Image], words: &[&[u8]]) -> Judged<Image>
    ensures { IfOk result (λ read. seen ImageLine read ≡ image_read images.now (map (λ w. w.now) words.now)) }
{
    let [kind, w, h, pixel_word] = words else {
        return Ok(Err(Cause::Form));
    };
    if !is(kind, b"image") {
        return Ok(Err(Cause::Form));
    }
    match image(alloc, w, h, pixel_word)? {
        Err(cause) => Ok(Err(cause)),
        Ok(image) => {
            if images.len() < 64 {
                Ok(Ok(image))
            } else {
                Ok(Err(Cause::Many))
            }
        }
    }
}
