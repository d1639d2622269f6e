//! Images: pixels by rows, each a colour with an alpha.
ghost use Rattle.std.specs.Prelude.{◌≡◌, ◌+◌, ◌*◌, ◌/◌, ◌<◌, ◌^◌, ◌↔◌, ◌⊎◌, IsTrue, length, slice_range, IfOk, IfErr, OnOk};
ghost use Rattle.gfx_fills.specs.Images.{IsImageSize, IsImage, colour_in, veil, pixel_ink, faded_ink};

use qws_base::{Ink, Rgb};
use std::alloc::Global;
use std::marker::Model;

/// Why there is no image.
#[derive(Clone, Copy, Debug, PartialEq, Eq)]
pub enum ImageStop {
    /// The width or the height is not in 1 to 256, or the number of pixels is not their product.
    BadSize { w: u32, h: u32, count: u64 },
    OutOfMemory,
}

/// Pixels by rows from the top left: 1 to 256 columns and rows. A pixel is `alpha * 2^24 + colour`, with the alpha from
/// 0 for transparent to 255 for opaque.
#[derive(Debug, Drop)]
pub struct Image {
    w: u32,
    h: u32,
    pixels: Vec<u32>,
}

impl Model for Image {
    ghost use Rattle.std.specs.Prelude.{length};
    ghost use Rattle.gfx_fills.specs.Images.{ImageView, IsImageSize};

    ghost Value = { ImageView };

    ghost view = { λ i. record { w = i.w; h = i.h; pixels = i.pixels.items } };

    ghost invariant = { λ i. IsImageSize i.w i.h (length i.pixels.items) };
}

// Whether an image can have so many columns and rows, with so many pixels.
fn is_image_size(w: u32, h: u32, count: u64) -> bool
    ensures { IsTrue result ↔ IsImageSize w h count }
{
    0 < w && w <= 256 && 0 < h && h <= 256 && count == u64::from(w) * u64::from(h)
}

impl Image {
    /// An image of those pixels, which it copies. An Ok tells that width, height and number of pixels are good.
    pub fn new(alloc: Global, w: u32, h: u32, pixels: &[u32]) -> Result<Image, ImageStop>
        ensures made { IfOk result (λ image. image ≡ record { w = w; h = h; pixels = pixels.now }) }
        ensures good { OnOk result (IsImageSize w h (length pixels.now)) }
        ensures bad_size { (result ≡ Err (ImageStop.BadSize w h (length pixels.now))) ↔ ¬ IsImageSize w h (length pixels.now) }
        ensures no_other { IfErr result (λ stop. (stop ≡ ImageStop.BadSize w h (length pixels.now)) ⊎ (stop ≡ ImageStop.OutOfMemory)) }
    {
        let count = pixels.len() as u64;
        if !is_image_size(w, h, count) {
            return Err(ImageStop::BadSize { w, h, count });
        }
        match pixels.to_vec(alloc) {
            Ok(pixels) => Ok(Image { w, h, pixels }),
            Err(_) => Err(ImageStop::OutOfMemory),
        }
    }

    /// The number of columns.
    pub fn w(&self) -> u32
        ensures value { result ≡ self.now.w }
        ensures is_image { IsImage self.now }
    {
        self.w
    }

    /// The number of rows.
    pub fn h(&self) -> u32
        ensures value { result ≡ self.now.h }
        ensures is_image { IsImage self.now }
    {
        self.h
    }

    /// The pixels by rows.
    pub fn pixels(&self) -> &[u32]
        ensures value { result.now ≡ self.now.pixels }
        ensures is_image { IsImage self.now }
    {
        self.pixels.as_slice()
    }

    // The pixels of one row.
    pub(crate) fn row(&self, row: u32) -> &[u32]
        requires { row < self.now.h }
        ensures value { result.now ≡ slice_range self.now.pixels (row * self.now.w) (row * self.now.w + self.now.w) }
        ensures is_image { IsImage self.now }
    {
        let first = row as usize * self.w as usize;
        &self.pixels[first..first + self.w as usize]
    }
}

// The ink of a pixel's colour with an alpha.
fn veil(pixel: u32, alpha: u32) -> Ink
    requires { alpha < 256 }
    ensures { result ≡ veil (colour_in pixel) alpha }
{
    match Rgb::new(pixel % (1 << 24)) {
        Some(c) if alpha != 0 => Ink::Blend { c, a: alpha as u8 },
        _ => Ink::Skip,
    }
}

/// The ink of a pixel.
pub(crate) fn pixel_ink(pixel: u32) -> Ink
    ensures { result ≡ pixel_ink pixel }
{
    veil(pixel, pixel >> 24)
}

/// The ink of a pixel of an image that has an alpha too.
pub(crate) fn faded_ink(pixel: u32, alpha: u8) -> Ink
    ensures { result ≡ faded_ink alpha pixel }
{
    veil(pixel, ((pixel >> 24) * u32::from(alpha) + 127) / 255)
}
