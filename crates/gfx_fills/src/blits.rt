//! Blits: an image once, with an alpha of its own.
ghost use Rattle.std.specs.Prelude.{◌≡◌, ◌+◌, ◌≤◌, length, map, slice_index};
ghost use Rattle.std.specs.List.{range_with_len};
ghost use Rattle.qws_base.specs.Sheets.{row_of};
ghost use Rattle.gfx_fills.specs.Images.{faded_ink, blit_rect, blit_sheet};
ghost use Rattle.picture_rows.specs.Runs.{IsInside};

use crate::images::{Image, faded_ink};
use picture_rows::{part, places_after, skip_around};
use qws_base::{Ink, Picture, Point, Rect};
use std::marker::Model;

// The inks of pixels of a row, from one of them on.
fn faded_inks(pixels: &[u32], first: usize, alpha: u8, out: &mut [Ink])
    requires { first + length out.old ≤ length pixels.now }
    ensures { out.new ≡ map (λ j. faded_ink alpha (slice_index pixels.now (first + j))) (range_with_len 0 (length out.old)) }
{
    for j in 0..out.len() {
        out[j] = faded_ink(pixels[first + j], alpha);
    }
}

// Where an image lies.
fn image_rect(at: Point, image: &Image) -> Rect
    ensures { result ≡ blit_rect at image.now }
{
    Rect {
        x: at.x,
        y: at.y,
        w: image.w(),
        h: image.h(),
    }
}

// The inks of points of a row that are in the rectangle of a blit.
fn blit_inside(at: Point, image: &Image, alpha: u8, y: i32, x: i32, out: &mut [Ink])
    requires { IsInside (blit_rect at image.now) y x (length out.old) }
    ensures { out.new ≡ row_of (blit_sheet at image.now alpha) y x (length out.old) }
{
    if out.is_empty() {
        return;
    }
    let row = places_after(at.y, image.h(), y);
    let column = places_after(at.x, image.w(), x);
    faded_inks(image.row(row), column as usize, alpha, out);
}

/// An image once, with its top left pixel at a point and an alpha for all of it. Contracts see the point, the image and
/// the alpha.
#[derive(Debug, Drop)]
pub struct Blit<'a> {
    at: Point,
    image: &'a Image,
    alpha: u8,
}

impl<'a> Model for Blit<'a> {
    ghost use Rattle.gfx_fills.specs.Images.{BlitView};
    ghost use Rattle.qws_base.specs.Points.{IsPlaced};

    ghost Value = { BlitView };

    ghost view = { λ b. record { at = b.at; image = b.image.now; alpha = b.alpha } };

    ghost invariant = { λ b. IsPlaced b.at };
}

impl<'a> Blit<'a> {
    ghost use Rattle.qws_base.specs.Points.{IsPlaced};

    /// The image with its top left pixel at a point, whose coordinates are in -4,096 to 4,095. A pixel's own alpha is
    /// taken times `alpha`, 255 for the whole of it.
    pub fn new(at: Point, image: &'a Image, alpha: u8) -> Blit<'a>
        requires { IsPlaced at }
        ensures { result ≡ record { at = at; image = image.now; alpha = alpha } }
    {
        Blit { at, image, alpha }
    }
}

impl<'a> Picture for Blit<'a> {
    ghost use Rattle.gfx_fills.specs.Images.{blit_sheet};

    ghost sheet = { λ b. blit_sheet b.at b.image b.alpha };

    fn reach(&self) -> Rect {
        image_rect(self.at, self.image)
    }

    fn row(&self, y: i32, x: i32, out: &mut [Ink]) {
        let (from, to) = part(image_rect(self.at, self.image), y, x, out.len());
        skip_around(from, to, out);
        blit_inside(
            self.at,
            self.image,
            self.alpha,
            y,
            x + from as i32,
            &mut out[from..to],
        );
    }
}
