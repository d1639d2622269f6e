//! Tiles: a rectangle filled with an image, again and again.
ghost use Rattle.std.specs.Prelude.{◌≡◌, ◌+◌, ◌%◌, ◌<◌, pos, ◌+ℤ◌, length, map, slice_index};
ghost use Rattle.std.specs.List.{range_with_len};
ghost use Rattle.qws_base.specs.Sheets.{row_of};
ghost use Rattle.gfx_fills.specs.Images.{pixel_ink, tile_sheet};
ghost use Rattle.picture_rows.specs.Runs.{IsInside};

use crate::images::{Image, pixel_ink};
use picture_rows::{part, places_after, skip_around};
use qws_base::{Ink, Picture, Rect};
use std::marker::Model;

// The inks of a row of pixels that is repeated, from one of them on.
fn repeated_inks(pixels: &[u32], first: usize, out: &mut [Ink])
    requires { first < length pixels.now }
    ensures { out.new ≡ map (λ j. pixel_ink (slice_index pixels.now ((first + j) % length pixels.now))) (range_with_len 0 (length out.old)) }
{
    let mut column = first;
    for j in 0..out.len() {
        out[j] = pixel_ink(pixels[column]);
        column += 1;
        if column == pixels.len() {
            column = 0;
        }
    }
}

// The inks of points of a row that are in the rectangle of a tile.
fn tile_inside(rect: Rect, image: &Image, y: i32, x: i32, out: &mut [Ink])
    requires { IsInside rect y x (length out.old) }
    ensures { out.new ≡ row_of (tile_sheet rect image.now) y x (length out.old) }
{
    if out.is_empty() {
        return;
    }
    let row = places_after(rect.y, rect.h, y);
    let column = places_after(rect.x, rect.w, x);
    let pixels = image.row(row % image.h());
    repeated_inks(pixels, column as usize % pixels.len(), out);
}

/// An image again and again in a rectangle, from its corner on. Contracts see the rectangle and the image.
#[derive(Debug, Drop)]
pub struct Tile<'a> {
    rect: Rect,
    image: &'a Image,
}

impl<'a> Model for Tile<'a> {
    ghost use Rattle.gfx_fills.specs.Images.{TileView};
    ghost use Rattle.gfx_fills.specs.Parts.{IsPlacedRect};

    ghost Value = { TileView };

    ghost view = { λ t. record { rect = t.rect; image = t.image.now } };

    ghost invariant = { λ t. IsPlacedRect t.rect };
}

impl<'a> Tile<'a> {
    ghost use Rattle.gfx_fills.specs.Parts.{IsPlacedRect};

    /// The image again and again in a rectangle of 1 to 4,096 columns and rows, whose corner's coordinates are in -4,096
    /// to 4,095. The image's top left pixel lies at the corner.
    pub fn new(rect: Rect, image: &'a Image) -> Tile<'a>
        requires { IsPlacedRect rect }
        ensures { result ≡ record { rect = rect; image = image.now } }
    {
        Tile { rect, image }
    }
}

impl<'a> Picture for Tile<'a> {
    ghost use Rattle.gfx_fills.specs.Images.{tile_sheet};

    ghost sheet = { λ t. tile_sheet t.rect t.image };

    fn reach(&self) -> Rect {
        self.rect
    }

    fn row(&self, y: i32, x: i32, out: &mut [Ink]) {
        let (from, to) = part(self.rect, y, x, out.len());
        skip_around(from, to, out);
        tile_inside(
            self.rect,
            self.image,
            y,
            x + from as i32,
            &mut out[from..to],
        );
    }
}
