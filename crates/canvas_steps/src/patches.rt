//! Pixels of a canvas that get other colours.
ghost use Rattle.std.specs.Prelude.{◌≡◌, ℕ, ◌<◌, true, All, IfOk, length, map, replicate, slice_index};
ghost use Rattle.qws_base.specs.Colours.{IsSceneColour, scene_colour};
ghost use Rattle.qws_base.specs.Points.{any_holds, pixel_count, point_of};
ghost use Rattle.qws_base.specs.RectPixels.{IsWithin};
ghost use Rattle.step_regions.specs.Carried.{HasSource, source};
ghost use Rattle.canvas_steps.specs.Laid.{laid, IsPatch};

use crate::pixels::pixels_of;
use band_regions::Region;
use pixel_model::Canvas;
use qws_base::{Depth, Ink, OutOfMemory, Rgb, Size, narrow_of_wide};
use std::alloc::Global;
use step_regions::CarriedPixels;

/// Pixels, each with the colour of 24 bits that it gets.
#[derive(Drop)]
pub(crate) struct Patch {
    pixels: Vec<u32>,
    colours: Vec<Rgb>,
}

// A colour of 24 bits for which a scene of the depth has that scene colour.
fn colour_for(depth: Depth, v: Rgb) -> Rgb
    requires { IsSceneColour depth v }
    ensures { scene_colour depth result ≡ v }
{
    narrow_of_wide(v.value() % 65536);
    depth.shown(v)
}

// The pixel whose colour is brought to a pixel.
fn source_of(canvas: &Canvas, falling: bool, by: u32, p: u32) -> u32
    requires pixel { p < pixel_count canvas.now.setting.size }
    requires has { HasSource canvas.now.setting falling by p }
    ensures value { result ≡ source falling by p }
    ensures within { result < pixel_count canvas.now.setting.size }
{
    // A screen has at most 640 columns and 480 rows.
    let size = canvas.size();
    let _pixels = size.w() * size.h();
    if falling { p - by } else { p + by }
}

// The colours that are brought to pixels.
fn colours_for(
    alloc: Global,
    canvas: &Canvas,
    carried: &CarriedPixels,
    pixels: &[u32],
) -> Result<Vec<Rgb>, OutOfMemory>
    requires pixels { All (λ p. p < pixel_count canvas.now.setting.size) pixels.now }
    requires sources { All (HasSource canvas.now.setting carried.now.falling carried.now.by) pixels.now }
    ensures { IfOk result (λ colours. map (scene_colour canvas.now.setting.depth) colours.items ≡ map (λ p. slice_index canvas.now.scene (source carried.now.falling carried.now.by p)) pixels.now) }
{
    let depth = canvas.depth();
    let mut colours = Vec::new(alloc);
    for p in pixels {
        let from = source_of(canvas, carried.falling, carried.by, *p);
        colours.push(colour_for(depth, canvas.pixel(from)))?;
    }
    Ok(colours)
}

// Gives colours to pixels of the canvas, one after another.
fn lay_colours(canvas: &mut Canvas, pixels: &[u32], colours: &[Rgb])
    requires pixels { All (λ p. p < pixel_count canvas.old.setting.size) pixels.now }
    requires colours { length colours.now ≡ length pixels.now }
    ensures { canvas.new ≡ record canvas.old { scene = laid pixels.now (map (scene_colour canvas.old.setting.depth) colours.now) canvas.old.scene } }
{
    for k in 0..pixels.len() {
        canvas.lay(pixels[k], Ink::Copy { c: colours[k] });
    }
}

impl Patch {
    /// What a move brings to pixels of the canvas: each gets the colour of its source.
    pub(crate) fn carried(
        alloc: Global,
        canvas: &Canvas,
        carried: &CarriedPixels,
    ) -> Result<Patch, OutOfMemory>
        requires within { All (IsWithin canvas.now.setting.size) carried.now.region }
        requires sources { (p : ℕ) → p < pixel_count canvas.now.setting.size → any_holds carried.now.region (point_of canvas.now.setting.size.w p) ≡ true → HasSource canvas.now.setting carried.now.falling carried.now.by p }
        ensures { IfOk result (IsPatch canvas.now.setting carried.now.region (λ p. slice_index canvas.now.scene (source carried.now.falling carried.now.by p))) }
    {
        let pixels = pixels_of(alloc, canvas.size(), &carried.region)?;
        let colours = colours_for(alloc, canvas, carried, &pixels)?;
        Ok(Patch { pixels, colours })
    }

    /// One colour for all pixels of a region of the canvas.
    pub(crate) fn filled(
        alloc: Global,
        canvas: &Canvas,
        region: &Region,
        colour: Rgb,
    ) -> Result<Patch, OutOfMemory>
        requires { All (IsWithin canvas.now.setting.size) region.now }
        ensures { IfOk result (IsPatch canvas.now.setting region.now (λ p. scene_colour canvas.now.setting.depth colour)) }
    {
        let pixels = pixels_of(alloc, canvas.size(), region)?;
        let colours = vec![in alloc; colour; pixels.len()]?;
        Ok(Patch { pixels, colours })
    }

    /// Each pixel gets its colour.
    pub(crate) fn lay(&self, canvas: &mut Canvas)
        requires pixels { All (λ p. p < pixel_count canvas.old.setting.size) self.now.pixels.items }
        requires colours { length self.now.colours.items ≡ length self.now.pixels.items }
        ensures { canvas.new ≡ record canvas.old { scene = laid self.now.pixels.items (map (scene_colour canvas.old.setting.depth) self.now.colours.items) canvas.old.scene } }
    {
        lay_colours(canvas, &self.pixels, &self.colours);
    }
}
