//! Inks: what a paint does to a pixel.
ghost use Rattle.std.specs.Prelude.{◌≡◌, ◌<◌, ◌^◌};
ghost use Rattle.qws_base.specs.Colours.{IsSceneColour, scene_colour, shown_colour, red, green, blue};
ghost use Rattle.qws_base.specs.Shown.{cell_ink};
ghost use Rattle.qws_base.specs.Inks.{ink_after, blended_channel, blended_colour};
ghost use Rattle.qws_base.specs.declared.colours.Depth.TheVariants.{Full};

use crate::colours::{Depth, Rgb};

/// What a paint does to a pixel.
#[derive(Clone, Copy, Debug, PartialEq, Eq)]
pub enum Ink {
    /// The pixel stays as it is.
    Skip,
    /// The pixel gets the colour.
    Copy { c: Rgb },
    /// The bits of the colour and of the pixel, by exclusive or.
    Xor { c: Rgb },
    /// The bits that both have.
    And { c: Rgb },
    /// The bits that one of the two has.
    Or { c: Rgb },
    /// The colour with an alpha, 0 for transparent to 255 for opaque, over the pixel, channel by channel.
    Blend { c: Rgb, a: u8 },
}

// A channel of a colour with an alpha over an old channel.
fn blend_channel(c: u8, a: u8, s: u8) -> u8
    ensures { result ≡ blended_channel c a s }
{
    let c = u32::from(c);
    let a = u32::from(a);
    let s = u32::from(s);
    ((c * a + s * (255 - a) + 127) / 255) as u8
}

// A colour with an alpha over an old colour.
fn blend(c: Rgb, a: u8, old: Rgb) -> Rgb
    ensures { result ≡ blended_colour c a old }
{
    let [r, g, b] = c.channels();
    let [old_r, old_g, old_b] = old.channels();
    let red = blend_channel(r, a, old_r);
    let green = blend_channel(g, a, old_g);
    let blue = blend_channel(b, a, old_b);
    Rgb::of_channels(red, green, blue)
}

impl Ink {
    /// The ink of a cell of a cursor, `alpha * 2^24 + colour`: its colour with its alpha.
    pub fn of_cell(cell: u32) -> Ink
        ensures { result ≡ cell_ink cell }
    {
        match Rgb::new(cell % (1 << 24)) {
            Some(c) => Ink::Blend {
                c,
                a: (cell / (1 << 24)) as u8,
            },
            None => Ink::Skip,
        }
    }
}

/// The pixel after an ink, at a depth. `old` is a scene colour of the depth, and so is the answer.
pub fn after_at(depth: Depth, ink: Ink, old: Rgb) -> Rgb
    requires { IsSceneColour depth old }
    ensures value { result ≡ ink_after depth ink old }
    ensures range { IsSceneColour depth result }
{
    match ink {
        Ink::Skip => old,
        Ink::Copy { c } => depth.scene(c),
        Ink::Xor { c } => depth.scene(c).xor(old, depth),
        Ink::And { c } => depth.scene(c).and(old, depth),
        Ink::Or { c } => depth.scene(c).or(old, depth),
        Ink::Blend { c, a } => depth.scene(blend(c, a, depth.shown(old))),
    }
}

/// The pixel after an ink, at depth 24.
pub fn after(ink: Ink, old: Rgb) -> Rgb
    ensures { result ≡ ink_after Full ink old }
{
    let _range = old.value();
    after_at(Depth::Full, ink, old)
}
