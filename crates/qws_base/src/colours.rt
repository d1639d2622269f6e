//! Colours of 24 bits, and their form at depth 16.
ghost use Rattle.std.specs.Prelude.{◌≡◌, ◌<◌, ◌^◌, ◌↔◌, IsTrue, [], ◌∷◌, SomeIff, bit_and, bit_or, bit_xor};
ghost use Rattle.qws_base.specs.Colours.{red, green, blue, colour_of, colour_count, IsSceneColour, scene_colour, shown_colour, narrow_colour, wide_colour};

use std::marker::Model;

/// The depth of a screen: how many bits a pixel has.
#[derive(Clone, Copy, Debug, PartialEq, Eq)]
pub enum Depth {
    /// 24 bits: eight for each of red, green and blue.
    Full,
    /// 16 bits: five of red, six of green and five of blue, from the top.
    Narrow,
}

/// A colour below 2^24: eight bits each of red, green and blue, from the top. At depth 16 a scene's sixteen bits stand
/// in one too, below 2^16.
#[derive(Clone, Copy, Debug, PartialEq, Eq)]
pub struct Rgb(u32);

impl Model for Rgb {
    ghost use Rattle.std.specs.Prelude.{ℕ, ◌<◌, ◌^◌};

    ghost Value = { ℕ };

    ghost view = { λ c. c.0 };

    ghost invariant = { λ c. c.0 < 2 ^ 24 };

    ghost inverse = { λ v. record { 0 = v } };
}

impl Rgb {
    /// The colour with that number; none exactly where the number is 2^24 or more.
    pub fn new(v: u32) -> Option<Rgb>
        ensures { SomeIff result (v < 2 ^ 24) v }
    {
        if v < 1 << 24 { Some(Rgb(v)) } else { None }
    }

    /// The number of the colour.
    pub fn value(&self) -> u32
        ensures value { result ≡ self.now }
        ensures range { result < 2 ^ 24 }
    {
        self.0
    }

    /// The colour with these channels, each from 0 for none to 255 for full.
    pub fn of_channels(red: u8, green: u8, blue: u8) -> Rgb
        ensures { result ≡ colour_of red green blue }
    {
        Rgb(u32::from(red) * 65536 + u32::from(green) * 256 + u32::from(blue))
    }

    /// Its channels: red, green and blue, each from 0 to 255. They are the three bytes of a pixel in a raw PPM.
    pub fn channels(&self) -> [u8; 3]
        ensures { result ≡ red self.now ∷ green self.now ∷ blue self.now ∷ [] }
    {
        [
            (self.0 / 65536) as u8,
            (self.0 / 256 % 256) as u8,
            (self.0 % 256) as u8,
        ]
    }

    // The bits that one of two colours has and the other has not; they have as many bits as the longer of the two.
    pub(crate) fn xor(self, old: Rgb, depth: Depth) -> Rgb
        requires new { IsSceneColour depth self }
        requires old { IsSceneColour depth old }
        ensures value { result ≡ bit_xor self old }
        ensures range { IsSceneColour depth result }
    {
        Rgb(self.0 ^ old.0)
    }

    // The bits that both of two colours have.
    pub(crate) fn and(self, old: Rgb, depth: Depth) -> Rgb
        requires new { IsSceneColour depth self }
        requires old { IsSceneColour depth old }
        ensures value { result ≡ bit_and self old }
        ensures range { IsSceneColour depth result }
    {
        Rgb(self.0 & old.0)
    }

    // The bits that at least one of two colours has.
    pub(crate) fn or(self, old: Rgb, depth: Depth) -> Rgb
        requires new { IsSceneColour depth self }
        requires old { IsSceneColour depth old }
        ensures value { result ≡ bit_or self old }
        ensures range { IsSceneColour depth result }
    {
        Rgb(self.0 | old.0)
    }
}

/// The sixteen bits of a colour: the upper five bits of red, six of green and five of blue.
pub fn narrow(c: Rgb) -> Rgb
    ensures value { result ≡ narrow_colour c }
    ensures range { result < 2 ^ 16 }
{
    let v = c.value();
    Rgb(v / 65536 / 8 * 2048 + v / 256 % 256 / 4 * 32 + v % 256 / 8)
}

/// The colour that sixteen bits stand for: the upper bits of each channel are repeated below, so that the least value
/// is 0 and the greatest 255.
pub fn wide(v: Rgb) -> Rgb
    requires { v < 2 ^ 16 }
    ensures { result ≡ wide_colour v }
{
    let v = v.value();
    let r = v / 2048;
    let g = v / 32 % 64;
    let b = v % 32;
    Rgb((r * 8 + r / 4) * 65536 + (g * 4 + g / 16) * 256 + (b * 8 + b / 4))
}

impl Depth {
    /// Whether a colour is a scene colour of the depth, as a scene's pixels and its backdrop are.
    pub fn has(self, v: Rgb) -> bool
        ensures { IsTrue result ↔ IsSceneColour self v }
    {
        let number = v.value();
        match self {
            Depth::Full => true,
            Depth::Narrow => number < 1 << 16,
        }
    }

    /// What a scene of the depth holds for a colour of 24 bits.
    pub fn scene(self, c: Rgb) -> Rgb
        ensures value { result ≡ scene_colour self c }
        ensures range { IsSceneColour self result }
    {
        let _range = c.value();
        match self {
            Depth::Full => c,
            Depth::Narrow => narrow(c),
        }
    }

    /// The colour of 24 bits that a scene colour of the depth stands for.
    pub fn shown(self, v: Rgb) -> Rgb
        requires { IsSceneColour self v }
        ensures { result ≡ shown_colour self v }
    {
        match self {
            Depth::Full => v,
            Depth::Narrow => wide(v),
        }
    }
}
