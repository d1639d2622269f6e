//! What is done on each pixel of a region, and in which direction.
ghost use Rattle.std.specs.Prelude.{◌≡◌, ◌<◌};
ghost use Rattle.scene_turns.specs.Works.{place, is_falling};

/// What is done on each pixel of a region: a colour is put there, or the colour of the pixel so many places ahead is brought
/// there, or of the one so many places behind. Falling, it goes from the last pixel on.
#[derive(Clone, Copy, Debug, PartialEq, Eq)]
pub enum Work {
    Fill { colour: u64 },
    Carry { falling: bool, by: u32 },
}

impl Work {
    // Whether it goes from the last pixel on.
    #[inline(always)]
    pub(crate) fn is_falling(&self) -> bool
        ensures { result ≡ is_falling self.now }
    {
        match self {
            Work::Fill { .. } => false,
            Work::Carry { falling, .. } => *falling,
        }
    }
}

// Place j of n pixels, from the first on, or from the last.
#[inline(always)]
pub(crate) fn pixel_place(falling: bool, n: u32, j: u32) -> u32
    requires { j < n }
    ensures value { result ≡ place falling n j }
    ensures within { result < n }
{
    if falling { n - 1 - j } else { j }
}

// Place j of n rectangles, or rows.
#[inline(always)]
pub(crate) fn rect_place(falling: bool, n: usize, j: usize) -> usize
    requires { j < n }
    ensures value { result ≡ place falling n j }
    ensures within { result < n }
{
    if falling { n - 1 - j } else { j }
}
