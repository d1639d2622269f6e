//! A law of cuts. The function does nothing; its clause is the law.
ghost use Rattle.picture_cuts.specs.Cuts.{CutLaw};

/// A cut has just the points that the rectangle shares with the picture's reach at the origin. Where the rectangle lies on a
/// screen, so does its cut, and the pixels of both on which the picture has ink are the same, in the same order.
#[tactic(auto, using(crate::proofs::CutPixels::cut_law))]
pub fn cuts_have_the_ink()
    ensures { CutLaw }
{}
