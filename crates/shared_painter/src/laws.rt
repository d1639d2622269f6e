//! A law of painting. The function does nothing; its clause is the law.
ghost use Rattle.shared_painter.specs.Carried.{CarriedLaw};

use qws_base::rects_have_pixels;
use turn_logs::pixels_carry;

/// A client whose log was empty, and who has painted a sheet on the pixels of a fresh clip, has carried the paint.
pub fn paints_are_carried_whole()
    ensures { CarriedLaw }
{
    pixels_carry();
    rects_have_pixels();
}
