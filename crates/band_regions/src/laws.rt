//! Laws of the definitions. Each function does nothing; its clause is the law.
ghost use Rattle.std.specs.Prelude.{◌≡◌, Bool, true, List, length};
ghost use Rattle.qws_base.specs.Sides.{Sides};
ghost use Rattle.qws_base.specs.Points.{any_holds};
ghost use Rattle.qws_base.specs.Regions.{IsCanonical, IsRegionOf, IsOnScreen, same_pixels, rect_count};
ghost use Rattle.qws_base.specs.declared.points.Point.{Point};
ghost use Rattle.qws_base.specs.declared.points.Rect.{Rect};

use qws_base::Rect;

/// Two canonical lists that hold the same points are one list. X11's and pixman's regions are such lists, in bands from
/// the top; here no two bands that touch have the same spans.
#[tactic(auto, using(crate::proofs::Uniqueness::same_lists))]
pub fn unique_list(first: &[Rect], second: &[Rect])
    requires first { IsCanonical first.now }
    requires second { IsCanonical second.now }
    requires same_points { (p : Point) → any_holds first.now p ≡ any_holds second.now p }
    ensures { first.now ≡ second.now }
{
    let _ = first;
    let _ = second;
}

/// The canonical list of a set of pixels has one rectangle for each corner of the set: so many are needed.
#[tactic(auto, using(crate::proofs::Corners::count_is))]
pub fn count_of_corners()
    ensures { (size : Sides) (rects : List Rect) (set : Point → Bool) → IsOnScreen size set → IsRegionOf rects set → length rects ≡ rect_count size set }
{}

/// Two sets of pixels differ exactly where their canonical lists do.
pub fn one_list_for_a_set()
    ensures lists { (size : Sides) (xs : List Rect) (ys : List Rect) (set : Point → Bool) (other : Point → Bool) → IsOnScreen size set → IsOnScreen size other → IsRegionOf xs set → IsRegionOf ys other → same_pixels size set other ≡ true → xs ≡ ys }
    ensures pixels { (size : Sides) (xs : List Rect) (ys : List Rect) (set : Point → Bool) (other : Point → Bool) → IsRegionOf xs set → IsRegionOf ys other → xs ≡ ys → same_pixels size set other ≡ true }
{}
