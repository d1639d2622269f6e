//! A set of pixels as its canonical list of rectangles.
ghost use Rattle.std.specs.Prelude.{◌≡◌, ◌↔◌, ◌&&◌, ◌||◌, not, false, [], pos, negsuc, ◌+ℤ◌, int_le, IsTrue, IfOk, IfSome, None, All};
ghost use Rattle.band_regions.specs.Around.{IsLeastAround};
ghost use Rattle.qws_base.specs.Points.{holds, any_holds, minus, shifted};
ghost use Rattle.qws_base.specs.Regions.{IsCanonical, IsRegionOf};
ghost use Rattle.qws_base.specs.declared.points.Point.{Point};
ghost use Rattle.band_regions.specs.Ranges.{IsInRange, IsShiftable, shift_of, is_before};

use crate::around::around;
use crate::operations::Operation;
use crate::runs::canonical_len;
use crate::sweeps::sweep;
use qws_base::{OutOfMemory, Point, Rect};
use std::alloc::Global;
use std::marker::Model;

/// A set of pixels, seen as its canonical list of rectangles: bands from the top, in a band its spans from the left. Their
/// corners are in -32,768..32,767, and their right and bottom ends are at most 32,768.
#[derive(Debug, Drop)]
pub struct Region {
    rects: Vec<Rect>,
}

impl Model for Region {
    ghost use Rattle.std.specs.Prelude.{List};
    ghost use Rattle.qws_base.specs.declared.points.Rect.{Rect};
    ghost use Rattle.band_regions.specs.Ranges.{IsInForm};

    ghost Value = { List Rect };

    ghost view = { λ r. r.rects.items };

    ghost invariant = { λ r. IsInForm r.rects.items };
}

impl Region {
    /// The pixels of all the rectangles, which are in the range of regions, as `are_in_range` tells. One without width or height
    /// adds nothing.
    pub fn of_rects(alloc: Global, rects: &[Rect]) -> Result<Region, OutOfMemory>
        requires { All IsInRange rects.now }
        ensures { IfOk result (λ region. IsRegionOf region (any_holds rects.now)) }
    {
        match rects {
            [] => Ok(Region {
                rects: Vec::new(alloc),
            }),
            [rect] => {
                let region = Region::of_rect(alloc, rect)?;
                Ok(region)
            }
            _ => {
                let count = canonical_len(rects);
                if count == rects.len() {
                    return Ok(Region {
                        rects: rects.to_vec(alloc)?,
                    });
                }
                let cut = count.max(rects.len() / 2);
                let first = Region::of_rects(alloc, &rects[..cut])?;
                let second = Region::of_rects(alloc, &rects[cut..])?;
                let region = first.unite(alloc, &second)?;
                Ok(region)
            }
        }
    }

    /// The pixels of one rectangle.
    fn of_rect(alloc: Global, rect: &Rect) -> Result<Region, OutOfMemory>
        requires { IsInRange rect.now }
        ensures { IfOk result (λ region. IsRegionOf region (holds rect.now)) }
    {
        let mut rects = Vec::new(alloc);
        if rect.w == 0 || rect.h == 0 {
            return Ok(Region { rects });
        }
        rects.push(*rect)?;
        Ok(Region { rects })
    }

    /// The pixels that are in one of the two.
    pub fn unite(&self, alloc: Global, other: &Region) -> Result<Region, OutOfMemory>
        ensures { IfOk result (λ region. IsRegionOf region (λ p. any_holds self.now p || any_holds other.now p)) }
    {
        Ok(Region {
            rects: sweep(alloc, Operation::Unite, &self.rects, &other.rects)?,
        })
    }

    /// The pixels that are in both.
    pub fn meet(&self, alloc: Global, other: &Region) -> Result<Region, OutOfMemory>
        ensures { IfOk result (λ region. IsRegionOf region (λ p. any_holds self.now p && any_holds other.now p)) }
    {
        Ok(Region {
            rects: sweep(alloc, Operation::Meet, &self.rects, &other.rects)?,
        })
    }

    /// The pixels that are in this and not in the other.
    pub fn minus(&self, alloc: Global, other: &Region) -> Result<Region, OutOfMemory>
        ensures { IfOk result (λ region. IsRegionOf region (λ p. any_holds self.now p && not (any_holds other.now p))) }
    {
        Ok(Region {
            rects: sweep(alloc, Operation::Minus, &self.rects, &other.rects)?,
        })
    }

    /// The pixels moved by so many columns to the right and rows down, each rectangle within the range of regions, as `can_shift`
    /// tells.
    pub fn shift(&self, alloc: Global, dx: i32, dy: i32) -> Result<Region, OutOfMemory>
        requires { All (IsShiftable dx dy) self.now }
        ensures { IfOk result (λ region. IsRegionOf region (λ p. any_holds self.now (minus p (shift_of dx dy)))) }
    {
        let mut rects = Vec::new(alloc);
        for rect in &self.rects {
            rects.push(moved(rect, dx, dy))?;
        }
        Ok(Region { rects })
    }

    /// An equal region.
    pub fn copy(&self, alloc: Global) -> Result<Region, OutOfMemory>
        ensures { IfOk result (λ region. region ≡ self.now) }
    {
        Ok(Region {
            rects: self.rects.to_vec(alloc)?,
        })
    }

    /// Whether the point is in the region.
    pub fn holds(&self, p: Point) -> bool
        ensures { result ≡ any_holds self.now p }
    {
        let k = self.rects.partition_point(|rect| lies_before(rect, p));
        match self.rects.get(k) {
            None => false,
            Some(rect) => starts_by(rect, p),
        }
    }

    /// Whether it has no pixel.
    pub fn is_empty(&self) -> bool
        ensures list { IsTrue result ↔ (self.now ≡ []) }
        ensures points { IsTrue result ↔ ((p : Point) → any_holds self.now p ≡ false) }
    {
        self.rects.is_empty()
    }

    /// The least rectangle that holds all its pixels; none where it has no pixel.
    pub fn bounds(&self) -> Option<Rect>
        ensures none { (result ≡ None) ↔ (self.now ≡ []) }
        ensures some { IfSome result (λ r. IsLeastAround r (any_holds self.now)) }
    {
        if self.rects.is_empty() {
            return None;
        }
        Some(around(&self.rects))
    }

    /// Whether the two have the same pixels.
    pub fn is_same(&self, other: &Region) -> bool
        ensures list { IsTrue result ↔ (self.now ≡ other.now) }
        ensures points { IsTrue result ↔ ((p : Point) → any_holds self.now p ≡ any_holds other.now p) }
    {
        is_same_list(&self.rects, &other.rects)
    }

    /// Whether it stays in range when it is moved by so many columns to the right and rows down.
    pub fn can_shift(&self, dx: i32, dy: i32) -> bool
        ensures { IsTrue result ↔ All (IsShiftable dx dy) self.now }
    {
        for rect in &self.rects {
            if !is_in_range(rect, dx, dy) {
                return false;
            }
        }
        true
    }

    /// The canonical list.
    pub fn rects(&self) -> &[Rect]
        ensures value { result.now ≡ self.now }
        ensures canonical { IsCanonical self.now }
        ensures in_range { All IsInRange self.now }
    {
        &self.rects
    }
}

/// Whether two lists have the same rectangles in the same order.
fn is_same_list(first: &[Rect], second: &[Rect]) -> bool
    ensures { IsTrue result ↔ (first.now ≡ second.now) }
{
    if first.len() != second.len() {
        return false;
    }
    for (i, rect) in first.iter().enumerate() {
        if *rect != second[i] {
            return false;
        }
    }
    true
}

/// Whether a side of so many places, moved by some, starts and ends in range.
fn is_side_in_range(by: i32, start: i32, count: u32) -> bool
    ensures { result ≡ (int_le (negsuc 32767) (by +ℤ start) && (int_le (by +ℤ start) (pos 32767) && int_le ((by +ℤ start) +ℤ pos count) (pos 32768))) }
{
    let first = i64::from(by) + i64::from(start);
    first >= -32768 && (first <= 32767 && first + i64::from(count) <= 32768)
}

/// Whether the rectangle, moved by so many columns to the right and rows down, is in range.
fn is_in_range(rect: &Rect, dx: i32, dy: i32) -> bool
    ensures { IsTrue result ↔ IsShiftable dx dy rect.now }
{
    is_side_in_range(dx, rect.x, rect.w) && is_side_in_range(dy, rect.y, rect.h)
}

/// Whether the rectangle is in range where it lies.
fn lies_in_range(rect: &Rect) -> bool
    ensures { IsTrue result ↔ IsInRange rect.now }
{
    is_in_range(rect, 0, 0)
}

/// Whether rectangles are in the range of regions, as `of_rects` asks: corners in -32,768 to 32,767, and right and bottom ends
/// at most 32,768.
pub fn are_in_range(rects: &[Rect]) -> bool
    ensures { IsTrue result ↔ All IsInRange rects.now }
{
    rects.iter().all(|rect| lies_in_range(rect))
}

/// The rectangle moved by so many columns to the right and rows down.
fn moved(rect: &Rect, dx: i32, dy: i32) -> Rect
    requires rect { IsInRange rect.now }
    requires moved { IsShiftable dx dy rect.now }
    ensures { result ≡ shifted (shift_of dx dy) rect.now }
{
    Rect {
        x: dx + rect.x,
        y: dy + rect.y,
        w: rect.w,
        h: rect.h,
    }
}

/// Whether so many places from a start on end at the place, or before it.
fn ends_by(start: i32, count: u32, place: i32) -> bool
    ensures { result ≡ int_le (start +ℤ pos count) place }
{
    i64::from(start) + i64::from(count) <= i64::from(place)
}

/// Whether all points of the rectangle that are in the point's row or below it are to its left.
fn lies_before(rect: &Rect, p: Point) -> bool
    ensures { result ≡ is_before rect.now p }
{
    ends_by(rect.y, rect.h, p.y) || (rect.y <= p.y && ends_by(rect.x, rect.w, p.x))
}

/// Whether the rectangle starts in the point's row or above, and in its column or to its left.
fn starts_by(rect: &Rect, p: Point) -> bool
    ensures { result ≡ (int_le rect.now.x p.x && int_le rect.now.y p.y) }
{
    rect.x <= p.x && rect.y <= p.y
}
