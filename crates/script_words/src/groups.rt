//! Words that belong together: points, rectangles and sizes.
ghost use Rattle.std.specs.Prelude.{◌≡◌};
ghost use Rattle.script_grammar.specs.Words.{point_read, rect_read, placed_point_read, placed_rect_read, size_read};

use crate::causes::{join, join4};
use crate::numbers::{coordinate, height, place, short, side, width};
use qws_base::{Point, Rect, Size};
use script_grammar::Cause;

/// The point of a command, of the whole range of its spelling.
#[tactic(auto, unfolding(script_grammar::specs::Words::point_read), using(crate::proofs::Joins::two_err))]
pub fn signed_point(x: &[u8], y: &[u8]) -> Result<Point, Cause>
    ensures { result ≡ point_read x.now y.now }
{
    match join(coordinate(x), coordinate(y)) {
        Ok((x, y)) => Ok(Point { x, y }),
        Err(cause) => Err(cause),
    }
}

/// The rectangle of a command, of the whole range of its spelling.
#[tactic(auto, unfolding(script_grammar::specs::Words::rect_read))]
pub fn signed_rect(x: &[u8], y: &[u8], w: &[u8], h: &[u8]) -> Result<Rect, Cause>
    ensures { result ≡ rect_read x.now y.now w.now h.now }
{
    match join4(coordinate(x), coordinate(y), short(w), short(h)) {
        Ok((x, y, w, h)) => Ok(Rect { x, y, w, h }),
        Err(cause) => Err(cause),
    }
}

/// The point of a paint: -4,096 to 4,095.
#[tactic(auto, unfolding(script_grammar::specs::Words::placed_point_read), using(crate::proofs::Joins::two_err))]
pub fn placed_point(x: &[u8], y: &[u8]) -> Result<Point, Cause>
    ensures { result ≡ placed_point_read x.now y.now }
{
    match join(place(x), place(y)) {
        Ok((x, y)) => Ok(Point { x, y }),
        Err(cause) => Err(cause),
    }
}

/// The rectangle of a paint: -4,096 to 4,095, and sides of 1 to 4,096.
#[tactic(auto, unfolding(script_grammar::specs::Words::placed_rect_read))]
pub fn placed_rect(x: &[u8], y: &[u8], w: &[u8], h: &[u8]) -> Result<Rect, Cause>
    ensures { result ≡ placed_rect_read x.now y.now w.now h.now }
{
    match join4(place(x), place(y), side(w), side(h)) {
        Ok((x, y, w, h)) => Ok(Rect { x, y, w, h }),
        Err(cause) => Err(cause),
    }
}

/// The size of a screen.
#[tactic(auto, unfolding(script_grammar::specs::Words::size_read), using(crate::proofs::Joins::two_err))]
pub fn screen_size(w: &[u8], h: &[u8]) -> Result<Size, Cause>
    ensures { result ≡ size_read w.now h.now }
{
    match join(width(w), height(h)) {
        Ok((w, h)) => Size::new(w, h).ok_or(Cause::Range),
        Err(cause) => Err(cause),
    }
}
