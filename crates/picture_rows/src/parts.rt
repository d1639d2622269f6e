//! The places of a row that lie within a rectangle.
ghost use Rattle.std.specs.Prelude.{ℕ, ◌≡◌, ◌<◌, ◌≤◌, pos, ◌+ℤ◌, ◌-ℤ◌, int_le, nat_le, nat_abs, true};
ghost use Rattle.qws_base.specs.Points.{spans};
ghost use Rattle.picture_rows.specs.Runs.{IsRun, IsPart};

use qws_base::Rect;

// Whether `len` places from `low` on have the place `at` among them.
fn is_spanned(low: i32, len: u32, at: i32) -> bool
    ensures { result ≡ spans low len at }
{
    let low = i64::from(low);
    let at = i64::from(at);
    low <= at && at < low + i64::from(len)
}

// The first of the places 0 to `n - 1` that is not below a limit, or n.
fn cut(limit: i64, n: usize) -> usize
    ensures within { result ≤ n }
    ensures at { (k : ℕ) → k < n → nat_le result k ≡ int_le limit (pos k) }
{
    if limit <= 0 { 0 } else { n.min(limit as usize) }
}

/// Of the n places of a row from the column x on those in the `len` columns from `low` on: from the first up to the second.
pub fn span(low: i32, len: u32, x: i32, n: usize) -> (usize, usize)
    ensures { IsRun (λ k. spans low len (x +ℤ pos k)) n result.0 result.1 }
{
    let before = i64::from(low) - i64::from(x);
    (cut(before, n), cut(before + i64::from(len), n))
}

/// Of the n places of a row from the point `(x, y)` on those in a rectangle: from the first up to the second.
pub fn part(rect: Rect, y: i32, x: i32, n: usize) -> (usize, usize)
    ensures { IsPart rect y x n result.0 result.1 }
{
    if is_spanned(rect.y, rect.h, y) {
        span(rect.x, rect.w, x, n)
    } else {
        (0, 0)
    }
}

/// How many places after `low` the place `at` is.
pub fn places_after(low: i32, len: u32, at: i32) -> u32
    requires { spans low len at ≡ true }
    ensures value { result ≡ nat_abs (at -ℤ low) }
    ensures within { result < len }
{
    (i64::from(at) - i64::from(low)) as u32
}
