//! Rows of a polygon, by the places where its edges cross them.
ghost use Rattle.std.specs.Prelude.{◌≡◌, ℕ, ◌+◌, ◌*◌, ◌<◌, ◌≤◌, ◌+ℤ◌, ◌-ℤ◌, ◌≤ℤ◌, ◌<ℤ◌, pos, negsuc, nat_le, int_le, int_lt, ◌&&◌, length, take, ◌%◌, ◌==◌, if◌then◌else◌};
ghost use Rattle.std.specs.List.{All};
ghost use Rattle.std.specs.List.Sorted.{IsNonDecreasing};
ghost use Rattle.qws_base.specs.Points.{IsPlaced};
ghost use Rattle.qws_base.specs.Sheets.{IsRow};
ghost use Rattle.qws_base.specs.declared.inks.Ink.TheVariants.{Skip};
ghost use Rattle.picture_rows.specs.Runs.{IsInked};
ghost use Rattle.gfx_polygons.specs.Polygons.{ring};
ghost use Rattle.gfx_polygons.specs.Crossings.{is_right, passed, IsCrossing, AreCrossings};

use picture_rows::lay;
use qws_base::{Ink, Point};

// A coordinate from the least one of a row on, so that it is not negative.
fn shifted(c: i32) -> u64
    requires low { negsuc 8191 ≤ℤ c }
    requires high { c ≤ℤ pos 8192 }
    ensures value { pos result ≡ (c +ℤ pos 8192) }
    ensures range { result ≤ 16384 }
{
    (i64::from(c) + 8192) as u64
}

// How far a coordinate is above another.
fn distance(from: i32, to: i32) -> u64
    requires low { negsuc 8191 ≤ℤ from }
    requires ordered { from ≤ℤ to }
    requires high { to ≤ℤ pos 8191 }
    ensures value { pos result ≡ (to -ℤ from) }
    ensures range { result < 16384 }
{
    (i64::from(to) - i64::from(from)) as u64
}

// The first of the places from x on that is not left of an edge, in shifted coordinates: u and l of its upper and lower
// end, over d rows, in the t-th half row.
fn first_right(u: u64, l: u64, x: u64, d: u64, t: u64) -> u64
    requires upper { u ≤ 16384 }
    requires lower { l ≤ 16384 }
    requires start { x ≤ 16384 }
    requires rows { d < 16384 }
    requires some { 0 < d }
    requires half { t < 32768 }
    ensures { (k : ℕ) → is_right u l d t (x + k) ≡ nat_le result k }
{
    let edge = 2 * u * d + t * l;
    let start = 2 * x * d + d + t * u;
    if edge <= start {
        0
    } else {
        (edge - start + 2 * d - 1) / (2 * d)
    }
}

// The place from which on an edge from its upper end to its lower one counts, in a row that its rows have.
fn place_of(upper: Point, lower: Point, y: i32, x: i32, n: usize) -> u64
    requires upper { IsPlaced upper }
    requires lower { IsPlaced lower }
    requires row { IsRow y x n }
    requires from { upper.y ≤ℤ y }
    requires to { y <ℤ lower.y }
    ensures { IsCrossing upper lower y x n result }
{
    first_right(
        shifted(upper.x),
        shifted(lower.x),
        shifted(x),
        distance(upper.y, lower.y),
        2 * distance(upper.y, y) + 1,
    )
}

// Whether a row lies between an upper end and a lower one.
fn is_in_rows(upper: Point, lower: Point, y: i32) -> bool
    ensures { result ≡ (int_le upper.y y && int_lt y lower.y) }
{
    upper.y <= y && y < lower.y
}

// The place from which on an edge counts in a row; the row's end where it counts nowhere.
fn crossing(a: Point, b: Point, y: i32, x: i32, n: usize) -> u64
    requires a { IsPlaced a }
    requires b { IsPlaced b }
    requires row { IsRow y x n }
    ensures { IsCrossing a b y x n result }
{
    if is_in_rows(a, b, y) {
        place_of(a, b, y, x, n)
    } else if is_in_rows(b, a, y) {
        place_of(b, a, y, x, n)
    } else {
        n as u64
    }
}

// Adds a place of a row of n points to the first `count` ones, unless it lies behind the row.
fn note(place: u64, n: usize, places: &mut [u64], count: usize) -> usize
    requires { count < length places.old }
    ensures within { result ≤ count + 1 }
    ensures one_more { (k : ℕ) → k < n → passed (take result places.new) k ≡ passed (take count places.old) k + (if nat_le place k then 1 else 0) }
{
    if place < n as u64 {
        places[count] = place;
        count + 1
    } else {
        count
    }
}

/// Writes the places of a row of n points from `(x, y)` on at which the edges of a ring begin to count, and says how many
/// there are.
pub(crate) fn crossings(points: &[Point], y: i32, x: i32, n: usize, places: &mut [u64]) -> usize
    requires some { 0 < length points.now }
    requires placed { All IsPlaced points.now }
    requires room { length points.now ≤ length places.old }
    requires row { IsRow y x n }
    ensures within { result ≤ length points.now }
    ensures are { AreCrossings (ring points.now) y x n (take result places.new) }
{
    let mut count = 0;
    let mut from = points[points.len() - 1];
    for i in 0..points.len() {
        let to = points[i];
        count = note(crossing(from, to, y, x, n), n, places, count);
        from = to;
    }
    count
}

// The ink after an odd number of places.
fn ink_after(count: usize, ink: &Ink) -> Ink
    ensures { result ≡ (if count % 2 == 1 then ink.now else Skip) }
{
    if count % 2 == 1 { *ink } else { Ink::Skip }
}

// Fills a row between sorted places.
fn fill_sorted(places: &[u64], ink: &Ink, out: &mut [Ink])
    requires { IsNonDecreasing places.now }
    ensures { IsInked (length out.old) (λ k. if passed places.now k % 2 == 1 then ink.now else Skip) out.new }
{
    let end = out.len();
    let mut at = 0;
    for i in 0..places.len() {
        let place = end.min(places[i] as usize);
        lay(at, place, &ink_after(i, ink), out);
        at = place;
    }
    lay(at, end, &ink_after(places.len(), ink), out);
}

/// Sorts places, and fills a row with the ink after an odd number of them, and with Skip after an even one.
pub(crate) fn fill_between(places: &mut [u64], ink: &Ink, out: &mut [Ink])
    ensures { IsInked (length out.old) (λ k. if passed places.old k % 2 == 1 then ink.now else Skip) out.new }
{
    places.sort_unstable();
    fill_sorted(places, ink, out);
}
