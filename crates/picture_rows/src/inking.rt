//! Inks laid on places of a row.
ghost use Rattle.std.specs.Prelude.{◌≤◌, length, slice_index_or, if◌then◌else◌};
ghost use Rattle.qws_base.specs.declared.inks.Ink.TheVariants.{Skip};
ghost use Rattle.picture_rows.specs.Runs.{in_run, IsInked};

use qws_base::Ink;

// How many places get their ink one by one, before whole parts are copied.
const FEW: usize = 16;

// Writes an ink at each place: at the first few one by one, and then by copies of all that is written, which move memory in
// wide words.
fn repeat(ink: Ink, out: &mut [Ink])
    ensures { IsInked (length out.old) (λ k. ink) out.new }
{
    let few = out.len().min(FEW);
    out[..few].fill(ink);
    let mut done = few;
    while done < out.len() {
        let (written, rest) = out.split_at_mut(done);
        let more = done.min(rest.len());
        rest[..more].copy_from_slice(&written[..more]);
        done += more;
    }
}

/// Writes an ink at the places from one up to another, and leaves the others.
pub fn lay(from: usize, to: usize, ink: &Ink, out: &mut [Ink])
    requires ordered { from ≤ to }
    requires within { to ≤ length out.old }
    ensures { IsInked (length out.old) (λ k. if in_run from to k then ink.now else slice_index_or out.old k Skip) out.new }
{
    repeat(*ink, &mut out[from..to]);
}

/// Writes Skip at each place.
pub fn clear(out: &mut [Ink])
    ensures { IsInked (length out.old) (λ k. Skip) out.new }
{
    repeat(Ink::Skip, out);
}

/// Writes Skip before the place `from` and from the place `to` on, and leaves the places between.
pub fn skip_around(from: usize, to: usize, out: &mut [Ink])
    requires ordered { from ≤ to }
    requires within { to ≤ length out.old }
    ensures { IsInked (length out.old) (λ k. if in_run from to k then slice_index_or out.old k Skip else Skip) out.new }
{
    let end = out.len();
    lay(0, from, &Ink::Skip, out);
    lay(to, end, &Ink::Skip, out);
}

/// Writes an ink at the places from one up to another, and Skip at the others.
pub fn fill_run(from: usize, to: usize, ink: &Ink, out: &mut [Ink])
    requires ordered { from ≤ to }
    requires within { to ≤ length out.old }
    ensures { IsInked (length out.old) (λ k. if in_run from to k then ink.now else Skip) out.new }
{
    skip_around(from, to, out);
    lay(from, to, ink, out);
}
