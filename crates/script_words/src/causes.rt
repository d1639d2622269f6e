//! The first of several causes.
ghost use Rattle.std.specs.Prelude.{◌≡◌, Ok, IfOk};
ghost use Rattle.script_grammar.specs.Judging.{rank, first_cause};
ghost use Rattle.script_words.specs.Judged.{joined, joined3, joined4, seen, pushed};

use script_grammar::Cause;
use std::alloc::AllocFailed;

// The place of a cause in their order.
fn rank(c: Cause) -> u8
    ensures { result ≡ rank c }
{
    match c {
        Cause::Form => 1,
        Cause::Number => 2,
        Cause::Range => 3,
        Cause::Unknown => 4,
        Cause::Repeated => 5,
        Cause::Missing => 6,
        Cause::Many => 7,
        Cause::End => 8,
    }
}

// The first of two causes.
fn first(c: Cause, d: Cause) -> Cause
    ensures { result ≡ first_cause c d }
{
    if rank(c) <= rank(d) { c } else { d }
}

/// Both values, or the first cause of the two.
pub fn join<A: Drop, B: Drop>(a: Result<A, Cause>, b: Result<B, Cause>) -> Result<(A, B), Cause>
    ensures value { result ≡ joined a b }
    ensures both { IfOk result (λ v. (a ≡ Ok v.0) × (b ≡ Ok v.1)) }
{
    match a {
        Ok(a) => match b {
            Ok(b) => Ok((a, b)),
            Err(d) => Err(d),
        },
        Err(c) => match b {
            Ok(_) => Err(c),
            Err(d) => Err(first(c, d)),
        },
    }
}

/// All three values, or the first cause of the three.
pub fn join3<A: Drop, B: Drop, C: Drop>(
    a: Result<A, Cause>,
    b: Result<B, Cause>,
    c: Result<C, Cause>,
) -> Result<(A, B, C), Cause>
    ensures value { result ≡ joined3 a b c }
    ensures each { IfOk result (λ v. (a ≡ Ok v.0) × (b ≡ Ok v.1) × (c ≡ Ok v.2)) }
{
    match join(join(a, b), c) {
        Ok(((x, y), z)) => Ok((x, y, z)),
        Err(cause) => Err(cause),
    }
}

/// All four values, or the first cause of the four.
pub fn join4<A: Drop, B: Drop, C: Drop, D: Drop>(
    a: Result<A, Cause>,
    b: Result<B, Cause>,
    c: Result<C, Cause>,
    d: Result<D, Cause>,
) -> Result<(A, B, C, D), Cause>
    ensures value { result ≡ joined4 a b c d }
    ensures each { IfOk result (λ v. (a ≡ Ok v.0) × (b ≡ Ok v.1) × (c ≡ Ok v.2) × (d ≡ Ok v.3)) }
{
    match join(join3(a, b, c), d) {
        Ok(((x, y, z), w)) => Ok((x, y, z, w)),
        Err(cause) => Err(cause),
    }
}

/// One more value behind others, or the first cause of all.
pub fn push<A: Drop>(
    all: Result<Vec<A>, Cause>,
    more: Result<A, Cause>,
) -> Result<Result<Vec<A>, Cause>, AllocFailed<A>>
    ensures { IfOk result (λ read. seen (λ v. v.items) read ≡ pushed (seen (λ v. v.items) all) more) }
{
    match all {
        Ok(mut all) => match more {
            Ok(x) => {
                all.push(x)?;
                Ok(Ok(all))
            }
            Err(d) => Ok(Err(d)),
        },
        Err(c) => match more {
            Ok(_) => Ok(Err(c)),
            Err(d) => Ok(Err(first(c, d))),
        },
    }
}
