//! The lines in front of the fonts and images.
ghost use Rattle.std.specs.Prelude.{◌≡◌, map};
ghost use Rattle.script_grammar.specs.Lines.{sixteen, depth_read, screen_read, clients_read};

use qws_base::{Depth, Rgb, Size};
use script_grammar::Cause;
use script_words::{colour, is, join, number, ranged, screen_size};

fn sixteen(n: u32) -> Result<Depth, Cause>
    ensures { result ≡ sixteen n }
{
    if n == 16 {
        Ok(Depth::Narrow)
    } else {
        Err(Cause::Range)
    }
}

/// `depth 16`
#[tactic(auto, unfolding(script_grammar::specs::Lines::depth_read))]
pub fn depth(words: &[&[u8]]) -> Result<Depth, Cause>
    ensures { result ≡ depth_read (map (λ w. w.now) words.now) }
{
    let [kind, n] = words else {
        return Err(Cause::Form);
    };
    if !is(kind, b"depth") {
        return Err(Cause::Form);
    }
    sixteen(number(n)?)
}

/// `screen W H COLOUR`
#[tactic(auto, unfolding(script_grammar::specs::Lines::screen_read))]
pub fn screen(words: &[&[u8]]) -> Result<(Size, Rgb), Cause>
    ensures { result ≡ screen_read (map (λ w. w.now) words.now) }
{
    let [kind, w, h, colour_word] = words else {
        return Err(Cause::Form);
    };
    if !is(kind, b"screen") {
        return Err(Cause::Form);
    }
    join(screen_size(w, h), colour(colour_word))
}

/// `clients N`
#[tactic(auto, unfolding(script_grammar::specs::Lines::clients_read))]
pub fn clients(words: &[&[u8]]) -> Result<u32, Cause>
    ensures { result ≡ clients_read (map (λ w. w.now) words.now) }
{
    let [kind, n] = words else {
        return Err(Cause::Form);
    };
    if !is(kind, b"clients") {
        return Err(Cause::Form);
    }
    ranged(0, 16, n)
}
