//! The lines of fonts.
ghost use Rattle.std.specs.Prelude.{◌≡◌, ◌≤◌, map, IfOk};
ghost use Rattle.script_grammar.specs.Session.{FontLine};
ghost use Rattle.script_grammar.specs.Lines.{font_read};
ghost use Rattle.script_words.specs.Judged.{seen};

use glyph_masks::Font;
use script_grammar::Cause;
use script_words::{is, ranged};

/// `font HEIGHT` behind these fonts: the height.
#[tactic(auto, unfolding(script_grammar::specs::Lines::font_read))]
pub(crate) fn font_line(fonts: &[Font], words: &[&[u8]]) -> Result<u32, Cause>
    ensures line { seen FontLine result ≡ font_read fonts.now (map (λ w. w.now) words.now) }
    ensures height { IfOk result (λ height. (1 ≤ height) × (height ≤ 32)) }
{
    let [kind, height] = words else {
        return Err(Cause::Form);
    };
    if !is(kind, b"font") {
        return Err(Cause::Form);
    }
    let height = ranged(1, 32, height)?;
    if fonts.len() < 8 {
        Ok(height)
    } else {
        Err(Cause::Many)
    }
}
