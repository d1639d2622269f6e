//! The words of a line.
ghost use Rattle.std.specs.Prelude.{◌≡◌, map, MatchOption, IfOk};
ghost use Rattle.script_reader.specs.Few.{IsOddText, IsWordsOf};

use crate::cuts::cut_at;
use qws_base::OutOfMemory;
use std::alloc::Global;

/// The words of a line. None where one of them is empty, or there are more than 300: no line of a form has so many.
pub(crate) fn line_words(alloc: Global, text: &[u8]) -> Result<Option<Vec<&[u8]>>, OutOfMemory>
    ensures { IfOk result (λ found. MatchOption found (IsOddText text.now) (λ words. IsWordsOf text.now (map (λ w. w.now) words.items))) }
{
    let mut words = Vec::new(alloc);
    let mut rest = text;
    while let Some((word, after)) = cut_at(rest, b' ') {
        let count = words.len();
        if word.is_empty() {
            return Ok(None);
        }
        if count >= 299 {
            return Ok(None);
        }
        words.push(word)?;
        rest = after;
    }
    if rest.is_empty() {
        return Ok(None);
    }
    words.push(rest)?;
    Ok(Some(words))
}
