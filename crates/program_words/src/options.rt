//! Options of the program's words.
ghost use Rattle.std.specs.Prelude.{◌≡◌, ◌<◌, ◌+◌, ◌==◌, map, length, take, drop, None, string_bytes, IfSome};
ghost use Rattle.std.specs.List.{position};
ghost use Rattle.std.specs.Option.{option_map};
ghost use Rattle.program_words.specs.Forms.{given_by, first_given, three_given, value_within};
ghost use Rattle.program_words.specs.Given.{option_of, options_of};

use crate::numbers::number;

/// An option as it was given, and the words behind it.
#[derive(Clone, Copy)]
pub(crate) struct Given<'a> {
    name: &'a [u8],
    value: &'a [u8],
    rest: &'a [String],
}

/// Three options.
#[derive(Clone, Copy)]
pub(crate) struct Three<'a> {
    first: Given<'a>,
    second: Given<'a>,
    third: Given<'a>,
}

// Where the first `=` of a word is.
fn equals_sign(word: &[u8]) -> Option<usize>
    ensures value { result ≡ position (λ c. c == 61) word.now }
    ensures range { IfSome result (λ k. k < length word.now) }
{
    word.iter().position(|c| *c == b'=')
}

// An option in one word, whose `=` is at a place.
fn in_one_word<'a>(word: &'a [u8], at: usize, rest: &'a [String]) -> Given<'a>
    requires { at < length word.now }
    ensures { option_of result ≡ record { name = take at word.now; value = drop (at + 1) word.now; rest = map string_bytes rest.now } }
{
    Given {
        name: &word[..at],
        value: &word[at + 1..],
        rest,
    }
}

// An option whose value is the next word.
fn in_two_words<'a>(word: &'a [u8], words: &'a [String]) -> Option<Given<'a>>
    ensures { option_map option_of result ≡ given_by None word.now (map string_bytes words.now) }
{
    match words {
        [] => None,
        [value, rest @ ..] => Some(Given {
            name: word,
            value: value.as_bytes(),
            rest,
        }),
    }
}

// The first option of some words: name and value in one word are parted by its first `=`; else the value is the next word.
fn first_option<'a>(words: &'a [String]) -> Option<Given<'a>>
    ensures { option_map option_of result ≡ first_given (map string_bytes words.now) }
{
    match words {
        [] => None,
        [word, rest @ ..] => {
            let word = word.as_bytes();
            match equals_sign(word) {
                Some(at) => Some(in_one_word(word, at, rest)),
                None => in_two_words(word, rest),
            }
        }
    }
}

/// Words that are just three options.
pub(crate) fn three_options<'a>(words: &'a [String]) -> Option<Three<'a>>
    ensures { option_map options_of result ≡ three_given (map string_bytes words.now) }
{
    let first = first_option(words)?;
    let second = first_option(first.rest)?;
    let third = first_option(second.rest)?;
    if third.rest.is_empty() {
        Some(Three {
            first,
            second,
            third,
        })
    } else {
        None
    }
}

impl Three<'_> {
    /// The value of the option of a name, in its range.
    pub(crate) fn value(&self, name: &[u8], low: u32, high: u32) -> Option<u32>
        ensures { result ≡ value_within (options_of self.now) name.now low high }
    {
        if self.first.name == name {
            number(self.first.value, low, high)
        } else if self.second.name == name {
            number(self.second.value, low, high)
        } else if self.third.name == name {
            number(self.third.value, low, high)
        } else {
            None
        }
    }
}
