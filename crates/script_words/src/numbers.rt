//! Numbers.
ghost use Rattle.std.specs.Prelude.{◌≡◌, ◌<◌, ◌≤◌, ◌^◌, length, IfOk, true};
ghost use Rattle.std.specs.List.{list_all};
ghost use Rattle.std.specs.Str.Parse.{digits_value};
ghost use Rattle.std.specs.Char.{digit_value};
ghost use Rattle.script_grammar.specs.Spelling.{is_digit, is_number, number_read, in_range, negated, signed_read, in_places, place_read, side_read, width_read, height_read, below};
ghost use Rattle.script_grammar.specs.Words.{short_read, ranged, declared_read, in_signed, coordinate_read};

use script_grammar::Cause;

fn is_digits(word: &[u8]) -> bool
    ensures { result ≡ list_all is_digit word.now }
{
    word.iter().all(|c| b'0' <= *c && *c <= b'9')
}

fn is_decimal(word: &[u8]) -> bool
    ensures { result ≡ is_number word.now }
{
    if word.is_empty() || word.len() > 5 || !is_digits(word) {
        return false;
    }
    word.len() == 1 || word[0] != b'0'
}

fn digit(c: u8) -> u8
    requires { is_digit c ≡ true }
    ensures value { result ≡ digit_value c }
    ensures range { result < 10 }
{
    c - b'0'
}

// The number that decimal digits stand for.
fn decimal_value(digits: &[u8]) -> u32
    requires few { length digits.now ≤ 5 }
    requires each { list_all is_digit digits.now ≡ true }
    ensures value { result ≡ digits_value 10 digits.now }
    ensures range { result < 10 ^ 5 }
{
    let mut n = 0;
    let mut rest = digits;
    while let [c, after @ ..] = rest {
        n = n * 10 + u32::from(digit(*c));
        rest = after;
    }
    n
}

/// A number.
#[tactic(auto, unfolding(script_grammar::specs::Spelling::number_read))]
pub fn number(word: &[u8]) -> Result<u32, Cause>
    ensures value { result ≡ number_read word.now }
    ensures range { IfOk result (λ n. n < 10 ^ 5) }
{
    if is_decimal(word) {
        Ok(decimal_value(word))
    } else {
        Err(Cause::Number)
    }
}

// The number, where it is within a range.
fn within(low: u32, high: u32, n: u32) -> Result<u32, Cause>
    ensures value { result ≡ in_range low high n }
    ensures range { IfOk result (λ n. (low ≤ n) × (n ≤ high)) }
{
    if low <= n && n <= high {
        Ok(n)
    } else {
        Err(Cause::Range)
    }
}

// A number that isn't 0, negated.
fn negative(n: u32) -> Result<i32, Cause>
    requires { n < 10 ^ 5 }
    ensures { result ≡ negated n }
{
    if n == 0 {
        Err(Cause::Number)
    } else {
        Ok(-(n as i32))
    }
}

// A signed number.
#[tactic(auto, unfolding(script_grammar::specs::Spelling::signed_read))]
fn signed(word: &[u8]) -> Result<i32, Cause>
    ensures { result ≡ signed_read word.now }
{
    match word {
        [] => Err(Cause::Number),
        [b'-', digits @ ..] => negative(number(digits)?),
        _ => Ok(number(word)? as i32),
    }
}

fn within_places(z: i32) -> Result<i32, Cause>
    ensures { result ≡ in_places z }
{
    if -4096 <= z && z <= 4095 {
        Ok(z)
    } else {
        Err(Cause::Range)
    }
}

// A coordinate.
#[tactic(auto, unfolding(script_grammar::specs::Spelling::place_read))]
pub(crate) fn place(word: &[u8]) -> Result<i32, Cause>
    ensures { result ≡ place_read word.now }
{
    within_places(signed(word)?)
}

// A width or a height.
#[tactic(auto, unfolding(script_grammar::specs::Spelling::side_read))]
pub(crate) fn side(word: &[u8]) -> Result<u32, Cause>
    ensures { result ≡ side_read word.now }
{
    within(1, 4096, number(word)?)
}

// The width of a screen.
#[tactic(auto, unfolding(script_grammar::specs::Spelling::width_read))]
pub(crate) fn width(word: &[u8]) -> Result<u32, Cause>
    ensures { result ≡ width_read word.now }
{
    within(1, 640, number(word)?)
}

// The height of a screen.
#[tactic(auto, unfolding(script_grammar::specs::Spelling::height_read))]
pub(crate) fn height(word: &[u8]) -> Result<u32, Cause>
    ensures { result ≡ height_read word.now }
{
    within(1, 480, number(word)?)
}

/// An unsigned number.
#[tactic(auto, unfolding(script_grammar::specs::Words::short_read))]
pub fn short(word: &[u8]) -> Result<u32, Cause>
    ensures { result ≡ short_read word.now }
{
    within(0, 65535, number(word)?)
}

/// An unsigned number within a range.
#[tactic(auto, unfolding(script_grammar::specs::Words::ranged))]
pub fn ranged(low: u32, high: u32, word: &[u8]) -> Result<u32, Cause>
    ensures value { result ≡ ranged low high word.now }
    ensures range { IfOk result (λ n. (low ≤ n) × (n ≤ high)) }
{
    within(low, high, number(word)?)
}

fn is_below(count: usize, n: u32) -> Result<u32, Cause>
    ensures value { result ≡ below count n }
    ensures range { IfOk result (λ n. n < count) }
{
    if (n as usize) < count {
        Ok(n)
    } else {
        Err(Cause::Unknown)
    }
}

/// The number of one of so many.
#[tactic(auto, unfolding(script_grammar::specs::Words::declared_read))]
pub fn declared(count: usize, word: &[u8]) -> Result<u32, Cause>
    ensures value { result ≡ declared_read count word.now }
    ensures range { IfOk result (λ n. n < count) }
{
    is_below(count, short(word)?)
}

fn within_signed(z: i32) -> Result<i32, Cause>
    ensures { result ≡ in_signed z }
{
    if -32768 <= z && z <= 32767 {
        Ok(z)
    } else {
        Err(Cause::Range)
    }
}

/// A signed number.
#[tactic(auto, unfolding(script_grammar::specs::Words::coordinate_read))]
pub(crate) fn coordinate(word: &[u8]) -> Result<i32, Cause>
    ensures { result ≡ coordinate_read word.now }
{
    within_signed(signed(word)?)
}
