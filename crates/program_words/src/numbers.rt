//! Numbers of 1 to 10 decimal digits.
ghost use Rattle.std.specs.Prelude.{◌≡◌, ◌≤◌, ◌<◌, ◌^◌, true, length};
ghost use Rattle.std.specs.List.{list_all};
ghost use Rattle.std.specs.Str.Parse.{digits_value};
ghost use Rattle.program_words.specs.Forms.{is_digit, number_within};

fn is_digits(text: &[u8]) -> bool
    ensures { result ≡ list_all is_digit text.now }
{
    text.iter().all(|c| 48 <= *c && *c <= 57)
}

// The number that few digits stand for.
fn decimal_value(text: &[u8]) -> u64
    requires few { length text.now ≤ 10 }
    requires digits { list_all is_digit text.now ≡ true }
    ensures value { result ≡ digits_value 10 text.now }
{
    let mut n = 0;
    for c in text {
        n = n * 10 + u64::from(*c - b'0');
    }
    n
}

/// The number of a text of 1 to 10 digits, where it is in a range; leading zeros are allowed.
pub(crate) fn number(text: &[u8], low: u32, high: u32) -> Option<u32>
    ensures { result ≡ number_within low high text.now }
{
    if text.is_empty() || text.len() > 10 || !is_digits(text) {
        return None;
    }
    let n = decimal_value(text);
    if u64::from(low) <= n && n <= u64::from(high) {
        Some(n as u32)
    } else {
        None
    }
}
