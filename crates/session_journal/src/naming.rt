//! The client that a comment names.
ghost use Rattle.std.specs.Prelude.{◌≡◌, ◌<◌, ◌^◌, length, min, drop, not, true, IfSome};
ghost use Rattle.std.specs.List.{list_all, position};
ghost use Rattle.std.specs.Str.Parse.{digits_value};
ghost use Rattle.session_journal.specs.Places.{is_digit};
ghost use Rattle.session_journal.specs.Texts.{comment};
ghost use Rattle.session_journal.specs.Commented.{front_digits, commented_client, client_below};

fn is_digit(byte: u8) -> bool
    ensures { result ≡ is_digit byte }
{
    byte.is_ascii_digit()
}

// Where the first byte stands that is no digit.
fn first_other(text: &[u8]) -> Option<usize>
    ensures value { result ≡ position (λ c. not (is_digit c)) text.now }
    ensures range { IfSome result (λ k. k < length text.now) }
{
    text.iter().position(|byte| !is_digit(*byte))
}

// The digits at the front of a text.
fn front_digits(text: &[u8]) -> &[u8]
    ensures value { result.now ≡ front_digits text.now }
    ensures digits { list_all is_digit result.now ≡ true }
{
    match first_other(text) {
        Some(len) => &text[..len],
        None => text,
    }
}

// The number of digits, or `most` where it is greater.
fn value_up_to(most: u32, digits: &[u8]) -> u32
    requires { list_all is_digit digits.now ≡ true }
    ensures { result ≡ min (digits_value 10 digits.now) most }
{
    let mut n = 0;
    for c in digits {
        n = (n * 10 + u64::from(*c - b'0')).min(u64::from(most));
    }
    n as u32
}

// What stands behind the first byte.
fn behind_first(line: &[u8]) -> &[u8]
    ensures { result.now ≡ drop 1 line.now }
{
    match line {
        [] => line,
        [_, rest @ ..] => rest,
    }
}

/// The client that a comment names, if it is below a number of clients. The comment begins behind `#`.
#[tactic(auto, unfolding(crate::specs::Commented::commented_client))]
pub fn client_named(line: &[u8], clients: u32) -> Option<u32>
    ensures { result ≡ client_below clients line.now }
{
    let client = value_up_to(clients, front_digits(behind_first(line)));
    if client < clients { Some(client) } else { None }
}

/// Each comment names its client.
#[tactic(auto, using(crate::proofs::CommentLemmas::client_back))]
pub fn comments_name_clients(client: u32, number: u64, words: &[u8])
    ensures { commented_client (comment client number words.now) ≡ client }
{
    let _ = (client, number);
}
