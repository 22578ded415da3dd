//! Words that are numbers.

ghost use Rattle.std.specs.Prelude.{◌≡◌, ◌≤◌, ◌<◌, ◌&&◌, ◌||◌, ◌==◌, not, nat_lt, ◌^◌, IsTrue, length, drop, slice_index, IfSome, nat_abs, neg_ℤ, pos};
ghost use Rattle.std.specs.Char.{is_ascii_digit};
ghost use Rattle.std.specs.List.{list_all};
ghost use Rattle.std.specs.Str.Parse.{digits_value};
ghost use Rattle.lin_term.specs.Form.{cap};
ghost use Rattle.strat_words.specs.Number as spec;

use lin_term::CAP;

fn all_digits(word: &[u8]) -> bool
    ensures { result ≡ list_all is_ascii_digit word.now }
{
    word.iter().all(|b| b.is_ascii_digit())
}

/// Not empty, and without a 0 in front of further digits.
fn begins_plain(word: &[u8]) -> bool
    ensures { result ≡ (not (length word.now == 0) && (length word.now == 1 || not (slice_index word.now 0 == 48))) }
{
    !word.is_empty() && (word.len() == 1 || word[0] != b'0')
}

fn is_plain(word: &[u8]) -> bool
    ensures { result ≡ spec.is_plain word.now }
{
    all_digits(word) && begins_plain(word) && word.len() < 33
}

fn value_of(digits: &[u8]) -> u128
    requires digits { IsTrue (list_all is_ascii_digit digits.now) }
    requires short { length digits.now < 33 }
    ensures { result ≡ digits_value 10 digits.now }
{
    let mut n: u128 = 0;
    for d in digits {
        n = n * 10 + (*d - b'0') as u128;
    }
    n
}

/// The value of at most 18 digits, which 64 bits hold; none where a byte is no digit.
fn short_value(word: &[u8]) -> Option<u64>
    requires { length word.now < 19 }
    ensures { result ≡ spec.value_of_digits word.now }
{
    let mut n: u64 = 0;
    for d in word {
        if !d.is_ascii_digit() {
            return None;
        }
        n = n * 10 + (*d - b'0') as u64;
    }
    Some(n)
}

/// Most numbers are short: they are read in one pass.
fn short_magnitude(word: &[u8]) -> Option<u64>
    requires { length word.now < 19 }
    ensures { result ≡ spec.magnitude_of word.now }
{
    if begins_plain(word) {
        short_value(word)
    } else {
        None
    }
}

fn long_magnitude(word: &[u8]) -> Option<u128>
    ensures { result ≡ spec.magnitude_of word.now }
{
    if is_plain(word) {
        Some(value_of(word))
    } else {
        None
    }
}

fn magnitude_of(word: &[u8]) -> Option<u128>
    ensures { result ≡ spec.magnitude_of word.now }
{
    if word.len() >= 19 {
        return long_magnitude(word);
    }
    match short_magnitude(word) {
        Some(n) => Some(n as u128),
        None => None,
    }
}

/// A number without a sign, from low to below the limit.
pub fn natural_of(word: &[u8], low: u128, limit: u128) -> Option<u128>
    ensures value { result ≡ spec.natural_of low limit word.now }
    ensures low { IfSome result (λ n. low ≤ n) }
    ensures below { IfSome result (λ n. n < limit) }
{
    match magnitude_of(word) {
        Some(n) => { if n < low || limit <= n { None } else { Some(n) } }
        None => None,
    }
}

fn negative(n: u128) -> i128
    requires { n < 2 ^ 127 }
    ensures { result ≡ neg_ℤ (pos n) }
{
    -(n as i128)
}

fn positive(n: u128) -> i128
    requires { n < 2 ^ 127 }
    ensures { result ≡ pos n }
{
    n as i128
}

/// A number with or without a sign, of a size below the limit.
pub fn signed_of(word: &[u8], limit: u128) -> Option<i128>
    requires { limit ≤ 2 ^ 127 }
    ensures value { result ≡ spec.signed_of limit word.now }
    ensures size { IfSome result (λ z. nat_abs z < limit) }
{
    match word {
        [b'-', digits @ ..] => match natural_of(digits, 1, limit) {
            Some(n) => Some(negative(n)),
            None => None,
        },
        _ => match natural_of(word, 0, limit) {
            Some(n) => Some(positive(n)),
            None => None,
        },
    }
}

fn within_cap(z: i128) -> i64
    requires { nat_abs z ≤ cap }
    ensures { result ≡ z }
{
    z as i64
}

/// One past the greatest size of a kept number.
pub const PAST_CAP: u128 = CAP as u128 + 1;

/// A number other than 0, within the cap.
pub fn coef_of(word: &[u8]) -> Option<i64>
    ensures { result ≡ spec.coef_of word.now }
{
    match signed_of(word, PAST_CAP) {
        Some(z) => { if z == 0 { None } else { Some(within_cap(z)) } }
        None => None,
    }
}
