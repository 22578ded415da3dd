//! Words that are numbers.

ghost use Rattle.std.specs.Prelude.{◌≡◌, ◌≤◌, ◌<◌, ◌+◌, ◌&&◌, ◌||◌, ◌==◌, not, length, slice_index, option_map};
ghost use Rattle.strat_words.specs.Number as spec;
ghost use Rattle.solve_words.specs.Seen.{text_of};
ghost use Rattle.solve_words.specs.Words.{number as number_of, number_or as number_or_of};

/// Not empty, and without a 0 in front of further digits.
fn begins_plain(word: &[u8]) -> bool
    ensures { result ≡ (not (length word.now == 0) && (length word.now == 1 || not (slice_index word.now 0 == 48))) }
{
    !word.is_empty() && (word.len() == 1 || word[0] != b'0')
}

/// The value of at most 4 digits; none where a byte is no digit.
fn short_value(word: &[u8]) -> Option<u32>
    requires { length word.now < 5 }
    ensures { result ≡ spec.value_of_digits word.now }
{
    let mut n: u32 = 0;
    for d in word {
        if !d.is_ascii_digit() {
            return None;
        }
        n = n * 10 + (*d - b'0') as u32;
    }
    Some(n)
}

/// The number of at most 4 digits.
fn short_number(word: &[u8]) -> Option<u32>
    requires { length word.now < 5 }
    ensures { result ≡ spec.magnitude_of word.now }
{
    if begins_plain(word) {
        short_value(word)
    } else {
        None
    }
}

/// A number from `low` to `high`, which has at most 4 digits.
#[tactic(auto, using(crate::proofs::Digits::long_is_none))]
pub(crate) fn number(word: &str, low: u32, high: u32) -> Option<u32>
    requires { high ≤ 4096 }
    ensures { result ≡ number_of low high word.now }
{
    let word = word.as_bytes();
    if word.len() > 4 {
        return None;
    }
    match short_number(word) {
        Some(n) => { if n < low || n > high { None } else { Some(n) } }
        None => None,
    }
}

/// The number that is given, or else the default.
pub(crate) fn number_or(default: u32, low: u32, high: u32, word: Option<&str>) -> Option<u32>
    requires { high ≤ 4096 }
    ensures { result ≡ number_or_of default low high (option_map text_of word.entry) }
{
    match word {
        Some(word) => number(word, low, high),
        None => Some(default),
    }
}
