//! Classes of bytes, and the kind of a run.

ghost use Rattle.std.specs.Prelude.{◌≡◌, ◌||◌, ◌==◌, ◌+◌, ◌≤◌, ◌<◌, true, codes, length, take, drop, slice_index};
ghost use Rattle.std.specs.Char.{is_ascii_digit, is_ascii_hexdigit};
ghost use Rattle.std.specs.List.{list_all, prefix_len};
ghost use Rattle.smt_lex.specs.Run as spec;

use crate::token::TokenKind;

const RUN: u8 = 1;

const SYMBOL: u8 = 2;

// For each byte a digit, whose low two bits are the flags above.
static CLASS: [u8; 256] = *b"\
    1111111110011011111111111111111103013331003313333333333333103333\
    3333333333333333333333333331113313333333333333333333333333310131\
    1111111111111111111111111111111111111111111111111111111111111111\
    1111111111111111111111111111111111111111111111111111111111111111";

/// Whether a run may hold the byte.
#[inline]
pub fn is_of_run(b: u8) -> bool
    ensures { result ≡ spec.is_of_run b }
{
    CLASS[b as usize] & RUN != 0
}

/// Whether a symbol may hold the byte.
#[inline]
pub fn is_symbol_byte(b: u8) -> bool
    ensures { result ≡ spec.is_symbol_byte b }
{
    CLASS[b as usize] & SYMBOL != 0
}

fn all_digits(run: &[u8]) -> bool
    ensures { result ≡ list_all is_ascii_digit run.now }
{
    run.iter().all(|b| b.is_ascii_digit())
}

fn all_hex_digits(run: &[u8]) -> bool
    ensures { result ≡ list_all is_ascii_hexdigit run.now }
{
    run.iter().all(|b| b.is_ascii_hexdigit())
}

fn all_bits(run: &[u8]) -> bool
    ensures { result ≡ list_all (λ b. b == 48 || b == 49) run.now }
{
    run.iter().all(|b| *b == b'0' || *b == b'1')
}

fn all_symbol_bytes(run: &[u8]) -> bool
    ensures { result ≡ list_all spec.is_symbol_byte run.now }
{
    run.iter().all(|b| is_symbol_byte(*b))
}

fn are_digits(run: &[u8]) -> bool
    ensures { result ≡ spec.are_all is_ascii_digit run.now }
{
    !run.is_empty() && all_digits(run)
}

fn are_symbol_bytes(run: &[u8]) -> bool
    ensures { result ≡ spec.are_all spec.is_symbol_byte run.now }
{
    !run.is_empty() && all_symbol_bytes(run)
}

// How many digits stand at the front.
fn digits_len(run: &[u8]) -> usize
    ensures value { result ≡ prefix_len is_ascii_digit run.now }
    ensures within { result ≤ length run.now }
{
    run.iter().take_while(|b| b.is_ascii_digit()).count()
}

fn is_numeral(run: &[u8]) -> bool
    ensures { result ≡ spec.is_numeral run.now }
{
    are_digits(run) && (run.len() == 1 || run[0] != b'0')
}

fn is_decimal(run: &[u8]) -> bool
    ensures { result ≡ spec.is_decimal run.now }
{
    let whole = digits_len(run);
    is_numeral(&run[..whole])
        && whole < run.len()
        && run[whole] == b'.'
        && are_digits(&run[whole + 1..])
}

fn is_hexadecimal(run: &[u8]) -> bool
    ensures { result ≡ spec.is_marked (codes "#x") is_ascii_hexdigit run.now }
{
    run.starts_with(b"#x") && 2 < run.len() && all_hex_digits(&run[2..])
}

fn is_binary(run: &[u8]) -> bool
    ensures { result ≡ spec.is_marked (codes "#b") (λ b. b == 48 || b == 49) run.now }
{
    match run.strip_prefix(b"#b") {
        Some(digits) => !digits.is_empty() && all_bits(digits),
        None => false,
    }
}

fn is_keyword(run: &[u8]) -> bool
    ensures { result ≡ spec.is_marked (codes ":") spec.is_symbol_byte run.now }
{
    match run {
        [b':', name @ ..] => are_symbol_bytes(name),
        _ => false,
    }
}

// The kind of a run that begins with a digit.
#[tactic(auto, using(crate::proofs::KindLemmas::kind_of_number))]
fn number_kind(run: &[u8]) -> Option<TokenKind>
    requires some { 0 < length run.now }
    requires digit { is_ascii_digit (slice_index run.now 0) ≡ true }
    ensures { result ≡ spec.kind_of run.now }
{
    if is_numeral(run) {
        Some(TokenKind::Numeral)
    } else if is_decimal(run) {
        Some(TokenKind::Decimal)
    } else {
        None
    }
}

// The kind of a run that begins with `#`.
#[tactic(auto, using(crate::proofs::KindLemmas::kind_of_marked))]
fn marked_kind(run: &[u8]) -> Option<TokenKind>
    requires some { 0 < length run.now }
    requires hash { slice_index run.now 0 ≡ 35 }
    ensures { result ≡ spec.kind_of run.now }
{
    if is_hexadecimal(run) {
        Some(TokenKind::Hexadecimal)
    } else if is_binary(run) {
        Some(TokenKind::Binary)
    } else {
        None
    }
}

/// The kind of a run, if it is a token. It is known whether a symbol may hold all of its bytes.
#[tactic(auto, using(crate::proofs::KindLemmas::kind_of_keyword, crate::proofs::KindLemmas::kind_of_simple))]
pub fn kind_of(run: &[u8], is_symbol: bool) -> Option<TokenKind>
    requires some { 0 < length run.now }
    requires symbol { is_symbol ≡ list_all spec.is_symbol_byte run.now }
    ensures { result ≡ spec.kind_of run.now }
{
    let first = run[0];
    if first.is_ascii_digit() {
        number_kind(run)
    } else if first == b'#' {
        marked_kind(run)
    } else if first == b':' {
        if is_keyword(run) {
            Some(TokenKind::Keyword)
        } else {
            None
        }
    } else if is_symbol {
        Some(TokenKind::Symbol)
    } else {
        None
    }
}
