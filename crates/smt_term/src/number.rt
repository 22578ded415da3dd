//! Numerals and decimals as numbers.

ghost use Rattle.std.specs.Prelude.{◌≡◌, ◌≤◌, ◌+◌, ◌*◌, ◌^◌, length, pos, nat_le, Some, None, if◌then◌else◌};
ghost use Rattle.std.specs.Char.{is_ascii_digit};
ghost use Rattle.std.specs.List.{prefix_len};
ghost use Rattle.lin_truth.specs.Worked.{kept};
ghost use Rattle.smt_term.specs.View.{IsKeptExpression, IsAmount};
ghost use Rattle.lin_term.specs.Form.{cap};
ghost use Rattle.smt_lex.specs.Lexeme.{lexeme};
ghost use Rattle.smt_term.specs.Numeral as spec;
ghost use Rattle.smt_term.specs.View.{IsRead};

use crate::part::bad;
use lin_term::Fraction;
use smt_lex::Token;
use ss_names::{FaultKind, ScriptFault};

// The number of these decimal digits, if it is within the cap.
fn number_within(digits: &[u8]) -> Option<u64>
    ensures { result ≡ (if nat_le (spec.number_of digits.now) cap then Some (spec.number_of digits.now) else None) }
{
    let mut n: u64 = 0;
    for digit in digits {
        n = n * 10 + u64::from(digit.saturating_sub(48) % 10);
        if n > 4_503_599_627_370_496 {
            return None;
        }
    }
    Some(n)
}

/// The number of a numeral, up to 2^52; a larger one is a fault of kind Number at the token.
pub fn numeral(token: &Token<'_>) -> Result<u64, ScriptFault>
    ensures { IsRead (spec.numeral (lexeme token.now)) result }
{
    match number_within(token.text) {
        Some(n) => Ok(n),
        None => Err(bad(FaultKind::Number, token.line, token.column)),
    }
}

fn digits_len(run: &[u8]) -> usize
    ensures value { result ≡ prefix_len is_ascii_digit run.now }
    ensures within { result ≤ length run.now }
{
    run.iter().take_while(|b| b.is_ascii_digit()).count()
}

// How many digits there are up to the last that is not 0.
fn significant(digits: &[u8]) -> usize
    ensures value { result ≡ spec.significant 0 0 digits.now }
    ensures within { result ≤ length digits.now }
{
    let mut kept = 0;
    for (i, digit) in digits.iter().enumerate() {
        if *digit != b'0' {
            kept = i + 1;
        }
    }
    kept
}

fn whole_digits(run: &[u8]) -> &[u8]
    ensures { result.now ≡ spec.whole_digits run.now }
{
    &run[..digits_len(run)]
}

fn fraction_digits(run: &[u8]) -> &[u8]
    ensures { result.now ≡ spec.fraction_digits run.now }
{
    let len = digits_len(run);
    if len >= run.len() {
        return &[];
    }
    let rest = &run[len + 1..];
    &rest[..significant(rest)]
}

// The number of digits behind those that make `start`.
fn digits_behind(start: u128, digits: &[u8]) -> u128
    requires { (start + 1) * 10 ^ length digits.now ≤ 10 ^ 38 }
    ensures value { result ≡ spec.number_behind start digits.now }
    ensures small { result + 1 ≤ (start + 1) * 10 ^ length digits.now }
{
    let mut n = start;
    for digit in digits {
        n = n * 10 + u128::from(digit.saturating_sub(48) % 10);
    }
    n
}

fn power_of_ten(exponent: usize) -> u128
    requires { exponent ≤ 38 }
    ensures { result ≡ 10 ^ exponent }
{
    let mut power: u128 = 1;
    for i in 0..exponent {
        let _ = i;
        power *= 10;
    }
    power
}

// In lowest terms, if it is within the cap.
fn lowest(num: u128, den: u128) -> Option<(i64, i64)>
    requires num_small { num ≤ 10 ^ 38 }
    requires den_least { 1 ≤ den }
    requires den_small { den ≤ 10 ^ 38 }
    ensures { IsKeptExpression (kept (record { num = pos num; den = den })) result }
{
    match Fraction::make(num as i128, den as i128) {
        Ok(x) => Some((x.num(), x.den())),
        Err(_) => None,
    }
}

/// The numerator and the denominator of a decimal, in lowest terms, each up to 2^52. Where one is larger, or the
/// decimal has more than 38 digits, zeros at the end of its fraction not counted, a fault of kind Number at the token.
pub fn decimal(token: &Token<'_>) -> Result<(i64, i64), ScriptFault>
    ensures { IsAmount (spec.decimal (lexeme token.now)) result }
{
    let whole = whole_digits(token.text);
    let fraction = fraction_digits(token.text);
    if whole.len() > 38 {
        return Err(bad(FaultKind::Number, token.line, token.column));
    }
    if fraction.len() > 38 - whole.len() {
        return Err(bad(FaultKind::Number, token.line, token.column));
    }
    let number = digits_behind(digits_behind(0, whole), fraction);
    let den = power_of_ten(fraction.len());
    match lowest(number, den) {
        Some(value) => Ok(value),
        None => Err(bad(FaultKind::Number, token.line, token.column)),
    }
}
