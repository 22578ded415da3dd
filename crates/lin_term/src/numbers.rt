//! Divisors, and quotients rounded down.

ghost use Rattle.std.specs.Prelude.{◌≡◌, ◌≤◌, ◌<◌, ◌^◌, ◌↔◌, IsTrue, ℕ, ℤ, pos, ◌≤ℤ◌, nat_abs};
ghost use Rattle.lin_term.specs.Form.{AreTerms};
ghost use Rattle.lin_term.specs.Literal.{gcd, gcd_terms};
ghost use Rattle.lin_term.specs.Linear.{floor_div};
ghost use Rattle.lin_term.specs.Wide.{fits};

use crate::row::CAP;

/// Whether a number is within the cap, in `-CAP..=CAP`.
pub fn is_within(z: i128) -> bool
    ensures { result ≡ fits z }
{
    z.unsigned_abs() <= CAP as u128
}

/// The greatest common divisor, by Euclid, 0 of 0 and 0; numbers of one word are divided as such.
pub fn gcd_of(a: u128, b: u128) -> u128
    ensures { result ≡ gcd a b }
{
    let mut x = a;
    let mut y = b;
    while y > u64::MAX as u128 {
        let r = x % y;
        x = y;
        y = r;
    }
    if x <= u64::MAX as u128 {
        return gcd_of_words(x as u64, y as u64) as u128;
    }
    if y == 0 {
        return x;
    }
    gcd_of_words(y as u64, (x % y) as u64) as u128
}

/// The greatest common divisor of two numbers of one word, 0 of 0 and 0.
pub fn gcd_of_words(a: u64, b: u64) -> u64
    ensures { result ≡ gcd a b }
{
    let mut x = a;
    let mut y = b;
    while y != 0 {
        let r = x % y;
        x = y;
        y = r;
    }
    x
}

/// The greatest common divisor of a number and the coefficients.
pub(crate) fn common_divisor(start: u64, coefs: &[(u32, i64)]) -> u64
    requires { AreTerms 0 coefs.now }
    ensures { result ≡ gcd start (gcd_terms coefs.now) }
{
    let mut common = start;
    for term in coefs {
        if common == 1 {
            return 1;
        }
        common = gcd_of_words(common, term.1.unsigned_abs());
    }
    common
}

/// Whether a number is one of a word.
fn is_word(z: i128) -> bool
    ensures { IsTrue result ↔ nat_abs z < 2 ^ 63 }
{
    z.unsigned_abs() < 1 << 63
}

/// The quotient of a and g rounded down; g is 1 or more. Numbers of one word are divided as such.
pub fn floor_quotient(a: i128, g: i128) -> i128
    requires { pos 1 ≤ℤ g }
    ensures { result ≡ floor_div a (nat_abs g) }
{
    if g == 1 {
        return a;
    }
    if is_word(a) && is_word(g) {
        return floor_of_words(a as i64, g as i64) as i128;
    }
    a.div_euclid(g)
}

/// The quotient of numbers of one word, rounded down.
pub(crate) fn floor_of_words(a: i64, g: i64) -> i64
    requires { pos 1 ≤ℤ g }
    ensures { result ≡ floor_div a (nat_abs g) }
{
    a.div_euclid(g)
}
