//! Whole numbers with checks, and quick ways for those of one word.

use lin_term::gcd_of;
use search_rows::Stuck;

/// The number in one word.
pub fn small(n: i128) -> Result<i64, Stuck> {
    i64::try_from(n).ok().ok_or(Stuck::Wide)
}

/// The number in one word, none where it takes two.
fn word(n: i128) -> Option<i64> {
    i64::try_from(n).ok()
}

/// a * b.
pub fn product(a: i128, b: i128) -> Result<i128, Stuck> {
    if let Some(x) = word(a) {
        if let Some(y) = word(b) {
            return Ok(x as i128 * y as i128);
        }
    }
    a.checked_mul(b).ok_or(Stuck::Wide)
}

/// a + b.
pub fn sum(a: i128, b: i128) -> Result<i128, Stuck> {
    a.checked_add(b).ok_or(Stuck::Wide)
}

/// a - b.
pub fn difference(a: i128, b: i128) -> Result<i128, Stuck> {
    a.checked_sub(b).ok_or(Stuck::Wide)
}

/// -a.
pub fn negative(a: i128) -> Result<i128, Stuck> {
    a.checked_neg().ok_or(Stuck::Wide)
}

/// The greatest common divisor, 0 of 0 and 0.
pub fn gcd(a: i128, b: i128) -> Result<i128, Stuck> {
    i128::try_from(gcd_of(a.unsigned_abs(), b.unsigned_abs()))
        .ok()
        .ok_or(Stuck::Wide)
}

/// a over b, rounded to 0.
pub fn quotient(a: i128, b: i128) -> Result<i128, Stuck> {
    if b == 1 {
        return Ok(a);
    }
    if let Some(x) = word(a) {
        if let Some(y) = word(b) {
            if let Some(q) = x.checked_div(y) {
                return Ok(q as i128);
            }
        }
    }
    a.checked_div(b).ok_or(Stuck::Wide)
}

/// a over b, rounded down; b is 1 or more.
pub fn floor(a: i128, b: i128) -> Result<i128, Stuck> {
    if b == 1 {
        return Ok(a);
    }
    if let Some(x) = word(a) {
        if let Some(y) = word(b) {
            if let Some(q) = x.checked_div_euclid(y) {
                return Ok(q as i128);
            }
        }
    }
    a.checked_div_euclid(b).ok_or(Stuck::Wide)
}

/// The least common multiple of two numbers that are 1 or more.
pub fn lcm(a: i128, b: i128) -> Result<i128, Stuck> {
    if a == b || b == 1 {
        return Ok(a);
    }
    if a == 1 {
        return Ok(b);
    }
    let g = gcd(a, b)?;
    product(quotient(a, g)?, b)
}
