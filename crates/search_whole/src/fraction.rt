//! Fractions in lowest terms, as pairs.

use search_rows::Stuck;
use search_simplex::{gcd, negative, product, quotient, sum};

/// A numerator and a denominator, 1 or more.
pub type Fraction = (i128, i128);

/// A fraction in lowest terms.
pub fn lowest(num: i128, den: i128) -> Result<Fraction, Stuck> {
    let g = gcd(num, den)?;
    if g == 0 {
        return Err(Stuck::Place);
    }
    let g = if den < 0 { negative(g)? } else { g };
    Ok((quotient(num, g)?, quotient(den, g)?))
}

/// The sum of two fractions.
pub fn plus(a: Fraction, b: Fraction) -> Result<Fraction, Stuck> {
    let num = sum(product(a.0, b.1)?, product(b.0, a.1)?)?;
    lowest(num, product(a.1, b.1)?)
}

/// A fraction times n over d.
pub fn times(a: Fraction, n: i128, d: i128) -> Result<Fraction, Stuck> {
    lowest(product(a.0, n)?, product(a.1, d)?)
}
