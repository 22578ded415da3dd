//! Fractions of a search, their numbers up to 2^60 in size.

use lin_term::gcd_of;
use search_rows::Stuck;
use std::cmp::Ordering;

/// A fraction in lowest terms, its denominator 1 or more, where `make` made it.
#[derive(Clone, Copy, Debug, PartialEq, Eq)]
pub struct Ratio {
    /// The numerator.
    pub num: i64,
    /// The denominator.
    pub den: i64,
}

/// The greatest size of a kept number of a search: 2^60.
const MOST: i128 = 1_152_921_504_606_846_976;

fn kept(n: i128) -> Result<i64, Stuck> {
    if n > MOST || n < -MOST {
        Err(Stuck::Wide)
    } else {
        Ok(n as i64)
    }
}

fn divided(n: i128, g: i128) -> Result<i64, Stuck> {
    kept(n.checked_div_euclid(g).ok_or(Stuck::Wide)?)
}

fn product(a: i64, b: i64) -> i128 {
    a as i128 * b as i128
}

impl Ratio {
    /// num/den in lowest terms; stuck where den is not above 0 or a number passes 2^60.
    pub fn make(num: i128, den: i128) -> Result<Ratio, Stuck> {
        if den <= 0 {
            return Err(Stuck::Place);
        }
        let g = i128::try_from(gcd_of(num.unsigned_abs(), den.unsigned_abs()))
            .ok()
            .ok_or(Stuck::Wide)?;
        Ok(Ratio {
            num: divided(num, g)?,
            den: divided(den, g)?,
        })
    }

    /// A whole number.
    pub fn whole(n: i64) -> Ratio {
        Ratio { num: n, den: 1 }
    }

    /// The sum.
    pub fn add(&self, other: &Ratio) -> Result<Ratio, Stuck> {
        let num = product(self.num, other.den)
            .checked_add(product(other.num, self.den))
            .ok_or(Stuck::Wide)?;
        Ratio::make(num, product(self.den, other.den))
    }

    /// The product with a whole number.
    pub fn times(&self, factor: i64) -> Result<Ratio, Stuck> {
        Ratio::make(product(self.num, factor), self.den as i128)
    }

    /// The negated fraction over a number other than 0.
    pub fn minus_over(&self, divisor: i64) -> Result<Ratio, Stuck> {
        let num = self.num as i128;
        if divisor > 0 {
            Ratio::make(-num, product(self.den, divisor))
        } else {
            let size = i64::try_from(divisor.unsigned_abs())
                .ok()
                .ok_or(Stuck::Wide)?;
            Ratio::make(num, product(self.den, size))
        }
    }

    /// Which is the greater one.
    pub fn compare(&self, other: &Ratio) -> Ordering {
        product(self.num, other.den).cmp(&product(other.num, self.den))
    }

    /// The greatest whole number that is not above it.
    pub fn floor(&self) -> Result<i64, Stuck> {
        self.num.checked_div_euclid(self.den).ok_or(Stuck::Place)
    }

    /// The least whole number that is not below it.
    pub fn ceiling(&self) -> Result<i64, Stuck> {
        let low = self.floor()?;
        if self.den == 1 {
            Ok(low)
        } else {
            low.checked_add(1).ok_or(Stuck::Wide)
        }
    }

    /// Whether it is a whole number.
    pub fn is_whole(&self) -> bool {
        self.den == 1
    }
}
