//! Fractions in lowest terms within the cap.

ghost use Rattle.std.specs.Prelude.{◌≡◌, ◌≢◌, ◌*◌, ◌≤◌, ◌^◌, pos, neg_ℤ, ◌≤ℤ◌, ◌<ℤ◌, ◌-ℤ◌, ◌*ℤ◌, nat_abs};
ghost use Rattle.std.specs.Ordering.{int_cmp};
ghost use Rattle.lin_term.specs.Form.{cap};
ghost use Rattle.lin_term.specs.Fraction.{lowest_value, value_numbers, v_plus, v_minus, v_times, v_over, value_cmp};
ghost use Rattle.lin_term.specs.Linear.{Value, floor_div};
ghost use Rattle.lin_term.specs.Literal.{gcd};
ghost use Rattle.lin_term.specs.Wide.{CappedWide};

use crate::blend::{product, reduced};
use crate::combining::sum_of_products;
use crate::fault::Wide;
use crate::numbers::{floor_quotient, gcd_of, is_within};
use std::cmp::Ordering;
use std::marker::Model;

/// A fraction in lowest terms: the numerator in `-CAP..=CAP`, the denominator in `1..=CAP`.
#[derive(Clone, Copy, Debug)]
pub struct Fraction {
    num: i64,
    den: u64,
}

impl Model for Fraction {
    ghost use Rattle.lin_term.specs.Fraction.{IsFraction};
    ghost use Rattle.lin_term.specs.Linear as linear;

    ghost Value = { linear.Value };

    ghost view = { λ r. record { num = r.num; den = r.den } };

    ghost inverse = { λ v. record { num = v.num; den = v.den } };

    ghost invariant = { λ r. IsFraction (record { num = r.num; den = r.den }) };
}

/// The greatest common divisor of a numerator and a denominator of 1 or more.
fn divisor_of(num: i128, den: i128) -> i128
    requires { pos 1 ≤ℤ den }
    ensures value { result ≡ pos (gcd (nat_abs den) (nat_abs num)) }
    ensures least { pos 1 ≤ℤ result }
{
    let below = den.unsigned_abs();
    let above = num.unsigned_abs();
    gcd_of(below, above) as i128
}

/// The fraction, which is in lowest terms, where both numbers are within the cap.
fn kept_fraction(num: i128, den: i128) -> Result<Fraction, Wide>
    requires least { pos 1 ≤ℤ den }
    requires lowest { gcd (nat_abs den) (nat_abs num) ≡ 1 }
    ensures { let v : Value = record { num = num; den = nat_abs den } in CappedWide (value_numbers v) v result }
{
    if !is_within(num) {
        return Err(Wide { number: num });
    }
    if !is_within(den) {
        return Err(Wide { number: den });
    }
    Ok(Fraction {
        num: num as i64,
        den: den as u64,
    })
}

/// The product of two denominators.
fn common(a: i64, b: i64) -> i128
    requires a_least { pos 1 ≤ℤ a }
    requires a_kept { nat_abs a ≤ cap }
    requires b_least { pos 1 ≤ℤ b }
    requires b_kept { nat_abs b ≤ cap }
    ensures value { result ≡ pos (nat_abs a * nat_abs b) }
    ensures least { pos 1 ≤ℤ result }
{
    product(a, b)
}

/// A kept number negated.
fn opposite(n: i64) -> i64
    requires { nat_abs n ≤ cap }
    ensures value { result ≡ neg_ℤ n }
    ensures size { nat_abs result ≤ cap }
{
    -n
}

impl Fraction {
    /// num/den in lowest terms; den is 1 or more. Wide names the first number of that form past the cap, the numerator
    /// before the denominator.
    pub fn make(num: i128, den: i128) -> Result<Fraction, Wide>
        requires { pos 1 ≤ℤ den }
        ensures { let v = lowest_value (record { num = num; den = nat_abs den }) in CappedWide (value_numbers v) v result }
    {
        let g = divisor_of(num, den);
        let above = floor_quotient(num, g);
        let below = floor_quotient(den, g);
        kept_fraction(above, below)
    }

    /// The numerator, in `-CAP..=CAP`.
    pub fn num(self) -> i64
        ensures value { result ≡ self.num }
        ensures kept { nat_abs result ≤ cap }
    {
        self.num
    }

    /// The denominator, in `1..=CAP`, without a common divisor with the numerator.
    pub fn den(self) -> i64
        ensures value { result ≡ pos self.den }
        ensures least { pos 1 ≤ℤ result }
        ensures kept { nat_abs result ≤ cap }
        ensures lowest { gcd self.den (nat_abs self.num) ≡ 1 }
    {
        self.den as i64
    }

    /// The sum in lowest terms; Wide as in `make`.
    pub fn sum(self, other: Fraction) -> Result<Fraction, Wide>
        ensures { let v = lowest_value (v_plus self other) in CappedWide (value_numbers v) v result }
    {
        let num = sum_of_products(self.num(), other.den(), other.num(), self.den());
        let den = common(self.den(), other.den());
        Fraction::make(num, den)
    }

    /// The difference in lowest terms; Wide as in `make`.
    pub fn difference(self, other: Fraction) -> Result<Fraction, Wide>
        ensures { let v = lowest_value (v_minus self other) in CappedWide (value_numbers v) v result }
    {
        let less = opposite(other.num());
        let num = sum_of_products(self.num(), other.den(), less, self.den());
        let den = common(self.den(), other.den());
        Fraction::make(num, den)
    }

    /// The product in lowest terms; Wide as in `make`.
    pub fn product(self, other: Fraction) -> Result<Fraction, Wide>
        ensures { let v = lowest_value (v_times self other) in CappedWide (value_numbers v) v result }
    {
        let num = product(self.num(), other.num());
        let den = common(self.den(), other.den());
        Fraction::make(num, den)
    }

    /// The quotient in lowest terms; the divisor is not 0. Wide as in `make`.
    pub fn quotient(self, other: Fraction) -> Result<Fraction, Wide>
        requires { other.num ≢ pos 0 }
        ensures { let v = lowest_value (v_over self other) in CappedWide (value_numbers v) v result }
    {
        let num = self.num();
        let den = self.den();
        let below = other.num();
        let over = other.den();
        if below > 0 {
            return quotient_by(num, den, below, over);
        }
        quotient_by(opposite(num), den, opposite(below), over)
    }

    /// The order of two fractions.
    pub fn compare(self, other: Fraction) -> Ordering
        ensures { result ≡ value_cmp self other }
    {
        let left = product(self.num(), other.den());
        let right = product(other.num(), self.den());
        left.cmp(&right)
    }
}

/// (num/den)/(below/over) in lowest terms.
fn quotient_by(num: i64, den: i64, below: i64, over: i64) -> Result<Fraction, Wide>
    requires num_kept { nat_abs num ≤ cap }
    requires den_least { pos 1 ≤ℤ den }
    requires den_kept { nat_abs den ≤ cap }
    requires below_least { pos 1 ≤ℤ below }
    requires below_kept { nat_abs below ≤ cap }
    requires over_kept { nat_abs over ≤ cap }
    ensures { let v = lowest_value (record { num = num *ℤ over; den = nat_abs den * nat_abs below }) in CappedWide (value_numbers v) v result }
{
    let num = product(num, over);
    let den = common(den, below);
    Fraction::make(num, den)
}

/// The order of a/b and c/d; b and d are 1 or more. It compares the quotients rounded down and then the rests, so no
/// product passes 128 bits.
pub fn compare_fractions(a: i128, b: i64, c: i128, d: i64) -> Ordering
    requires b_least { pos 1 ≤ℤ b }
    requires d_least { pos 1 ≤ℤ d }
    ensures { result ≡ value_cmp (record { num = a; den = nat_abs b }) (record { num = c; den = nat_abs d }) }
{
    let left = floor_quotient(a, b as i128);
    let right = floor_quotient(c, d as i128);
    if left < right {
        return Ordering::Less;
    }
    if right < left {
        return Ordering::Greater;
    }
    let r = rest_of(a, b);
    let s = rest_of(c, d);
    compare_rests(r, b, s, d)
}

/// What is left of a after the quotient by b rounded down.
fn rest_of(a: i128, b: i64) -> i128
    requires { pos 1 ≤ℤ b }
    ensures value { result ≡ a -ℤ b *ℤ floor_div a (nat_abs b) }
    ensures least { pos 0 ≤ℤ result }
    ensures less { result <ℤ b }
{
    reduced(a, b as i128)
}

/// The order of r/b and s/d, where r is below b and s below d.
fn compare_rests(r: i128, b: i64, s: i128, d: i64) -> Ordering
    requires b_least { pos 1 ≤ℤ b }
    requires d_least { pos 1 ≤ℤ d }
    requires r_least { pos 0 ≤ℤ r }
    requires s_least { pos 0 ≤ℤ s }
    requires r_less { r <ℤ b }
    requires s_less { s <ℤ d }
    ensures { result ≡ int_cmp (r *ℤ d) (s *ℤ b) }
{
    let left = rest_product(r, d);
    let right = rest_product(s, b);
    left.cmp(&right)
}

/// The product of a number of one word and another.
fn rest_product(r: i128, d: i64) -> i128
    requires { nat_abs r ≤ 2 ^ 63 }
    ensures value { result ≡ r *ℤ d }
    ensures size { nat_abs result ≤ 2 ^ 126 }
{
    r * d as i128
}
