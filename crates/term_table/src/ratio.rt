//! Steps of arithmetic on the values of constant terms, each in lowest terms or refused by a number past the cap.

ghost use Rattle.std.specs.Prelude.{◌≡◌, ◌≤◌, ◌*◌, ◌^◌, pos, neg_ℤ, ◌≤ℤ◌, ◌*ℤ◌, nat_abs};
ghost use Rattle.lin_term.specs.Form.{cap};
ghost use Rattle.lin_term.specs.Fraction.{lowest_value, value_numbers};
ghost use Rattle.lin_term.specs.Linear.{Value};
ghost use Rattle.lin_term.specs.Wide.{CappedWide};
ghost use Rattle.lin_truth.specs.Value.{v_neg, v_abs, v_plus, v_minus, v_times, v_over, v_div, v_mod, whole_div};
ghost use Rattle.lin_truth.specs.View.{den_of};
ghost use Rattle.lin_truth.specs.Worked as spec;

use lin_term::{Fraction, Wide, product};

/// The fraction, if it is within the cap.
fn kept(made: Result<Fraction, Wide>) -> Option<Fraction>
    ensures { (v : Value) → CappedWide (value_numbers (lowest_value v)) (lowest_value v) made → result ≡ spec.kept v }
{
    match made {
        Ok(x) => {
            let _den = x.den();
            Some(x)
        }
        Err(_) => None,
    }
}

/// num/den in lowest terms, if it is within the cap; den is 1 or more.
fn made(num: i128, den: i64) -> Option<Fraction>
    requires { pos 1 ≤ℤ den }
    ensures { result ≡ spec.kept (record { num = num; den = nat_abs den }) }
{
    kept(Fraction::make(num, den as i128))
}

/// A numerator over another denominator.
fn times(num: i64, den: i64) -> i128
    requires num_small { nat_abs num ≤ 2 * cap }
    requires den_kept { nat_abs den ≤ cap }
    ensures value { result ≡ num *ℤ den }
    ensures size { nat_abs result ≤ 2 ^ 105 }
{
    num as i128 * den as i128
}

/// The negative number.
fn opposite(n: i64) -> i64
    requires { nat_abs n ≤ 2 * cap }
    ensures value { result ≡ neg_ℤ n }
    ensures size { nat_abs result ≡ nat_abs n }
{
    -n
}

/// The whole q with a = n*q + r and 0 <= r < |n|; a where n is 0.
fn whole_quotient(a: i64, n: i64) -> i64
    requires a_kept { nat_abs a ≤ cap }
    requires n_kept { nat_abs n ≤ cap }
    ensures value { result ≡ whole_div a n }
    ensures small { nat_abs result ≤ cap }
{
    if n > 0 {
        a.div_euclid(n)
    } else if n < 0 {
        -a.div_euclid(-n)
    } else {
        a
    }
}

/// A written number; none where its denominator is below 1.
pub fn written(num: i64, den: i64) -> Option<Fraction>
    ensures { result ≡ spec.kept (record { num = num; den = den_of den }) }
{
    if den < 1 {
        return None;
    }
    made(num as i128, den)
}

/// The negative; none where a number of it is past the cap.
pub fn negative(x: Fraction) -> Option<Fraction>
    ensures { result ≡ spec.kept (v_neg x) }
{
    let num = x.num();
    let den = x.den();
    made(opposite(num) as i128, den)
}

/// The absolute value; none where a number of it is past the cap.
pub fn absolute(x: Fraction) -> Option<Fraction>
    ensures { result ≡ spec.kept (v_abs x) }
{
    let num = x.num();
    let den = x.den();
    made(num.unsigned_abs() as i128, den)
}

/// The sum in lowest terms; none where a number of it is past the cap.
pub fn plus(x: Fraction, y: Fraction) -> Option<Fraction>
    ensures { result ≡ spec.kept (v_plus x y) }
{
    kept(x.sum(y))
}

/// The difference in lowest terms; none where a number of it is past the cap.
pub fn minus(x: Fraction, y: Fraction) -> Option<Fraction>
    ensures { result ≡ spec.kept (v_minus x y) }
{
    kept(x.difference(y))
}

/// The product in lowest terms; none where a number of it is past the cap.
pub fn times_each(x: Fraction, y: Fraction) -> Option<Fraction>
    ensures { result ≡ spec.kept (v_times x y) }
{
    kept(x.product(y))
}

/// The quotient; x where y is 0, which no divisor is.
pub fn over(x: Fraction, y: Fraction) -> Option<Fraction>
    ensures { result ≡ spec.kept (v_over x y) }
{
    let below = y.num();
    if below == 0 {
        return made(x.num() as i128, x.den());
    }
    kept(x.quotient(y))
}

/// The quotient of whole numbers, with a remainder that is not negative.
pub fn div(x: Fraction, y: Fraction) -> Option<Fraction>
    ensures { result ≡ spec.kept (v_div x y) }
{
    made(whole_quotient(x.num(), y.num()) as i128, 1)
}

/// The greatest multiple of n that is at most a.
fn multiple(n: i64, a: i64) -> i64
    requires n_kept { nat_abs n ≤ cap }
    requires a_kept { nat_abs a ≤ cap }
    ensures value { result ≡ n *ℤ whole_div a n }
    ensures size { nat_abs result ≤ 2 * cap }
{
    product(n, whole_quotient(a, n)) as i64
}

/// The product of two denominators.
fn common(a: i64, b: i64) -> i128
    requires a_least { pos 1 ≤ℤ a }
    requires a_kept { nat_abs a ≤ cap }
    requires b_least { pos 1 ≤ℤ b }
    requires b_kept { nat_abs b ≤ cap }
    ensures value { result ≡ a *ℤ b }
    ensures least { pos 1 ≤ℤ result }
{
    product(a, b)
}

/// The remainder of whole numbers, from 0 on.
pub fn rest(x: Fraction, y: Fraction) -> Option<Fraction>
    ensures { result ≡ spec.kept (v_mod x y) }
{
    let above = x.num();
    let den = x.den();
    let below = y.num();
    let over = y.den();
    let left = times(above, over);
    let right = times(opposite(multiple(below, above)), den);
    let both = common(den, over);
    kept(Fraction::make(left + right, both))
}
