//! The next value of a point over the rationals.

ghost use Rattle.std.specs.Prelude.{◌≡◌, ◌≤◌, ◌<◌, ◌^◌, ◌*◌, ◌+◌, ℤ, pos, ◌≤ℤ◌, ◌+ℤ◌, ◌*ℤ◌, nat_abs, true, None, IfSome, length, ◌∷◌, []};
ghost use Rattle.std.specs.List.{AllByRecursion};
ghost use Rattle.lin_term.specs.Form.{cap};
ghost use Rattle.lin_term.specs.Wide.{CappedWide};
ghost use Rattle.lin_term.specs.Fraction.{lowest_value, value_numbers};
ghost use Rattle.dom_core.specs.Elimination.{is_lower, is_upper};
ghost use Rattle.dom_core.specs.Reduced.{AreBelow};
ghost use Rattle.cube_elim.specs.Stored.{lits_of, AreIn};
ghost use Rattle.cube_elim.specs.Determined.{whole, middle_value, last_value};
ghost use Rattle.cube_elim.specs.Between.{from_below, from_above, nearest_from, nearest_up_to, nearest_between, highest, lowest_bound, first_seen, first_upper, bound_value, middle_values, bounded_values, numbers_of};

use crate::bound::{
    Bound, bound_of_lower, bound_of_upper, greatest_between, higher, least_between, lower,
};
use crate::parts::Parts;
use lin_term::{Fraction, Lit, Point, Wide, product};

/// The whole number nearest to 0 from another on.
fn nearest_from_low(low: Option<i128>) -> i128
    requires { IfSome low (λ z. nat_abs z ≤ 2 ^ 126) }
    ensures value { result ≡ nearest_from low }
    ensures kept { nat_abs result ≤ 2 ^ 126 }
{
    match low {
        None => 0,
        Some(a) => { if a <= 0 { 0 } else { a } }
    }
}

/// The whole number nearest to z up to another.
fn nearest_below(high: Option<i128>, z: i128) -> i128
    requires high { IfSome high (λ y. nat_abs y ≤ 2 ^ 126) }
    requires z_kept { nat_abs z ≤ 2 ^ 126 }
    ensures value { result ≡ nearest_up_to high z }
    ensures kept { nat_abs result ≤ 2 ^ 126 }
{
    match high {
        None => z,
        Some(b) => { if z <= b { z } else { b } }
    }
}

/// The whole number nearest to 0 between two.
fn nearest_of(low: Option<i128>, high: Option<i128>) -> Option<i128>
    requires low { IfSome low (λ z. nat_abs z ≤ 2 ^ 126) }
    requires high { IfSome high (λ z. nat_abs z ≤ 2 ^ 126) }
    ensures value { result ≡ nearest_between low high }
    ensures kept { IfSome result (λ z. nat_abs z ≤ 2 ^ 126) }
{
    let from = nearest_from_low(low);
    let z = nearest_below(high, from);
    match low {
        None => Some(z),
        Some(a) => { if a <= z { Some(z) } else { None } }
    }
}

/// The whole number nearest to 0 that all bounds allow.
fn whole_number(lits: &[Lit], parts: &Parts, var: u32, trial: &Point) -> Option<i128>
    requires lower_in { AreIn (length lits.now) parts.now.lower }
    requires upper_in { AreIn (length lits.now) parts.now.upper }
    requires lower_below { AreBelow (length trial.now.nums) (lits_of lits.now parts.now.lower) }
    requires upper_below { AreBelow (length trial.now.nums) (lits_of lits.now parts.now.upper) }
    requires lower { AllByRecursion (λ l. is_lower var l ≡ true) (lits_of lits.now parts.now.lower) }
    requires upper { AllByRecursion (λ l. is_upper var l ≡ true) (lits_of lits.now parts.now.upper) }
    ensures value { result ≡ nearest_between (from_below var trial.now None (lits_of lits.now parts.now.lower)) (from_above var trial.now None (lits_of lits.now parts.now.upper)) }
    ensures kept { IfSome result (λ z. nat_abs z ≤ 2 ^ 126) }
{
    let low = least_between(lits, parts.lower.as_slice(), var, trial);
    let high = greatest_between(lits, parts.upper.as_slice(), var, trial);
    nearest_of(low, high)
}

/// The bound of the first literal.
fn first_low(lits: &[Lit], ids: &[u32], var: u32, trial: &Point) -> Bound
    requires some { 1 ≤ length ids.now }
    requires within { AreIn (length lits.now) ids.now }
    requires below { AreBelow (length trial.now.nums) (lits_of lits.now ids.now) }
    requires lower { AllByRecursion (λ l. is_lower var l ≡ true) (lits_of lits.now ids.now) }
    ensures value { result ≡ first_seen var trial.now (lits_of lits.now ids.now) }
    ensures size { nat_abs result.num ≤ 2 ^ 125 }
    ensures least { 1 ≤ result.div }
    ensures kept { result.div ≤ cap }
{
    bound_of_lower(&lits[ids[0] as usize], var, trial)
}

/// The greatest bound of the lower literals, the first of those that are equal.
fn greatest_bound(lits: &[Lit], ids: &[u32], var: u32, trial: &Point) -> Bound
    requires some { 1 ≤ length ids.now }
    requires within { AreIn (length lits.now) ids.now }
    requires below { AreBelow (length trial.now.nums) (lits_of lits.now ids.now) }
    requires lower { AllByRecursion (λ l. is_lower var l ≡ true) (lits_of lits.now ids.now) }
    ensures value { result ≡ highest var trial.now (first_seen var trial.now (lits_of lits.now ids.now)) (lits_of lits.now ids.now) }
    ensures size { nat_abs result.num ≤ 2 ^ 125 }
    ensures least { 1 ≤ result.div }
    ensures kept { result.div ≤ cap }
{
    let mut best = first_low(lits, ids, var, trial);
    for id in ids {
        best = higher(best, &lits[*id as usize], var, trial);
    }
    best
}

/// The bound of the first literal.
fn first_high(lits: &[Lit], ids: &[u32], var: u32, trial: &Point) -> Bound
    requires some { 1 ≤ length ids.now }
    requires within { AreIn (length lits.now) ids.now }
    requires below { AreBelow (length trial.now.nums) (lits_of lits.now ids.now) }
    requires upper { AllByRecursion (λ l. is_upper var l ≡ true) (lits_of lits.now ids.now) }
    ensures value { result ≡ first_upper var trial.now (lits_of lits.now ids.now) }
    ensures size { nat_abs result.num ≤ 2 ^ 125 }
    ensures least { 1 ≤ result.div }
    ensures kept { result.div ≤ cap }
{
    bound_of_upper(&lits[ids[0] as usize], var, trial)
}

/// The least bound of the upper literals, the first of those that are equal.
fn least_bound(lits: &[Lit], ids: &[u32], var: u32, trial: &Point) -> Bound
    requires some { 1 ≤ length ids.now }
    requires within { AreIn (length lits.now) ids.now }
    requires below { AreBelow (length trial.now.nums) (lits_of lits.now ids.now) }
    requires upper { AllByRecursion (λ l. is_upper var l ≡ true) (lits_of lits.now ids.now) }
    ensures value { result ≡ lowest_bound var trial.now (first_upper var trial.now (lits_of lits.now ids.now)) (lits_of lits.now ids.now) }
    ensures size { nat_abs result.num ≤ 2 ^ 125 }
    ensures least { 1 ≤ result.div }
    ensures kept { result.div ≤ cap }
{
    let mut best = first_high(lits, ids, var, trial);
    for id in ids {
        best = lower(best, &lits[*id as usize], var, trial);
    }
    best
}

/// The product of two denominators.
fn product_of(a: u64, b: u64) -> i128
    requires a_least { 1 ≤ a }
    requires a_kept { a ≤ cap }
    requires b_least { 1 ≤ b }
    requires b_kept { b ≤ cap }
    ensures value { result ≡ pos (a * b) }
    ensures least { pos 1 ≤ℤ result }
{
    i128::from(a) * i128::from(b)
}

/// The bound over the denominator, in lowest terms.
fn fraction_of(bound: Bound, den: u64) -> Result<Fraction, Wide>
    requires least { 1 ≤ bound.div }
    requires kept { bound.div ≤ cap }
    requires den_least { 1 ≤ den }
    requires den_kept { den ≤ cap }
    ensures { let v = bound_value bound den in CappedWide (value_numbers v) v result }
{
    Fraction::make(bound.num, product_of(bound.div, den))
}

/// The numerator of the sum of two fractions over the product of their denominators.
fn cross_sum(v: Fraction, w: Fraction) -> i128
    ensures { result ≡ v.num *ℤ pos w.den +ℤ w.num *ℤ pos v.den }
{
    product(v.num(), w.den()) + product(w.num(), v.den())
}

/// Twice the product of the denominators of two fractions.
fn twice(v: Fraction, w: Fraction) -> i128
    ensures value { result ≡ pos (2 * (v.den * w.den)) }
    ensures least { pos 1 ≤ℤ result }
{
    2 * product(v.den(), w.den())
}

/// The middle of two fractions.
fn middle_of_two(v: Fraction, w: Fraction) -> Result<Fraction, Wide>
    ensures { let m = middle_value v w in CappedWide (value_numbers m) m result }
{
    Fraction::make(cross_sum(v, w), twice(v, w))
}

/// The middle of two bounds over the denominator. Wide names the first past the cap of the numbers of the two and of the
/// middle.
fn middle_of_bounds(low: Bound, high: Bound, den: u64) -> Result<Fraction, Wide>
    requires low_least { 1 ≤ low.div }
    requires low_kept { low.div ≤ cap }
    requires high_least { 1 ≤ high.div }
    requires high_kept { high.div ≤ cap }
    requires den_least { 1 ≤ den }
    requires den_kept { den ≤ cap }
    ensures { let vs = middle_values low high den in CappedWide (numbers_of vs) (last_value (whole (pos 0)) vs) result }
{
    let v = match fraction_of(low, den) {
        Ok(v) => v,
        Err(wide) => return Err(wide),
    };
    let w = match fraction_of(high, den) {
        Ok(w) => w,
        Err(wide) => return Err(wide),
    };
    middle_of_two(v, w)
}

/// A whole number as a fraction.
fn whole_of(z: i128) -> Result<Fraction, Wide>
    requires { nat_abs z ≤ 2 ^ 126 }
    ensures { let vs = whole z ∷ [] in CappedWide (numbers_of vs) (whole z) result }
{
    Fraction::make(z, 1)
}

/// The point's denominator.
fn den_of(point: &Point) -> u64
    ensures value { result ≡ point.now.den }
    ensures least { 1 ≤ result }
    ensures kept { result ≤ cap }
{
    point.den().unsigned_abs()
}

/// The next value of a point over the rationals, where the trial point has 0 for the variable: the whole number nearest
/// to 0 that all bounds allow, else the middle of the greatest lower and the least upper bound. Wide names the first past
/// the cap of the numbers of the value, or of the two bounds and their middle.
pub(crate) fn next_value(
    lits: &[Lit],
    parts: &Parts,
    var: u32,
    trial: &Point,
) -> Result<Fraction, Wide>
    requires lower_in { AreIn (length lits.now) parts.now.lower }
    requires upper_in { AreIn (length lits.now) parts.now.upper }
    requires lower_below { AreBelow (length trial.now.nums) (lits_of lits.now parts.now.lower) }
    requires upper_below { AreBelow (length trial.now.nums) (lits_of lits.now parts.now.upper) }
    requires lower { AllByRecursion (λ l. is_lower var l ≡ true) (lits_of lits.now parts.now.lower) }
    requires upper { AllByRecursion (λ l. is_upper var l ≡ true) (lits_of lits.now parts.now.upper) }
    ensures { let vs = bounded_values var trial.now (lits_of lits.now parts.now.lower) (lits_of lits.now parts.now.upper) in CappedWide (numbers_of vs) (last_value (whole (pos 0)) vs) result }
{
    match whole_number(lits, parts, var, trial) {
        Some(z) => whole_of(z),
        None => {
            let low = greatest_bound(lits, parts.lower.as_slice(), var, trial);
            let high = least_bound(lits, parts.upper.as_slice(), var, trial);
            middle_of_bounds(low, high, den_of(trial))
        }
    }
}
