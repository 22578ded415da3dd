//! The greatest lower and the least upper bound of a variable at a point. Each literal's value is worked out once.

ghost use Rattle.std.specs.Prelude.{◌≡◌, ◌≤◌, ◌<◌, ◌^◌, ◌-ℤ◌, ◌*ℤ◌, ◌∷◌, [], pos, nat_abs, neg_ℤ, ◌≤ℤ◌, true, length};
ghost use Rattle.std.specs.Option.{option_map};
ghost use Rattle.lin_term.specs.Form.{cap};
ghost use Rattle.lin_term.specs.Linear.{Below, dot as dot_of};
ghost use Rattle.lin_term.specs.Literal.{form_of};
ghost use Rattle.lin_term.specs.PutIn.{rest_of};
ghost use Rattle.dom_core.specs.Bound.{IsScaled, value_of_bound, greater_of, lesser_of, IsLowerBound, IsUpperBound, lower_of, upper_of, greatest_from, least_from};
ghost use Rattle.dom_core.specs.Elimination.{is_lower as is_lower_of, is_upper as is_upper_of};
ghost use Rattle.dom_core.specs.Pick.{lower_bound, upper_bound, lowers, uppers, greatest, least, is_less as is_less_value};
ghost use Rattle.dom_core.specs.Reduced.{AreBelow};

use crate::bound::Bound;
use crate::bounds::{is_lower, is_upper};
use lin_term::{
    Lit, Point, Row, Sort, coefficient_at, compare_fractions, dot, floor_quotient, product,
};
use std::cmp::Ordering;

/// The value of a row without the variable at the point, times the point's denominator.
fn rest_value(row: &Row, var: u32, point: &Point) -> i128
    requires covers { Below (length point.now.nums) row.now }
    requires valued { var < length point.now.nums }
    ensures value { result ≡ dot_of (rest_of row.now var) point.now }
    ensures size { nat_abs result ≤ 2 ^ 125 }
{
    let _terms = row.coefs();
    let _constant = row.constant_part();
    let _den = point.den();
    let nums = point.nums();
    let all = dot(row, point);
    let coef = coefficient_at(row, var);
    let own = product(coef, nums[var as usize]);
    all - own
}

/// k*den less the rest.
fn raised(k: i64, den: i64, rest: i128) -> i128
    requires k_kept { nat_abs k ≤ cap }
    requires den_kept { nat_abs den ≤ cap }
    requires rest_size { nat_abs rest ≤ 2 ^ 125 }
    ensures value { result ≡ k *ℤ den -ℤ rest }
    ensures size { nat_abs result ≤ 2 ^ 126 }
{
    let above = product(k, den);
    above - rest
}

/// A number with the other sign.
fn opposite(rest: i128) -> i128
    requires { nat_abs rest ≤ 2 ^ 125 }
    ensures { result ≡ neg_ℤ rest }
{
    -rest
}

/// The bound of a lower literal.
fn lower_bound_at<'a>(sort: Sort, lit: &'a Lit, var: u32, point: &Point) -> Bound<'a>
    requires lower { is_lower_of var lit.now ≡ true }
    requires covers { Below (length point.now.nums) (form_of lit.now) }
    requires valued { var < length point.now.nums }
    ensures same { result.lit.now ≡ lit.entry.now }
    ensures value { IsScaled sort (lower_bound sort var lit.entry.now) point.now result.num result.div }
{
    let a = coefficient_at(lit.row(), var);
    let rest = rest_value(lit.row(), var, point);
    match sort {
        Sort::Rat => Bound {
            lit,
            num: opposite(rest),
            div: a,
        },
        Sort::Int => Bound {
            lit,
            num: floor_quotient(raised(a - 1, point.den(), rest), a as i128),
            div: 1,
        },
    }
}

/// The bound of an upper literal.
fn upper_bound_at<'a>(sort: Sort, lit: &'a Lit, var: u32, point: &Point) -> Bound<'a>
    requires upper { is_upper_of var lit.now ≡ true }
    requires covers { Below (length point.now.nums) (form_of lit.now) }
    requires valued { var < length point.now.nums }
    ensures same { result.lit.now ≡ lit.entry.now }
    ensures value { IsScaled sort (upper_bound var lit.entry.now) point.now result.num result.div }
{
    let b = -coefficient_at(lit.row(), var);
    let rest = rest_value(lit.row(), var, point);
    match sort {
        Sort::Rat => Bound {
            lit,
            num: rest,
            div: b,
        },
        Sort::Int => Bound {
            lit,
            num: floor_quotient(rest, b as i128),
            div: 1,
        },
    }
}

/// Whether the first bound's value is less than the second's.
fn is_less<'a>(left: Bound<'a>, right: Bound<'a>) -> bool
    requires left_least { pos 1 ≤ℤ left.div }
    requires right_least { pos 1 ≤ℤ right.div }
    ensures { result ≡ is_less_value (value_of_bound left.entry) (value_of_bound right.entry) }
{
    match compare_fractions(left.num, left.div, right.num, right.div) {
        Ordering::Less => true,
        Ordering::Equal | Ordering::Greater => false,
    }
}

/// The greater of two lower bounds, the first where they tie.
fn greater<'a>(old: Bound<'a>, next: Bound<'a>) -> Bound<'a>
    requires old_least { pos 1 ≤ℤ old.div }
    requires next_least { pos 1 ≤ℤ next.div }
    ensures { result ≡ greater_of old.entry next.entry }
{
    if is_less(old, next) { next } else { old }
}

/// The lesser of two upper bounds, the first where they tie.
fn lesser<'a>(old: Bound<'a>, next: Bound<'a>) -> Bound<'a>
    requires old_least { pos 1 ≤ℤ old.div }
    requires next_least { pos 1 ≤ℤ next.div }
    ensures { result ≡ lesser_of old.entry next.entry }
{
    if is_less(next, old) { next } else { old }
}

/// The greatest lower bound so far, with one more literal.
fn next_lower<'a>(
    sort: Sort,
    best: Option<Bound<'a>>,
    lit: &'a Lit,
    var: u32,
    point: &Point,
) -> Option<Bound<'a>>
    requires is { IsLowerBound sort var point.now best }
    requires covers { Below (length point.now.nums) (form_of lit.now) }
    requires valued { var < length point.now.nums }
    ensures is { IsLowerBound sort var point.now result }
    ensures step { option_map (lower_of sort var) result ≡ greatest_from sort point.now (option_map (lower_of sort var) best.entry) (lowers sort var (lit.entry.now ∷ [])) }
{
    if !is_lower(lit, var) {
        return best;
    }
    let _den = point.den();
    let next = lower_bound_at(sort, lit, var, point);
    match best {
        None => Some(next),
        Some(old) => Some(greater(old, next)),
    }
}

/// The least upper bound so far, with one more literal.
fn next_upper<'a>(
    sort: Sort,
    best: Option<Bound<'a>>,
    lit: &'a Lit,
    var: u32,
    point: &Point,
) -> Option<Bound<'a>>
    requires is { IsUpperBound sort var point.now best }
    requires covers { Below (length point.now.nums) (form_of lit.now) }
    requires valued { var < length point.now.nums }
    ensures is { IsUpperBound sort var point.now result }
    ensures step { option_map (upper_of var) result ≡ least_from sort point.now (option_map (upper_of var) best.entry) (uppers var (lit.entry.now ∷ [])) }
{
    if !is_upper(lit, var) {
        return best;
    }
    let _den = point.den();
    let next = upper_bound_at(sort, lit, var, point);
    match best {
        None => Some(next),
        Some(old) => Some(lesser(old, next)),
    }
}

/// The first of the greatest lower bounds of the variable at the point, which has a value for it and for the variables
/// of the literals.
pub fn greatest_lower<'a>(sort: Sort, lits: &'a [Lit], var: u32, point: &Point) -> Option<Bound<'a>>
    requires covers { AreBelow (length point.now.nums) lits.now }
    requires valued { var < length point.now.nums }
    ensures is { IsLowerBound sort var point.now result }
    ensures bound { option_map (lower_of sort var) result ≡ greatest sort point.now (lowers sort var lits.entry.now) }
{
    let mut best = None;
    for lit in lits {
        best = next_lower(sort, best, lit, var, point);
    }
    best
}

/// The first of the least upper bounds of the variable at the point, which has a value for it and for the variables of
/// the literals.
pub fn least_upper<'a>(sort: Sort, lits: &'a [Lit], var: u32, point: &Point) -> Option<Bound<'a>>
    requires covers { AreBelow (length point.now.nums) lits.now }
    requires valued { var < length point.now.nums }
    ensures is { IsUpperBound sort var point.now result }
    ensures bound { option_map (upper_of var) result ≡ least sort point.now (uppers var lits.entry.now) }
{
    let mut best = None;
    for lit in lits {
        best = next_upper(sort, best, lit, var, point);
    }
    best
}
