//! The bounds that literals over the rationals set to the next value of a point.

ghost use Rattle.std.specs.Prelude.{◌≡◌, ◌≤◌, ◌<◌, ◌^◌, ◌*◌, ℤ, pos, ◌≤ℤ◌, ◌+ℤ◌, ◌-ℤ◌, neg_ℤ, nat_abs, true, if◌then◌else◌, None, Some, IfSome, length};
ghost use Rattle.std.specs.List.{AllByRecursion};
ghost use Rattle.lin_term.specs.Form.{cap};
ghost use Rattle.lin_term.specs.Linear.{Below, dot as dot_of, floor_div};
ghost use Rattle.lin_term.specs.Literal.{form_of};
ghost use Rattle.lin_term.specs.Sum.{is_strict};
ghost use Rattle.dom_core.specs.Elimination.{is_lower, is_upper, size_at};
ghost use Rattle.dom_core.specs.Reduced.{AreBelow};
ghost use Rattle.cube_elim.specs.Stored.{lits_of, AreIn};
ghost use Rattle.cube_elim.specs.Determined.{lesser};
ghost use Rattle.cube_elim.specs.Between.{least_whole, greatest_whole, greater, from_below, from_above, lower_seen, upper_seen, is_lesser};

use lin_term::{Lit, Point, coefficient_at, compare_fractions, dot, floor_quotient};
use std::cmp::Ordering;

/// The bound `num / div`, times the denominator of a point.
#[derive(Clone, Copy)]
pub(crate) struct Bound {
    pub num: i128,
    pub div: u64,
}

/// The value of the literal's row at the point, at most 2^125 in size.
fn value_at(lit: &Lit, trial: &Point) -> i128
    requires { Below (length trial.now.nums) (form_of lit.now) }
    ensures value { result ≡ dot_of (form_of lit.now) trial.now }
    ensures size { nat_abs result ≤ 2 ^ 125 }
{
    let row = lit.row();
    let _terms = row.coefs();
    let _constant = row.constant_part();
    let _nums = trial.nums();
    let _den = trial.den();
    dot(row, trial)
}

/// The size of the coefficient of the variable.
fn size_of(lit: &Lit, var: u32) -> u64
    ensures value { result ≡ size_at var lit.now }
    ensures kept { result ≤ cap }
{
    coefficient_at(lit.row(), var).unsigned_abs()
}

/// The size of the coefficient of the variable times the point's denominator.
fn scale_of(lit: &Lit, var: u32, trial: &Point) -> u128
    requires { 1 ≤ size_at var lit.now }
    ensures value { result ≡ size_at var lit.now * trial.now.den }
    ensures least { 1 ≤ result }
    ensures kept { result ≤ 2 ^ 104 }
{
    let size = size_of(lit, var);
    let den = trial.den();
    u128::from(size) * u128::from(den.unsigned_abs())
}

/// The quotient rounded down.
fn rounded_down(value: i128, scale: u128) -> i128
    requires size { nat_abs value ≤ 2 ^ 125 }
    requires least { 1 ≤ scale }
    requires kept { scale ≤ 2 ^ 104 }
    ensures value { result ≡ floor_div value scale }
    ensures size { nat_abs result ≤ 2 ^ 125 }
{
    floor_quotient(value, scale as i128)
}

/// A number of the other sign.
fn opposite(value: i128) -> i128
    requires { nat_abs value ≤ 2 ^ 125 }
    ensures value { result ≡ neg_ℤ value }
    ensures size { nat_abs result ≤ 2 ^ 125 }
{
    -value
}

/// The quotient rounded up.
fn rounded_up(value: i128, scale: u128) -> i128
    requires size { nat_abs value ≤ 2 ^ 125 }
    requires least { 1 ≤ scale }
    requires kept { scale ≤ 2 ^ 104 }
    ensures value { result ≡ neg_ℤ (floor_div (neg_ℤ value) scale) }
    ensures size { nat_abs result ≤ 2 ^ 125 }
{
    opposite(rounded_down(opposite(value), scale))
}

/// 1 more.
fn one_more(value: i128) -> i128
    requires { nat_abs value ≤ 2 ^ 125 }
    ensures value { result ≡ value +ℤ pos 1 }
    ensures size { nat_abs result ≤ 2 ^ 126 }
{
    value + 1
}

/// 1 less.
fn one_less(value: i128) -> i128
    requires { nat_abs value ≤ 2 ^ 125 }
    ensures value { result ≡ value -ℤ pos 1 }
    ensures size { nat_abs result ≤ 2 ^ 126 }
{
    value - 1
}

/// Whether the literal is Above.
fn is_above_zero(lit: &Lit) -> bool
    ensures { result ≡ is_strict lit.now }
{
    match lit {
        Lit::Above(_) => true,
        _ => false,
    }
}

/// The least whole number that a lower literal allows.
fn least_allowed(lit: &Lit, var: u32, trial: &Point) -> i128
    requires below { Below (length trial.now.nums) (form_of lit.now) }
    requires least { 1 ≤ size_at var lit.now }
    ensures value { result ≡ least_whole var trial.now lit.now }
    ensures size { nat_abs result ≤ 2 ^ 126 }
{
    let value = value_at(lit, trial);
    let scale = scale_of(lit, var, trial);
    if is_above_zero(lit) {
        return one_more(rounded_down(opposite(value), scale));
    }
    opposite(rounded_down(value, scale))
}

/// The greatest whole number that an upper literal allows.
fn greatest_allowed(lit: &Lit, var: u32, trial: &Point) -> i128
    requires below { Below (length trial.now.nums) (form_of lit.now) }
    requires least { 1 ≤ size_at var lit.now }
    ensures value { result ≡ greatest_whole var trial.now lit.now }
    ensures size { nat_abs result ≤ 2 ^ 126 }
{
    let value = value_at(lit, trial);
    let scale = scale_of(lit, var, trial);
    if is_above_zero(lit) {
        return one_less(rounded_up(value, scale));
    }
    rounded_down(value, scale)
}

/// The greater of a number and another, where there is one.
fn greater_of(z: i128, best: Option<i128>) -> i128
    requires z_kept { nat_abs z ≤ 2 ^ 126 }
    requires best_kept { IfSome best (λ w. nat_abs w ≤ 2 ^ 126) }
    ensures value { result ≡ greater z best }
    ensures kept { nat_abs result ≤ 2 ^ 126 }
{
    match best {
        None => z,
        Some(w) => { if w <= z { z } else { w } }
    }
}

/// The lesser of a number and another, where there is one.
fn lesser_of(z: i128, best: Option<i128>) -> i128
    requires z_kept { nat_abs z ≤ 2 ^ 126 }
    requires best_kept { IfSome best (λ w. nat_abs w ≤ 2 ^ 126) }
    ensures value { result ≡ lesser z best }
    ensures kept { nat_abs result ≤ 2 ^ 126 }
{
    match best {
        None => z,
        Some(w) => { if z <= w { z } else { w } }
    }
}

/// The least whole number so far, and that of one more lower literal.
fn greater_with(lit: &Lit, var: u32, trial: &Point, best: Option<i128>) -> Option<i128>
    requires below { Below (length trial.now.nums) (form_of lit.now) }
    requires least { 1 ≤ size_at var lit.now }
    requires kept { IfSome best (λ w. nat_abs w ≤ 2 ^ 126) }
    ensures value { result ≡ Some (greater (least_whole var trial.now lit.now) best) }
    ensures kept { IfSome result (λ w. nat_abs w ≤ 2 ^ 126) }
{
    let value = least_allowed(lit, var, trial);
    Some(greater_of(value, best))
}

/// The greatest whole number so far, and that of one more upper literal.
fn lesser_with(lit: &Lit, var: u32, trial: &Point, best: Option<i128>) -> Option<i128>
    requires below { Below (length trial.now.nums) (form_of lit.now) }
    requires least { 1 ≤ size_at var lit.now }
    requires kept { IfSome best (λ w. nat_abs w ≤ 2 ^ 126) }
    ensures value { result ≡ Some (lesser (greatest_whole var trial.now lit.now) best) }
    ensures kept { IfSome result (λ w. nat_abs w ≤ 2 ^ 126) }
{
    let value = greatest_allowed(lit, var, trial);
    Some(lesser_of(value, best))
}

/// The least whole number that all lower literals allow.
pub(crate) fn least_between(lits: &[Lit], ids: &[u32], var: u32, trial: &Point) -> Option<i128>
    requires within { AreIn (length lits.now) ids.now }
    requires below { AreBelow (length trial.now.nums) (lits_of lits.now ids.now) }
    requires lower { AllByRecursion (λ l. is_lower var l ≡ true) (lits_of lits.now ids.now) }
    ensures value { result ≡ from_below var trial.now None (lits_of lits.now ids.now) }
    ensures kept { IfSome result (λ w. nat_abs w ≤ 2 ^ 126) }
{
    let mut best = None;
    for id in ids {
        best = greater_with(&lits[*id as usize], var, trial, best);
    }
    best
}

/// The greatest whole number that all upper literals allow.
pub(crate) fn greatest_between(lits: &[Lit], ids: &[u32], var: u32, trial: &Point) -> Option<i128>
    requires within { AreIn (length lits.now) ids.now }
    requires below { AreBelow (length trial.now.nums) (lits_of lits.now ids.now) }
    requires upper { AllByRecursion (λ l. is_upper var l ≡ true) (lits_of lits.now ids.now) }
    ensures value { result ≡ from_above var trial.now None (lits_of lits.now ids.now) }
    ensures kept { IfSome result (λ w. nat_abs w ≤ 2 ^ 126) }
{
    let mut best = None;
    for id in ids {
        best = lesser_with(&lits[*id as usize], var, trial, best);
    }
    best
}

/// The bound that a lower literal sets.
pub(crate) fn bound_of_lower(lit: &Lit, var: u32, trial: &Point) -> Bound
    requires { Below (length trial.now.nums) (form_of lit.now) }
    ensures value { result ≡ lower_seen var trial.now lit.now }
    ensures size { nat_abs result.num ≤ 2 ^ 125 }
    ensures kept { result.div ≤ cap }
{
    let value = value_at(lit, trial);
    Bound {
        num: opposite(value),
        div: size_of(lit, var),
    }
}

/// The bound that an upper literal sets.
pub(crate) fn bound_of_upper(lit: &Lit, var: u32, trial: &Point) -> Bound
    requires { Below (length trial.now.nums) (form_of lit.now) }
    ensures value { result ≡ upper_seen var trial.now lit.now }
    ensures size { nat_abs result.num ≤ 2 ^ 125 }
    ensures kept { result.div ≤ cap }
{
    Bound {
        num: value_at(lit, trial),
        div: size_of(lit, var),
    }
}

/// Whether the first bound is below the second.
fn is_bound_below(b: Bound, c: Bound) -> bool
    requires b_least { 1 ≤ b.div }
    requires b_kept { b.div ≤ cap }
    requires c_least { 1 ≤ c.div }
    requires c_kept { c.div ≤ cap }
    ensures { result ≡ is_lesser b c }
{
    match compare_fractions(b.num, b.div as i64, c.num, c.div as i64) {
        Ordering::Less => true,
        _ => false,
    }
}

/// The greater bound, that of one more lower literal where it is above the others.
pub(crate) fn higher(best: Bound, lit: &Lit, var: u32, trial: &Point) -> Bound
    requires below { Below (length trial.now.nums) (form_of lit.now) }
    requires lower { 1 ≤ size_at var lit.now }
    requires size { nat_abs best.num ≤ 2 ^ 125 }
    requires least { 1 ≤ best.div }
    requires kept { best.div ≤ cap }
    ensures value { result ≡ if is_lesser best (lower_seen var trial.now lit.now) then lower_seen var trial.now lit.now else best }
    ensures size { nat_abs result.num ≤ 2 ^ 125 }
    ensures least { 1 ≤ result.div }
    ensures kept { result.div ≤ cap }
{
    let other = bound_of_lower(lit, var, trial);
    if is_bound_below(best, other) {
        other
    } else {
        best
    }
}

/// The lesser bound, that of one more upper literal where it is below the others.
pub(crate) fn lower(best: Bound, lit: &Lit, var: u32, trial: &Point) -> Bound
    requires below { Below (length trial.now.nums) (form_of lit.now) }
    requires upper { 1 ≤ size_at var lit.now }
    requires size { nat_abs best.num ≤ 2 ^ 125 }
    requires least { 1 ≤ best.div }
    requires kept { best.div ≤ cap }
    ensures value { result ≡ if is_lesser (upper_seen var trial.now lit.now) best then upper_seen var trial.now lit.now else best }
    ensures size { nat_abs result.num ≤ 2 ^ 125 }
    ensures least { 1 ≤ result.div }
    ensures kept { result.div ≤ cap }
{
    let other = bound_of_upper(lit, var, trial);
    if is_bound_below(other, best) {
        other
    } else {
        best
    }
}
