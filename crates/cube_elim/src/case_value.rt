//! The value of a variable in a case of its elimination.

ghost use Rattle.std.specs.Prelude.{◌≡◌, ◌≤◌, ◌<◌, ◌^◌, ◌*◌, ◌↔◌, ℕ, ℤ, pos, ◌-ℤ◌, ◌*ℤ◌, ◌+◌, nat_abs, true, None, Option, IfSome, IsTrue, length, get_or};
ghost use Rattle.lin_term.specs.Form.{cap};
ghost use Rattle.lin_term.specs.Linear.{Point, Below, dot as dot_of, floor_div};
ghost use Rattle.lin_term.specs.Literal.{form_of};
ghost use Rattle.dom_core.specs.Reduced.{AreBelow};
ghost use Rattle.dom_core.specs.Elimination.{is_lower as is_lower_literal, is_upper as is_upper_literal, size_at, cooper, delta};
ghost use Rattle.cube_elim.specs.Determined.{lower_value, lower_values, upper_value, lesser, lesser_upper, least_upper, up_to, case_values};
ghost use Rattle.cube_elim.specs.Values.{IsTrial, no_value, lower_size, sizes};

use dom_core::{is_lower, is_upper};
use lin_term::{Lit, Point, coefficient_at, dot, floor_quotient};

/// The value of the literal's row at the point, at most 2^125 in size.
fn value_at(lit: &Lit, trial: &Point) -> i128
    requires { Below (length trial.now.nums) (form_of lit.now) }
    ensures value { result ≡ dot_of (form_of lit.now) trial.now }
    ensures size { nat_abs result ≤ 2 ^ 125 }
{
    let row = lit.row();
    let _terms = row.coefs();
    let _constant = row.constant_part();
    let _nums = trial.nums();
    let _den = trial.den();
    dot(row, trial)
}

/// The size of the coefficient of the variable.
fn size_of(lit: &Lit, var: u32) -> u64
    ensures value { result ≡ size_at var lit.now }
    ensures kept { result ≤ cap }
{
    coefficient_at(lit.row(), var).unsigned_abs()
}

/// k less the value, divided by a and rounded down; a is 1 or more.
fn quotient_of(k: u64, value: i128, a: u64) -> i128
    requires size { nat_abs value ≤ 2 ^ 125 }
    requires least { 1 ≤ a }
    ensures { result ≡ floor_div (pos k -ℤ value) a }
{
    floor_quotient(k as i128 - value, a as i128)
}

/// The value divided by b and rounded down; b is 1 or more.
fn rounded(value: i128, b: u64) -> i128
    requires size { nat_abs value ≤ 2 ^ 125 }
    requires least { 1 ≤ b }
    ensures value { result ≡ floor_div value b }
    ensures kept { nat_abs result ≤ 2 ^ 125 }
{
    floor_quotient(value, b as i128)
}

/// The value of the variable in the k-th case of a lower literal. The trial point has 0 for the variable.
fn value_of_lower(lit: &Lit, var: u32, k: u64, trial: &Point) -> i128
    requires below { Below (length trial.now.nums) (form_of lit.now) }
    requires lower { is_lower_literal var lit.now ≡ true }
    ensures { (p : Point) → IsTrial var p trial.now → result ≡ lower_value var lit.now k p }
{
    let value = value_at(lit, trial);
    let size = size_of(lit, var);
    quotient_of(k, value, size)
}

/// The greatest value of the variable that an upper literal allows.
fn value_of_upper(lit: &Lit, var: u32, trial: &Point) -> i128
    requires below { Below (length trial.now.nums) (form_of lit.now) }
    requires upper { is_upper_literal var lit.now ≡ true }
    ensures value { (p : Point) → IsTrial var p trial.now → result ≡ upper_value var lit.now p }
    ensures kept { nat_abs result ≤ 2 ^ 125 }
{
    let value = value_at(lit, trial);
    let size = size_of(lit, var);
    rounded(value, size)
}

/// The lesser of a number and another, where there is one.
fn lesser_of(z: i128, best: Option<i128>) -> i128
    requires z_kept { nat_abs z ≤ 2 ^ 125 }
    requires best_kept { IfSome best (λ w. nat_abs w ≤ 2 ^ 125) }
    ensures value { result ≡ lesser z best }
    ensures kept { nat_abs result ≤ 2 ^ 125 }
{
    match best {
        None => z,
        Some(w) => { if z <= w { z } else { w } }
    }
}

/// The least value so far, and that of one more literal.
fn lesser_with(lit: &Lit, var: u32, trial: &Point, best: Option<i128>) -> Option<i128>
    requires below { Below (length trial.now.nums) (form_of lit.now) }
    requires kept { IfSome best (λ w. nat_abs w ≤ 2 ^ 125) }
    ensures value { (p : Point) → IsTrial var p trial.now → result ≡ lesser_upper var lit.now p best }
    ensures kept { IfSome result (λ w. nat_abs w ≤ 2 ^ 125) }
{
    if !is_upper(lit, var) {
        return best;
    }
    let value = value_of_upper(lit, var, trial);
    Some(lesser_of(value, best))
}

/// The least of the values of the upper literals.
fn least_of_uppers(cube: &[Lit], var: u32, trial: &Point) -> Option<i128>
    requires { AreBelow (length trial.now.nums) cube.now }
    ensures value { (p : Point) → IsTrial var p trial.now → result ≡ least_upper var None cube.now p }
    ensures kept { IfSome result (λ w. nat_abs w ≤ 2 ^ 125) }
{
    let mut best = None;
    for lit in cube {
        best = lesser_with(lit, var, trial, best);
    }
    best
}

/// d times the quotient of w by d rounded down.
fn multiple_below(w: i128, d: u64) -> i128
    requires size { nat_abs w ≤ 2 ^ 125 + 2 ^ 53 }
    requires least { 1 ≤ d }
    requires kept { d ≤ cap }
    ensures value { result ≡ pos d *ℤ floor_div w d }
    ensures size { nat_abs result ≤ 2 ^ 126 }
{
    floor_quotient(w, d as i128) * d as i128
}

/// The greatest number up to the bound with the residue k modulo d, and k where there is no bound.
fn number_up_to(best: Option<i128>, d: u64, k: u64) -> i128
    requires best { IfSome best (λ w. nat_abs w ≤ 2 ^ 125) }
    requires least { 1 ≤ d }
    requires d_kept { d ≤ cap }
    requires k_kept { k ≤ cap }
    ensures { result ≡ up_to d k best }
{
    match best {
        None => k as i128,
        Some(z) => k as i128 + multiple_below(z - k as i128, d),
    }
}

/// The coefficient of a lower literal, 0 of another.
fn lower_size_of(lit: &Lit, var: u32) -> u64
    ensures value { result ≡ lower_size var lit.now }
    ensures kept { result ≤ cap }
{
    if is_lower(lit, var) {
        size_of(lit, var)
    } else {
        0
    }
}

/// How many cases a literal has.
fn cases_of(lit: &Lit, var: u32, n: u64) -> u128
    requires { n ≤ cap }
    ensures value { result ≡ lower_size var lit.now * n }
    ensures size { result ≤ 2 ^ 104 }
{
    u128::from(lower_size_of(lit, var)) * u128::from(n)
}

/// The sum of the coefficients of the lower literals.
fn sum_of_sizes(cube: &[Lit], var: u32) -> u64
    requires { sizes var cube.now ≤ cap }
    ensures { result ≡ sizes var cube.now }
{
    let mut total = 0;
    for lit in cube {
        total += lower_size_of(lit, var);
    }
    total
}

/// The value of the variable in the case of this number, where there are n cases for each unit of a lower literal's
/// coefficient.
fn value_among_lower(cube: &[Lit], var: u32, n: u64, index: u64, trial: &Point) -> i128
    requires below { AreBelow (length trial.now.nums) cube.now }
    requires kept { n ≤ cap }
    ensures { (p : Point) → IsTrial var p trial.now → result ≡ get_or (lower_values var n cube.now) index no_value p }
{
    let mut rest = index;
    for lit in cube {
        let count = cases_of(lit, var, n);
        if u128::from(rest) < count {
            return value_of_lower(lit, var, rest, trial);
        }
        rest -= count as u64;
    }
    0
}

/// The value of the variable in the case of this number among the cases, whose count is given. The trial point has 0 for
/// the variable.
pub(crate) fn value_in_case(cube: &[Lit], var: u32, count: u64, index: u64, trial: &Point) -> i128
    requires below { AreBelow (length trial.now.nums) cube.now }
    requires cases { count ≡ length (cooper cube.now var) }
    requires kept { count ≤ cap }
    requires within { index < count }
    requires period { 1 ≤ delta cube.now var }
    ensures { (p : Point) → IsTrial var p trial.now → result ≡ get_or (case_values var cube.now) index no_value p }
{
    let total = sum_of_sizes(cube, var);
    if total == 0 {
        let best = least_of_uppers(cube, var, trial);
        return number_up_to(best, count, index);
    }
    value_among_lower(cube, var, count / total, index, trial)
}
