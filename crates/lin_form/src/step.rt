//! Steps on forms that were worked out before: a fault stays a fault.

ghost use Rattle.std.specs.Prelude.{◌≡◌, ◌+◌, ◌*◌, ◌≤◌, ◌^◌, ℕ, ℤ, pos, ◌*ℤ◌, nat_abs, List, ◌++◌, ◌∷◌, []};
ghost use Rattle.lin_term.specs.Form.{cap};
ghost use Rattle.lin_term.specs.Linear.{Value};
ghost use Rattle.lin_truth.specs.Value.{v_abs, v_div, v_mod, whole_div};
ghost use Rattle.lin_form.specs.Lin.{Lin, lin_neg, lin_over};
ghost use Rattle.lin_form.specs.Low.{as_lin, lowest};
ghost use Rattle.lin_form.specs.Outcome.{Formed};
ghost use Rattle.lin_form.specs.Operating.{operation as operation_of, absolute_lin, whole_lin, remainder_lin, quotient_lin, value_of};

use crate::fault::FormFault;
use crate::form::{LinForm, itself, lowest_value, minus, negative, plus, scaled, times};
use lin_term::product;
use std::alloc::Global;

/// What is done with two forms. The last three take forms without variables.
#[derive(Clone, Copy, Debug, PartialEq, Eq, Drop)]
pub enum Operation {
    Plus,
    Minus,
    Times,
    /// The quotient.
    Over,
    /// The whole q with a = n*q + r and 0 <= r < |n|.
    Whole,
    /// The r of the same.
    Rest,
}

/// The form that an operation makes of two.
fn operate(alloc: Global, op: Operation, x: &LinForm, y: &LinForm) -> Result<LinForm, FormFault>
    ensures { let lin : Lin = operation_of op x.now y.now in
        Formed (lin ∷ []) lin result }
{
    match op {
        Operation::Plus => plus(alloc, x, y),
        Operation::Minus => minus(alloc, x, y),
        Operation::Times => times(alloc, x, y),
        Operation::Over => quotient_form(alloc, x, y),
        Operation::Whole => whole_form(alloc, x, y),
        Operation::Rest => remainder_form(alloc, x, y),
    }
}

/// What an operation makes of two forms that were worked out before. Where one of them has a fault, so has the result;
/// else it refuses where one of its numbers is past 2^52 (`Number`, only there), or for memory. A quotient by 0, which no
/// goal has, is the first form.
pub fn operated(
    alloc: Global,
    op: Operation,
    x: Result<LinForm, FormFault>,
    y: Result<LinForm, FormFault>,
) -> Result<LinForm, FormFault>
    ensures { (xs ys : List Lin) (v w : Lin) → Formed xs v x → Formed ys w y → Formed (xs ++ (ys ++ operation_of op v w ∷ [])) (operation_of op v w) result }
{
    let x = match x {
        Ok(x) => x,
        Err(fault) => return Err(fault),
    };
    let y = match y {
        Ok(y) => y,
        Err(fault) => return Err(fault),
    };
    operate(alloc, op, &x, &y)
}

/// What an operation makes of a form and one that was worked out behind it. A fault of the second stays a fault; else
/// it refuses as `operated`.
pub fn stepped(
    alloc: Global,
    op: Operation,
    x: &LinForm,
    y: Result<LinForm, FormFault>,
) -> Result<LinForm, FormFault>
    ensures { (ys : List Lin) (w : Lin) → Formed ys w y → Formed (ys ++ operation_of op x.now w ∷ []) (operation_of op x.now w) result }
{
    let y = match y {
        Ok(y) => y,
        Err(fault) => return Err(fault),
    };
    operate(alloc, op, x, &y)
}

/// The quotient of a form and one without variables, in lowest terms; of the second only the constant and the
/// denominator count. By 0, which no goal has, it is the form itself. Refuses where a number of the quotient is past 2^52
/// (`Number`, only there), or for memory.
pub fn over(alloc: Global, x: &LinForm, y: &LinForm) -> Result<LinForm, FormFault>
    ensures { let lin : Lin = lin_over x.now (value_of y.now) in
        Formed (lin ∷ []) lin result }
{
    let n = y.constant();
    let e = y.den() as i64;
    if n > 0 {
        scaled(alloc, e, n as u64, x)
    } else if n < 0 {
        scaled(alloc, -e, n.unsigned_abs(), x)
    } else {
        itself(alloc, x)
    }
}

/// The quotient of a form and one without variables that were worked out before.
pub(crate) fn quotient(
    alloc: Global,
    x: Result<LinForm, FormFault>,
    y: Result<LinForm, FormFault>,
) -> Result<LinForm, FormFault>
    ensures { (xs ys : List Lin) (v w : Lin) → Formed xs v x → Formed ys w y → Formed (xs ++ (ys ++ lin_over v (value_of w) ∷ [])) (lin_over v (value_of w)) result }
{
    let x = match x {
        Ok(x) => x,
        Err(fault) => return Err(fault),
    };
    let y = match y {
        Ok(y) => y,
        Err(fault) => return Err(fault),
    };
    over(alloc, &x, &y)
}

/// The quotient of two forms without variables; by 0, which no goal has, the first in lowest terms.
fn quotient_form(alloc: Global, x: &LinForm, y: &LinForm) -> Result<LinForm, FormFault>
    ensures { let lin : Lin = quotient_lin x.now y.now in
        Formed (lin ∷ []) lin result }
{
    let n = y.constant();
    let top = product(x.constant(), y.den() as i64);
    let bottom = x.den() as u128 * n.unsigned_abs() as u128;
    if n > 0 {
        lowest_value(alloc, top, bottom)
    } else if n < 0 {
        lowest_value(alloc, -top, bottom)
    } else {
        lowest_value(alloc, x.constant() as i128, x.den() as u128)
    }
}

/// The negative of a form that was worked out before, in lowest terms. A fault stays a fault; else
/// it refuses where one of its numbers is past 2^52 (`Number`, only there), or for memory.
pub fn negated(alloc: Global, x: Result<LinForm, FormFault>) -> Result<LinForm, FormFault>
    ensures { (xs : List Lin) (v : Lin) → Formed xs v x → Formed (xs ++ lin_neg v ∷ []) (lin_neg v) result }
{
    let x = match x {
        Ok(x) => x,
        Err(fault) => return Err(fault),
    };
    negative(alloc, &x)
}

/// The absolute value of a form without variables.
fn absolute_form(alloc: Global, x: &LinForm) -> Result<LinForm, FormFault>
    ensures { let lin : Lin = absolute_lin x.now in
        Formed (lin ∷ []) lin result }
{
    let size = x.constant().unsigned_abs() as i128;
    lowest_value(alloc, size, x.den() as u128)
}

/// The absolute value of a form without variables that was worked out before, in lowest terms. A fault stays a fault;
/// else it refuses where one of its numbers is past 2^52 (`Number`, only there), or for memory.
pub fn absolute(alloc: Global, x: Result<LinForm, FormFault>) -> Result<LinForm, FormFault>
    ensures { (xs : List Lin) (v : Lin) → Formed xs v x → Formed (xs ++ absolute_lin v ∷ []) (absolute_lin v) result }
{
    let x = match x {
        Ok(x) => x,
        Err(fault) => return Err(fault),
    };
    absolute_form(alloc, &x)
}

/// The whole q with a = n*q + r and 0 <= r < |n|; a where n is 0.
fn whole_quotient(a: i64, n: i64) -> i64
    requires a_kept { nat_abs a ≤ cap }
    requires n_kept { nat_abs n ≤ cap }
    ensures value { result ≡ whole_div a n }
    ensures small { nat_abs result ≤ cap }
{
    if n > 0 {
        a.div_euclid(n)
    } else if n < 0 {
        -a.div_euclid(-n)
    } else {
        a
    }
}

/// The whole quotient of two forms without variables.
fn whole_form(alloc: Global, x: &LinForm, y: &LinForm) -> Result<LinForm, FormFault>
    ensures { let lin : Lin = whole_lin x.now y.now in
        Formed (lin ∷ []) lin result }
{
    let quotient = whole_quotient(x.constant(), y.constant());
    lowest_value(alloc, quotient as i128, 1)
}

/// n times the whole quotient of a by n, which a remainder is behind.
fn whole_multiple(a: i64, n: i64) -> i64
    requires a_kept { nat_abs a ≤ cap }
    requires n_kept { nat_abs n ≤ cap }
    ensures value { result ≡ n *ℤ whole_div a n }
    ensures small { nat_abs result ≤ 2 ^ 53 }
{
    let quotient = whole_quotient(a, n);
    n * quotient
}

/// The product of a number of two caps at most and a denominator.
fn over_den(whole: i64, den: u64) -> i128
    requires whole_small { nat_abs whole ≤ 2 ^ 53 }
    requires den_kept { den ≤ cap }
    ensures value { result ≡ whole *ℤ pos den }
    ensures size { nat_abs result ≤ 2 ^ 105 }
{
    whole as i128 * den as i128
}

/// The remainder of two forms without variables: the first less the second times the whole quotient of the constants.
fn remainder_form(alloc: Global, x: &LinForm, y: &LinForm) -> Result<LinForm, FormFault>
    ensures { let lin : Lin = remainder_lin x.now y.now in
        Formed (lin ∷ []) lin result }
{
    let whole = whole_multiple(x.constant(), y.constant());
    let left = product(x.constant(), y.den() as i64);
    let right = over_den(whole, x.den());
    let den = x.den() as u128 * y.den() as u128;
    lowest_value(alloc, left - right, den)
}
