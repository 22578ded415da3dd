//! Linear forms over one positive denominator: sums, multiples and products, each in lowest terms.

ghost use Rattle.std.specs.Prelude.{◌≡◌, ◌+◌, ◌*◌, ◌<◌, ◌≤◌, ◌^◌, ℕ, ℤ, pos, negsuc, neg_ℤ, ◌≤ℤ◌, nat_abs, IfOk, ◌∷◌, [], true};
ghost use Rattle.lin_term.specs.Form.{AreTerms, cap};
ghost use Rattle.lin_term.specs.Linear.{plus_terms, times_terms};
ghost use Rattle.lin_term.specs.Literal.{gcd, gcd_terms, or_one};
ghost use Rattle.lin_form.specs.Kept.{within, lins_numbers};
ghost use Rattle.lin_form.specs.Lin.{combination, Lin, reduced, lin_variable, lin_plus, lin_minus, lin_scale, lin_neg, lin_times, lin_over};
ghost use Rattle.lin_form.specs.Low.{as_lin, lowest};
ghost use Rattle.lin_form.specs.Outcome.{Formed};

use crate::fault::FormFault;
use lin_term::{
    CAP, Coefs, Fraction, Memory, Row, Short, Wide, common_of_sum, floor_quotient, gcd_of,
    is_within, product, quotients_of_sum,
};
use smallvec::SmallVec;
use std::alloc::Global;
use std::marker::Model;

/// No variable of a row has this number.
const NONE: u32 = u32::MAX;

/// The linear form `row / den`. The denominator lies in `1..=CAP`.
#[derive(Debug, Drop)]
pub struct LinForm {
    row: Row,
    den: u64,
}

impl Model for LinForm {
    ghost use Rattle.std.specs.Prelude.{◌≤◌};
    ghost use Rattle.lin_term.specs.Form.{cap};
    ghost use Rattle.lin_form.specs.Lin.{Lin};

    ghost Value = { Lin };

    ghost view = { λ x. record { form = x.row; den = x.den } };

    ghost invariant = { λ x. (1 ≤ x.den) × (x.den ≤ cap) };
}

/// The greatest common divisor of a denominator, a constant and the coefficients of a sum.
fn common_of(
    den: u128,
    constant: i128,
    p: i64,
    left: &[(u32, i64)],
    q: i64,
    right: &[(u32, i64)],
) -> u128
    requires den_least { 1 ≤ den }
    requires p_kept { nat_abs p ≤ cap }
    requires q_kept { nat_abs q ≤ cap }
    requires left_kept { AreTerms 0 left.now }
    requires right_kept { AreTerms 0 right.now }
    ensures value { result ≡ or_one (gcd den (gcd (nat_abs constant) (gcd_terms (plus_terms (times_terms p left.now) (times_terms q right.now))))) }
    ensures least { 1 ≤ result }
    ensures greatest { result ≤ den }
{
    if den == 1 {
        return 1;
    }
    let start = gcd_of(den, constant.unsigned_abs());
    common_of_sum(start, 0, p, left, q, right, NONE)
}

/// p times the left terms and q times the right ones with a constant, over a denominator, in lowest terms.
fn reduced_sum(
    alloc: Global,
    den: u128,
    constant: i128,
    p: i64,
    left: &[(u32, i64)],
    q: i64,
    right: &[(u32, i64)],
) -> Result<LinForm, FormFault>
    requires den_least { 1 ≤ den }
    requires den_greatest { den ≤ 2 ^ 104 }
    requires constant_small { nat_abs constant ≤ 2 ^ 106 }
    requires p_kept { nat_abs p ≤ cap }
    requires q_kept { nat_abs q ≤ cap }
    requires left_kept { AreTerms 0 left.now }
    requires right_kept { AreTerms 0 right.now }
    ensures { let lin : Lin = reduced (record { form = record { terms = plus_terms (times_terms p left.now) (times_terms q right.now); constant = constant }; den = den }) in
        Formed (lin ∷ []) lin result }
{
    let common = common_of(den, constant, p, left, q, right);
    let divisor = common as i128;
    let constant = floor_quotient(constant, divisor);
    let den = den / common;
    if den > CAP as u128 {
        return Err(FormFault::Number);
    }
    if !is_within(constant) {
        return Err(FormFault::Number);
    }
    match quotients_of_sum(alloc, 0, divisor, p, left, q, right, NONE) {
        Ok(coefs) => Ok(LinForm {
            row: Row::from_parts(coefs, constant as i64),
            den: den as u64,
        }),
        Err(Short::Fault(_)) => Err(FormFault::Number),
        Err(Short::Memory) => Err(FormFault::Memory),
    }
}

impl LinForm {
    /// The numerator.
    pub fn row(&self) -> &Row
        ensures { result.now ≡ self.now.form }
    {
        &self.row
    }

    /// The form with the denominator 1.
    pub fn whole(row: Row) -> LinForm
        ensures { result ≡ record { form = row; den = 1 } }
    {
        LinForm { row, den: 1 }
    }

    /// An equal form; refuses only for memory.
    pub fn copy(&self, alloc: Global) -> Result<LinForm, Memory>
        ensures { IfOk result (λ x. x ≡ self.now) }
    {
        Ok(LinForm {
            row: self.row.copy(alloc)?,
            den: self.den,
        })
    }

    /// The numerator; the denominator is let go.
    pub fn into_row(self) -> Row
        ensures { result ≡ self.form }
    {
        self.row
    }

    /// The constant of the numerator.
    pub fn constant(&self) -> i64
        ensures value { result ≡ self.now.form.constant }
        ensures kept { nat_abs result ≤ cap }
    {
        self.row.constant_part()
    }

    /// The denominator as a signed number.
    fn signed_den(&self) -> i64
        ensures value { result ≡ pos self.now.den }
        ensures kept { nat_abs result ≤ cap }
    {
        self.den as i64
    }

    /// The denominator, in `1..=CAP`.
    pub fn den(&self) -> u64
        ensures value { result ≡ self.now.den }
        ensures least { 1 ≤ result }
        ensures greatest { result ≤ cap }
    {
        self.den
    }
}

/// num/den in lowest terms, as a form without variables; den in 1..=2^104, |num| at most 2^106.
/// Refuses where one of its numbers is past 2^52 (`Number`, only there), or for memory.
pub fn lowest_value(alloc: Global, num: i128, den: u128) -> Result<LinForm, FormFault>
    requires den_least { 1 ≤ den }
    requires den_greatest { den ≤ 2 ^ 104 }
    requires num_small { nat_abs num ≤ 2 ^ 106 }
    ensures { let lin : Lin = as_lin (lowest (record { num = num; den = den })) in
        Formed (lin ∷ []) lin result }
{
    match Fraction::make(num, den as i128) {
        Ok(value) => Ok(form_of(alloc, value)),
        Err(_) => Err(FormFault::Number),
    }
}

/// The fraction as a form without variables.
fn form_of(alloc: Global, value: Fraction) -> LinForm
    ensures { result ≡ as_lin value }
{
    LinForm {
        row: Row::constant(alloc, value.num()),
        den: value.den() as u64,
    }
}

/// p times x and q times y over both denominators, in lowest terms.
fn combined(alloc: Global, p: i64, x: &LinForm, q: i64, y: &LinForm) -> Result<LinForm, FormFault>
    requires p_kept { nat_abs p ≤ cap }
    requires q_kept { nat_abs q ≤ cap }
    ensures { let lin : Lin = combination p x.now q y.now in
        Formed (lin ∷ []) lin result }
{
    let left = product(p, x.row.constant_part());
    let right = product(q, y.row.constant_part());
    let den = x.den() as u128 * y.den() as u128;
    reduced_sum(alloc, den, left + right, p, x.row.coefs(), q, y.row.coefs())
}

/// n/d times a form, in lowest terms; n in -2^52..=2^52, d in 1..=2^52.
/// Refuses where one of its numbers is past 2^52 (`Number`, only there), or for memory.
pub fn scaled(alloc: Global, n: i64, d: u64, x: &LinForm) -> Result<LinForm, FormFault>
    requires n_kept { nat_abs n ≤ cap }
    requires d_least { 1 ≤ d }
    requires d_greatest { d ≤ cap }
    ensures { let lin : Lin = lin_scale n d x.now in
        Formed (lin ∷ []) lin result }
{
    let constant = product(n, x.row.constant_part());
    let den = d as u128 * x.den() as u128;
    reduced_sum(alloc, den, constant, n, x.row.coefs(), 0, &[])
}

/// The sum of two forms, in lowest terms.
/// Refuses where one of its numbers is past 2^52 (`Number`, only there), or for memory.
pub fn plus(alloc: Global, x: &LinForm, y: &LinForm) -> Result<LinForm, FormFault>
    ensures { let lin : Lin = lin_plus x.now y.now in
        Formed (lin ∷ []) lin result }
{
    let p = y.signed_den();
    let q = x.signed_den();
    combined(alloc, p, x, q, y)
}

/// The first form less the second, in lowest terms.
/// Refuses where one of its numbers is past 2^52 (`Number`, only there), or for memory.
pub fn minus(alloc: Global, x: &LinForm, y: &LinForm) -> Result<LinForm, FormFault>
    ensures { let lin : Lin = lin_minus x.now y.now in
        Formed (lin ∷ []) lin result }
{
    let p = y.signed_den();
    let q = -x.signed_den();
    combined(alloc, p, x, q, y)
}

/// The form itself; refuses only for memory.
pub(crate) fn itself(alloc: Global, x: &LinForm) -> Result<LinForm, FormFault>
    ensures { Formed (x.now ∷ []) x.now result }
{
    let coefs = SmallVec::from_slice(alloc, x.row.coefs())?;
    Ok(LinForm {
        row: Row::from_parts(coefs, x.row.constant_part()),
        den: x.den(),
    })
}

/// The negative form, in lowest terms. Its numbers are within 2^52 as those of the form are, so it refuses only for
/// memory.
pub fn negative(alloc: Global, x: &LinForm) -> Result<LinForm, FormFault>
    ensures value { let lin : Lin = lin_neg x.now in
        Formed (lin ∷ []) lin result }
    ensures kept { within (lins_numbers (lin_neg x.now ∷ [])) ≡ true }
{
    let constant = product(-1, x.row.constant_part());
    reduced_sum(alloc, x.den() as u128, constant, -1, x.row.coefs(), 0, &[])
}

/// The product of two forms of which one has no variables, in lowest terms. Where both have variables, only the
/// constant and the denominator of the second count.
/// Refuses where one of its numbers is past 2^52 (`Number`, only there), or for memory.
pub fn times(alloc: Global, x: &LinForm, y: &LinForm) -> Result<LinForm, FormFault>
    ensures { let lin : Lin = lin_times x.now y.now in
        Formed (lin ∷ []) lin result }
{
    match x.row.coefs() {
        [] => scaled(alloc, x.row.constant_part(), x.den(), y),
        [_, ..] => scaled(alloc, y.row.constant_part(), y.den(), x),
    }
}
