//! The primitive form of a sum of multiples of two rows.

ghost use Rattle.std.specs.Prelude.{◌≡◌, ◌≤◌, ◌^◌, ℕ, ℤ, List, pos, ◌≤ℤ◌, nat_abs};
ghost use Rattle.std.specs.Result.{ForOk};
ghost use Rattle.lin_term.specs.Form.{AreTerms, cap};
ghost use Rattle.lin_term.specs.Literal.{divisor, gcd, gcd_terms, modulus_of, residue_form};
ghost use Rattle.lin_term.specs.Linear.{Form};
ghost use Rattle.lin_term.specs.Items.{CappedTerms};
ghost use Rattle.lin_term.specs.Blend.{reduce_by, sum_terms};
ghost use Rattle.lin_term.specs.Wide.{Capped, form_numbers};
ghost use Rattle.lin_term.specs.Settle.{sum_form, settled, settled_constant as settled_constant_of, divisor_start as divisor_start_of, CappedResidues};

use crate::blend::{common_of_sum, quotients_of_sum, reduced};
use crate::fault::{Short, Wide};
use crate::numbers::{floor_quotient, gcd_of, is_within};
use crate::row::{Coefs, Row, Sort};
use std::alloc::Global;

/// The row with this constant, which may be past the cap.
#[tactic(auto, using(crate::proofs::Capping::row_kept, crate::proofs::Capping::row_past))]
pub(crate) fn row_with(coefs: Coefs, constant: i128) -> Result<Row, Short<Wide>>
    requires { AreTerms 0 coefs.items }
    ensures { Capped (form_numbers (record { terms = coefs.items; constant = constant })) (record { terms = coefs.items; constant = constant }) result }
{
    if is_within(constant) {
        Ok(Row::from_parts(coefs, constant as i64))
    } else {
        Err(Short::Fault(Wide { number: constant }))
    }
}

/// The divisor of the sum: in Rat of the coefficients and the constant, in Int of the coefficients; 1 where all are 0.
pub(crate) fn divisor_of_sum(
    sort: Sort,
    p: i64,
    left: &[(u32, i64)],
    q: i64,
    right: &[(u32, i64)],
    skip: u32,
    constant: i128,
) -> u128
    requires p_kept { nat_abs p ≤ cap }
    requires q_kept { nat_abs q ≤ cap }
    requires left_kept { AreTerms 0 left.now }
    requires right_kept { AreTerms 0 right.now }
    ensures { result ≡ divisor sort (sum_form p left.now q right.now skip constant) }
{
    let start = divisor_start(sort, constant);
    common_of_sum(start, 0, p, left, q, right, skip).max(1)
}

/// What the divisor of the coefficients begins with.
fn divisor_start(sort: Sort, constant: i128) -> u128
    ensures { result ≡ divisor_start_of sort constant }
{
    match sort {
        Sort::Rat => constant.unsigned_abs(),
        Sort::Int => 0,
    }
}

/// The row of the sum in primitive form, g being the sum's divisor.
pub(crate) fn inequality_row(
    alloc: Global,
    sort: Sort,
    g: i128,
    p: i64,
    left: &[(u32, i64)],
    q: i64,
    right: &[(u32, i64)],
    skip: u32,
    constant: i128,
) -> Result<Row, Short<Wide>>
    requires least { pos 1 ≤ℤ g }
    requires divides { nat_abs g ≡ divisor sort (sum_form p left.now q right.now skip constant) }
    requires p_kept { nat_abs p ≤ cap }
    requires q_kept { nat_abs q ≤ cap }
    requires left_kept { AreTerms 0 left.now }
    requires right_kept { AreTerms 0 right.now }
    ensures { Capped (form_numbers (settled sort (sum_form p left.now q right.now skip constant))) (settled sort (sum_form p left.now q right.now skip constant)) result }
{
    let coefs = match quotients_of_sum(alloc, 0, g, p, left, q, right, skip) {
        Ok(coefs) => coefs,
        Err(fault) => return Err(fault),
    };
    let constant = settled_constant(sort, coefs.is_empty(), constant, g);
    row_with(coefs, constant)
}

/// The constant of the primitive form.
fn settled_constant(sort: Sort, no_variables: bool, constant: i128, g: i128) -> i128
    requires { pos 1 ≤ℤ g }
    ensures { result ≡ settled_constant_of sort no_variables constant (nat_abs g) }
{
    match sort {
        Sort::Rat => floor_quotient(constant, g),
        Sort::Int => {
            if no_variables {
                if constant < 0 { -1 } else { 0 }
            } else {
                floor_quotient(constant, g)
            }
        }
    }
}

/// Modulus and row of a divisibility in primitive form: coefficients and constant modulo the modulus, then all
/// divided by their greatest common divisor.
pub(crate) fn residue_row(
    alloc: Global,
    modulus: i128,
    p: i64,
    left: &[(u32, i64)],
    q: i64,
    right: &[(u32, i64)],
    skip: u32,
    constant: i128,
) -> Result<(u64, Row), Short<Wide>>
    requires modulus_least { pos 1 ≤ℤ modulus }
    requires modulus_greatest { nat_abs modulus ≤ 2 ^ 106 }
    requires p_kept { nat_abs p ≤ cap }
    requires q_kept { nat_abs q ≤ cap }
    requires left_kept { AreTerms 0 left.now }
    requires right_kept { AreTerms 0 right.now }
    ensures { CappedResidues (nat_abs modulus) (sum_form p left.now q right.now skip constant) result }
{
    let rest = reduced(constant, modulus);
    let g = residue_divisor(modulus, rest, p, left, q, right, skip);
    let number = floor_quotient(modulus, g);
    if !is_within(number) {
        return Err(Short::Fault(Wide { number }));
    }
    let coefs = quotients_of_sum(alloc, modulus, g, p, left, q, right, skip);
    with_modulus(number, row_of_terms(coefs, floor_quotient(rest, g)))
}

/// The row of these terms and this constant, which may be past the cap.
fn row_of_terms(coefs: Result<Coefs, Short<Wide>>, constant: i128) -> Result<Row, Short<Wide>>
    requires { ForOk coefs (λ v. AreTerms 0 v.items) }
    ensures { (ts : List (ℕ × ℤ)) → CappedTerms ts coefs → Capped (form_numbers (record { terms = ts; constant = constant })) (record { terms = ts; constant = constant }) result }
{
    match coefs {
        Ok(coefs) => row_with(coefs, constant),
        Err(fault) => Err(fault),
    }
}

/// The modulus, which is within the cap, with the row.
fn with_modulus(modulus: i128, row: Result<Row, Short<Wide>>) -> Result<(u64, Row), Short<Wide>>
    requires least { pos 0 ≤ℤ modulus }
    requires within { nat_abs modulus ≤ cap }
    ensures { (d : ℕ) (f : Form) → nat_abs modulus ≡ modulus_of d f → Capped (form_numbers (residue_form d f)) (residue_form d f) row → CappedResidues d f result }
{
    match row {
        Ok(row) => Ok((modulus as u64, row)),
        Err(fault) => Err(fault),
    }
}

/// The greatest common divisor of the modulus, the constant and the coefficients modulo the modulus.
fn residue_divisor(
    modulus: i128,
    constant: i128,
    p: i64,
    left: &[(u32, i64)],
    q: i64,
    right: &[(u32, i64)],
    skip: u32,
) -> i128
    requires modulus_least { pos 1 ≤ℤ modulus }
    requires modulus_greatest { nat_abs modulus ≤ 2 ^ 106 }
    requires p_kept { nat_abs p ≤ cap }
    requires q_kept { nat_abs q ≤ cap }
    requires left_kept { AreTerms 0 left.now }
    requires right_kept { AreTerms 0 right.now }
    ensures value { result ≡ pos (gcd (gcd (nat_abs modulus) (nat_abs constant)) (gcd_terms (reduce_by (nat_abs modulus) (sum_terms p left.now q right.now skip)))) }
    ensures least { pos 1 ≤ℤ result }
{
    let start = gcd_of(modulus.unsigned_abs(), constant.unsigned_abs());
    common_of_sum(start, modulus, p, left, q, right, skip) as i128
}
