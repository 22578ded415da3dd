//! The primitive form of a literal, and its negation.

ghost use Rattle.std.specs.Prelude.{◌≡◌, ◌≤◌, ◌^◌, ℕ, ℤ, pos, negsuc, ◌≤ℤ◌, ◌-ℤ◌, nat_abs, IfOk};
ghost use Rattle.lin_term.specs.Form.{AreTerms, IsRow, cap};
ghost use Rattle.lin_term.specs.Linear.{Form, Rat, Int, times, times_terms};
ghost use Rattle.lin_term.specs.Literal.{quotient_terms, quotient, divisor, whole_form, minus_one, prim, neg, IsPrimitive, modulus_of, residue_form};
ghost use Rattle.lin_term.specs.Wide.{Capped, form_numbers, lit_numbers};
ghost use Rattle.lin_term.specs.Primable.{IsPrimable};
ghost use Rattle.lin_term.specs.Settle.{CappedResidues};
ghost use Rattle.lin_term.specs.declared.lit.Lit.TheVariants.{AtLeast, Above, Divides, NotDivides};

use crate::fault::{Memory, Short, Wide};
use crate::lit::Lit;
use crate::numbers::{common_divisor, floor_of_words};
use crate::row::{CAP, Coefs, Row, Sort};
use crate::settle::{residue_row, row_with};
use smallvec::SmallVec;
use std::alloc::Global;

/// Divides each coefficient, rounded down.
pub(crate) fn divide_all(coefs: &mut [(u32, i64)], g: i64)
    requires kept { AreTerms 0 coefs.old }
    requires least { pos 1 ≤ℤ g }
    ensures { coefs.new ≡ quotient_terms coefs.old (nat_abs g) }
{
    for term in coefs.iter_mut() {
        term.1 = floor_of_words(term.1, g);
    }
}

/// All numbers divided by a divisor of the coefficients, the constant rounded down.
fn divided(coefs: Coefs, constant: i64, g: u64) -> Result<Row, Short<Wide>>
    requires kept { AreTerms 0 coefs.items }
    requires exact { AreTerms 0 (quotient_terms coefs.items g) }
    requires least { 1 ≤ g }
    requires greatest { g ≤ cap }
    ensures { Capped (form_numbers (quotient (record { terms = coefs.items; constant = constant }) g)) (quotient (record { terms = coefs.items; constant = constant }) g) result }
{
    let mut coefs = coefs;
    if g == 1 {
        return row_with(coefs, constant as i128);
    }
    let g = g as i64;
    divide_all(coefs.as_mut_slice(), g);
    row_with(coefs, floor_of_words(constant, g) as i128)
}

/// Divided by the greatest common divisor of all numbers.
fn divided_in_rat(row: Row) -> Result<Row, Short<Wide>>
    ensures { Capped (form_numbers (quotient row (divisor Rat row))) (quotient row (divisor Rat row)) result }
{
    let (coefs, constant) = row.into_parts();
    let g = common_divisor(constant.unsigned_abs(), coefs.as_slice());
    divided(coefs, constant, g.max(1))
}

/// Divided by the greatest common divisor of the coefficients, the constant rounded down.
fn divided_in_int(alloc: Global, coefs: Coefs, constant: i64) -> Result<Row, Short<Wide>>
    requires { AreTerms 0 coefs.items }
    ensures { Capped (form_numbers (whole_form (record { terms = coefs.items; constant = constant }))) (whole_form (record { terms = coefs.items; constant = constant })) result }
{
    if coefs.is_empty() {
        let sign = if constant < 0 { -1 } else { 0 };
        return Ok(Row::constant(alloc, sign));
    }
    let g = common_divisor(0, coefs.as_slice());
    divided(coefs, constant, g)
}

/// The primitive form. In Rat all numbers are divided by their greatest common divisor; in Int the coefficients
/// are, the constant is rounded down, `row > 0` is `row - 1 >= 0`, and a divisibility is reduced modulo its modulus.
/// The literal is an inequality, or in Int a divisibility with a modulus in `1..=CAP`. Wide names the first number of
/// that form past the cap, a modulus before the coefficients and these before the constant; where there is none, it
/// refuses only for memory.
pub fn primitive(alloc: Global, sort: Sort, lit: Lit) -> Result<Lit, Short<Wide>>
    requires { IsPrimable sort lit }
    ensures { Capped (lit_numbers (prim sort lit)) (prim sort lit) result }
{
    match sort {
        Sort::Rat => primitive_in_rat(lit),
        Sort::Int => primitive_in_int(alloc, lit),
    }
}

fn primitive_in_rat(lit: Lit) -> Result<Lit, Short<Wide>>
    requires { IsPrimable Rat lit }
    ensures { Capped (lit_numbers (prim Rat lit)) (prim Rat lit) result }
{
    match lit {
        Lit::AtLeast(row) => at_least(divided_in_rat(row)),
        Lit::Above(row) => above(divided_in_rat(row)),
        Lit::Divides(d, row) => Ok(Lit::Divides(d, row)),
        Lit::NotDivides(d, row) => Ok(Lit::NotDivides(d, row)),
    }
}

fn primitive_in_int(alloc: Global, lit: Lit) -> Result<Lit, Short<Wide>>
    requires { IsPrimable Int lit }
    ensures { Capped (lit_numbers (prim Int lit)) (prim Int lit) result }
{
    match lit {
        Lit::AtLeast(row) => at_least(whole(alloc, row)),
        Lit::Above(row) => at_least(whole_less_one(alloc, row)),
        Lit::Divides(d, row) => divides(reduced(alloc, d, &row)),
        Lit::NotDivides(d, row) => not_divides(reduced(alloc, d, &row)),
    }
}

/// The row of row >= 0 in Int.
fn whole(alloc: Global, row: Row) -> Result<Row, Short<Wide>>
    ensures { Capped (form_numbers (whole_form row)) (whole_form row) result }
{
    let (coefs, constant) = row.into_parts();
    divided_in_int(alloc, coefs, constant)
}

/// The row of row - 1 >= 0 in Int.
fn whole_less_one(alloc: Global, row: Row) -> Result<Row, Short<Wide>>
    ensures { Capped (form_numbers (whole_form (minus_one row))) (whole_form (minus_one row)) result }
{
    let (coefs, constant) = row.into_parts();
    divided_in_int(alloc, coefs, one_less(constant))
}

/// One less than a kept number.
fn one_less(z: i64) -> i64
    requires { nat_abs z ≤ cap }
    ensures value { result ≡ z -ℤ pos 1 }
    ensures size { nat_abs result ≤ 2 ^ 53 }
{
    z - 1
}

/// Modulus and row of a divisibility in primitive form.
fn reduced(alloc: Global, d: u64, row: &Row) -> Result<(u64, Row), Short<Wide>>
    requires least { 1 ≤ d }
    requires greatest { d ≤ cap }
    ensures { CappedResidues d row.now result }
{
    let none: &[(u32, i64)] = &[];
    residue_row(
        alloc,
        d as i128,
        1,
        row.coefs(),
        0,
        none,
        0,
        row.constant_part() as i128,
    )
}

/// row >= 0, where there is a row.
pub(crate) fn at_least(row: Result<Row, Short<Wide>>) -> Result<Lit, Short<Wide>>
    ensures { (f : Form) → Capped (form_numbers f) f row → Capped (lit_numbers (AtLeast f)) (AtLeast f) result }
{
    match row {
        Ok(row) => Ok(Lit::AtLeast(row)),
        Err(fault) => Err(fault),
    }
}

/// row > 0, where there is a row.
pub(crate) fn above(row: Result<Row, Short<Wide>>) -> Result<Lit, Short<Wide>>
    ensures { (f : Form) → Capped (form_numbers f) f row → Capped (lit_numbers (Above f)) (Above f) result }
{
    match row {
        Ok(row) => Ok(Lit::Above(row)),
        Err(fault) => Err(fault),
    }
}

/// The divisibility, where there is a row.
pub(crate) fn divides(parts: Result<(u64, Row), Short<Wide>>) -> Result<Lit, Short<Wide>>
    ensures { (d : ℕ) (f : Form) → CappedResidues d f parts → Capped (lit_numbers (Divides (modulus_of d f) (residue_form d f))) (Divides (modulus_of d f) (residue_form d f)) result }
{
    match parts {
        Ok((d, row)) => Ok(Lit::Divides(d, row)),
        Err(fault) => Err(fault),
    }
}

/// The negated divisibility, where there is a row.
pub(crate) fn not_divides(parts: Result<(u64, Row), Short<Wide>>) -> Result<Lit, Short<Wide>>
    ensures { (d : ℕ) (f : Form) → CappedResidues d f parts → Capped (lit_numbers (NotDivides (modulus_of d f) (residue_form d f))) (NotDivides (modulus_of d f) (residue_form d f)) result }
{
    match parts {
        Ok((d, row)) => Ok(Lit::NotDivides(d, row)),
        Err(fault) => Err(fault),
    }
}

/// The negation of a primitive literal, in primitive form; its modulus may be past the cap. Wide names the first number
/// of the result past the cap, as in `primitive`; where there is none, it refuses only for memory.
pub fn negate(alloc: Global, sort: Sort, lit: &Lit) -> Result<Lit, Short<Wide>>
    requires { IsPrimitive sort lit.now }
    ensures { Capped (lit_numbers (neg sort lit.now)) (neg sort lit.now) result }
{
    match lit {
        Lit::AtLeast(row) => negate_at_least(alloc, sort, row),
        Lit::Above(row) => negate_above(alloc, sort, row),
        Lit::Divides(d, row) => not_divides(kept_residues(alloc, *d, row)),
        Lit::NotDivides(d, row) => divides(kept_residues(alloc, *d, row)),
    }
}

/// Not row >= 0: -row > 0, which is -row - 1 >= 0 in Int.
fn negate_at_least(alloc: Global, sort: Sort, row: &Row) -> Result<Lit, Short<Wide>>
    ensures { Capped (lit_numbers (neg sort (AtLeast row.now))) (neg sort (AtLeast row.now)) result }
{
    let row = negated(alloc, row)?;
    primitive(alloc, sort, Lit::Above(row))
}

/// Not row > 0: -row >= 0.
fn negate_above(alloc: Global, sort: Sort, row: &Row) -> Result<Lit, Short<Wide>>
    ensures { Capped (lit_numbers (neg sort (Above row.now))) (neg sort (Above row.now)) result }
{
    let row = negated(alloc, row)?;
    primitive(alloc, sort, Lit::AtLeast(row))
}

/// Modulus and row of a divisibility that is in primitive form, but for a modulus past the cap.
fn kept_residues(alloc: Global, d: u64, row: &Row) -> Result<(u64, Row), Short<Wide>>
    requires least { 1 ≤ d }
    requires modulus { modulus_of d row.now ≡ d }
    ensures { CappedResidues d row.now result }
{
    if d > CAP as u64 {
        return Err(Short::Fault(Wide { number: d as i128 }));
    }
    reduced(alloc, d, row)
}

/// The negated row.
pub(crate) fn negated(alloc: Global, row: &Row) -> Result<Row, Memory>
    ensures { IfOk result (λ r. r ≡ times (negsuc 0) row.now) }
{
    let coefs = negated_coefs(alloc, row.coefs())?;
    Ok(Row::from_parts(coefs, -row.constant_part()))
}

/// The negated coefficients.
fn negated_coefs(alloc: Global, coefs: &[(u32, i64)]) -> Result<Coefs, Memory>
    requires { AreTerms 0 coefs.now }
    ensures { IfOk result (λ v. v.items ≡ times_terms (negsuc 0) coefs.now) }
{
    let mut negated = SmallVec::from_slice(alloc, coefs)?;
    negate_all(negated.as_mut_slice());
    Ok(negated)
}

/// Negates each coefficient.
fn negate_all(coefs: &mut [(u32, i64)])
    requires { AreTerms 0 coefs.old }
    ensures { coefs.new ≡ times_terms (negsuc 0) coefs.old }
{
    for term in coefs.iter_mut() {
        term.1 = -term.1;
    }
}
