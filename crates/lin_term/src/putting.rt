//! A term over a divisor, put in for a variable. Its constant need not be within the cap.

ghost use Rattle.std.specs.Prelude.{◌≡◌, ◌<◌, ◌≤◌, ◌^◌, ◌+◌, ◌*◌, ◌+ℤ◌, ◌*ℤ◌, ◌-ℤ◌, ◌≤ℤ◌, ◌≢◌, pos, nat_abs};
ghost use Rattle.lin_term.specs.Form.{AreTerms, cap};
ghost use Rattle.lin_term.specs.Linear.{Int};
ghost use Rattle.lin_term.specs.Literal.{IsPrimitive, prim, form_of, Divides};
ghost use Rattle.lin_term.specs.Primable.{IsPrimable};
ghost use Rattle.lin_term.specs.PutIn.{coef, put_raw, put_lit, substituted};
ghost use Rattle.lin_term.specs.PutWith.{put_with};
ghost use Rattle.lin_term.specs.Settle.{sum_form, settled, CappedResidues};
ghost use Rattle.lin_term.specs.Wide.{Capped, form_numbers, lit_numbers};

use crate::blend::product;
use crate::coefficient::coefficient_at;
use crate::fault::{Short, Wide};
use crate::lit::Lit;
use crate::moves::Move;
use crate::primitive_form::{above, at_least, divides, not_divides};
use crate::row::{Row, Sort};
use crate::settle::{divisor_of_sum, inequality_row, residue_row};
use std::alloc::Global;

/// The row of a sum as an inequality in primitive form.
pub(crate) fn sum_row(
    alloc: Global,
    sort: Sort,
    p: i64,
    left: &[(u32, i64)],
    q: i64,
    right: &[(u32, i64)],
    skip: u32,
    constant: i128,
) -> Result<Row, Short<Wide>>
    requires p_kept { nat_abs p ≤ cap }
    requires q_kept { nat_abs q ≤ cap }
    requires left_kept { AreTerms 0 left.now }
    requires right_kept { AreTerms 0 right.now }
    requires constant_size { nat_abs constant ≤ 2 ^ 106 }
    ensures { Capped (form_numbers (settled sort (sum_form p left.now q right.now skip constant))) (settled sort (sum_form p left.now q right.now skip constant)) result }
{
    let g = divisor_of_sum(sort, p, left, q, right, skip, constant);
    inequality_row(alloc, sort, g as i128, p, left, q, right, skip, constant)
}

/// The product of a kept number and one of twice that size.
fn wide_product(c: i64, t: i128) -> i128
    requires c_kept { nat_abs c ≤ cap }
    requires t_size { nat_abs t ≤ 2 ^ 53 }
    ensures value { result ≡ c *ℤ t }
    ensures size { nat_abs result ≤ 2 ^ 105 }
{
    c as i128 * t
}

/// The constant of c*t + a*r.
fn put_constant(c: i64, t: i128, a: i64, r: i64) -> i128
    requires c_kept { nat_abs c ≤ cap }
    requires t_size { nat_abs t ≤ 2 ^ 53 }
    requires a_kept { nat_abs a ≤ cap }
    requires r_kept { nat_abs r ≤ cap }
    ensures value { result ≡ c *ℤ t +ℤ a *ℤ r }
    ensures size { nat_abs result ≤ 2 ^ 106 }
{
    let left = wide_product(c, t);
    let right = product(a, r);
    left + right
}

/// The row of an inequality with (terms + constant)/a put in, in primitive form.
fn put_row(
    alloc: Global,
    sort: Sort,
    row: &Row,
    var: u32,
    c: i64,
    terms: &[(u32, i64)],
    constant: i128,
    a: i64,
) -> Result<Row, Short<Wide>>
    requires c_kept { nat_abs c ≤ cap }
    requires terms_kept { AreTerms 0 terms.now }
    requires constant_size { nat_abs constant ≤ 2 ^ 53 }
    requires a_kept { nat_abs a ≤ cap }
    ensures { let f = put_with row.now var c a (record { terms = terms.now; constant = constant }) in Capped (form_numbers (settled sort f)) (settled sort f) result }
{
    let constant = put_constant(c, constant, a, row.constant_part());
    sum_row(alloc, sort, c, terms, a, row.coefs(), var, constant)
}

/// The modulus of a divisibility times the divisor of what is put in.
fn put_modulus(a: i64, d: u64) -> i128
    requires a_least { pos 1 ≤ℤ a }
    requires a_kept { nat_abs a ≤ cap }
    requires d_least { 1 ≤ d }
    requires d_kept { d ≤ cap }
    ensures value { result ≡ a *ℤ pos d }
    ensures size { nat_abs result ≤ 2 ^ 104 }
{
    product(a, d as i64)
}

/// Modulus and row of the divisibility of the row with (terms + constant)/a put in.
fn put_residues(
    alloc: Global,
    d: u64,
    row: &Row,
    var: u32,
    c: i64,
    terms: &[(u32, i64)],
    constant: i128,
    a: i64,
) -> Result<(u64, Row), Short<Wide>>
    requires d_least { 1 ≤ d }
    requires d_kept { d ≤ cap }
    requires c_kept { nat_abs c ≤ cap }
    requires terms_kept { AreTerms 0 terms.now }
    requires constant_size { nat_abs constant ≤ 2 ^ 53 }
    requires a_least { pos 1 ≤ℤ a }
    requires a_kept { nat_abs a ≤ cap }
    ensures { CappedResidues (nat_abs a * d) (put_with row.now var c a (record { terms = terms.now; constant = constant })) result }
{
    let constant = put_constant(c, constant, a, row.constant_part());
    let modulus = put_modulus(a, d);
    residue_row(alloc, modulus, c, terms, a, row.coefs(), var, constant)
}

/// The literal with (terms + constant)/a put in for the variable, whose coefficient is c, in primitive form.
fn put_there(
    alloc: Global,
    sort: Sort,
    lit: &Lit,
    var: u32,
    c: i64,
    terms: &[(u32, i64)],
    constant: i128,
    a: i64,
) -> Result<Lit, Short<Wide>>
    requires primitive { IsPrimitive sort lit.now }
    requires primable { IsPrimable sort lit.now }
    requires c_is { c ≡ coef (form_of lit.now).terms var }
    requires c_kept { nat_abs c ≤ cap }
    requires terms_kept { AreTerms 0 terms.now }
    requires constant_size { nat_abs constant ≤ 2 ^ 53 }
    requires a_least { pos 1 ≤ℤ a }
    requires a_kept { nat_abs a ≤ cap }
    ensures { let l = prim sort (put_raw var (nat_abs a) (record { terms = terms.now; constant = constant }) lit.now) in Capped (lit_numbers l) l result }
{
    match lit {
        Lit::AtLeast(row) => at_least(put_row(alloc, sort, row, var, c, terms, constant, a)),
        Lit::Above(row) => above(put_row(alloc, sort, row, var, c, terms, constant, a)),
        Lit::Divides(d, row) => divides(put_residues(alloc, *d, row, var, c, terms, constant, a)),
        Lit::NotDivides(d, row) => not_divides(put_residues(
            alloc, *d, row, var, c, terms, constant, a,
        )),
    }
}

/// The literal with (terms + constant)/a put in for the variable, in primitive form; a literal without the variable
/// stays as it is. The literal is primitive, its modulus and a in `1..=CAP`; the terms are as those of a row, the
/// constant is at most 2^53 in size. Wide names the first number of the result past the cap; where there is none, it
/// refuses only for memory.
pub fn put_in(
    alloc: Global,
    sort: Sort,
    lit: &Lit,
    var: u32,
    terms: &[(u32, i64)],
    constant: i128,
    a: i64,
) -> Result<Lit, Short<Wide>>
    requires primitive { IsPrimitive sort lit.now }
    requires primable { IsPrimable sort lit.now }
    requires terms_kept { AreTerms 0 terms.now }
    requires constant_size { nat_abs constant ≤ 2 ^ 53 }
    requires a_least { pos 1 ≤ℤ a }
    requires a_kept { nat_abs a ≤ cap }
    ensures { let l = put_lit sort var (nat_abs a) (record { terms = terms.now; constant = constant }) lit.now in Capped (lit_numbers l) l result }
{
    let row = lit.row();
    let _terms = row.coefs();
    let c = coefficient_at(row, var);
    if c == 0 {
        return copied(alloc, sort, lit);
    }
    put_there(alloc, sort, lit, var, c, terms, constant, a)
}

/// The literal with (term - residue)/div put in for the variable, in primitive form; a literal without the variable
/// stays as it is. The literal is primitive, its modulus in `1..=CAP`; the residue is below the term's divisor. Wide
/// names the first number of the result past the cap; where there is none, it refuses only for memory.
pub fn substitute(
    alloc: Global,
    sort: Sort,
    lit: &Lit,
    var: u32,
    term: &Move,
    residue: u64,
) -> Result<Lit, Short<Wide>>
    requires primitive { IsPrimitive sort lit.now }
    requires primable { IsPrimable sort lit.now }
    requires residue_less { residue < term.now.div }
    ensures { let l = substituted sort lit.now var term.now residue in Capped (lit_numbers l) l result }
{
    let row = term.row();
    let div = term.div();
    let constant = less(row.constant_part(), residue);
    put_in(alloc, sort, lit, var, row.coefs(), constant, div)
}

/// A constant less a residue.
fn less(constant: i64, residue: u64) -> i128
    requires constant_kept { nat_abs constant ≤ cap }
    requires residue_kept { residue ≤ cap }
    ensures value { result ≡ constant -ℤ pos residue }
    ensures size { nat_abs result ≤ 2 ^ 53 }
{
    constant as i128 - residue as i128
}

/// An equal literal.
fn copied(alloc: Global, sort: Sort, lit: &Lit) -> Result<Lit, Short<Wide>>
    requires { IsPrimable sort lit.now }
    ensures { Capped (lit_numbers lit.now) lit.now result }
{
    let row = lit.row();
    let _terms = row.coefs();
    let _constant = row.constant_part();
    match lit.copy(alloc) {
        Ok(copy) => Ok(copy),
        Err(_) => Err(Short::Memory),
    }
}

/// That a divides terms + constant, in primitive form over the integers; a is in `1..=CAP`, the terms are as those of a
/// row, the constant is at most 2^53 in size. It refuses as `put_in` does.
pub fn divides_in(
    alloc: Global,
    terms: &[(u32, i64)],
    constant: i128,
    a: i64,
) -> Result<Lit, Short<Wide>>
    requires terms_kept { AreTerms 0 terms.now }
    requires constant_size { nat_abs constant ≤ 2 ^ 53 }
    requires a_least { pos 1 ≤ℤ a }
    requires a_kept { nat_abs a ≤ cap }
    ensures { Capped (lit_numbers (prim Int (Divides (nat_abs a) (record { terms = terms.now; constant = constant })))) (prim Int (Divides (nat_abs a) (record { terms = terms.now; constant = constant }))) result }
{
    let none: &[(u32, i64)] = &[];
    divides(residue_row(alloc, a as i128, 1, terms, 0, none, 0, constant))
}
