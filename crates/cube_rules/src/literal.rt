//! Tests of a literal.

ghost use Rattle.std.specs.Prelude.{◌≡◌, None, true, is_none, nat_lt, IfOk};
ghost use Rattle.std.specs.List.{list_all};
ghost use Rattle.lin_term.specs.Literal.{form_of, prim};
ghost use Rattle.lin_term.specs.Primable.{IsPrimable};
ghost use Rattle.lin_term.specs.Truth.{truth_of};
ghost use Rattle.lin_term.specs.Wide.{first_past, lit_numbers, form_numbers};
ghost use Rattle.cube_rules.specs.Facts.{is_inequality, is_of, is_primitive, all_below};
ghost use Rattle.cube_rules.specs.Lines.{is_false};

use lin_term::{CAP, Lit, Memory, Row, Short, Sort, closed_truth, primitive};
use std::alloc::Global;

/// Whether the literal is an inequality, and no divisibility.
pub fn is_inequality_literal(lit: &Lit) -> bool
    ensures { result ≡ is_inequality lit.now }
{
    match lit {
        Lit::AtLeast(_) | Lit::Above(_) => true,
        Lit::Divides(_, _) | Lit::NotDivides(_, _) => false,
    }
}

/// Whether the literal has no variable and is false.
pub fn is_false_literal(lit: &Lit) -> bool
    ensures { result ≡ is_false (truth_of lit.now) }
{
    match closed_truth(lit) {
        Some(holds) => !holds,
        None => false,
    }
}

/// Whether the literal's numbers are within the cap of 2^52 in size. Those of a row always are, so the modulus decides.
pub fn literal_within(lit: &Lit) -> bool
    ensures { result ≡ is_none (first_past (lit_numbers lit.now)) }
{
    match lit {
        Lit::AtLeast(row) | Lit::Above(row) => row_within(row),
        Lit::Divides(d, row) | Lit::NotDivides(d, row) => *d <= CAP as u64 && row_within(row),
    }
}

/// A row's numbers are within the cap.
fn row_within(row: &Row) -> bool
    ensures yes { result ≡ true }
    ensures kept { first_past (form_numbers row.now) ≡ None }
{
    let _ = row.coefs();
    let _ = row.constant_part();
    true
}

/// Whether the literal's variables are below n.
pub(crate) fn has_variables_below(lit: &Lit, n: u32) -> bool
    ensures { result ≡ all_below n (form_of lit.now).terms }
{
    is_below(lit.row().coefs(), n)
}

/// Whether the variables of the terms are below n.
fn is_below(terms: &[(u32, i64)], n: u32) -> bool
    ensures { result ≡ list_all (λ t. nat_lt t.0 n) terms.now }
{
    terms.iter().all(|t| t.0 < n)
}

/// Whether the literal is one of the sort: a strict inequality in Rat alone, a divisibility in Int alone and with a
/// modulus of 1 or more.
fn is_of_sort(sort: Sort, lit: &Lit) -> bool
    ensures { result ≡ is_of sort lit.now }
{
    match sort {
        Sort::Rat => match lit {
            Lit::AtLeast(_) | Lit::Above(_) => true,
            Lit::Divides(_, _) | Lit::NotDivides(_, _) => false,
        },
        Sort::Int => match lit {
            Lit::AtLeast(_) => true,
            Lit::Above(_) => false,
            Lit::Divides(d, _) | Lit::NotDivides(d, _) => *d >= 1,
        },
    }
}

/// Whether the literal is of the sort and its own primitive form; its numbers are within the cap. It refuses only for
/// memory.
pub fn is_primitive_literal(alloc: Global, sort: Sort, lit: &Lit) -> Result<bool, Memory>
    requires kept { first_past (lit_numbers lit.now) ≡ None }
    ensures { IfOk result (λ b. b ≡ is_primitive sort lit.now) }
{
    if !is_of_sort(sort, lit) {
        return Ok(false);
    }
    match primitive(alloc, sort, lit.copy(alloc)?) {
        Ok(form) => Ok(form.is_same(lit)),
        Err(Short::Fault(_)) => Ok(false),
        Err(Short::Memory) => Err(Memory),
    }
}
