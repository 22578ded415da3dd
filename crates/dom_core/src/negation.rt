//! Negated matrices: each literal negated, And and Or exchanged.

ghost use Rattle.std.specs.Prelude.{◌≡◌, None, IfOk};
ghost use Rattle.lin_term.specs.Form.{IsRow};
ghost use Rattle.lin_term.specs.Literal.{IsPrimitive, neg, form_of};
ghost use Rattle.lin_term.specs.Wide.{first_past, lit_numbers};
ghost use Rattle.dom_core.specs.Game.{neg_matrix, neg_matrices};
ghost use Rattle.dom_core.specs.View.{matrix_of, matrices_of};
ghost use Rattle.dom_core.specs.Negation.{IsPrimitiveMatrix, ArePrimitiveMatrices, negation_numbers, negations_numbers, HasRows, HaveRows};

use crate::matrix::Matrix;
use lin_term::{Lit, Memory, Short, Sort, negate};
use sqlite_items::Items;
use std::alloc::Global;

/// The first number past the cap of a literal's negation.
fn wide_literal(alloc: Global, sort: Sort, lit: &Lit) -> Result<Option<i128>, Memory>
    requires { IsPrimitive sort lit.now }
    ensures { IfOk result (λ o. o ≡ first_past (lit_numbers (neg sort lit.now))) }
{
    match negate(alloc, sort, lit) {
        Ok(_) => Ok(None),
        Err(Short::Fault(wide)) => Ok(Some(wide.number)),
        Err(Short::Memory) => Err(Memory),
    }
}

/// The first number past the cap of the negations of primitive literals, from left to right; None exactly where there
/// is none. Refuses only for memory.
#[cycle(wide)]
pub fn wide_negation(alloc: Global, sort: Sort, matrix: &Matrix) -> Result<Option<i128>, Memory>
    requires primitive { IsPrimitiveMatrix (matrix_of matrix.now) sort }
    ensures { IfOk result (λ o. o ≡ first_past (negation_numbers (matrix_of matrix.now) sort)) }
{
    match matrix {
        Matrix::Lit(lit) => wide_literal(alloc, sort, lit),
        Matrix::And(parts) => wide_part(alloc, sort, parts.as_slice()),
        Matrix::Or(parts) => wide_part(alloc, sort, parts.as_slice()),
    }
}

/// The same of the parts, one after the other.
#[cycle(wide)]
fn wide_part(alloc: Global, sort: Sort, parts: &[Matrix]) -> Result<Option<i128>, Memory>
    requires primitive { ArePrimitiveMatrices (matrices_of parts.now) sort }
    ensures { IfOk result (λ o. o ≡ first_past (negations_numbers (matrices_of parts.now) sort)) }
{
    for part in parts {
        let wide = wide_negation(alloc, sort, part)?;
        if wide.is_some() {
            return Ok(wide);
        }
    }
    Ok(None)
}

/// The negation of a literal, which is within the cap; refuses only for memory.
fn negated_literal(alloc: Global, sort: Sort, lit: &Lit) -> Result<Lit, Memory>
    requires primitive { IsPrimitive sort lit.now }
    requires within { first_past (lit_numbers (neg sort lit.now)) ≡ None }
    ensures value { IfOk result (λ l. l ≡ neg sort lit.now) }
    ensures row { IfOk result (λ l. IsRow (form_of lit.now)) }
{
    // What is read of a row says that it is within the cap.
    let row = lit.row();
    let _terms = row.coefs();
    let _constant = row.constant_part();
    match negate(alloc, sort, lit) {
        Ok(negation) => Ok(negation),
        Err(Short::Memory) => Err(Memory),
        Err(Short::Fault(_)) => unreachable!(),
    }
}

/// The negation of a matrix of primitive literals whose negations are within the cap; refuses only for memory.
#[cycle(negation)]
pub fn negated(alloc: Global, sort: Sort, matrix: &Matrix) -> Result<Matrix, Memory>
    requires primitive { IsPrimitiveMatrix (matrix_of matrix.now) sort }
    requires within { first_past (negation_numbers (matrix_of matrix.now) sort) ≡ None }
    ensures value { IfOk result (λ m. matrix_of m ≡ neg_matrix (matrix_of matrix.now) sort) }
    ensures rows { IfOk result (λ m. HasRows (matrix_of matrix.now)) }
{
    match matrix {
        Matrix::Lit(lit) => Ok(Matrix::Lit(negated_literal(alloc, sort, lit)?)),
        Matrix::And(parts) => Ok(Matrix::Or(negated_parts(alloc, sort, parts.as_slice())?)),
        Matrix::Or(parts) => Ok(Matrix::And(negated_parts(alloc, sort, parts.as_slice())?)),
    }
}

/// The same of the parts, in order.
#[cycle(negation)]
fn negated_parts(alloc: Global, sort: Sort, parts: &[Matrix]) -> Result<Items<Matrix>, Memory>
    requires primitive { ArePrimitiveMatrices (matrices_of parts.now) sort }
    requires within { first_past (negations_numbers (matrices_of parts.now) sort) ≡ None }
    ensures value { IfOk result (λ ms. matrices_of ms ≡ neg_matrices (matrices_of parts.now) sort) }
    ensures rows { IfOk result (λ ms. HaveRows (matrices_of parts.now)) }
{
    let mut negations = Items::new(alloc);
    for part in parts {
        let negation = negated(alloc, sort, part)?;
        negations.push(negation)?;
    }
    Ok(negations)
}
