//! Whether a point solves a losing system. It takes no memory but for the nodes of a path and one literal at a time.

ghost use Rattle.std.specs.Prelude.{◌≡◌, ◌≤◌, ◌^◌, ◌↔◌, None, IsTrue, IfOk, length};
ghost use Rattle.lin_term.specs.declared.Sort.{Sort};
ghost use Rattle.lin_term.specs.Linear.{Below, IsPoint};
ghost use Rattle.lin_term.specs.Literal.{Holds, IsPrimitive, neg, form_of, rename_lit};
ghost use Rattle.lin_term.specs.Rising.{IsRising};
ghost use Rattle.lin_term.specs.Wide.{first_past, lit_numbers};
ghost use Rattle.dom_core.specs.Game.{IsMatrix, AreMatrices, HoldsIn, AllHold, AllFail, neg_matrix, neg_matrices, rename_matrix, rename_matrices};
ghost use Rattle.dom_core.specs.Problem.{HasNegations, HaveNegations};
ghost use Rattle.dom_core.specs.View.{matrix_of, matrices_of};

use crate::literal::negated;
use dom_core::Matrix;
use lin_term::{Lit, Memory, Point, Sort, literal_holds};
use std::alloc::Global;

/// Whether the point is one of the sort: over the integers its denominator is 1.
pub fn is_point(sort: Sort, point: &Point) -> bool
    ensures { IsTrue result ↔ IsPoint sort point.now }
{
    let den = point.den();
    match sort {
        Sort::Rat => true,
        Sort::Int => den == 1,
    }
}

/// Whether the negation of a literal holds at the point, with `names[i]` for variable i.
fn is_false(
    alloc: Global,
    sort: Sort,
    lit: &Lit,
    names: &[u32],
    point: &Point,
) -> Result<bool, Memory>
    requires rising { IsRising names.now (length point.now.nums) }
    requires few { length point.now.nums ≤ 2 ^ 20 }
    requires below { Below (length names.now) (form_of lit.now) }
    requires primitive { IsPrimitive sort lit.now }
    requires within { first_past (lit_numbers (neg sort lit.now)) ≡ None }
    ensures { IfOk result (λ b. IsTrue b ↔ Holds (rename_lit names.now (neg sort lit.now)) point.now) }
{
    let negation = negated(alloc, sort, lit, names)?;
    Ok(literal_holds(&negation, point))
}

/// Whether the negation of a matrix holds at the point, with `names[i]` for variable i. Each literal is primitive and its
/// negation within the cap; the names ascend, each has a value, and the variables are below their count. It calls itself
/// once a level of the matrix, and refuses only for memory.
#[cycle(loses)]
pub fn loses(
    alloc: Global,
    sort: Sort,
    matrix: &Matrix,
    names: &[u32],
    point: &Point,
) -> Result<bool, Memory>
    requires rising { IsRising names.now (length point.now.nums) }
    requires few { length point.now.nums ≤ 2 ^ 20 }
    requires below { IsMatrix (matrix_of matrix.now) sort (length names.now) }
    requires negations { HasNegations (matrix_of matrix.now) sort }
    ensures { IfOk result (λ b. IsTrue b ↔ HoldsIn (rename_matrix (neg_matrix (matrix_of matrix.now) sort) names.now) point.now) }
{
    match matrix {
        Matrix::Lit(lit) => is_false(alloc, sort, lit, names, point),
        Matrix::And(parts) => some_loses(alloc, sort, parts.as_slice(), names, point),
        Matrix::Or(parts) => all_lose(alloc, sort, parts.as_slice(), names, point),
    }
}

/// Whether one of the parts loses.
#[cycle(loses)]
fn some_loses(
    alloc: Global,
    sort: Sort,
    parts: &[Matrix],
    names: &[u32],
    point: &Point,
) -> Result<bool, Memory>
    requires rising { IsRising names.now (length point.now.nums) }
    requires few { length point.now.nums ≤ 2 ^ 20 }
    requires below { AreMatrices (matrices_of parts.now) sort (length names.now) }
    requires negations { HaveNegations (matrices_of parts.now) sort }
    ensures { IfOk result (λ b. IsTrue b ↔ ¬ AllFail (rename_matrices (neg_matrices (matrices_of parts.now) sort) names.now) point.now) }
{
    for part in parts {
        let one = loses(alloc, sort, part, names, point)?;
        if one {
            return Ok(true);
        }
    }
    Ok(false)
}

/// Whether all of the parts lose.
#[cycle(loses)]
fn all_lose(
    alloc: Global,
    sort: Sort,
    parts: &[Matrix],
    names: &[u32],
    point: &Point,
) -> Result<bool, Memory>
    requires rising { IsRising names.now (length point.now.nums) }
    requires few { length point.now.nums ≤ 2 ^ 20 }
    requires below { AreMatrices (matrices_of parts.now) sort (length names.now) }
    requires negations { HaveNegations (matrices_of parts.now) sort }
    ensures { IfOk result (λ b. IsTrue b ↔ AllHold (rename_matrices (neg_matrices (matrices_of parts.now) sort) names.now) point.now) }
{
    for part in parts {
        let one = loses(alloc, sort, part, names, point)?;
        if !one {
            return Ok(false);
        }
    }
    Ok(true)
}
