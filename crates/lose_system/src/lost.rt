//! The matrix on a path: negated, with the path's nodes for its variables.

ghost use Rattle.std.specs.Prelude.{◌≡◌, ◌^◌, IfOk, length};
ghost use Rattle.lin_term.specs.Rising.{IsRising};
ghost use Rattle.dom_core.specs.Game.{IsMatrix, AreMatrices, neg_matrix, neg_matrices, rename_matrix, rename_matrices};
ghost use Rattle.dom_core.specs.Problem.{HasNegations, HaveNegations};
ghost use Rattle.dom_core.specs.View.{matrix_of, matrices_of};

use crate::literal::negated;
use dom_core::Matrix;
use lin_term::{Memory, Sort};
use sqlite_items::Items;
use std::alloc::Global;

/// The negation of a matrix, with `names[i]` for variable i. Each literal is primitive and its negation within the cap;
/// the names ascend and are below 2^20, and the variables are below their count. It calls itself once a level of the
/// matrix, and refuses only for memory.
#[cycle(lost)]
pub fn lost_matrix(
    alloc: Global,
    sort: Sort,
    matrix: &Matrix,
    names: &[u32],
) -> Result<Matrix, Memory>
    requires rising { IsRising names.now (2 ^ 20) }
    requires below { IsMatrix (matrix_of matrix.now) sort (length names.now) }
    requires negations { HasNegations (matrix_of matrix.now) sort }
    ensures { IfOk result (λ m. matrix_of m ≡ rename_matrix (neg_matrix (matrix_of matrix.now) sort) names.now) }
{
    match matrix {
        Matrix::Lit(lit) => Ok(Matrix::Lit(negated(alloc, sort, lit, names)?)),
        Matrix::And(parts) => Ok(Matrix::Or(lost_parts(alloc, sort, parts.as_slice(), names)?)),
        Matrix::Or(parts) => Ok(Matrix::And(lost_parts(alloc, sort, parts.as_slice(), names)?)),
    }
}

/// The same of the parts, in order.
#[cycle(lost)]
fn lost_parts(
    alloc: Global,
    sort: Sort,
    parts: &[Matrix],
    names: &[u32],
) -> Result<Items<Matrix>, Memory>
    requires rising { IsRising names.now (2 ^ 20) }
    requires below { AreMatrices (matrices_of parts.now) sort (length names.now) }
    requires negations { HaveNegations (matrices_of parts.now) sort }
    ensures { IfOk result (λ ms. matrices_of ms ≡ rename_matrices (neg_matrices (matrices_of parts.now) sort) names.now) }
{
    let mut all = Items::new(alloc);
    for part in parts {
        let one = lost_matrix(alloc, sort, part, names)?;
        all.push(one)?;
    }
    Ok(all)
}
