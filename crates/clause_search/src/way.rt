//! Whether there is a way through what is left: a disjunction without children has none.

ghost use Rattle.std.specs.Prelude.{IsTrue};
ghost use Rattle.std.specs.List.{AllByRecursion};
ghost use Rattle.dom_core.specs.View.{matrix_of, matrices_of};
ghost use Rattle.clause_search.specs.Passing.{HasWay, AllHave, SomeHave};

use crate::goal::Part;
use dom_core::Matrix;

/// Whether the negation of a matrix has a way. It calls itself once a level of the matrix.
#[cycle(has_way)]
pub fn has_way(matrix: &Matrix) -> bool
    ensures { IsTrue result → HasWay (matrix_of matrix.now) }
{
    match matrix {
        Matrix::Lit(_) => true,
        Matrix::And(parts) => one_has(parts.as_slice()),
        Matrix::Or(parts) => all_have(parts.as_slice()),
    }
}

/// Whether one of the parts has a way.
#[cycle(has_way)]
fn one_has(parts: &[Matrix]) -> bool
    ensures { IsTrue result → SomeHave (matrices_of parts.now) }
{
    for part in parts {
        if has_way(part) {
            return true;
        }
    }
    false
}

/// Whether each of the parts has a way.
#[cycle(has_way)]
fn all_have(parts: &[Matrix]) -> bool
    ensures { IsTrue result → AllHave (matrices_of parts.now) }
{
    for part in parts {
        if !has_way(part) {
            return false;
        }
    }
    true
}

/// Whether each of these parts has a way.
pub fn parts_have(parts: &[Part<'_>]) -> bool
    ensures { IsTrue result → AllByRecursion (λ x. HasWay (matrix_of x.matrix.now)) parts.now }
{
    for part in parts {
        if !has_way(part.matrix) {
            return false;
        }
    }
    true
}
