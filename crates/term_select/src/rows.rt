//! The rows of a matrix.

ghost use Rattle.dom_core.specs.Game.{lit as lit_of};
ghost use Rattle.dom_core.specs.Negation.{HasRows, HaveRows};
ghost use Rattle.dom_core.specs.View.{matrix_of, matrices_of};

use dom_core::Matrix;
use lin_term::Lit;

/// What is read of a literal's row says that it is one.
fn read_literal(lit: &Lit)
    ensures { HasRows (lit_of lit.now) }
{
    let row = lit.row();
    let _terms = row.coefs();
    let _constant = row.constant_part();
}

/// The same of all literals of a matrix. It calls itself once a level of the matrix.
#[cycle(read)]
pub fn read_rows(matrix: &Matrix)
    ensures { HasRows (matrix_of matrix.now) }
{
    match matrix {
        Matrix::Lit(lit) => read_literal(lit),
        Matrix::And(parts) => read_parts(parts.as_slice()),
        Matrix::Or(parts) => read_parts(parts.as_slice()),
    }
}

/// The same of the parts.
#[cycle(read)]
fn read_parts(parts: &[Matrix])
    ensures { HaveRows (matrices_of parts.now) }
{
    for part in parts {
        read_rows(part);
    }
}
