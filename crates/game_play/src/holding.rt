//! Whether the matrix holds at the values of all variables.

ghost use Rattle.std.specs.Prelude.{◌≡◌, length};
ghost use Rattle.lin_term.specs.Linear.{Below};
ghost use Rattle.lin_term.specs.Literal.{form_of};
ghost use Rattle.lin_term.specs.Wide.{CappedWide};
ghost use Rattle.dom_core.specs.Game.{lit as lit_of};
ghost use Rattle.dom_core.specs.View.{matrix_of, matrices_of};
ghost use Rattle.game_play.specs.Course.{IsOver, AreOver, is_multiple as is_multiple_of, literal_truth, tested, all_tested, some_tested};

use crate::worth::row_value;
use dom_core::Matrix;
use lin_term::{Fraction, Lit, Wide};

/// Whether the value is a whole multiple of d; where d is 0, whether it is 0.
fn is_multiple(value: Fraction, d: u64) -> bool
    ensures { result ≡ is_multiple_of value d }
{
    let num = value.num();
    if d == 0 {
        num == 0
    } else {
        num.unsigned_abs() as u128 % (d as u128 * value.den() as u128) == 0
    }
}

/// Whether the literal is true where its row has this value.
fn is_true(lit: &Lit, value: Fraction) -> bool
    ensures { result ≡ literal_truth lit.now value }
{
    match lit {
        Lit::AtLeast(_) => value.num() >= 0,
        Lit::Above(_) => value.num() > 0,
        Lit::Divides(d, _) => is_multiple(value, *d),
        Lit::NotDivides(d, _) => !is_multiple(value, *d),
    }
}

/// Whether the literal holds at the values.
fn literal_holds(lit: &Lit, values: &[Fraction]) -> Result<bool, Wide>
    requires { Below (length values.now) (form_of lit.now) }
    ensures { let c = tested (lit_of lit.now) values.now in CappedWide c.numbers c.wins result }
{
    match row_value(lit.row(), values) {
        Ok(value) => Ok(is_true(lit, value)),
        Err(wide) => Err(wide),
    }
}

/// Whether the matrix holds at the values, tested from left to right up to the part that decides. Wide names the first
/// number past the cap. It calls itself once a level of the matrix.
#[cycle(holds)]
pub fn holds(matrix: &Matrix, values: &[Fraction]) -> Result<bool, Wide>
    requires { IsOver (matrix_of matrix.now) (length values.now) }
    ensures { let c = tested (matrix_of matrix.now) values.now in CappedWide c.numbers c.wins result }
{
    match matrix {
        Matrix::Lit(lit) => literal_holds(lit, values),
        Matrix::And(parts) => all_hold(parts.as_slice(), values),
        Matrix::Or(parts) => some_holds(parts.as_slice(), values),
    }
}

/// Whether all parts hold, up to the first that does not.
#[cycle(holds)]
fn all_hold(parts: &[Matrix], values: &[Fraction]) -> Result<bool, Wide>
    requires { AreOver (matrices_of parts.now) (length values.now) }
    ensures { let c = all_tested (matrices_of parts.now) values.now in CappedWide c.numbers c.wins result }
{
    for part in parts {
        let one = match holds(part, values) {
            Ok(one) => one,
            Err(wide) => return Err(wide),
        };
        if !one {
            return Ok(false);
        }
    }
    Ok(true)
}

/// Whether one of the parts holds, up to the first that does.
#[cycle(holds)]
fn some_holds(parts: &[Matrix], values: &[Fraction]) -> Result<bool, Wide>
    requires { AreOver (matrices_of parts.now) (length values.now) }
    ensures { let c = some_tested (matrices_of parts.now) values.now in CappedWide c.numbers c.wins result }
{
    for part in parts {
        let one = match holds(part, values) {
            Ok(one) => one,
            Err(wide) => return Err(wide),
        };
        if one {
            return Ok(true);
        }
    }
    Ok(false)
}
