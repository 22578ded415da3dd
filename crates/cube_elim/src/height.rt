//! The highest variable of a cube.

ghost use Rattle.std.specs.Prelude.{◌≡◌, ◌<◌, ◌^◌, suc, max};
ghost use Rattle.lin_term.specs.Literal.{form_of};
ghost use Rattle.cube_elim.specs.Determined.{height, height_of_terms};

use lin_term::Lit;

/// The greater of a number and 1 above the variable.
fn raised(top: u32, var: u32) -> u32
    requires { var < 2 ^ 20 }
    ensures { result ≡ max (suc var) top }
{
    if top <= var { var + 1 } else { top }
}

/// 1 above the highest variable of the literal, 0 where it has none.
pub(crate) fn height_of_literal(lit: &Lit) -> u32
    ensures { result ≡ height_of_terms (form_of lit.now).terms }
{
    let mut top = 0;
    for term in lit.row().coefs() {
        top = raised(top, term.0);
    }
    top
}

/// The greater of two numbers.
pub(crate) fn greater(a: u32, b: u32) -> u32
    ensures { result ≡ max b a }
{
    if a < b { b } else { a }
}

/// 1 above the highest variable of the literals, 0 where they have none.
pub(crate) fn height_of(lits: &[Lit]) -> u32
    ensures { result ≡ height lits.now }
{
    let mut top = 0;
    for lit in lits {
        top = greater(top, height_of_literal(lit));
    }
    top
}
