//! The bounds of a whole quotient: n*q <= t, and t <= n*q + |n| - 1, as SMT-LIB's theory Ints has them.

ghost use Rattle.std.specs.Prelude.{◌≡◌, ◌<◌, ◌^◌, ◌∷◌, [], OnOk, ℕ, pos, negsuc, ◌+ℤ◌, nat_abs};
ghost use Rattle.lin_form.specs.Lin.{lin_variable, lin_minus};
ghost use Rattle.lin_form.specs.Low.{as_lin};
ghost use Rattle.lin_form.specs.Outcome.{Formed};
ghost use Rattle.norm_form.specs.Bounds.{AreSides, AreBounds};
ghost use Rattle.norm_form.specs.Norm.{multiple as multiple_form, div_top};

use crate::literal::both_signs;
use crate::normal::LevelForm;
use lin_form::{FormFault, LinForm, minus, plus, scaled, variable};
use lin_term::{Lit, Row, Sort};
use std::alloc::Global;

/// What is left of a term by a multiple of its quotient, and what it leaves to the upper bound.
#[derive(Drop)]
pub(crate) struct Sides {
    pub rest: LinForm,
    pub gap: LinForm,
}

/// The literals of both bounds, and what is left of the term.
#[derive(Drop)]
pub(crate) struct Bounds {
    pub low: LevelForm,
    pub high: LevelForm,
    pub rest: LinForm,
}

/// The divisor times the variable at a level.
fn multiple_of(alloc: Global, by: &LinForm, level: u32) -> Result<LinForm, FormFault>
    ensures value { Formed (lin_variable level ∷ multiple_form by.now.form.constant level ∷ []) (multiple_form by.now.form.constant level) result }
    ensures low { OnOk result (level < 2 ^ 20) }
{
    let quotient = match variable(alloc, level) {
        Ok(form) => form,
        Err(fault) => return Err(fault),
    };
    scaled(alloc, by.constant(), 1, &quotient)
}

/// The greatest remainder of a division: |n| - 1.
fn greatest_rest(alloc: Global, by: &LinForm) -> LinForm
    ensures { result ≡ as_lin (record { num = pos (nat_abs by.now.form.constant) +ℤ negsuc 0; den = 1 }) }
{
    let size = by.constant().unsigned_abs() as i64;
    LinForm::whole(Row::constant(alloc, size - 1))
}

/// The multiple and the greatest remainder, without x.
fn gap_of(
    alloc: Global,
    by: &LinForm,
    x: &LinForm,
    multiple: &LinForm,
) -> Result<LinForm, FormFault>
    ensures { (d : ℕ) → multiple.now ≡ multiple_form by.now.form.constant d → Formed (div_top by.now.form.constant d ∷ lin_minus (div_top by.now.form.constant d) x.now ∷ []) (lin_minus (div_top by.now.form.constant d) x.now) result }
{
    let last = greatest_rest(alloc, by);
    let top = match plus(alloc, multiple, &last) {
        Ok(form) => form,
        Err(fault) => return Err(fault),
    };
    minus(alloc, &top, x)
}

/// The forms of a division of x, with the quotient at a level.
fn sides_of(alloc: Global, by: &LinForm, x: &LinForm, level: u32) -> Result<Sides, FormFault>
    ensures value { AreSides by.now.form.constant x.now level result }
    ensures low { OnOk result (level < 2 ^ 20) }
{
    let multiple = match multiple_of(alloc, by, level) {
        Ok(form) => form,
        Err(fault) => return Err(fault),
    };
    let rest = match minus(alloc, x, &multiple) {
        Ok(form) => form,
        Err(fault) => return Err(fault),
    };
    let gap = match gap_of(alloc, by, x, &multiple) {
        Ok(form) => form,
        Err(fault) => return Err(fault),
    };
    Ok(Sides { rest, gap })
}

/// The bounds of the quotient of x by a form without variables, with the quotient at a level.
pub(crate) fn bounds_of(
    alloc: Global,
    sort: Sort,
    by: &LinForm,
    x: &LinForm,
    level: u32,
) -> Result<Bounds, FormFault>
    ensures value { AreBounds sort by.now.form.constant x.now level result }
    ensures low { OnOk result (level < 2 ^ 20) }
{
    let sides = match sides_of(alloc, by, x, level) {
        Ok(sides) => sides,
        Err(fault) => return Err(fault),
    };
    let low = Lit::AtLeast(sides.rest.row().copy(alloc)?);
    let low = match both_signs(alloc, sort, low) {
        Ok(signs) => signs,
        Err(fault) => return Err(fault),
    };
    let high = Lit::AtLeast(sides.gap.into_row());
    let high = match both_signs(alloc, sort, high) {
        Ok(signs) => signs,
        Err(fault) => return Err(fault),
    };
    Ok(Bounds {
        low: low.yes,
        high: high.yes,
        rest: sides.rest,
    })
}
