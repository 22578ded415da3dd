//! The forms of a variable, of a number, and of a whole number times a variable.

ghost use Rattle.std.specs.Prelude.{◌≡◌, ◌<◌, ◌≤◌, ◌^◌, nat_abs, IfOk, OnOk, ◌∷◌, []};
ghost use Rattle.lin_term.specs.Form.{cap};
ghost use Rattle.lin_term.specs.Linear.{put_front};
ghost use Rattle.lin_truth.specs.Value.{one_value};
ghost use Rattle.lin_form.specs.Direct.{multiple as multiple_terms, direct_product, made_product};
ghost use Rattle.lin_form.specs.Low.{as_lin};
ghost use Rattle.lin_truth.specs.View.{den_of};
ghost use Rattle.lin_form.specs.Lin.{Lin, lin_variable, lin_constant};
ghost use Rattle.lin_form.specs.Outcome.{Formed};
ghost use Rattle.lin_form.specs.Scope.{level_at};

use crate::fault::FormFault;
use crate::form::{LinForm, lowest_value};
use crate::scope::Bound;
use lin_term::{Coefs, Memory, Row, is_within};
use smallvec::SmallVec;
use std::alloc::Global;

/// Levels stay below this number: a prefix has at most 1,024 variables.
const LEVELS: u32 = 1_048_576;

/// The level of the variable at a place; 0 where the scope has no such place.
pub fn level_of(ctx: &[Bound], place: u32) -> u32
    ensures { result ≡ level_at ctx.now place }
{
    match ctx.get(place as usize) {
        Some(bound) => bound.level,
        None => 0,
    }
}

/// The form of the variable at a level below 2^20; from there on the answer is want of memory. Refuses only so.
pub fn variable(alloc: Global, level: u32) -> Result<LinForm, FormFault>
    ensures value { Formed (lin_variable level ∷ []) (lin_variable level) result }
    ensures low { OnOk result (level < 2 ^ 20) }
{
    if level >= LEVELS {
        return Err(FormFault::Memory);
    }
    let mut coefs = SmallVec::new(alloc);
    coefs.push((level, 1))?;
    Ok(LinForm::whole(Row::from_parts(coefs, 0)))
}

/// The form of a number. A denominator is 1 or more; at 0 and below the answer is want of memory.
pub(crate) fn number(alloc: Global, num: i64, den: i64) -> Result<LinForm, FormFault>
    ensures { let lin : Lin = lin_constant (record { num = num; den = den_of den }) in
        Formed (lin ∷ []) lin result }
{
    if den <= 0 {
        return Err(FormFault::Memory);
    }
    lowest_value(alloc, num as i128, den as u128)
}

/// The coefficients of one variable.
fn one_term(alloc: Global, level: u32, num: i64) -> Result<Coefs, Memory>
    requires low { level < 2 ^ 20 }
    requires kept { nat_abs num ≤ cap }
    ensures { IfOk result (λ coefs. coefs.items ≡ put_front level num []) }
{
    let mut coefs = SmallVec::new(alloc);
    if num == 0 {
        return Ok(coefs);
    }
    match coefs.push((level, num)) {
        Ok(()) => Ok(coefs),
        Err(_) => Err(Memory),
    }
}

/// The form of a whole number times the variable at a place: the product of the two, with fewer steps.
pub(crate) fn multiple(
    alloc: Global,
    ctx: &[Bound],
    num: i64,
    place: u32,
) -> Result<LinForm, FormFault>
    ensures { Formed (made_product (multiple_terms num place) ctx.now (as_lin one_value)) (direct_product (multiple_terms num place) ctx.now (as_lin one_value)) result }
{
    let level = level_of(ctx, place);
    if level >= LEVELS {
        return Err(FormFault::Memory);
    }
    if !is_within(num as i128) {
        return Err(FormFault::Number);
    }
    let coefs = one_term(alloc, level, num)?;
    Ok(LinForm::whole(Row::from_parts(coefs, 0)))
}
