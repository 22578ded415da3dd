//! The formula of an atom, from the cases of its term.

ghost use Rattle.std.specs.Prelude.{◌≡◌, ℕ, List, Bool, true, Option, Ok, [], ◌∷◌};
ghost use Rattle.lin_form.specs.Lin.{Lin};
ghost use Rattle.lin_term.specs.Primable.{IsPrimable};
ghost use Rattle.norm_form.specs.Cap.{capped_maker};
ghost use Rattle.norm_form.specs.Cases.{AreCases, chosen, bounded, put};
ghost use Rattle.norm_form.specs.Claim.{claimed as claimed_form, stacked_on, AreStacked};
ghost use Rattle.norm_form.specs.Normal.{Normal as NormalTree};
ghost use Rattle.norm_form.specs.View.{IsBuilt, shape_of};
ghost use Rattle.norm_form.specs.declared.claim.Claim.TheVariants as claims;

use crate::branches::Case;
use crate::connective::both;
use crate::literal::both_signs;
use crate::normal::{LevelForm, between, choice};
use lin_form::{FormFault, LinForm, negative};
use lin_term::{CAP, Lit, Memory, Sort};
use sqlite_items::Items;
use std::alloc::Global;

/// What an atom says of a form: that it is at least 0, above 0, or 0, or that the number divides it.
#[derive(Clone, Copy, Debug, PartialEq, Eq, Drop)]
pub(crate) enum Claim {
    AtLeast,
    Above,
    Zero,
    Divides(u64),
}

/// A literal, or its negation.
pub(crate) fn literal(
    alloc: Global,
    sort: Sort,
    truth: bool,
    lit: Lit,
) -> Result<LevelForm, FormFault>
    requires { IsPrimable sort lit }
    ensures { IsBuilt (capped_maker.signed truth sort lit) result }
{
    match both_signs(alloc, sort, lit) {
        Ok(signs) => { if truth { Ok(signs.yes) } else { Ok(signs.no) } }
        Err(fault) => Err(fault),
    }
}

/// A form is 0: it and its negative are at least 0. It is not: one of the two is above 0. The negative refuses only for
/// memory.
fn zero(alloc: Global, sort: Sort, truth: bool, x: LinForm) -> Result<LevelForm, FormFault>
    ensures { IsBuilt (claimed_form claims.Zero sort truth x) result }
{
    let minus = match negative(alloc, &x) {
        Ok(minus) => minus,
        Err(fault) => return Err(fault),
    };
    if truth {
        let a = literal(alloc, sort, true, Lit::AtLeast(x.into_row()));
        let b = literal(alloc, sort, true, Lit::AtLeast(minus.into_row()));
        both(alloc, true, a, b)
    } else {
        let a = literal(alloc, sort, true, Lit::Above(x.into_row()));
        let b = literal(alloc, sort, true, Lit::Above(minus.into_row()));
        both(alloc, false, a, b)
    }
}

/// A number divides a form, or not. With the number 0, or over the rationals, which no goal has, the answer is want of
/// memory.
fn divided(
    alloc: Global,
    sort: Sort,
    truth: bool,
    n: u64,
    x: LinForm,
) -> Result<LevelForm, FormFault>
    ensures { IsBuilt (claimed_form (claims.Divides n) sort truth x) result }
{
    let modulus = n as u128 * x.den() as u128;
    if modulus > CAP as u128 {
        return Err(FormFault::Number);
    }
    if n == 0 {
        return Err(FormFault::Memory);
    }
    match sort {
        Sort::Rat => Err(FormFault::Memory),
        Sort::Int => literal(
            alloc,
            sort,
            truth,
            Lit::Divides(modulus as u64, x.into_row()),
        ),
    }
}

/// The formula of an atom, of one form.
fn claimed(
    alloc: Global,
    sort: Sort,
    claim: Claim,
    truth: bool,
    x: LinForm,
) -> Result<LevelForm, FormFault>
    ensures { IsBuilt (claimed_form claim sort truth x) result }
{
    match claim {
        Claim::AtLeast => literal(alloc, sort, truth, Lit::AtLeast(x.into_row())),
        Claim::Above => literal(alloc, sort, truth, Lit::Above(x.into_row())),
        Claim::Zero => zero(alloc, sort, truth, x),
        Claim::Divides(n) => divided(alloc, sort, truth, n, x),
    }
}

/// One more formula.
fn with_formula(
    stack: Items<LevelForm>,
    formula: Result<LevelForm, FormFault>,
) -> Result<Items<LevelForm>, FormFault>
    ensures { (o : Option NormalTree) → IsBuilt o formula → AreStacked (o ∷ stacked_on stack []) result }
{
    match formula {
        Ok(formula) => {
            let mut stack = stack;
            stack.push(formula)?;
            Ok(stack)
        }
        Err(fault) => Err(fault),
    }
}

/// The choice between the last two formulas; where there are fewer, which no cases have, one is missing as behind a number
/// past the cap.
fn with_choice(
    alloc: Global,
    test: LevelForm,
    untest: LevelForm,
    stack: Items<LevelForm>,
) -> Result<Items<LevelForm>, FormFault>
    ensures { AreStacked (chosen (shape_of test) (shape_of untest) (stacked_on stack [])) result }
{
    let mut stack = stack;
    match stack.pop() {
        Some(a) => match stack.pop() {
            Some(b) => {
                stack.push(choice(alloc, test, untest, a, b)?)?;
                Ok(stack)
            }
            None => Err(FormFault::Number),
        },
        None => Err(FormFault::Number),
    }
}

/// The last formula under a quotient; where there is none, which no cases have, it is missing as behind a number past the
/// cap.
fn with_quotient(
    alloc: Global,
    low: LevelForm,
    high: LevelForm,
    stack: Items<LevelForm>,
) -> Result<Items<LevelForm>, FormFault>
    ensures { AreStacked (bounded (shape_of low) (shape_of high) (stacked_on stack [])) result }
{
    let mut stack = stack;
    match stack.pop() {
        Some(inner) => {
            stack.push(between(alloc, low, high, inner)?)?;
            Ok(stack)
        }
        None => Err(FormFault::Number),
    }
}

/// The formulas behind one more case.
fn placed(
    alloc: Global,
    sort: Sort,
    claim: Claim,
    truth: bool,
    case: Case,
    stack: Items<LevelForm>,
) -> Result<Items<LevelForm>, FormFault>
    ensures { AreStacked (put case (λ e x. claimed_form claim sort truth x) (stacked_on stack [])) result }
{
    match case {
        Case::Form(_, x) => with_formula(stack, claimed(alloc, sort, claim, truth, x)),
        Case::Choice(test, untest) => with_choice(alloc, test, untest, stack),
        Case::Quotient(low, high) => with_quotient(alloc, low, high, stack),
    }
}

/// The formula of an atom, of all cases of its term.
fn made(
    alloc: Global,
    sort: Sort,
    claim: Claim,
    truth: bool,
    cases: Items<Case>,
) -> Result<LevelForm, FormFault>
    ensures { (g : (ℕ → Lin → Option NormalTree) → Option NormalTree) → AreCases g (Ok cases) → IsBuilt (g (λ e x. claimed_form claim sort truth x)) result }
{
    let mut todo = cases;
    let mut stack = Items::new(alloc);
    while let Some(case) = todo.pop() {
        stack = match placed(alloc, sort, claim, truth, case, stack) {
            Ok(stack) => stack,
            Err(fault) => return Err(fault),
        };
    }
    match stack.pop() {
        Some(formula) => Ok(formula),
        None => Err(FormFault::Number),
    }
}

/// The formula of an atom.
pub(crate) fn atom(
    alloc: Global,
    sort: Sort,
    claim: Claim,
    truth: bool,
    cases: Result<Items<Case>, FormFault>,
) -> Result<LevelForm, FormFault>
    ensures { (g : (ℕ → Lin → Option NormalTree) → Option NormalTree) → AreCases g cases → IsBuilt (g (λ e x. claimed_form claim sort truth x)) result }
{
    match cases {
        Ok(cases) => made(alloc, sort, claim, truth, cases),
        Err(fault) => Err(fault),
    }
}
