//! What is done with each form of a term's cases.

ghost use Rattle.std.specs.Prelude.{◌≡◌, ◌<◌, ◌^◌, ◌∷◌, [], ℕ, suc, List, Option, IfOk};
ghost use Rattle.lin_form.specs.Lin.{Lin, lin_neg};
ghost use Rattle.lin_form.specs.Outcome.{Formed};
ghost use Rattle.norm_form.specs.Cap.{capped_maker};
ghost use Rattle.norm_form.specs.Cap.{over as option_over};
ghost use Rattle.norm_form.specs.Cases.{AreCases, AreBack, AreBothBack, AreTurnedBack, IsTurned, between, changed, divided, joined, stepped, run_back};
ghost use Rattle.norm_form.specs.Literal.{AreSigned};
ghost use Rattle.norm_form.specs.Normal.{Normal as NormalTree};
ghost use Rattle.norm_form.specs.View.{IsBuilt, shape_of};
ghost use Rattle.norm_form.specs.declared.change.Change.TheVariants as changes;
ghost use Rattle.lin_term.specs.declared.Sort.{Sort};
ghost use Rattle.lin_term.specs.declared.Lit.TheVariants.{AtLeast};

use crate::bounds::bounds_of;
use crate::branches::{Case, kept_choice, kept_quotient, one, righted};
use crate::connective::Contraries;
use crate::literal::{Signs, both_signs};
use crate::normal::LevelForm;
use lin_form::{FormFault, LinForm, minus, negative, over, plus, times, variable};
use lin_term::{Lit, Memory, Sort};
use sqlite_items::Items;
use std::alloc::Global;

/// What is done with two forms. `From` takes the first from the second.
#[derive(Clone, Copy, Debug, PartialEq, Eq, Drop)]
pub(crate) enum Step {
    Plus,
    Minus,
    From,
    Times,
}

/// What is done with a form and a divisor.
#[derive(Clone, Copy, Debug, PartialEq, Eq, Drop)]
pub(crate) enum Division {
    Over,
    Whole,
    Rest,
}

/// What is done with a form.
#[derive(Drop)]
pub(crate) enum Change {
    Negative,
    Absolute,
    /// Divided by a form without variables.
    Over(LinForm),
    /// The whole quotient by a form without variables.
    Whole(LinForm),
    /// The remainder by a form without variables.
    Rest(LinForm),
}

/// A step on two forms.
fn step_taken(alloc: Global, step: Step, x: &LinForm, y: &LinForm) -> Result<LinForm, FormFault>
    ensures { let lin : Lin = stepped step x.now y.now in
        Formed (lin ∷ []) lin result }
{
    match step {
        Step::Plus => plus(alloc, x, y),
        Step::Minus => minus(alloc, x, y),
        Step::From => minus(alloc, y, x),
        Step::Times => times(alloc, x, y),
    }
}

/// The one case of a form that was worked out.
fn single(
    alloc: Global,
    level: u32,
    form: Result<LinForm, FormFault>,
) -> Result<Items<Case>, FormFault>
    ensures { (v : Lin) → Formed (v ∷ []) v form → AreBack (λ k. capped_maker.formed (v ∷ []) (k level v)) result }
{
    let form = match form {
        Ok(form) => form,
        Err(fault) => return Err(fault),
    };
    Ok(one(alloc, level, form)?)
}

/// The form where it is at least 0, else its negative, whose cases were worked out. They stand in reversed order.
fn with_choice(
    level: u32,
    x: LinForm,
    minus: Result<Items<Case>, FormFault>,
    signs: Result<Signs, FormFault>,
) -> Result<Items<Case>, FormFault>
    ensures { (s : Sort) → AreBack (λ k. capped_maker.formed (lin_neg x ∷ []) (k level (lin_neg x))) minus → AreSigned s (AtLeast x.form) signs → AreBack (λ k. changed changes.Absolute s k level x) result }
{
    let mut all = match minus {
        Ok(all) => all,
        Err(fault) => return Err(fault),
    };
    let signs = match signs {
        Ok(signs) => signs,
        Err(fault) => return Err(fault),
    };
    all.push(Case::Form(level, x))?;
    all.push(Case::Choice(signs.yes, signs.no))?;
    Ok(all)
}

/// The cases of an absolute value, in reversed order.
fn absolute_cases(
    alloc: Global,
    sort: Sort,
    level: u32,
    x: LinForm,
) -> Result<Items<Case>, FormFault>
    ensures { AreBack (λ k. changed changes.Absolute sort k level x) result }
{
    let lit = Lit::AtLeast(x.row().copy(alloc)?);
    let form = negative(alloc, &x);
    let minus = single(alloc, level, form);
    let signs = both_signs(alloc, sort, lit);
    with_choice(level, x, minus, signs)
}

/// A form under a quotient between bounds, in reversed order.
fn in_bounds(
    alloc: Global,
    level: u32,
    low: LevelForm,
    high: LevelForm,
    form: LinForm,
) -> Result<Items<Case>, Memory>
    requires { level < 2 ^ 20 }
    ensures { IfOk result (λ all. (k : ℕ → Lin → Option NormalTree) (rs : List (Option NormalTree)) → run_back all k rs ≡ option_over (between (shape_of low) (shape_of high)) (k (suc level) form) ∷ rs) }
{
    let mut all = one(alloc, level + 1, form)?;
    all.push(Case::Quotient(low, high))?;
    Ok(all)
}

/// The cases of a whole quotient, in reversed order.
fn whole_cases(
    alloc: Global,
    sort: Sort,
    by: &LinForm,
    level: u32,
    x: &LinForm,
) -> Result<Items<Case>, FormFault>
    ensures { AreBack (λ k. changed (changes.Whole by.now) sort k level x.now) result }
{
    let form = match variable(alloc, level) {
        Ok(form) => form,
        Err(fault) => return Err(fault),
    };
    match bounds_of(alloc, sort, by, x, level) {
        Ok(bounds) => Ok(in_bounds(alloc, level, bounds.low, bounds.high, form)?),
        Err(fault) => Err(fault),
    }
}

/// The cases of a remainder, in reversed order.
fn rest_cases(
    alloc: Global,
    sort: Sort,
    by: &LinForm,
    level: u32,
    x: &LinForm,
) -> Result<Items<Case>, FormFault>
    ensures { AreBack (λ k. changed (changes.Rest by.now) sort k level x.now) result }
{
    match bounds_of(alloc, sort, by, x, level) {
        Ok(bounds) => Ok(in_bounds(alloc, level, bounds.low, bounds.high, bounds.rest)?),
        Err(fault) => Err(fault),
    }
}

/// The cases of one form, in reversed order.
fn changed_cases(
    alloc: Global,
    sort: Sort,
    change: &Change,
    level: u32,
    x: LinForm,
) -> Result<Items<Case>, FormFault>
    ensures { AreBack (λ k. changed change.now sort k level x) result }
{
    match change {
        Change::Negative => single(alloc, level, negative(alloc, &x)),
        Change::Absolute => absolute_cases(alloc, sort, level, x),
        Change::Over(by) => single(alloc, level, over(alloc, &x, by)),
        Change::Whole(by) => whole_cases(alloc, sort, by, level, &x),
        Change::Rest(by) => rest_cases(alloc, sort, by, level, &x),
    }
}

/// The cases in reversed order, each form changed.
pub(crate) fn turned_back(
    alloc: Global,
    sort: Sort,
    change: &Change,
    cases: Items<Case>,
) -> Result<Items<Case>, FormFault>
    ensures { AreTurnedBack (λ k. changed change.now sort k) cases result }
{
    let mut todo = cases;
    let mut out = Items::new(alloc);
    while let Some(case) = todo.pop() {
        match case {
            Case::Form(level, x) => {
                let more = match changed_cases(alloc, sort, change, level, x) {
                    Ok(more) => more,
                    Err(fault) => return Err(fault),
                };
                out.append(more)?;
            }
            Case::Choice(test, untest) => out.push(Case::Choice(test, untest))?,
            Case::Quotient(low, high) => out.push(Case::Quotient(low, high))?,
        }
    }
    Ok(out)
}

/// The cases of a term, each form changed.
pub(crate) fn turned(
    alloc: Global,
    sort: Sort,
    change: &Change,
    cases: Result<Items<Case>, FormFault>,
) -> Result<Items<Case>, FormFault>
    ensures { (g : (ℕ → Lin → Option NormalTree) → Option NormalTree) → AreCases g cases → AreCases (λ k. g (changed change.now sort k)) result }
{
    let cases = match cases {
        Ok(cases) => cases,
        Err(fault) => return Err(fault),
    };
    let back = turned_back(alloc, sort, change, cases);
    righted(alloc, back)
}

/// What a step on a first form makes of a case of a second number.
fn joined_case(
    alloc: Global,
    step: Step,
    x: &LinForm,
    case: &Case,
) -> Result<Items<Case>, FormFault>
    ensures { IsTurned (joined step x.now) case.now result }
{
    match case {
        Case::Form(level, y) => {
            let form = match step_taken(alloc, step, x, y) {
                Ok(form) => form,
                Err(fault) => return Err(fault),
            };
            Ok(one(alloc, *level, form)?)
        }
        Case::Choice(test, untest) => Ok(kept_choice(alloc, test, untest)?),
        Case::Quotient(low, high) => Ok(kept_quotient(alloc, low, high)?),
    }
}

/// A step on a first form and each form of a second number, whose cases stand in reversed order.
fn joined_each(
    alloc: Global,
    step: Step,
    x: &LinForm,
    cases: &[Case],
) -> Result<Items<Case>, FormFault>
    ensures { AreBothBack (joined step x.now) cases.now result }
{
    let mut out = Items::new(alloc);
    for case in cases {
        match joined_case(alloc, step, x, case) {
            Ok(more) => out.append(more)?,
            Err(fault) => return Err(fault),
        }
    }
    Ok(out)
}

/// The same of cases that were worked out.
pub(crate) fn joined_back(
    alloc: Global,
    step: Step,
    x: &LinForm,
    cases: &Result<Items<Case>, FormFault>,
) -> Result<Items<Case>, FormFault>
    ensures { (g : (ℕ → Lin → Option NormalTree) → Option NormalTree) → AreBack g cases.now → AreBack (λ k. g (joined step x.now k)) result }
{
    match cases {
        Ok(cases) => joined_each(alloc, step, x, cases.as_slice()),
        Err(fault) => Err(*fault),
    }
}

/// The cases of a term, each form changed by a constant term that was worked out behind the first.
pub(crate) fn divided_cases(
    alloc: Global,
    sort: Sort,
    kind: Division,
    cases: Result<Items<Case>, FormFault>,
    by: Result<LinForm, FormFault>,
) -> Result<Items<Case>, FormFault>
    ensures { (g : (ℕ → Lin → Option NormalTree) → Option NormalTree) (xs : List Lin) (v : Lin) → AreCases g cases → Formed xs v by → AreCases (λ k. g (λ e x. capped_maker.formed xs (divided kind v sort k e x))) result }
{
    let cases = match cases {
        Ok(cases) => cases,
        Err(fault) => return Err(fault),
    };
    let by = match by {
        Ok(by) => by,
        Err(fault) => return Err(fault),
    };
    match kind {
        Division::Over => turned(alloc, sort, &Change::Over(by), Ok(cases)),
        Division::Whole => turned(alloc, sort, &Change::Whole(by), Ok(cases)),
        Division::Rest => turned(alloc, sort, &Change::Rest(by), Ok(cases)),
    }
}

/// One of two forms, by a test, in reversed order.
pub(crate) fn pair_cases(
    alloc: Global,
    level: u32,
    x: &LinForm,
    y: &LinForm,
    test: &Contraries,
) -> Result<Items<Case>, FormFault>
    ensures { (p n : Option NormalTree) → IsBuilt p test.now.yes → IsBuilt n test.now.no → AreBack (λ k. capped_maker.ite_form p n (k level x.now) (k level y.now)) result }
{
    let yes = match &test.yes {
        Ok(yes) => yes,
        Err(fault) => return Err(*fault),
    };
    let no = match &test.no {
        Ok(no) => no,
        Err(fault) => return Err(*fault),
    };
    let mut all = one(alloc, level, y.copy(alloc)?)?;
    all.push(Case::Form(level, x.copy(alloc)?))?;
    all.push(Case::Choice(yes.copy(alloc)?, no.copy(alloc)?))?;
    Ok(all)
}
