//! The walk over the numbers of a goal's body: each becomes the cases of its linear form. A sum is a loop over its terms.

ghost use Rattle.std.specs.Prelude.{ℕ, true, false, Option};
ghost use Rattle.lin_form.specs.Lin.{Lin};
ghost use Rattle.lin_form.specs.Low.{as_lin};
ghost use Rattle.lin_truth.specs.Value.{zero_value, one_value};
ghost use Rattle.lin_truth.specs.View.{tree_of, trees_of};
ghost use Rattle.norm_form.specs.Cap.{capped_maker};
ghost use Rattle.norm_form.specs.Cases.{AreCases, AreBack, AreBothBack, AreTurnedBack, IsTurned, joined};
ghost use Rattle.norm_form.specs.Norm.{gnorm, glin, glin_sum, glin_product};
ghost use Rattle.norm_form.specs.Normal.{Normal as NormalTree};
ghost use Rattle.norm_form.specs.Pairing.{other_part, test_part, paired_form, IsTested};
ghost use Rattle.norm_form.specs.View.{IsBuilt};

use crate::branches::{
    Case, kept_choice, kept_quotient, leaf_cases, level_in, level_of_worked, one, righted,
    turned_round,
};
use crate::change::{Change, Division, Step, divided_cases, joined_back, pair_cases, turned};
use crate::connective::Contraries;
use crate::formula::both_ways;
use crate::normal::closed;
use lin_form::{Bound, FormFault, LinForm, constant_form, direct_form, is_direct, lowest_value};
use lin_term::{Row, Sort};
use lin_truth::Term;
use sqlite_items::Items;
use std::alloc::Global;

/// The linear forms of a number with its cases, at a level: below that many binders.
#[cycle(walk)]
pub(crate) fn number(
    alloc: Global,
    sort: Sort,
    ctx: &[Bound],
    term: &Term,
    level: u32,
) -> Result<Items<Case>, FormFault>
    ensures { AreCases (λ k. glin capped_maker (tree_of term.now) sort ctx.now level k) result }
{
    if is_direct(term) {
        return leaf_cases(alloc, level, direct_form(alloc, ctx, term));
    }
    match term {
        Term::Negative(t) => {
            let x = number(alloc, sort, ctx, t.get(), level);
            turned(alloc, sort, &Change::Negative, x)
        }
        Term::Abs(t) => {
            let x = number(alloc, sort, ctx, t.get(), level);
            turned(alloc, sort, &Change::Absolute, x)
        }
        Term::Minus(a, b) => {
            let x = number(alloc, sort, ctx, a.get(), level);
            second(alloc, sort, ctx, Step::Minus, x, b.get())
        }
        Term::Quotient(a, b) => {
            let x = number(alloc, sort, ctx, a.get(), level);
            let by = constant_form(alloc, b.get());
            divided_cases(alloc, sort, Division::Over, x, by)
        }
        Term::Div(a, b) => {
            let x = number(alloc, sort, ctx, a.get(), level);
            let by = constant_form(alloc, b.get());
            divided_cases(alloc, sort, Division::Whole, x, by)
        }
        Term::Mod(a, b) => {
            let x = number(alloc, sort, ctx, a.get(), level);
            let by = constant_form(alloc, b.get());
            divided_cases(alloc, sort, Division::Rest, x, by)
        }
        Term::Ite(_, a, _) => {
            let x = number(alloc, sort, ctx, a.get(), level);
            chosen(alloc, sort, ctx, term, x)
        }
        Term::Plus(ts) => sum(alloc, sort, ctx, ts.as_slice(), level),
        Term::Times(ts) => product(alloc, sort, ctx, ts.as_slice(), level),
        _ => Err(FormFault::Memory),
    }
}

/// A step on a number and a second one.
#[cycle(walk)]
pub(crate) fn second(
    alloc: Global,
    sort: Sort,
    ctx: &[Bound],
    step: Step,
    cases: Result<Items<Case>, FormFault>,
    b: &Term,
) -> Result<Items<Case>, FormFault>
    ensures { (g : (ℕ → Lin → Option NormalTree) → Option NormalTree) → AreCases g cases → AreCases (λ k. g (λ e x. glin capped_maker (tree_of b.now) sort ctx.now e (joined step x k))) result }
{
    match cases {
        Ok(cases) => righted(alloc, second_each(alloc, sort, ctx, step, cases, b)),
        Err(fault) => Err(fault),
    }
}

/// A step on each form of a number and a second one, in reversed order. The second is worked out once.
#[cycle(walk)]
fn second_each(
    alloc: Global,
    sort: Sort,
    ctx: &[Bound],
    step: Step,
    cases: Items<Case>,
    b: &Term,
) -> Result<Items<Case>, FormFault>
    ensures { AreTurnedBack (λ k e x. glin capped_maker (tree_of b.now) sort ctx.now e (joined step x k)) cases result }
{
    let known = level_in(cases.as_slice());
    let worked = number(alloc, sort, ctx, b, known);
    let ys = turned_round(alloc, worked);
    second_over(alloc, sort, ctx, step, cases, b, known, &ys)
}

/// The same, with the second number's cases known at one level.
#[cycle(walk)]
fn second_over(
    alloc: Global,
    sort: Sort,
    ctx: &[Bound],
    step: Step,
    cases: Items<Case>,
    b: &Term,
    known: u32,
    ys: &Result<Items<Case>, FormFault>,
) -> Result<Items<Case>, FormFault>
    ensures { AreBack (λ k. glin capped_maker (tree_of b.now) sort ctx.now known k) ys.now → AreTurnedBack (λ k e x. glin capped_maker (tree_of b.now) sort ctx.now e (joined step x k)) cases result }
{
    let mut todo = cases;
    let mut out = Items::new(alloc);
    while let Some(case) = todo.pop() {
        match case {
            Case::Form(level, x) => {
                let more = match second_of(alloc, sort, ctx, step, level, &x, b, known, ys) {
                    Ok(more) => more,
                    Err(fault) => return Err(fault),
                };
                out.append(more)?;
            }
            Case::Choice(test, untest) => out.push(Case::Choice(test, untest))?,
            Case::Quotient(low, high) => out.push(Case::Quotient(low, high))?,
        }
    }
    Ok(out)
}

/// A step on a form and a second number, in reversed order; the second number's cases are known at one level.
#[cycle(walk)]
fn second_of(
    alloc: Global,
    sort: Sort,
    ctx: &[Bound],
    step: Step,
    level: u32,
    x: &LinForm,
    b: &Term,
    known: u32,
    ys: &Result<Items<Case>, FormFault>,
) -> Result<Items<Case>, FormFault>
    ensures { AreBack (λ k. glin capped_maker (tree_of b.now) sort ctx.now known k) ys.now → AreBack (λ k. glin capped_maker (tree_of b.now) sort ctx.now level (joined step x.now k)) result }
{
    if level == known {
        return joined_back(alloc, step, x, ys);
    }
    let worked = number(alloc, sort, ctx, b, level);
    let own = turned_round(alloc, worked);
    joined_back(alloc, step, x, &own)
}

/// The sum from left to right.
#[cycle(walk)]
fn sum(
    alloc: Global,
    sort: Sort,
    ctx: &[Bound],
    terms: &[Term],
    level: u32,
) -> Result<Items<Case>, FormFault>
    ensures { AreCases (λ k. glin_sum capped_maker (trees_of terms.now) sort ctx.now level (as_lin zero_value) k) result }
{
    let mut all = one(alloc, level, LinForm::whole(Row::constant(alloc, 0)))?;
    for term in terms {
        let back = second_each(alloc, sort, ctx, Step::Plus, all, term);
        all = match righted(alloc, back) {
            Ok(all) => all,
            Err(fault) => return Err(fault),
        };
    }
    Ok(all)
}

/// The product from left to right.
#[cycle(walk)]
fn product(
    alloc: Global,
    sort: Sort,
    ctx: &[Bound],
    terms: &[Term],
    level: u32,
) -> Result<Items<Case>, FormFault>
    ensures { AreCases (λ k. glin_product capped_maker (trees_of terms.now) sort ctx.now level (as_lin one_value) k) result }
{
    let mut all = one(alloc, level, LinForm::whole(Row::constant(alloc, 1)))?;
    for term in terms {
        let back = second_each(alloc, sort, ctx, Step::Times, all, term);
        all = match righted(alloc, back) {
            Ok(all) => all,
            Err(fault) => return Err(fault),
        };
    }
    Ok(all)
}

/// The second number of a choice; of any other term 0.
#[cycle(walk)]
fn other(
    alloc: Global,
    sort: Sort,
    ctx: &[Bound],
    term: &Term,
    level: u32,
) -> Result<Items<Case>, FormFault>
    ensures { AreCases (λ k. glin capped_maker (other_part (tree_of term.now)) sort ctx.now level k) result }
{
    match term {
        Term::Ite(_, _, b) => number(alloc, sort, ctx, b.get(), level),
        _ => leaf_cases(alloc, level, lowest_value(alloc, 0, 1)),
    }
}

/// The test of a choice; of any other term true.
#[cycle(walk)]
fn test(alloc: Global, sort: Sort, ctx: &[Bound], term: &Term, level: u32) -> Contraries
    ensures yes { IsBuilt (gnorm capped_maker (test_part (tree_of term.now)) sort true ctx.now level) result.yes }
    ensures no { IsBuilt (gnorm capped_maker (test_part (tree_of term.now)) sort false ctx.now level) result.no }
{
    match term {
        Term::Ite(c, _, _) => both_ways(alloc, sort, ctx, c.get(), level),
        _ => Contraries {
            yes: Ok(closed(alloc, true)),
            no: Ok(closed(alloc, false)),
        },
    }
}

/// The first number of a choice or the second, by its test.
#[cycle(walk)]
fn chosen(
    alloc: Global,
    sort: Sort,
    ctx: &[Bound],
    term: &Term,
    cases: Result<Items<Case>, FormFault>,
) -> Result<Items<Case>, FormFault>
    ensures { (g : (ℕ → Lin → Option NormalTree) → Option NormalTree) → AreCases g cases → AreCases (λ k. g (λ e x. glin capped_maker (other_part (tree_of term.now)) sort ctx.now e (paired_form (tree_of term.now) sort ctx.now x k))) result }
{
    match cases {
        Ok(cases) => righted(alloc, chosen_each(alloc, sort, ctx, term, cases)),
        Err(fault) => Err(fault),
    }
}

/// Each form of the first number of a choice, or the second number, by its test, in reversed order. The second number and
/// the test are worked out once.
#[cycle(walk)]
fn chosen_each(
    alloc: Global,
    sort: Sort,
    ctx: &[Bound],
    term: &Term,
    cases: Items<Case>,
) -> Result<Items<Case>, FormFault>
    ensures { AreTurnedBack (λ k e x. glin capped_maker (other_part (tree_of term.now)) sort ctx.now e (paired_form (tree_of term.now) sort ctx.now x k)) cases result }
{
    let known = level_in(cases.as_slice());
    let worked = other(alloc, sort, ctx, term, known);
    let ys = turned_round(alloc, worked);
    let deep = level_of_worked(&ys);
    let by = test(alloc, sort, ctx, term, deep);
    chosen_over(alloc, sort, ctx, term, cases, known, &ys, deep, &by)
}

/// The same, with the second number known at one level, and the test at one.
#[cycle(walk)]
fn chosen_over(
    alloc: Global,
    sort: Sort,
    ctx: &[Bound],
    term: &Term,
    cases: Items<Case>,
    known: u32,
    ys: &Result<Items<Case>, FormFault>,
    deep: u32,
    by: &Contraries,
) -> Result<Items<Case>, FormFault>
    ensures { IsTested (tree_of term.now) sort ctx.now deep by.now → AreBack (λ k. glin capped_maker (other_part (tree_of term.now)) sort ctx.now known k) ys.now → AreTurnedBack (λ k e x. glin capped_maker (other_part (tree_of term.now)) sort ctx.now e (paired_form (tree_of term.now) sort ctx.now x k)) cases result }
{
    let mut todo = cases;
    let mut out = Items::new(alloc);
    while let Some(case) = todo.pop() {
        match case {
            Case::Form(level, x) => {
                let more = match chosen_of(alloc, sort, ctx, term, level, &x, known, ys, deep, by) {
                    Ok(more) => more,
                    Err(fault) => return Err(fault),
                };
                out.append(more)?;
            }
            Case::Choice(test, untest) => out.push(Case::Choice(test, untest))?,
            Case::Quotient(low, high) => out.push(Case::Quotient(low, high))?,
        }
    }
    Ok(out)
}

/// A form or the second number of a choice, by its test, in reversed order; the second number is known at one level, and
/// the test at one.
#[cycle(walk)]
fn chosen_of(
    alloc: Global,
    sort: Sort,
    ctx: &[Bound],
    term: &Term,
    level: u32,
    x: &LinForm,
    known: u32,
    ys: &Result<Items<Case>, FormFault>,
    deep: u32,
    by: &Contraries,
) -> Result<Items<Case>, FormFault>
    ensures { IsTested (tree_of term.now) sort ctx.now deep by.now → AreBack (λ k. glin capped_maker (other_part (tree_of term.now)) sort ctx.now known k) ys.now → AreBack (λ k. glin capped_maker (other_part (tree_of term.now)) sort ctx.now level (paired_form (tree_of term.now) sort ctx.now x.now k)) result }
{
    if level == known {
        return paired(alloc, sort, ctx, term, x, ys, deep, by);
    }
    let worked = other(alloc, sort, ctx, term, level);
    let own = turned_round(alloc, worked);
    paired(alloc, sort, ctx, term, x, &own, deep, by)
}

/// A form, or the cases of a second number in reversed order, by the test of a choice.
#[cycle(walk)]
fn paired(
    alloc: Global,
    sort: Sort,
    ctx: &[Bound],
    term: &Term,
    x: &LinForm,
    cases: &Result<Items<Case>, FormFault>,
    deep: u32,
    by: &Contraries,
) -> Result<Items<Case>, FormFault>
    ensures { IsTested (tree_of term.now) sort ctx.now deep by.now → (g : (ℕ → Lin → Option NormalTree) → Option NormalTree) → AreBack g cases.now → AreBack (λ k. g (paired_form (tree_of term.now) sort ctx.now x.now k)) result }
{
    match cases {
        Ok(cases) => paired_each(alloc, sort, ctx, term, x, cases.as_slice(), deep, by),
        Err(fault) => Err(*fault),
    }
}

/// A form, or each form of a second number, by the test of a choice; all in reversed order.
#[cycle(walk)]
fn paired_each(
    alloc: Global,
    sort: Sort,
    ctx: &[Bound],
    term: &Term,
    x: &LinForm,
    cases: &[Case],
    deep: u32,
    by: &Contraries,
) -> Result<Items<Case>, FormFault>
    ensures { IsTested (tree_of term.now) sort ctx.now deep by.now → AreBothBack (paired_form (tree_of term.now) sort ctx.now x.now) cases.now result }
{
    let mut out = Items::new(alloc);
    for case in cases {
        match pair_case(alloc, sort, ctx, term, x, case, deep, by) {
            Ok(more) => out.append(more)?,
            Err(fault) => return Err(fault),
        }
    }
    Ok(out)
}

/// A form, or a case of a second number, by the test of a choice.
#[cycle(walk)]
fn pair_case(
    alloc: Global,
    sort: Sort,
    ctx: &[Bound],
    term: &Term,
    x: &LinForm,
    case: &Case,
    deep: u32,
    by: &Contraries,
) -> Result<Items<Case>, FormFault>
    ensures { IsTested (tree_of term.now) sort ctx.now deep by.now → IsTurned (paired_form (tree_of term.now) sort ctx.now x.now) case.now result }
{
    match case {
        Case::Form(level, y) => pair_of(alloc, sort, ctx, term, x, *level, y, deep, by),
        Case::Choice(test, untest) => Ok(kept_choice(alloc, test, untest)?),
        Case::Quotient(low, high) => Ok(kept_quotient(alloc, low, high)?),
    }
}

/// One of two forms, by the test of a choice, in reversed order.
#[cycle(walk)]
fn pair_of(
    alloc: Global,
    sort: Sort,
    ctx: &[Bound],
    term: &Term,
    x: &LinForm,
    level: u32,
    y: &LinForm,
    deep: u32,
    by: &Contraries,
) -> Result<Items<Case>, FormFault>
    ensures { IsTested (tree_of term.now) sort ctx.now deep by.now → AreBack (λ k. paired_form (tree_of term.now) sort ctx.now x.now k level y.now) result }
{
    if level == deep {
        return pair_cases(alloc, level, x, y, by);
    }
    let own = test(alloc, sort, ctx, term, level);
    pair_cases(alloc, level, x, y, &own)
}
