//! The walk over the formulas of a goal's body: each becomes its normal form. With the walk over the numbers it is one cycle, and
//! native calls go as deep as the body does.

ghost use Rattle.std.specs.Prelude.{true, false};
ghost use Rattle.lin_truth.specs.View.{tree_of, trees_of};
ghost use Rattle.norm_form.specs.Cap.{capped_maker};
ghost use Rattle.norm_form.specs.Norm.{gnorm, gnorms, gbind};
ghost use Rattle.norm_form.specs.View.{IsBuilt};

use crate::branches::LEVELS;
use crate::change::Step;
use crate::claim::{Claim, atom};
use crate::connective::{Contraries, both, choice_of, same_of};
use crate::normal::{LevelForm, closed, joined};
use crate::number::{number, second};
use crate::scope::{is_formula_in, truth_literal, with_bound, wrapped};
use lin_form::{Bound, FormFault, level_of};
use lin_term::Sort;
use lin_truth::{Term, VarSort};
use sqlite_items::Items;
use std::alloc::Global;

/// The normal forms of a formula and of its negation.
#[cycle(walk)]
pub(crate) fn both_ways(
    alloc: Global,
    sort: Sort,
    ctx: &[Bound],
    term: &Term,
    level: u32,
) -> Contraries
    ensures yes { IsBuilt (gnorm capped_maker (tree_of term.now) sort true ctx.now level) result.yes }
    ensures no { IsBuilt (gnorm capped_maker (tree_of term.now) sort false ctx.now level) result.no }
{
    Contraries {
        yes: formula(alloc, sort, ctx, term, true, level),
        no: formula(alloc, sort, ctx, term, false, level),
    }
}

/// The normal form of a formula, or of its negation, below a number of binders.
#[cycle(walk)]
fn formula(
    alloc: Global,
    sort: Sort,
    ctx: &[Bound],
    term: &Term,
    truth: bool,
    level: u32,
) -> Result<LevelForm, FormFault>
    ensures { IsBuilt (gnorm capped_maker (tree_of term.now) sort truth ctx.now level) result }
{
    match term {
        Term::True => Ok(closed(alloc, truth)),
        Term::Var(i) => truth_literal(alloc, sort, truth, level_of(ctx, *i)),
        Term::Not(t) => formula(alloc, sort, ctx, t.get(), !truth, level),
        Term::Implies(a, b) => {
            let x = formula(alloc, sort, ctx, a.get(), !truth, level);
            let y = formula(alloc, sort, ctx, b.get(), truth, level);
            both(alloc, !truth, x, y)
        }
        Term::And(ts) => parts(alloc, sort, ctx, ts.as_slice(), truth, truth, level),
        Term::Or(ts) => parts(alloc, sort, ctx, ts.as_slice(), !truth, truth, level),
        Term::Forall(vs, t) => {
            let vs = vs.as_slice();
            bound(alloc, sort, ctx, truth, vs, t.get(), truth, level)
        }
        Term::Exists(vs, t) => {
            let vs = vs.as_slice();
            bound(alloc, sort, ctx, !truth, vs, t.get(), truth, level)
        }
        Term::Equal(_, _) | Term::Xor(_, _) | Term::Ite(_, _, _) => {
            by_both_ways(alloc, sort, ctx, term, truth, level)
        }
        Term::Divisible(_, _)
        | Term::Less(_, _)
        | Term::AtMost(_, _)
        | Term::Greater(_, _)
        | Term::AtLeast(_, _) => comparison(alloc, sort, ctx, term, truth, level),
        _ => Ok(closed(alloc, !truth)),
    }
}

/// The normal form of an equality, an exclusive or, or a choice, by both ways of its parts; asked of nothing else.
#[cycle(walk)]
fn by_both_ways(
    alloc: Global,
    sort: Sort,
    ctx: &[Bound],
    term: &Term,
    truth: bool,
    level: u32,
) -> Result<LevelForm, FormFault>
    ensures { IsBuilt (gnorm capped_maker (tree_of term.now) sort truth ctx.now level) result }
{
    match term {
        Term::Equal(a, b) => {
            if is_formula_in(a.get(), ctx) {
                let x = both_ways(alloc, sort, ctx, a.get(), level);
                let y = both_ways(alloc, sort, ctx, b.get(), level);
                return same_of(alloc, truth, x, y);
            }
            let x = number(alloc, sort, ctx, a.get(), level);
            let z = second(alloc, sort, ctx, Step::Minus, x, b.get());
            atom(alloc, sort, Claim::Zero, truth, z)
        }
        Term::Xor(a, b) => {
            let x = both_ways(alloc, sort, ctx, a.get(), level);
            let y = both_ways(alloc, sort, ctx, b.get(), level);
            same_of(alloc, !truth, x, y)
        }
        Term::Ite(c, a, b) => {
            let test = both_ways(alloc, sort, ctx, c.get(), level);
            let x = formula(alloc, sort, ctx, a.get(), truth, level);
            let y = formula(alloc, sort, ctx, b.get(), truth, level);
            choice_of(alloc, test, x, y)
        }
        _ => Err(FormFault::Memory),
    }
}

/// The normal form of a comparison or a divisibility; asked of nothing else.
#[cycle(walk)]
fn comparison(
    alloc: Global,
    sort: Sort,
    ctx: &[Bound],
    term: &Term,
    truth: bool,
    level: u32,
) -> Result<LevelForm, FormFault>
    ensures { IsBuilt (gnorm capped_maker (tree_of term.now) sort truth ctx.now level) result }
{
    match term {
        Term::Divisible(n, t) => {
            let x = number(alloc, sort, ctx, t.get(), level);
            atom(alloc, sort, Claim::Divides(*n), truth, x)
        }
        Term::Less(a, b) => {
            let x = number(alloc, sort, ctx, a.get(), level);
            let z = second(alloc, sort, ctx, Step::From, x, b.get());
            atom(alloc, sort, Claim::Above, truth, z)
        }
        Term::AtMost(a, b) => {
            let x = number(alloc, sort, ctx, a.get(), level);
            let z = second(alloc, sort, ctx, Step::From, x, b.get());
            atom(alloc, sort, Claim::AtLeast, truth, z)
        }
        Term::Greater(a, b) => {
            let x = number(alloc, sort, ctx, a.get(), level);
            let z = second(alloc, sort, ctx, Step::Minus, x, b.get());
            atom(alloc, sort, Claim::Above, truth, z)
        }
        Term::AtLeast(a, b) => {
            let x = number(alloc, sort, ctx, a.get(), level);
            let z = second(alloc, sort, ctx, Step::Minus, x, b.get());
            atom(alloc, sort, Claim::AtLeast, truth, z)
        }
        _ => Err(FormFault::Memory),
    }
}

/// All formulas, or one of them.
#[cycle(walk)]
fn parts(
    alloc: Global,
    sort: Sort,
    ctx: &[Bound],
    terms: &[Term],
    all: bool,
    truth: bool,
    level: u32,
) -> Result<LevelForm, FormFault>
    ensures { IsBuilt (capped_maker.joined_by all (gnorms capped_maker (trees_of terms.now) sort truth ctx.now level)) result }
{
    let mut made = Items::new(alloc);
    for term in terms {
        match formula(alloc, sort, ctx, term, truth, level) {
            Ok(part) => made.push(part)?,
            Err(fault) => return Err(fault),
        }
    }
    Ok(joined(all, made))
}

/// A formula under bound variables. Past 2^20 levels, which no goal has, the answer is want of memory.
#[cycle(walk)]
pub(crate) fn bound(
    alloc: Global,
    sort: Sort,
    ctx: &[Bound],
    every: bool,
    vars: &[VarSort],
    body: &Term,
    truth: bool,
    level: u32,
) -> Result<LevelForm, FormFault>
    ensures { IsBuilt (gbind capped_maker every vars.now (λ c e. gnorm capped_maker (tree_of body.now) sort truth c e) ctx.now level) result }
{
    if level >= LEVELS || vars.len() >= LEVELS as usize {
        return Err(FormFault::Memory);
    }
    let all = with_bound(alloc, ctx, vars, level)?;
    let deep = level + vars.len() as u32;
    let inner = formula(alloc, sort, all.as_slice(), body, truth, deep);
    wrapped(alloc, every, vars, inner)
}
