//! The variables that are in scope on the walk, and the quantifiers that bind them.

ghost use Rattle.std.specs.Prelude.{◌≡◌, ◌<◌, ◌≤◌, ◌+◌, ◌^◌, ◌∷◌, [], IfOk, length, map, Option};
ghost use Rattle.lin_truth.specs.Truth.{is_formula as is_formula_tree};
ghost use Rattle.lin_truth.specs.View.{tree_of};
ghost use Rattle.lin_form.specs.Lin.{lin_variable};
ghost use Rattle.lin_form.specs.Scope.{bound_sort};
ghost use Rattle.lin_term.specs.declared.Lit.TheVariants.{AtLeast};
ghost use Rattle.norm_form.specs.Cap.{capped_maker};
ghost use Rattle.norm_form.specs.Norm.{truth_form};
ghost use Rattle.norm_form.specs.Normal.{Normal as NormalTree};
ghost use Rattle.norm_form.specs.View.{IsBuilt};
ghost use Rattle.norm_form.specs.Walk.{all_bound, wrapped as wrapped_form};

use crate::branches::LEVELS;
use crate::claim::literal;
use crate::normal::{LevelForm, quantified};
use lin_form::{Bound, FormFault};
use lin_term::{Lit, Memory, Row, Sort};
use lin_truth::{Term, VarSort};
use smallvec::SmallVec;
use sqlite_items::Items;
use std::alloc::Global;

/// Whether a term is a formula, in this scope.
pub(crate) fn is_formula_in(term: &Term, ctx: &[Bound]) -> bool
    ensures { result ≡ is_formula_tree (tree_of term.now) (map bound_sort ctx.now) }
{
    match term {
        Term::Var(i) => match ctx.get(*i as usize) {
            Some(bound) => match bound.sort {
                VarSort::Bool => true,
                VarSort::Number => false,
            },
            None => false,
        },
        Term::Ite(_, a, _) => is_formula_in(a.get(), ctx),
        Term::Number { .. } => false,
        Term::Negative(_) => false,
        Term::Abs(_) => false,
        Term::Minus(_, _) => false,
        Term::Quotient(_, _) => false,
        Term::Div(_, _) => false,
        Term::Mod(_, _) => false,
        Term::Plus(_) => false,
        Term::Times(_) => false,
        _ => true,
    }
}

/// The literal of a Bool variable, carried as the number v: v - 1 >= 0. Past 2^20 levels, which no goal has, the answer is
/// want of memory.
pub(crate) fn truth_literal(
    alloc: Global,
    sort: Sort,
    truth: bool,
    level: u32,
) -> Result<LevelForm, FormFault>
    ensures { IsBuilt (capped_maker.formed (lin_variable level ∷ truth_form level ∷ []) (capped_maker.signed truth sort (AtLeast (truth_form level).form))) result }
{
    if level >= LEVELS {
        return Err(FormFault::Memory);
    }
    let mut coefs = SmallVec::new(alloc);
    coefs.push((level, 1))?;
    literal(alloc, sort, truth, Lit::AtLeast(Row::from_parts(coefs, -1)))
}

/// The scope with more variables, whose levels begin at this one.
pub(crate) fn with_bound(
    alloc: Global,
    ctx: &[Bound],
    sorts: &[VarSort],
    level: u32,
) -> Result<Items<Bound>, Memory>
    requires { level + length sorts.now < 2 ^ 32 }
    ensures { IfOk result (λ all. all ≡ all_bound ctx.now sorts.now level) }
{
    let mut all = Items::from_slice(alloc, ctx)?;
    let mut next = level;
    for sort in sorts {
        all.push(Bound {
            sort: *sort,
            level: next,
        })?;
        next += 1;
    }
    Ok(all)
}

/// A formula under a quantifier for each of these variables.
pub(crate) fn wrapped(
    alloc: Global,
    every: bool,
    sorts: &[VarSort],
    inner: Result<LevelForm, FormFault>,
) -> Result<LevelForm, FormFault>
    ensures { (o : Option NormalTree) → IsBuilt o inner → IsBuilt (wrapped_form every (length sorts.now) o) result }
{
    let mut formula = match inner {
        Ok(formula) => formula,
        Err(fault) => return Err(fault),
    };
    for _depth in 0..sorts.len() {
        formula = quantified(alloc, every, formula)?;
    }
    Ok(formula)
}
