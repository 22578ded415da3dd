//! The normal form of a goal, counted before it is built.

ghost use Rattle.std.specs.Prelude.{◌≡◌, [], IfOk, min};
ghost use Rattle.lin_truth.specs.Goal.{IsGoal, IsTrueGoal};
ghost use Rattle.lin_truth.specs.Truth.{Same};
ghost use Rattle.lin_truth.specs.View.{tree_of};
ghost use Rattle.norm_form.specs.Load.{limit};
ghost use Rattle.norm_form.specs.Norm.{normal_of as levels_of};
ghost use Rattle.norm_form.specs.Numbered.{IsInPreorder, TrueNumbered, unnumbered};
ghost use Rattle.norm_form.specs.Outcome.{IsCounted, IsLevelForm, IsNormalOf, nodes_of, normal_tree, variables_of};

use crate::count::{LIMIT, Rate, formula_count};
use crate::form::normal_form;
use crate::normal::LevelForm;
use crate::numbered::{Normal, in_preorder};
use lin_form::FormFault;
use lin_term::Memory;
use lin_truth::Goal;
use std::alloc::Global;

/// Counts the nodes of the matrix.
const NODES: Rate = Rate { node: 1, binder: 0 };

/// Counts the variables of the prefix.
const BINDERS: Rate = Rate { node: 0, binder: 1 };

/// The greatest number of nodes of a matrix.
const MOST_NODES: u64 = 1_048_576;

/// The greatest number of variables of a prefix.
const MOST_VARIABLES: u64 = 1_024;

/// The nodes of the form besides its binders, up to the limit of counts.
fn node_count(alloc: Global, goal: &Goal) -> Result<u64, Memory>
    ensures { IfOk result (λ n. n ≡ min limit (nodes_of goal.now)) }
{
    formula_count(alloc, goal.body(), NODES, goal.consts())
}

/// The variables of the form, up to the limit of counts.
fn variable_count(alloc: Global, goal: &Goal) -> Result<u64, Memory>
    ensures { IfOk result (λ n. n ≡ min limit (variables_of goal.now)) }
{
    let bound = formula_count(alloc, goal.body(), BINDERS, goal.consts())?;
    let consts = (goal.consts().len() as u64).min(LIMIT);
    Ok((consts + bound).min(LIMIT))
}

/// The fault that the counts show; nodes come first.
fn counted_fault(alloc: Global, goal: &Goal) -> Result<Option<FormFault>, Memory>
    ensures { IfOk result (λ fault. IsCounted (nodes_of goal.now) (variables_of goal.now) fault) }
{
    if node_count(alloc, goal)? > MOST_NODES {
        return Ok(Some(FormFault::Size));
    }
    if variable_count(alloc, goal)? > MOST_VARIABLES {
        return Ok(Some(FormFault::Variables));
    }
    Ok(None)
}

/// The normal form of a goal with levels in place of numbers, under its constants. Refuses as `normal_of`, and for
/// memory. Nodes and variables are counted before anything is built.
pub fn goal_form(alloc: Global, goal: &Goal) -> Result<LevelForm, FormFault>
    ensures form { IsLevelForm goal.now result }
    ensures kept { IsGoal goal.now }
{
    let body = goal.body();
    match counted_fault(alloc, goal)? {
        Some(fault) => return Err(fault),
        None => {}
    }
    normal_form(alloc, goal.sort(), goal.consts(), body)
}

/// The normal form of a goal: the closure of its constants outermost, negations pushed inward, `ite`, `abs`, `div` and `mod`
/// taken out of atoms, comparisons as primitive literals, binders numbered in preorder. Refuses with `Size` where it has more than
/// 1,048,576 nodes besides its binders, else with `Variables` where it has more than 1,024 binders, else with `Number` where a
/// linear form, a partial sum, a literal or its negation has a number past 2^52, and for memory. The goal is true exactly where
/// the form is; see SMT-LIB 2.6, theories Core, Ints and Reals, for the connectives.
pub fn normal_of(alloc: Global, goal: &Goal) -> Result<Normal, FormFault>
    ensures form { IsNormalOf goal.now result }
    ensures truth { IfOk result (λ n. Same (IsTrueGoal goal.now) (TrueNumbered (normal_tree n) goal.now.sort)) }
    // The numbers are in preorder, and by them the variables of each literal are those of its path.
    ensures order { IfOk result (λ n. IsInPreorder (normal_tree n)) }
    ensures levels { IfOk result (λ n. unnumbered (normal_tree n) [] ≡ levels_of goal.now.sort goal.now.consts (tree_of goal.now.body)) }
{
    let form = match goal_form(alloc, goal) {
        Ok(form) => form,
        Err(fault) => return Err(fault),
    };
    Ok(in_preorder(alloc, &form)?)
}
