//! The normal form of a goal.

ghost use Rattle.std.specs.Prelude.{[], IfOk};
ghost use Rattle.lin_term.specs.Linear.{origin};
ghost use Rattle.lin_truth.specs.Formed.{IsFormula, append_all};
ghost use Rattle.lin_truth.specs.Term.{exists_of};
ghost use Rattle.lin_truth.specs.Truth.{Same, True};
ghost use Rattle.lin_truth.specs.View.{tree_of};
ghost use Rattle.norm_form.specs.Cap.{capped};
ghost use Rattle.norm_form.specs.Normal.{IsNormal, TrueN};
ghost use Rattle.norm_form.specs.View.{IsBuilt, shape_of};

use crate::formula::bound;
use crate::normal::LevelForm;
use lin_form::FormFault;
use lin_term::Sort;
use lin_truth::{Term, VarSort};
use std::alloc::Global;

/// The normal form of a body under its constants; see SMT-LIB 2.6, theories Core, Ints and Reals, for the
/// connectives. Refuses where a linear form, a partial sum, a literal or its negation has a number past 2^52 (`Number`,
/// only there), or for memory; `Size` and `Variables` never come. For a body that no goal has, want of memory may be the
/// answer. The form can be exponentially larger than the body: ask `formula_count` first.
#[tactic(auto, using(crate::proofs::GoalForms::built_fits, crate::proofs::GoalForms::built_true))]
pub fn normal_form(
    alloc: Global,
    sort: Sort,
    consts: &[VarSort],
    body: &Term,
) -> Result<LevelForm, FormFault>
    ensures built { IsBuilt (capped sort consts.now (tree_of body.now)) result }
    // Of a formula over the constants: its literals are of the sort, each over variables around it, and it is true exactly where the goal is.
    ensures normal { IfOk result (λ n. IsFormula (tree_of body.now) sort (append_all [] consts.now) → IsNormal (shape_of n) sort 0) }
    ensures truth { IfOk result (λ n. IsFormula (tree_of body.now) sort (append_all [] consts.now) → Same (True (exists_of consts.now (tree_of body.now)) sort []) (TrueN (shape_of n) sort origin)) }
{
    bound(alloc, sort, &[], false, consts, body, true, 0)
}
