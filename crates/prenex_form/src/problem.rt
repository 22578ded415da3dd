//! The problem of a goal.

ghost use Rattle.std.specs.Prelude.{◌≡◌, IfOk, IfErr, Err};
ghost use Rattle.lin_truth.specs.Goal.{IsTrueGoal};
ghost use Rattle.lin_truth.specs.Truth.{Same};
ghost use Rattle.dom_core.specs.Problem.{IsProblem, IsTrueProblem, problem_of as seen_problem};
ghost use Rattle.prenex_form.specs.Outcome.{IsForm, IsFault, form, written};
ghost use Rattle.prenex_form.specs.Whole.{a_problem};

use crate::prenexed::{Prenex, prenexed};
use dom_core::{Domain, Problem};
use lin_form::FormFault;
use lin_truth::Goal;
use norm_form::goal_form;
use ss_names::{FaultKind, ScriptFault};
use std::alloc::Global;

/// The prefix and the matrix of a goal, or why there are none.
pub(crate) fn goal_prenex(alloc: Global, goal: &Goal) -> Result<Prenex, FormFault>
    ensures form { IfOk result (λ p. form goal.now ≡ a_problem (seen_problem (written p.prefix p.matrix))) }
    ensures kept { IfOk result (λ p. IsProblem goal.now.sort (written p.prefix p.matrix)) }
    ensures truth { IfOk result (λ p. Same (IsTrueGoal goal.now) (IsTrueProblem goal.now.sort (written p.prefix p.matrix))) }
    ensures fault { IfErr result (λ e. IsFault (form goal.now) e) }
{
    let form = match goal_form(alloc, goal) {
        Ok(form) => form,
        Err(fault) => return Err(fault),
    };
    Ok(prenexed(alloc, &form)?)
}

/// The fault at the place of the goal.
fn fault_at(goal: &Goal, fault: FormFault) -> ScriptFault
    requires { IsFault (form goal.now) fault }
    ensures { IsForm goal.now (Err result) }
{
    let kind = match fault {
        FormFault::Size => FaultKind::Size,
        FormFault::Variables => FaultKind::Variables,
        FormFault::Number => FaultKind::Number,
        FormFault::Memory => return ScriptFault::Memory,
    };
    ScriptFault::Bad {
        kind,
        line: goal.line(),
        column: goal.column(),
    }
}

/// The problem of a goal: its normal form with the quantifiers in front. A fault stands at the goal's check-sat: `Size` where
/// the matrix has more than 1,048,576 nodes, else `Variables` where the prefix has more than 1,024 variables, else `Number`
/// where a linear form, a partial sum, a literal or its negation has a number past 2^52. Want of memory is `Memory`. The
/// goal must be of the domain's sort, and is true exactly where the problem is.
pub fn problem_of<D: Domain>(alloc: Global, goal: &Goal) -> Result<Problem<D>, ScriptFault>
    requires { goal.now.sort ≡ D.SORT }
    ensures form { IsForm goal.now result }
    ensures truth { IfOk result (λ P. Same (IsTrueGoal goal.now) (IsTrueProblem D.SORT P)) }
{
    match goal_prenex(alloc, goal) {
        Ok(parts) => {
            let Prenex { prefix, matrix } = parts;
            Ok(Problem::from_parts(prefix, matrix))
        }
        Err(fault) => Err(fault_at(goal, fault)),
    }
}
