//! The problems of a script's goals.

ghost use Rattle.std.specs.Prelude.{◌≡◌, ℕ, map, IfOk, Err};
ghost use Rattle.ss_names.specs.declared.FaultKind.{FaultKind};
ghost use Rattle.ss_names.specs.declared.ScriptFault.TheVariants.{Bad};
ghost use Rattle.smt_goal.specs.Answer.{asked_by};
ghost use Rattle.script_games.specs.Carried.{AreOfSort};
ghost use Rattle.script_games.specs.Games.{games_of};
ghost use Rattle.script_games.specs.Carried.{AreGamesOf};

use dom_core::{Domain, Problem};
use lin_truth::Goal;
use prenex_form::problem_of;
use ss_names::ScriptFault;
use std::alloc::Global;

/// The problem of each goal in order, or the fault of the first that has none, or want of memory. The goals must be of
/// the domain's sort.
pub fn problems_of<D: Domain>(alloc: Global, goals: &[Goal]) -> Result<Vec<Problem<D>>, ScriptFault>
    requires { AreOfSort D.SORT goals.now }
    ensures games { IfOk result (λ ps. AreGamesOf D.SORT goals.now ps.items) }
    ensures fault { (k : FaultKind) (l c : ℕ) → result ≡ Err (Bad k l c) → games_of (map asked_by goals.now) ≡ Err (Bad k l c) }
{
    let mut problems = Vec::new(alloc);
    for goal in goals {
        let problem = match problem_of::<D>(alloc, goal) {
            Ok(problem) => problem,
            Err(fault) => return Err(fault),
        };
        match problems.push(problem) {
            Ok(()) => {}
            Err(_) => return Err(ScriptFault::Memory),
        }
    }
    Ok(problems)
}
