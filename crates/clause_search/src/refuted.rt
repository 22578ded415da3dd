//! The answer of lines that refute.

ghost use Rattle.std.specs.Prelude.{IfOk};
ghost use Rattle.dom_core.specs.Problem.{problem_of};
ghost use Rattle.game_tree.specs.View.{skeleton_of};
ghost use Rattle.proof_rules.specs.Rules.{Refutes};
ghost use Rattle.proof_rules.specs.Writable.{IsWritable};
ghost use Rattle.clause_search.specs.Attacks.{IsAttack};

use crate::attack::Attack;
use cube_rules::Step;
use dom_core::Domain;
use lin_term::Memory;
use lose_system::System;
use proof_prune::prune;
use std::alloc::Global;

/// Of lines that refute the system those that are needed; refuses only for memory.
pub fn refuted<D: Domain>(
    alloc: Global,
    system: &System<'_, D>,
    steps: &[Step],
) -> Result<Attack<D>, Memory>
    requires refutes { Refutes D.SORT (problem_of system.now.problem) (skeleton_of system.now.tree) steps.now }
    requires writable { IsWritable steps.now }
    ensures { IfOk result (IsAttack D.SORT system.now) }
{
    match prune(alloc, system, steps) {
        Ok(lines) => Ok(Attack::Refuted(lines)),
        Err(error) => Err(error),
    }
}
