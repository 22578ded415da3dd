//! The first line of a proof that need not be there.

ghost use Rattle.std.specs.Prelude.{IfOk};
ghost use Rattle.dom_core.specs.Problem.{problem_of};
ghost use Rattle.game_tree.specs.View.{skeleton_of};
ghost use Rattle.proof_rules.specs.Rules.{Refutes};
ghost use Rattle.proof_idle.specs.Idle.{IsFirstIdle};

use crate::walk::first_idle;
use cube_rules::Step;
use dom_core::Domain;
use lin_term::Memory;
use lose_system::System;
use std::alloc::Global;

/// The number of the first idle line of a proof that refutes the system, from 0: a `cases` line of which one subproof does
/// not read the child that was added for it, so that this subproof could stand for the whole. None comes exactly where no
/// line is idle. It takes one walk over the lines, with a flag a fact; it refuses only for memory.
pub fn idle<D: Domain>(
    alloc: Global,
    system: &System<'_, D>,
    proof: &[Step],
) -> Result<Option<u64>, Memory>
    requires { Refutes D.SORT (problem_of system.now.problem) (skeleton_of system.now.tree) proof.now }
    ensures { IfOk result (IsFirstIdle D.SORT (problem_of system.now.problem) (skeleton_of system.now.tree) proof.now) }
{
    match first_idle(alloc, proof) {
        Ok(first) => Ok(first),
        Err(_) => Err(Memory),
    }
}
