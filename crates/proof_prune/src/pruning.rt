//! Lines that need not be there taken out of a proof.

ghost use Rattle.std.specs.Prelude.{IfOk};
ghost use Rattle.dom_core.specs.Problem.{problem_of};
ghost use Rattle.game_tree.specs.View.{skeleton_of};
ghost use Rattle.proof_rules.specs.Rules.{Refutes};
ghost use Rattle.proof_rules.specs.Writable.{IsWritable};
ghost use Rattle.proof_prune.specs.Pruned.{IsPruned};

use crate::cutting::what_stays;
use crate::writing::write;
use cube_rules::Step;
use dom_core::Domain;
use lin_term::Memory;
use lose_system::System;
use sqlite_items::Items;
use std::alloc::Global;

/// Of lines that refute the system those that are needed: none of them is idle, they refute it, and a file can hold them.
/// A line outside of a `cube` stays only where each of its subproofs reads a fact that was added for it; else the first
/// subproof that reads none stands in its place, its facts renumbered. It takes two walks over the lines, with a count a
/// fact; it refuses only for memory.
pub fn prune<D: Domain>(
    alloc: Global,
    system: &System<'_, D>,
    proof: &[Step],
) -> Result<Items<Step>, Memory>
    requires refutes { Refutes D.SORT (problem_of system.now.problem) (skeleton_of system.now.tree) proof.now }
    requires writable { IsWritable proof.now }
    ensures { IfOk result (IsPruned D.SORT (problem_of system.now.problem) (skeleton_of system.now.tree) proof.now) }
{
    let items = what_stays(alloc, proof)?;
    match write(alloc, proof, items.as_slice()) {
        Ok(lines) => Ok(lines),
        Err(error) => Err(error),
    }
}
