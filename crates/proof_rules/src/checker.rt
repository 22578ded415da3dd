//! The check of a proof: its lines are read once, in order.

ghost use Rattle.std.specs.Prelude.{◌≡◌, nat_lt, length, IfOk, None, Err};
ghost use Rattle.lin_term.specs.Form.{cap};
ghost use Rattle.lin_term.specs.declared.Short.TheVariants.{Fault};
ghost use Rattle.dom_core.specs.Problem.{problem_of, IsTrueProblem};
ghost use Rattle.game_tree.specs.View.{skeleton_of};
ghost use Rattle.lose_system.specs.Losing.{Lost};
ghost use Rattle.proof_rules.specs.Checked.{Judged, first_bad};
ghost use Rattle.proof_rules.specs.Begun.{IsFirstBad};
ghost use Rattle.proof_rules.specs.Writable.{AreSteps, IsWritable};
ghost use Rattle.proof_rules.specs.declared.bad_line.BadLine.{BadLine};

use crate::bad_line::BadLine;
use crate::state::ProofState;
use cube_rules::{Rule, Step};
use dom_core::Domain;
use lin_term::{CAP, Memory, Short};
use lose_system::System;
use std::alloc::Global;

/// The first bad line, none where the proof refutes.
fn first_bad_line<D: Domain>(
    alloc: Global,
    system: &System<'_, D>,
    proof: &[Step],
) -> Result<Option<BadLine>, Memory>
    ensures value { IfOk result (λ o. o ≡ first_bad D.SORT (problem_of system.now.problem) (skeleton_of system.now.tree) proof.now) }
    ensures steps { IfOk result (λ o. o ≡ None → AreSteps proof.now) }
{
    let mut state = ProofState::open(alloc);
    let mut line: u64 = 0;
    for step in proof {
        match state.step(alloc, system, step) {
            Ok(()) => line += 1,
            Err(Short::Fault(rule)) => return Ok(Some(BadLine { line, rule })),
            Err(Short::Memory) => return Err(Memory),
        }
    }
    if state.is_closed() {
        Ok(None)
    } else {
        Ok(Some(BadLine {
            line,
            rule: Rule::Form,
        }))
    }
}

/// Whether there are more lines than a file can hold.
fn is_too_long(proof: &[Step]) -> bool
    ensures { result ≡ nat_lt cap (length proof.now) }
{
    proof.len() as u64 > CAP as u64
}

/// Ok exactly where the lines refute the losing system; else the first line, counted from 0, that breaks its rule, or
/// want of memory. Lines that are missing break rule Form at the line after the last, lines that are too many at the
/// first of them. More than 2^52 lines, which no file can hold, are more than memory holds.
pub fn check<D: Domain>(
    alloc: Global,
    system: &System<'_, D>,
    proof: &[Step],
) -> Result<(), Short<BadLine>>
    ensures judged { Judged D.SORT (problem_of system.now.problem) (skeleton_of system.now.tree) proof.now result }
    // What is refuted has no solution, and the problem is true: the owner of the skeleton wins.
    ensures lost { IfOk result (λ _. Lost D.SORT (problem_of system.now.problem) (skeleton_of system.now.tree)) }
    ensures wins { IfOk result (λ _. IsTrueProblem D.SORT system.now.problem) }
    // No tree of lines goes on at the line that is named.
    ensures first { (b : BadLine) → result ≡ Err (Fault b) → IsFirstBad D.SORT (problem_of system.now.problem) (skeleton_of system.now.tree) proof.now b }
    // A file can hold what is accepted.
    ensures writable { IfOk result (λ _. IsWritable proof.now) }
{
    let _kept = system.matrix();
    if is_too_long(proof) {
        return Err(Short::Memory);
    }
    match first_bad_line(alloc, system, proof) {
        Ok(None) => Ok(()),
        Ok(Some(bad)) => Err(Short::Fault(bad)),
        Err(_) => Err(Short::Memory),
    }
}
