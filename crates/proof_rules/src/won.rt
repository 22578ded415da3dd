//! Games that are won, with what shows it.

ghost use Rattle.std.specs.Prelude.{◌≡◌, ◌≤◌, IfOk, Err};
ghost use Rattle.lin_term.specs.declared.Short.TheVariants.{Fault};
ghost use Rattle.dom_core.specs.Problem.{problem_of, IsTrueProblem};
ghost use Rattle.game_tree.specs.Skeleton.{IsSkeleton, nodes, node_limit};
ghost use Rattle.game_tree.specs.View.{skeleton_of};
ghost use Rattle.lose_system.specs.Losing.{Lost};
ghost use Rattle.proof_rules.specs.Begun.{IsFirstBad};
ghost use Rattle.proof_rules.specs.Checked.{Judged};
ghost use Rattle.proof_rules.specs.Rules.{Refutes};
ghost use Rattle.proof_rules.specs.Writable.{IsWritable};
ghost use Rattle.proof_rules.specs.Won.{IsWon};
ghost use Rattle.proof_rules.specs.declared.bad_line.BadLine.{BadLine};

use crate::bad_line::BadLine;
use crate::checker::check;
use cube_rules::Step;
use dom_core::{Domain, Problem};
use game_tree::{Skeleton, SkeletonRef};
use lin_term::Short;
use lose_system::System;
use sqlite_items::Items;
use std::alloc::Global;
use std::marker::Model;

/// A problem, a skeleton of its Exists with at most 1,048,576 nodes, and lines that refute the losing system of both: so
/// Exists wins. A file can hold the lines.
#[derive(Drop)]
pub struct Won<D: Domain> {
    problem: Problem<D>,
    skeleton: Skeleton<D>,
    proof: Items<Step>,
}

impl<D: Domain> Model for Won<D> {
    ghost use Rattle.std.specs.Prelude.{◌≡◌};
    ghost use Rattle.dom_core.specs.contracts.Matrix as m;
    ghost use Rattle.game_tree.specs.contracts.Tree as t;
    ghost use Rattle.std.specs.Coded.{codes};
    ghost use Rattle.proof_rules.specs.Won.{WonGame, IsWon};

    ghost Value = { WonGame };

    ghost coded = { Prim.hlevel (codes, m.the_row.coded, t.the_row.coded) };

    ghost view = { λ w. record { problem = w.problem; tree = w.skeleton.tree; proof = w.proof } };

    ghost invariant = { λ w. IsWon D.SORT (record { problem = w.problem; tree = w.skeleton.tree; proof = w.proof }) × (w.skeleton.prefix ≡ w.problem.prefix) };
}

/// The lines against the losing system of the problem and the skeleton, as `check` answers.
fn checked<D: Domain>(
    alloc: Global,
    problem: &Problem<D>,
    skeleton: SkeletonRef<'_, D>,
    proof: &[Step],
) -> Result<(), Short<BadLine>>
    requires prefix { skeleton.prefix ≡ problem.now.prefix }
    requires few { nodes (skeleton_of skeleton.tree) ≤ node_limit }
    ensures judged { Judged D.SORT (problem_of problem.now) (skeleton_of skeleton.entry.tree) proof.now result }
    ensures first { (b : BadLine) → result ≡ Err (Fault b) → IsFirstBad D.SORT (problem_of problem.now) (skeleton_of skeleton.entry.tree) proof.now b }
    ensures writable { IfOk result (λ _. IsWritable proof.now) }
{
    match System::of(alloc, problem, skeleton) {
        Ok(system) => check(alloc, &system, proof),
        Err(_) => Err(Short::Memory),
    }
}

impl<D: Domain> Won<D> {
    /// Checks the lines, and answers as `check` does; a refusal drops the parts.
    pub fn make(
        alloc: Global,
        problem: Problem<D>,
        skeleton: Skeleton<D>,
        proof: Items<Step>,
    ) -> Result<Won<D>, Short<BadLine>>
        requires prefix { skeleton.prefix ≡ problem.prefix }
        requires few { nodes (skeleton_of skeleton.tree) ≤ node_limit }
        ensures value { IfOk result (λ w. w ≡ record { problem = problem; tree = skeleton.tree; proof = proof }) }
        ensures judged { Judged D.SORT (problem_of problem) (skeleton_of skeleton.tree) proof result }
        ensures first { (b : BadLine) → result ≡ Err (Fault b) → IsFirstBad D.SORT (problem_of problem) (skeleton_of skeleton.tree) proof b }
    {
        match checked(alloc, &problem, skeleton.lend(), proof.as_slice()) {
            Ok(()) => Ok(Won::from_refuted(problem, skeleton, proof)),
            Err(fault) => Err(fault),
        }
    }

    /// The same of lines that are known to refute, as those that `check` or a `ProofState` took; they are not read again.
    pub fn from_refuted(problem: Problem<D>, skeleton: Skeleton<D>, proof: Items<Step>) -> Won<D>
        requires prefix { skeleton.prefix ≡ problem.prefix }
        requires few { nodes (skeleton_of skeleton.tree) ≤ node_limit }
        requires refutes { Refutes D.SORT (problem_of problem) (skeleton_of skeleton.tree) proof }
        requires writable { IsWritable proof }
        ensures { result ≡ record { problem = problem; tree = skeleton.tree; proof = proof } }
    {
        let _follows = skeleton.tree();
        Won {
            problem,
            skeleton,
            proof,
        }
    }

    /// The problem, which is true.
    pub fn problem(&self) -> &Problem<D>
        ensures value { result.now ≡ self.now.problem }
        ensures wins { IsTrueProblem D.SORT self.now.problem }
    {
        let _kept = self.problem.matrix();
        &self.problem
    }

    /// The skeleton, lent. It has at most 1,048,576 nodes, and no point solves its losing system.
    pub fn skeleton(&self) -> SkeletonRef<'_, D>
        ensures value { result ≡ record { prefix = self.now.problem.prefix; tree = self.now.tree } }
        ensures kept { IsSkeleton D.SORT (problem_of self.now.problem) (skeleton_of self.now.tree) }
        ensures lost { Lost D.SORT (problem_of self.now.problem) (skeleton_of self.now.tree) }
    {
        let _kept = self.problem.matrix();
        self.skeleton.lend()
    }

    /// The lines, which refute the losing system; a file can hold them.
    pub fn proof(&self) -> &[Step]
        ensures value { result.now ≡ self.now.proof }
        ensures refutes { Refutes D.SORT (problem_of self.now.problem) (skeleton_of self.now.tree) self.now.proof }
        ensures writable { IsWritable self.now.proof }
    {
        self.proof.as_slice()
    }

    /// The problem, the skeleton and the lines.
    pub fn into_parts(self) -> (Problem<D>, Skeleton<D>, Items<Step>)
        ensures problem { result.0 ≡ self.problem }
        ensures skeleton { result.1 ≡ record { prefix = self.problem.prefix; tree = self.tree } }
        ensures proof { result.2 ≡ self.proof }
        ensures won { IsWon D.SORT self }
    {
        let Won {
            problem,
            skeleton,
            proof,
        } = self;
        (problem, skeleton, proof)
    }
}
