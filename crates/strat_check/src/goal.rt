//! A section against the problem of its goal.

ghost use Rattle.std.specs.Prelude.{◌≡◌, ◌+◌, ◌≤◌, ◌<◌, ◌^◌, ◌↔◌, Ok, length, IfOk};
ghost use Rattle.lin_term.specs.Form.{cap};
ghost use Rattle.dom_core.specs.declared.Side.{Side};
ghost use Rattle.dom_core.specs.Problem.{problem_of, IsTrueProblem};
ghost use Rattle.game_tree.specs.Skeleton.{IsSkeleton};
ghost use Rattle.game_tree.specs.View.{skeleton_of};
ghost use Rattle.proof_rules.specs.Checked.{first_bad};
ghost use Rattle.strat_text.specs.Spelling.{IsSection, FollowsTurns, line_of};
ghost use Rattle.strat_check.specs.Section.{verdict, judged_claim, by_proof};
ghost use Rattle.strat_check.specs.Accepted.{Accepts, IsLost};

use crate::checked::Checked;
use crate::turns::fit;
use crate::walk::{Spot, bad_line};
use cube_rules::{Rule, Step};
use dom_core::{Domain, Problem, Side};
use game_tree::{SkeletonRef, Tree};
use lin_term::{Memory, Short};
use lose_system::System;
use proof_rules::{BadLine, check};
use std::alloc::Global;
use strat_text::Section;

/// The line of the file for a line of the proof, whose count stands at the line before the first.
fn rejected_at(count_line: u64, bad: BadLine) -> Checked
    requires { count_line + 1 + bad.line < 2 ^ 64 }
    ensures { result ≡ Checked.Rejected (count_line + 1 + bad.line) bad.rule }
{
    Checked::Rejected {
        line: count_line + 1 + bad.line,
        rule: bad.rule,
    }
}

/// The losing system of a tree that is a skeleton of the problem; refuses only for memory.
fn losing_system<'a, D: Domain>(
    alloc: Global,
    problem: &'a Problem<D>,
    tree: &'a Tree,
) -> Result<System<'a, D>, Memory>
    requires skeleton { IsSkeleton D.SORT (problem_of problem.now) (skeleton_of tree.now) }
    ensures { IfOk result (λ s. s ≡ record { problem = problem.now; tree = tree.now }) }
{
    let _kept = problem.matrix();
    let skeleton = SkeletonRef::from_tree(problem.prefix(), tree);
    System::of(alloc, problem, skeleton)
}

/// The proof that every path of the tree loses; the count of its lines stands at this line of the file.
fn check_proof<D: Domain>(
    alloc: Global,
    problem: &Problem<D>,
    owner: Side,
    tree: &Tree,
    proof: &[Step],
    count_line: u64,
) -> Result<Checked, Memory>
    requires skeleton { IsSkeleton D.SORT (problem_of problem.now) (skeleton_of tree.now) }
    requires room { count_line + 1 + length proof.now < 2 ^ 64 }
    ensures { IfOk result (λ c. c ≡ by_proof owner (count_line + 1) (first_bad D.SORT (problem_of problem.now) (skeleton_of tree.now) proof.now)) }
{
    let system = losing_system(alloc, problem, tree)?;
    let short = match check(alloc, &system, proof) {
        Ok(()) => return Ok(Checked::Accepted(owner)),
        Err(short) => short,
    };
    match short {
        Short::Fault(bad) => Ok(rejected_at(count_line, bad)),
        Short::Memory => Err(Memory),
    }
}

/// A claim of the player who is Exists in the problem; its `goal` line has this number.
fn check_claim<D: Domain>(
    alloc: Global,
    problem: &Problem<D>,
    owner: Side,
    turns: &[bool],
    tree: &Tree,
    proof: &[Step],
    line: u64,
) -> Result<Checked, Memory>
    requires follows { FollowsTurns turns.now 0 tree.now }
    requires short { length proof.now ≤ cap }
    requires line { line < 2 ^ 63 }
    ensures { IfOk result (λ c. c ≡ judged_claim D.SORT (problem_of problem.now) owner turns.now (skeleton_of tree.now) proof.now line) }
{
    if !fit(turns, problem.prefix()) {
        return Ok(Checked::Rejected {
            line: line + 1,
            rule: Rule::Turns,
        });
    }
    let mut at = Spot {
        line: line + 2,
        before: 0,
    };
    if let Some(bad) = bad_line(D::SORT, tree, &mut at) {
        return Ok(Checked::Rejected {
            line: bad,
            rule: Rule::Move,
        });
    }
    check_proof(alloc, problem, owner, tree, proof, at.line)
}

/// What a section is worth for the problem of its goal.
fn judge<D: Domain>(
    alloc: Global,
    problem: &Problem<D>,
    section: &Section,
) -> Result<Checked, Memory>
    requires written { IsSection section.now }
    requires line { line_of section.now < 2 ^ 63 }
    ensures { IfOk result (λ c. c ≡ verdict D.SORT (problem_of problem.now) section.now) }
{
    match section {
        Section::Unknown => Ok(Checked::Unclaimed),
        Section::Claimed {
            side,
            turns,
            tree,
            proof,
            line,
        } => {
            let turns = turns.as_slice();
            let proof = proof.as_slice();
            match side {
                Side::Exists => {
                    check_claim(alloc, problem, Side::Exists, turns, tree, proof, *line)
                }
                Side::Forall => {
                    let dual = problem.dual(alloc)?;
                    check_claim(alloc, &dual, Side::Forall, turns, tree, proof, *line)
                }
            }
        }
    }
}

/// What a section that can be written, with a line below 2^63, is worth for the problem of its goal; refuses only for
/// memory. For the side Forall the dual is checked. Accepted comes exactly where the section proves its claim,
/// Unclaimed exactly where it claims nothing. Rejected names the first line of the file that is not in order: the
/// turns, else the first tree line that is the 1,048,577th node or has a move that is not in lowest form or not within
/// the cap, else the first line of the proof that breaks its rule.
pub fn check_goal<D: Domain>(
    alloc: Global,
    problem: &Problem<D>,
    section: &Section,
) -> Result<Checked, Memory>
    requires written { IsSection section.now }
    requires line { line_of section.now < 2 ^ 63 }
    ensures verdict { IfOk result (λ c. c ≡ verdict D.SORT (problem_of problem.now) section.now) }
    // Accepted comes exactly where the section claims this side and proves its claim.
    ensures accepted { IfOk result (λ c. (owner : Side) → (c ≡ Checked.Accepted owner) ↔ Accepts D.SORT (problem_of problem.now) owner section.now) }
    ensures unclaimed { IfOk result (λ c. (c ≡ Checked.Unclaimed) ↔ (section.now ≡ Section.Unknown)) }
    // What is accepted proves the verdict.
    ensures sat { result ≡ Ok (Checked.Accepted Side.Exists) → IsTrueProblem D.SORT problem.now }
    ensures unsat { result ≡ Ok (Checked.Accepted Side.Forall) → ¬ IsTrueProblem D.SORT problem.now }
    ensures lost { IfOk result (λ c. (owner : Side) → c ≡ Checked.Accepted owner → IsLost D.SORT (problem_of problem.now) owner section.now) }
{
    let _kept = problem.matrix();
    judge(alloc, problem, section)
}
