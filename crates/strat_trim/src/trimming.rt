//! The paths of a won game that its proof needs, and the proof at their numbers.

ghost use Rattle.std.specs.Prelude.{◌≡◌, IfOk};
ghost use Rattle.std.specs.List.{AllByRecursion, IsAmong};
ghost use Rattle.game_tree.specs.Skeleton.{paths};
ghost use Rattle.game_tree.specs.View.{skeleton_of};
ghost use Rattle.proof_rules.specs.Won.{IsWon};
ghost use Rattle.strat_trim.specs.Needing.{AreNeeded};
ghost use Rattle.strat_trim.specs.Trimmed.{marked, needed, only};
ghost use Rattle.strat_trim.specs.Trim.{trimmed_tree, trimmed_steps};

use crate::choice::staying;
use crate::naming::names_in;
use crate::pruning::pruned;
use crate::renumbering::{numbered, renumbered_steps};
use cube_rules::Step;
use dom_core::{Domain, Problem};
use game_tree::{Skeleton, Tree};
use lin_term::Memory;
use proof_rules::Won;
use sqlite_items::Items;
use std::alloc::Global;

/// The tree of the paths that stay, and the lines at their numbers.
#[derive(Drop)]
struct Trimmed {
    tree: Tree,
    proof: Items<Step>,
}

/// What is left of the skeleton and the lines of a won game; refuses only for memory.
fn needed_parts<D: Domain>(
    alloc: Global,
    problem: &Problem<D>,
    skeleton: &Skeleton<D>,
    proof: &[Step],
) -> Result<Trimmed, Memory>
    requires { IsWon D.SORT (record { problem = problem.now; tree = skeleton.now.tree; proof = proof.now }) }
    ensures tree { IfOk result (λ t. skeleton_of t.tree ≡ trimmed_tree (skeleton_of skeleton.now.tree) proof.now) }
    ensures proof { IfOk result (λ t. t.proof ≡ trimmed_steps (skeleton_of skeleton.now.tree) proof.now) }
{
    let _kept = problem.matrix();
    let tree = skeleton.tree();
    let named = names_in(alloc, skeleton.leaves(), skeleton.nodes(), proof)?;
    let chosen = staying(alloc, tree, &named)?;
    let mut path: usize = 0;
    let mut marks = Items::new(alloc);
    let left = pruned(alloc, tree, chosen.as_slice(), &mut path, &mut marks)?;
    let paths = numbered(alloc, chosen.as_slice())?;
    let nodes = numbered(alloc, marks.as_slice())?;
    let proof = renumbered_steps(alloc, proof, paths.as_slice(), nodes.as_slice())?;
    match left {
        Some(tree) => Ok(Trimmed { tree, proof }),
        None => unreachable!(),
    }
}

/// The won game with exactly these paths: those that its proof names by `path`, and for each node that another line names
/// (by `def`, by `least`, or as a variable of a literal that it writes) and that lies on none of those, the first path
/// through the node; the first path of all where there is none of either. The lines have the new numbers of the paths and
/// of the nodes, and refute. It takes time in the size of the tree and of the proof, and refuses only for memory.
pub fn trim<D: Domain>(alloc: Global, won: Won<D>) -> Result<Won<D>, Memory>
    ensures problem { IfOk result (λ w. w.problem ≡ won.problem) }
    ensures paths { IfOk result (λ w. paths (skeleton_of w.tree) ≡ only (marked (needed (skeleton_of won.tree) won.proof)) 0 (paths (skeleton_of won.tree))) }
    // What is needed, in words of the nodes of each path.
    ensures needed { IfOk result (λ _. AreNeeded (skeleton_of won.tree) won.proof (needed (skeleton_of won.tree) won.proof)) }
    ensures inside { IfOk result (λ w. AllByRecursion (IsAmong (paths (skeleton_of won.tree))) (paths (skeleton_of w.tree))) }
    ensures proof { IfOk result (λ w. w.proof ≡ trimmed_steps (skeleton_of won.tree) won.proof) }
{
    let (problem, skeleton, proof) = won.into_parts();
    let Trimmed { tree, proof } = needed_parts(alloc, &problem, &skeleton, proof.as_slice())?;
    let _kept = problem.matrix();
    let prefix = Items::from_slice(alloc, problem.prefix())?;
    let skeleton = Skeleton::from_parts(prefix, tree);
    Ok(Won::from_refuted(problem, skeleton, proof))
}
