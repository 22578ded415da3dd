//! Whether a version shows a tree.

ghost use Rattle.std.specs.Prelude.{◌≡◌, ◌≤◌, ◌↔◌, List, [], ◌∷◌, IsTrue, IfSome, MatchOption, length, drop};
ghost use Rattle.dom_core.specs.declared.Quant.TheVariants.{Exists};
ghost use Rattle.game_tree.specs.declared.Branch.{Branch as BranchValue};
ghost use Rattle.game_tree.specs.Skeleton.{mine};
ghost use Rattle.game_tree.specs.View.{skeleton_of, branches_of};
ghost use Rattle.grown_tree.specs.Compared.{IsShown};
ghost use Rattle.grown_tree.specs.Shown.{shown, all_shown, visible};

use crate::marks::Mark;
use crate::node::Node;
use dom_core::Quant;
use game_tree::{Branch, Tree};

/// Whether the version shows this tree: the same moves in the same order. It calls itself once a variable of the prefix.
#[cycle(same)]
pub fn is_same_at(node: &Node, prefix: &[Quant], version: u32, tree: &Tree) -> bool
    ensures { IsTrue result ↔ (skeleton_of (shown version node.now prefix.now) ≡ skeleton_of tree.now) }
{
    match prefix {
        [] => match tree {
            Tree::End => return true,
            _ => return false,
        },
        [Quant::Forall, rest @ ..] => match tree {
            Tree::Theirs(below) => return is_same_at(node, rest, version, below.get()),
            _ => return false,
        },
        [Quant::Exists, rest @ ..] => match tree {
            Tree::Mine(branches) => return are_same_at(node, rest, version, branches.as_slice()),
            _ => return false,
        },
    }
}

/// The same of the moves of a node.
#[cycle(same)]
fn are_same_at(node: &Node, rest: &[Quant], version: u32, branches: &[Branch]) -> bool
    ensures { IsTrue result ↔ (skeleton_of (shown version node.now (Exists ∷ rest.now)) ≡ mine (branches_of branches.now)) }
{
    match node {
        Node::End => return branches.is_empty(),
        Node::Mine(marks, below) => return all_same(
            marks.as_slice(),
            below.as_slice(),
            rest,
            version,
            branches,
        ),
    }
}

/// The same, move by move.
#[cycle(same)]
fn all_same(
    marks: &[Mark],
    below: &[Node],
    rest: &[Quant],
    version: u32,
    branches: &[Branch],
) -> bool
    ensures { IsTrue result ↔ (branches_of (visible version marks.now (all_shown version below.now rest.now)) ≡ branches_of branches.now) }
{
    let mut next = 0;
    for i in 0..marks.len() {
        if i >= below.len() {
            return next == branches.len();
        }
        match next_same(&marks[i], &below[i], rest, version, branches, next) {
            Some(more) => next = more,
            None => return false,
        }
    }
    next == branches.len()
}

/// The place of the branch to be compared next, if what the version shows of this move is the branch at this place.
#[cycle(same)]
fn next_same(
    mark: &Mark,
    node: &Node,
    rest: &[Quant],
    version: u32,
    branches: &[Branch],
    next: usize,
) -> Option<usize>
    requires { next ≤ length branches.now }
    ensures within { IfSome result (λ k. k ≤ length branches.now) }
    ensures cases { MatchOption result ((xs : List BranchValue) → ¬ IsShown version mark.now (shown version node.now rest.now) xs (drop next branches.now)) (λ k. (xs : List BranchValue) → IsShown version mark.now (shown version node.now rest.now) xs (drop next branches.now) ↔ (branches_of xs ≡ branches_of (drop k branches.now))) }
{
    if mark.since > version {
        return Some(next);
    }
    if next >= branches.len() {
        return None;
    }
    let branch = &branches[next];
    if !mark.term.is_same(&branch.term) {
        return None;
    }
    if !is_same_at(node, rest, version, &branch.rest) {
        return None;
    }
    Some(next + 1)
}
