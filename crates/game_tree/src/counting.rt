//! How many nodes and paths a tree has.

ghost use Rattle.std.specs.Prelude.{◌≡◌, ◌≤◌, ◌+◌, ◌*◌, ◌^◌, length};
ghost use Rattle.game_tree.specs.Skeleton.{nodes, branch_nodes, paths, branch_paths};
ghost use Rattle.game_tree.specs.View.{skeleton_of, branches_of};

use crate::tree::{Branch, Tree};

/// The variables of the other player and the moves; at most 2^62.
#[cycle(nodes)]
pub fn node_count(tree: &Tree) -> u64
    requires { nodes (skeleton_of tree.now) ≤ 2 ^ 62 }
    ensures { result ≡ nodes (skeleton_of tree.now) }
{
    match tree {
        Tree::End => 0,
        Tree::Theirs(rest) => 1 + node_count(rest.get()),
        Tree::Mine(branches) => branch_node_count(branches.as_slice()),
    }
}

/// The same of the branches of a node.
#[cycle(nodes)]
fn branch_node_count(branches: &[Branch]) -> u64
    requires { branch_nodes (branches_of branches.now) ≤ 2 ^ 62 }
    ensures { result ≡ branch_nodes (branches_of branches.now) }
{
    let mut count = 0;
    for branch in branches {
        count += 1 + node_count(&branch.rest);
    }
    count
}

/// The paths of a tree of at most 2^62 nodes.
#[cycle(leaves)]
pub fn leaf_count(tree: &Tree) -> u64
    requires { nodes (skeleton_of tree.now) ≤ 2 ^ 62 }
    ensures { result ≡ length (paths (skeleton_of tree.now)) }
{
    match tree {
        Tree::End => 1,
        Tree::Theirs(rest) => leaf_count(rest.get()),
        Tree::Mine(branches) => branch_leaf_count(branches.as_slice()),
    }
}

/// The same of the branches of a node.
#[cycle(leaves)]
fn branch_leaf_count(branches: &[Branch]) -> u64
    requires { branch_nodes (branches_of branches.now) ≤ 2 ^ 62 }
    ensures { result ≡ length (branch_paths (branches_of branches.now)) }
{
    let mut count = 0;
    for branch in branches {
        count += leaf_count(&branch.rest);
    }
    count
}
